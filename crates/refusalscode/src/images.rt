//! The process image.

ghost use Rattle.std.specs.Prelude.{◌≡◌, ◌≢◌, ◌<◌, [], ◌∷◌, ℕ, All, IfOk, IsSomeAnd, Some};
ghost use Rattle.std.specs.Prelude.{length, slice_get};
ghost use Rattle.ilmachine.specs.Images.{Global as GlobalVariable, Own, layout_of, value_of};
ghost use Rattle.ilmachine.specs.Images.{variable_in, verified_of, written_in};
ghost use Rattle.ilmachine.specs.Snapshots.{IsLastingOf, MayHave};

use ilblocks::BlockState;
use ilcells::ValueRow;
use ilmachine::{Image, Override, Snapshot};
use iltypes::Value;
use std::alloc::AllocError;

/// `overrides_the_slots_of_other_tasks`: an override went to the slots of the other tasks.
pub fn override_reaches_the_task(
    image: &Image,
    moment: u64,
    overrides: &[Override],
    given: Override,
) -> Result<Snapshot, AllocError>
    requires task { 0 < length image.now.tasks }
    requires in_types { All (λ one. MayHave image.now.types one.global one.value) overrides.now }
    requires one { overrides.now ≡ given ∷ [] }
    requires global { given.global ≡ 4 }
    requires slot { variable_in (layout_of image.now) 0 0 ≡ Some (GlobalVariable 4) }
    ensures { IfOk result (λ snapshot.
        slice_get snapshot.lasting.slots 0 ≡ Some given.value) }
{
    image.take_with(0, moment, overrides)
}

/// `forgets_the_row_of_a_task`: an input was not written to the row that is ready for task 3.
pub fn input_reaches_each_task(
    image: &mut Image,
    value: Value,
    moment: u64,
) -> Result<Snapshot, AllocError>
    requires input { MayHave image.old.types 4 value }
    requires task { 3 < length image.old.tasks }
    requires slot { variable_in (layout_of image.old) 3 0 ≡ Some (GlobalVariable 4) }
    ensures { IfOk result (λ snapshot. slice_get snapshot.lasting.slots 0 ≡ Some value) }
{
    image.set_input(4, value);
    image.take(3, moment)
}

/// `stores_a_global_that_is_only_read`: a commit wrote a global variable that its task only reads.
pub fn variable_that_is_only_read_stays(
    image: &mut Image,
    values: &ValueRow,
    blocks: Vec<BlockState>,
)
    requires lasting { IsSomeAnd (verified_of (layout_of image.old) 0) (λ verified.
        IsLastingOf verified.code (record { slots = values.now; blocks = blocks.items })) }
    requires read { (slot : ℕ)
        → written_in (layout_of image.old) 0 slot ≢ Some (GlobalVariable 4) }
    ensures { value_of image.new (GlobalVariable 4) ≡ value_of image.old (GlobalVariable 4) }
{
    image.commit(0, values, blocks);
}

/// `a_commit_drops_a_write`: of the variables that a scan stores the first was left as it was.
pub fn stored_variable_is_written(image: &mut Image, values: &ValueRow, blocks: Vec<BlockState>)
    requires lasting { IsSomeAnd (verified_of (layout_of image.old) 0) (λ verified.
        IsLastingOf verified.code (record { slots = values.now; blocks = blocks.items })) }
    requires stored { written_in (layout_of image.old) 0 0 ≡ Some (GlobalVariable 4) }
    ensures { value_of image.new (GlobalVariable 4) ≡ slice_get values.now 0 }
{
    image.commit(0, values, blocks);
}

/// `a_task_is_taken_with_the_values_of_its_opening`: a scan began with the first value of its
/// task's own variable, whatever the scan before it had left.
pub fn scan_begins_with_what_the_last_one_left(
    image: &mut Image,
    values: &ValueRow,
    blocks: Vec<BlockState>,
    moment: u64,
) -> Result<Snapshot, AllocError>
    requires task { 0 < length image.old.tasks }
    requires lasting { IsSomeAnd (verified_of (layout_of image.old) 0) (λ verified.
        IsLastingOf verified.code (record { slots = values.now; blocks = blocks.items })) }
    requires own { written_in (layout_of image.old) 0 2 ≡ Some (Own 0 0) }
    requires slot { variable_in (layout_of image.old) 0 2 ≡ Some (Own 0 0) }
    ensures { IfOk result (λ snapshot.
        slice_get snapshot.lasting.slots 2 ≡ slice_get values.now 2) }
{
    image.commit(0, values, blocks);
    image.take(0, moment)
}

/// `a_commit_brings_back_the_inputs_of_its_scan`: a scan began with the inputs of the scan before
/// it, whatever had come meanwhile.
pub fn commit_leaves_the_inputs(
    image: &mut Image,
    values: &ValueRow,
    blocks: Vec<BlockState>,
    moment: u64,
) -> Result<Snapshot, AllocError>
    requires task { 0 < length image.old.tasks }
    requires lasting { IsSomeAnd (verified_of (layout_of image.old) 0) (λ verified.
        IsLastingOf verified.code (record { slots = values.now; blocks = blocks.items })) }
    requires slot { variable_in (layout_of image.old) 0 0 ≡ Some (GlobalVariable 4) }
    requires read { (slot : ℕ)
        → written_in (layout_of image.old) 0 slot ≢ Some (GlobalVariable 4) }
    ensures { IfOk result (λ snapshot.
        slice_get snapshot.lasting.slots 0 ≡ value_of image.old (GlobalVariable 4)) }
{
    image.commit(0, values, blocks);
    image.take(0, moment)
}
