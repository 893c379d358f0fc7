//! Files of kept values.

ghost use Rattle.std.specs.Prelude.{◌≡◌, ◌≢◌, [], ◌∷◌, IfErr, IfOk, None, OnOk, Some, codes, map, pos};
ghost use Rattle.std.specs.Prelude.{true};
ghost use Rattle.ilblocks.specs.Calls.{at_first};
ghost use Rattle.livekeep.specs.Faults.{AreTorn};
ghost use Rattle.livekeep.specs.KeptBlocks.{block_entries, kept_block};
ghost use Rattle.livekeep.specs.KeptFiles.{entry_of};
ghost use Rattle.livekeep.specs.KeptPlans.{left_out_of};
ghost use Rattle.livekeep.specs.KeptValues.{global_name, own_name};

use ilblocks::BlockState;
use ilplan::{
    FunctionBlock, Global as GlobalVariable, Location, Plan, Slot, SlotOwner, Task, TaskState,
};
use ilsource::Name;
use iltypes::{IlType, Value};
use livekeep::{
    FirstValues, Kept, KeptAt, KeptFault, KeptValue, LeftOut, first_values_of, kept_file,
    kept_values, left_out_of,
};
use std::alloc::{AllocError, Global};

/// `the_last_value_is_skipped`: the last value of a file was not found under its name.
pub fn last_value_is_found(kept: &Kept, last: &KeptValue) -> Option<Value>
    requires { kept.now.values ≡ last.now ∷ [] }
    ensures { result ≡ Some last.now.value }
{
    kept.under(last.name())
}

/// `a_file_without_its_sum_is_taken`, `a_sum_of_zero_fits_all`, `the_last_line_counts_too_few`:
/// values were read of bytes that are no file of any.
pub fn torn_file_is_refused(alloc: Global, bytes: &[u8]) -> Result<Kept, KeptFault>
    requires { AreTorn bytes.now }
    ensures ok { OnOk result ⊥ }
    ensures err { IfErr result (λ fault. fault ≢ KeptFault.Memory → fault ≡ KeptFault.Torn) }
{
    Kept::parse(alloc, bytes)
}

/// `input_word_kept`, `zero_is_a_value_of_each_type`, `used_though_left_out`: a number was used for
/// a variable that is TRUE or FALSE.
pub fn value_of_another_type_is_left_out(
    alloc: Global,
    plan: &Plan,
    lamp: GlobalVariable,
    kept: &Kept,
    value: &KeptValue,
) -> Result<Vec<LeftOut>, AllocError>
    requires globals { plan.now.globals ≡ lamp ∷ [] }
    requires tasks { plan.now.tasks ≡ [] }
    requires kind { (lamp.location ≡ None) × (lamp.value_type ≡ IlType.Bool) }
    requires kept { kept.now.values ≡ value.now ∷ [] }
    requires number { value.now.value ≡ Value.Int (pos 0) }
    ensures { IfOk result (λ left. left.items ≡ value.now ∷ []) }
{
    left_out_of(alloc, plan, kept)
}

/// `dropped_though_it_fits`: a variable began with its own first value, and a fitting one was kept
/// under its name.
pub fn kept_value_that_fits_is_used(
    alloc: Global,
    plan: &Plan,
    lamp: GlobalVariable,
    kept: &Kept,
    value: &KeptValue,
) -> Result<FirstValues, AllocError>
    requires globals { plan.now.globals ≡ lamp ∷ [] }
    requires kind { (lamp.location ≡ None) × (lamp.value_type ≡ IlType.Bool) }
    requires kept { kept.now.values ≡ value.now ∷ [] }
    requires name { value.now.name ≡ global_name plan.now.text lamp }
    requires lit { value.now.value ≡ Value.Bool true }
    ensures { IfOk result (λ begun. begun.globals.items ≡ Value.Bool true ∷ []) }
{
    first_values_of(alloc, plan, kept)
}

/// `the_slot_of_a_global_variable_begins_by_itself`: a task saw another first value of a global
/// variable than the others.
pub fn slot_of_a_global_variable_begins_as_that(
    alloc: Global,
    plan: &Plan,
    lamp: GlobalVariable,
    task: &Task,
    slot: Slot,
    kept: &Kept,
    value: &KeptValue,
) -> Result<FirstValues, AllocError>
    requires globals { plan.now.globals ≡ lamp ∷ [] }
    requires kind { (lamp.location ≡ None) × (lamp.value_type ≡ IlType.Bool) }
    requires tasks { plan.now.tasks ≡ task.now ∷ [] }
    requires slots { task.now.slots ≡ slot ∷ [] }
    requires variable { slot.variable ≡ SlotOwner.Global 0 }
    requires kept { kept.now.values ≡ value.now ∷ [] }
    requires name { value.now.name ≡ global_name plan.now.text lamp }
    requires lit { value.now.value ≡ Value.Bool true }
    ensures { IfOk result (λ begun. map (λ state. state.slots) begun.tasks.items
        ≡ (Value.Bool true ∷ []) ∷ []) }
{
    first_values_of(alloc, plan, kept)
}

/// `the_names_of_instance_and_variable_turned_round`: a variable of a program instance began with
/// what was kept under the variable's name and then the instance's.
pub fn variable_of_an_instance_begins_as_kept(
    alloc: Global,
    plan: &Plan,
    task: &Task,
    slot: Slot,
    instance: Name,
    name: Name,
    kept: &Kept,
    value: &KeptValue,
) -> Result<FirstValues, AllocError>
    requires tasks { plan.now.tasks ≡ task.now ∷ [] }
    requires slots { task.now.slots ≡ slot ∷ [] }
    requires variable { slot.variable ≡ SlotOwner.Own instance name }
    requires kind { slot.value_type ≡ IlType.Bool }
    requires kept { kept.now.values ≡ value.now ∷ [] }
    requires name { value.now.name ≡ own_name plan.now.text instance name }
    requires lit { value.now.value ≡ Value.Bool true }
    ensures { IfOk result (λ begun. map (λ state. state.slots) begun.tasks.items
        ≡ (Value.Bool true ∷ []) ∷ []) }
{
    first_values_of(alloc, plan, kept)
}

/// `a_count_is_not_kept`: nothing was kept of a variable that is located at the count of a source.
pub fn count_is_kept(
    alloc: Global,
    plan: &Plan,
    count: GlobalVariable,
    value: Value,
    globals: &[Value],
    tasks: &[TaskState],
) -> Result<Vec<KeptValue>, AllocError>
    requires globals { plan.now.globals ≡ count ∷ [] }
    requires tasks { plan.now.tasks ≡ [] }
    requires location { count.location ≡ Some (Location.Count 0 0) }
    requires values { globals.now ≡ value ∷ [] }
    requires states { tasks.now ≡ [] }
    ensures { IfOk result (λ kept.
        kept.items ≡ entry_of (global_name plan.now.text count) value ∷ []) }
{
    kept_values(alloc, plan, globals, tasks)
}

/// `kept_of_another_instance`: a variable of a program instance was kept under the variable's name
/// and then the instance's.
pub fn variable_of_an_instance_is_kept(
    alloc: Global,
    plan: &Plan,
    task: &Task,
    slot: Slot,
    instance: Name,
    name: Name,
    value: Value,
    globals: &[Value],
    tasks: &[TaskState],
) -> Result<Vec<KeptValue>, AllocError>
    requires globals { (plan.now.globals ≡ []) × (globals.now ≡ []) }
    requires tasks { plan.now.tasks ≡ task.now ∷ [] }
    requires own { task.now.slots ≡ slot ∷ [] }
    requires blocks { task.now.blocks ≡ [] }
    requires variable { slot.variable ≡ SlotOwner.Own instance name }
    requires states { tasks.now ≡ record { slots = value ∷ []; blocks = [] } ∷ [] }
    ensures { IfOk result (λ kept.
        kept.items ≡ entry_of (own_name plan.now.text instance name) value ∷ []) }
{
    kept_values(alloc, plan, globals, tasks)
}

/// `the_last_of_another_instance`, `begins_with_its_ports_alone`, `the_start_of_another_instance`:
/// a block instance began with another state than all that was kept of it.
pub fn instance_begins_as_kept(
    alloc: Global,
    plan: &Plan,
    task: &Task,
    block: FunctionBlock,
    kept: &Kept,
    state: &BlockState,
) -> Result<FirstValues, AllocError>
    requires tasks { plan.now.tasks ≡ task.now ∷ [] }
    requires blocks { task.now.blocks ≡ block ∷ [] }
    requires kept { kept_block plan.now kept.now.values block ≡ Some state.now }
    ensures { IfOk result (λ begun. map (λ state. state.blocks) begun.tasks.items
        ≡ (state.now ∷ []) ∷ []) }
{
    first_values_of(alloc, plan, kept)
}

/// `half_an_instance_begins`, `a_part_of_another_type`: a block instance, of which a part was not
/// kept or is of another type, did not begin as before its first call.
pub fn instance_without_a_part_begins_anew(
    alloc: Global,
    plan: &Plan,
    task: &Task,
    block: FunctionBlock,
    kept: &Kept,
) -> Result<FirstValues, AllocError>
    requires tasks { plan.now.tasks ≡ task.now ∷ [] }
    requires blocks { task.now.blocks ≡ block ∷ [] }
    requires kept { kept_block plan.now kept.now.values block ≡ None }
    ensures { IfOk result (λ begun. map (λ state. state.blocks) begun.tasks.items
        ≡ (at_first block.kind ∷ []) ∷ []) }
{
    first_values_of(alloc, plan, kept)
}

/// `parts_that_begin_are_left_out`: what was kept of a block instance was reported, though it
/// begins with it.
pub fn parts_with_which_an_instance_begins_are_not_left_out(
    alloc: Global,
    plan: &Plan,
    kept: &Kept,
) -> Result<Vec<LeftOut>, AllocError>
    requires { left_out_of kept.now.values plan.now ≡ [] }
    ensures { IfOk result (λ left. left.items ≡ []) }
{
    left_out_of(alloc, plan, kept)
}

/// `the_start_is_not_kept`, `the_states_of_two_instances_exchanged`: what was kept of a block
/// instance was another state.
pub fn instance_is_kept(
    alloc: Global,
    plan: &Plan,
    task: &Task,
    block: FunctionBlock,
    state: &BlockState,
    globals: &[Value],
    tasks: &[TaskState],
) -> Result<Vec<KeptValue>, AllocError>
    requires globals { (plan.now.globals ≡ []) × (globals.now ≡ []) }
    requires tasks { plan.now.tasks ≡ task.now ∷ [] }
    requires own { task.now.slots ≡ [] }
    requires blocks { task.now.blocks ≡ block ∷ [] }
    requires states { tasks.now ≡ record { slots = []; blocks = state.now ∷ [] } ∷ [] }
    ensures { IfOk result (λ kept. kept.items ≡ block_entries plan.now.text block state.now) }
{
    kept_values(alloc, plan, globals, tasks)
}

/// `date_and_moment_exchanged`, `an_empty_file_has_no_values`, `the_sum_forgets_the_order`: the
/// file of a value was another one.
pub fn file_of_a_value(alloc: Global, values: &[KeptValue]) -> Result<Vec<u8>, AllocError>
    requires { values.now ≡ entry_of (codes "lamp") (Value.Int (pos 200)) ∷ [] }
    ensures { IfOk result (λ file. file.items
        ≡ codes "kept by dalictl live at 1 moment 2\nlamp = 200\nend 1\nsum 3595046948\n") }
{
    let at = KeptAt { date: 1, moment: 2 };
    kept_file(alloc, at, values)
}
