//! The slots in which each global variable stands.

ghost use Rattle.std.specs.Prelude.{◌≡◌, ℕ, ◌<◌, ◌&&◌, ◌||◌, ◌==◌, All, IfOk, [], length};
ghost use Rattle.std.specs.Prelude.{replicate, slice_get};
ghost use Rattle.ilmachine.specs.RowSteps.{IsIndex, layouts_of, lists_of, slots_at, has_slot};
ghost use Rattle.ilmachine.specs.RowSteps.{is_global};

use crate::external::External;
use crate::slots::TaskSlot;
use crate::task_row::TaskRow;
use std::alloc::{AllocError, Global};

/// The slots of each of the given number of global variables.
pub(crate) fn index_of(
    alloc: Global,
    globals: usize,
    tasks: &[TaskRow],
) -> Result<Vec<Vec<TaskSlot>>, AllocError>
    requires { All (λ t. All (λ external. external.global < globals) t.layout.externals)
        tasks.now }
    ensures slots { IfOk result (λ index.
        IsIndex (layouts_of tasks.now) (lists_of (λ slots. slots.items) index.items)) }
    ensures each { IfOk result (λ index. length index.items ≡ globals) }
{
    let mut index = empty_index(alloc, globals)?;
    for (task, named) in tasks.iter().enumerate() {
        add_task(&mut index, task, named.externals())?;
    }
    Ok(index)
}

/// The index of the given number of global variables, of which none stands anywhere.
fn empty_index(alloc: Global, globals: usize) -> Result<Vec<Vec<TaskSlot>>, AllocError>
    ensures { IfOk result (λ index.
        lists_of (λ slots. slots.items) index.items ≡ replicate globals []) }
{
    let mut index = Vec::with_capacity(alloc, globals)?;
    for _global in 0..globals {
        index.push(Vec::new(alloc))?;
    }
    Ok(index)
}

/// Adds the first slots of a task, in which these global variables stand.
fn add_task(
    index: &mut Vec<Vec<TaskSlot>>,
    task: usize,
    externals: &[External],
) -> Result<(), AllocError>
    requires { All (λ external. external.global < length index.old.items) externals.now }
    ensures added { IfOk result (λ _. (global other slot : ℕ)
        → has_slot (slots_at (lists_of (λ slots. slots.items) index.new.items) global) other slot
        ≡ (has_slot (slots_at (lists_of (λ slots. slots.items) index.old.items) global) other slot
        || (task == other && is_global global (slice_get externals.now slot)))) }
    ensures each { IfOk result (λ _. length index.new.items ≡ length index.old.items) }
{
    for (slot, external) in externals.iter().enumerate() {
        let slots = &mut index[external.global];
        slots.push(TaskSlot { task, slot })?;
    }
    Ok(())
}
