//! What is kept of a building.

ghost use Rattle.std.specs.Prelude.{◌≡◌, ◌<◌, ◌++◌, IfOk, OnOk, Some, length, slice_get};
ghost use Rattle.std.specs.List.{AllZip};
ghost use Rattle.ilplan.specs.Beginnings.{HasEach};
ghost use Rattle.livekeep.specs.KeptStates.{entries_by, entries_for, entries_of, global_entries};
ghost use Rattle.livekeep.specs.KeptStates.{instance_entries, slot_entries, task_entries};
ghost use Rattle.ilplan.specs.declared.global.Global.{Global as GlobalVariable};

use crate::blocks::keep_block;
use crate::first_values::{is_trigger, own_name};
use crate::value::KeptValue;
use ilblocks::BlockState;
use ilplan::{Plan, Slot, SlotOwner, Task, TaskState};
use iltypes::Value;
use std::alloc::{AllocError, Global};

/// What is kept where the variables of a plan have these values, one for each global variable, and
/// this lasts of each task, a value for each of its slots and the state of each of its block
/// instances: the value of each global variable but the triggers, and then, task by task, that of
/// each variable of a program instance, and what each block instance keeps.
///
/// # Errors
///
/// The allocator is out of memory.
pub fn kept_values(
    alloc: Global,
    plan: &Plan,
    globals: &[Value],
    tasks: &[TaskState],
) -> Result<Vec<KeptValue>, AllocError>
    requires globals { length globals.now ≡ length plan.now.globals }
    requires tasks { AllZip HasEach plan.now.tasks tasks.now }
    ensures { IfOk result (λ kept. kept.items ≡ entries_of plan.now globals.now tasks.now) }
{
    let mut kept = kept_globals(alloc, plan, globals)?;
    for task in 0..plan.tasks() {
        keep_task(alloc, &mut kept, plan.text(), plan.task(task), &tasks[task])?;
    }
    Ok(kept)
}

/// Keeps what lasts of a task.
fn keep_task(
    alloc: Global,
    kept: &mut Vec<KeptValue>,
    text: &[u8],
    task: &Task,
    state: &TaskState,
) -> Result<(), AllocError>
    requires { HasEach task.now state.now }
    ensures { OnOk result (kept.new.items
        ≡ kept.old.items ++ task_entries text.now task.now state.now) }
{
    keep_slots(alloc, kept, text, task, state.values())?;
    keep_blocks(alloc, kept, text, task, state.blocks())
}

/// What is kept where the global variables of a plan have these values, one for each.
#[tactic(auto, using(crate::proofs::KeptEntries::all_kept))]
fn kept_globals(alloc: Global, plan: &Plan, values: &[Value]) -> Result<Vec<KeptValue>, AllocError>
    requires { length values.now ≡ length plan.now.globals }
    ensures { IfOk result (λ kept.
        kept.items ≡ global_entries plan.now.text plan.now.globals values.now) }
{
    let mut kept = Vec::new(alloc);
    for global in 0..plan.globals() {
        keep(alloc, &mut kept, plan, global, values[global])?;
    }
    Ok(kept)
}

/// Keeps this value of the global variable of this number, where it is no trigger.
fn keep(
    alloc: Global,
    kept: &mut Vec<KeptValue>,
    plan: &Plan,
    global: usize,
    value: Value,
) -> Result<(), AllocError>
    requires { global < length plan.now.globals }
    ensures { OnOk result ((g : GlobalVariable) → slice_get plan.now.globals global ≡ Some g
        → kept.new.items ≡ kept.old.items ++ entries_for plan.now.text g value) }
{
    if !is_trigger(plan.global(global).location) {
        let name = plan.global_name(global);
        kept.push(KeptValue::new(alloc, name.bytes, value)?)?;
    }
    Ok(())
}

/// Keeps these values of the slots of a task, one for each: those of program instances.
fn keep_slots(
    alloc: Global,
    kept: &mut Vec<KeptValue>,
    text: &[u8],
    task: &Task,
    values: &[Value],
) -> Result<(), AllocError>
    requires { length values.now ≡ length task.now.slots }
    ensures { OnOk result (kept.new.items
        ≡ kept.old.items ++ slot_entries text.now task.now.slots values.now) }
{
    let slots = task.slots();
    for i in 0..slots.len() {
        keep_slot(alloc, kept, text, slots[i], values[i])?;
    }
    Ok(())
}

/// Keeps this value of the variable in a slot, where it is one of a program instance.
fn keep_slot(
    alloc: Global,
    kept: &mut Vec<KeptValue>,
    text: &[u8],
    slot: Slot,
    value: Value,
) -> Result<(), AllocError>
    ensures { OnOk result (kept.new.items
        ≡ kept.old.items ++ entries_by text.now slot.variable value) }
{
    if let SlotOwner::Own { instance, name } = slot.variable {
        let name = own_name(alloc, text, instance, name)?;
        kept.push(KeptValue::new(alloc, &name, value)?)?;
    }
    Ok(())
}

/// Keeps what the block instances of a task keep.
fn keep_blocks(
    alloc: Global,
    kept: &mut Vec<KeptValue>,
    text: &[u8],
    task: &Task,
    states: &[BlockState],
) -> Result<(), AllocError>
    requires { length states.now ≡ length task.now.blocks }
    ensures { OnOk result (kept.new.items
        ≡ kept.old.items ++ instance_entries text.now task.now.blocks states.now) }
{
    let blocks = task.blocks();
    for i in 0..blocks.len() {
        keep_block(alloc, kept, text, blocks[i], &states[i])?;
    }
    Ok(())
}
