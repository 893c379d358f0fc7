//! With what a plan begins.

ghost use Rattle.std.specs.Prelude.{◌≡◌, IfOk, map, unwrap_or};
ghost use Rattle.ilplan.specs.Beginnings.{MayBegin};
ghost use Rattle.livekeep.specs.KeptBlocks.{block_firsts};
ghost use Rattle.livekeep.specs.KeptPlans.{global_first, global_firsts, is_trigger};
ghost use Rattle.livekeep.specs.KeptPlans.{slot_first, slot_firsts, task_first, task_firsts};
ghost use Rattle.livekeep.specs.KeptValues.{fitting, kept_value, own_name};

use crate::blocks::block_first;
use crate::kept::Kept;
use ilblocks::BlockState;
use ilplan::{Global as GlobalVariable, Location, Plan, Slot, SlotOwner, Task, TaskState};
use ilsource::Name;
use iltypes::{IlType, Value};
use std::alloc::{AllocError, Global};

/// With what a plan begins.
#[derive(Drop)]
pub struct FirstValues {
    /// A value for each global variable.
    pub globals: Vec<Value>,
    /// For each task a value for each of its slots, and what each of its block instances keeps.
    pub tasks: Vec<TaskState>,
}

/// With what a plan begins: each variable with the value that was kept under its name, where that
/// is one of its type, else with its own first value; each block instance with all that was kept of
/// it, where each part is there and of its type, else as before its first call. A trigger begins
/// with its own value.
///
/// # Errors
///
/// The allocator is out of memory.
pub fn first_values_of(alloc: Global, plan: &Plan, kept: &Kept) -> Result<FirstValues, AllocError>
    ensures globals { IfOk result (λ begun.
        begun.globals.items ≡ global_firsts plan.now kept.now.values) }
    ensures tasks { IfOk result (λ begun.
        begun.tasks.items ≡ task_firsts plan.now kept.now.values) }
    // So the plan may begin with them.
    ensures may_begin { IfOk result (λ begun.
        MayBegin plan.now begun.globals.items begun.tasks.items) }
{
    let _lawful = plan.buses();
    let globals = globals_first(alloc, plan, kept)?;
    let tasks = tasks_first(alloc, plan, kept)?;
    Ok(FirstValues { globals, tasks })
}

/// What each global variable begins with.
#[tactic(auto, using(crate::proofs::TakenLists::map_at))]
fn globals_first(alloc: Global, plan: &Plan, kept: &Kept) -> Result<Vec<Value>, AllocError>
    ensures { IfOk result (λ values. values.items ≡ global_firsts plan.now kept.now.values) }
{
    let mut values = Vec::new(alloc);
    for global in 0..plan.globals() {
        values.push(global_first(plan.text(), kept, plan.global(global)))?;
    }
    Ok(values)
}

/// What each task begins with.
#[tactic(auto, using(crate::proofs::TakenLists::map_at))]
fn tasks_first(alloc: Global, plan: &Plan, kept: &Kept) -> Result<Vec<TaskState>, AllocError>
    ensures { IfOk result (λ tasks. tasks.items ≡ task_firsts plan.now kept.now.values) }
{
    let mut tasks = Vec::new(alloc);
    for task in 0..plan.tasks() {
        tasks.push(task_first(alloc, plan, kept, plan.task(task))?)?;
    }
    Ok(tasks)
}

/// What a task begins with.
fn task_first(alloc: Global, plan: &Plan, kept: &Kept, task: &Task) -> Result<TaskState, AllocError>
    ensures { IfOk result (λ state. state ≡ task_first plan.now kept.now.values task.now) }
{
    let values = slots_first(alloc, plan, kept, task)?;
    let blocks = blocks_first(alloc, plan, kept, task)?;
    Ok(TaskState::new(values, blocks))
}

/// What the slots of a task begin with.
fn slots_first(
    alloc: Global,
    plan: &Plan,
    kept: &Kept,
    task: &Task,
) -> Result<Vec<Value>, AllocError>
    ensures { IfOk result (λ values.
        values.items ≡ slot_firsts plan.now kept.now.values task.now) }
{
    let mut values = Vec::new(alloc);
    for slot in task.slots() {
        values.push(slot_first(alloc, plan, kept, *slot)?)?;
    }
    Ok(values)
}

/// What the block instances of a task begin with.
fn blocks_first(
    alloc: Global,
    plan: &Plan,
    kept: &Kept,
    task: &Task,
) -> Result<Vec<BlockState>, AllocError>
    ensures { IfOk result (λ blocks.
        blocks.items ≡ block_firsts plan.now kept.now.values task.now) }
{
    let mut blocks = Vec::new(alloc);
    for block in task.blocks() {
        blocks.push(block_first(alloc, plan, kept, *block)?)?;
    }
    Ok(blocks)
}

/// What a slot begins with: that of a global variable as that does, that of a program instance's
/// variable with its kept value, where it has one of its type.
fn slot_first(alloc: Global, plan: &Plan, kept: &Kept, slot: Slot) -> Result<Value, AllocError>
    ensures { IfOk result (λ value. value ≡ slot_first plan.now kept.now.values slot) }
{
    match slot.variable {
        SlotOwner::Global(number) if number < plan.globals() => {
            Ok(global_first(plan.text(), kept, plan.global(number)))
        }
        SlotOwner::Global(_) => Ok(slot.initial),
        SlotOwner::Own { instance, name } => {
            let name = own_name(alloc, plan.text(), instance, name)?;
            Ok(kept_or(kept_value(kept, &name, slot.value_type), slot.initial))
        }
    }
}

/// What a global variable begins with: its kept value, where it has one of its type and is no
/// trigger, else its own first one.
fn global_first(text: &[u8], kept: &Kept, global: &GlobalVariable) -> Value
    ensures { result ≡ global_first text.now kept.now.values global.now }
{
    if is_trigger(global.location) {
        return global.initial;
    }
    let value = kept_value(kept, global.name.text(text), global.value_type);
    kept_or(value, global.initial)
}

/// The kept value, else the first one.
fn kept_or(kept: Option<Value>, initial: Value) -> Value
    ensures { result ≡ unwrap_or kept initial }
{
    match kept {
        Some(value) => value,
        None => initial,
    }
}

/// Whether a variable is located at the trigger of a source.
pub(crate) fn is_trigger(location: Option<Location>) -> bool
    ensures { result ≡ is_trigger location }
{
    matches!(location, Some(Location::Trigger { .. }))
}

/// The value that was kept under a name, where a variable of the type may have it.
pub(crate) fn kept_value(kept: &Kept, name: &[u8], value_type: IlType) -> Option<Value>
    ensures { result ≡ kept_value kept.now.values name.now value_type }
{
    fitting(value_type, kept.under(name))
}

/// The value, where a variable of the type may have it.
fn fitting(value_type: IlType, value: Option<Value>) -> Option<Value>
    ensures { result ≡ fitting value_type value }
{
    let value = value?;
    if value_type.holds(value) {
        Some(value)
    } else {
        None
    }
}

/// The name of a program instance's variable, as it is kept: `light.seen`.
pub(crate) fn own_name(
    alloc: Global,
    text: &[u8],
    instance: Name,
    name: Name,
) -> Result<Vec<u8>, AllocError>
    ensures { IfOk result (λ own. own.items ≡ own_name text.now instance name) }
{
    let mut own = Vec::from_slice(alloc, instance.text(text))?;
    own.extend_from_slice(b".")?;
    own.extend_from_slice(name.text(text))?;
    Ok(own)
}
