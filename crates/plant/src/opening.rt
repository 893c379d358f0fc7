//! The process image before the first event.

ghost use Rattle.std.specs.Prelude.{◌≡◌, ◌<◌, ◌++◌, List, All, length, map, slice_get};
ghost use Rattle.std.specs.Prelude.{IfOk, Some, None, option_to_list};
ghost use Rattle.iltypes.specs.declared.value.IlType.{IlType as TypeOf};
ghost use Rattle.std.specs.Prelude.{IfSome};
ghost use Rattle.std.specs.Arc.{arc_value};
ghost use Rattle.ilplan.specs.Plans.{PlannedTask, HasStates, KeepsLimits, IsTaskOf};
ghost use Rattle.ilcompile.specs.Loaded.{IsCodeOf};
ghost use Rattle.ilmachine.specs.Verdicts.{Accepted};
ghost use Rattle.ilmachine.specs.Images.{first_task, IsLawfulTask};
ghost use Rattle.plantevents.specs.Plants.{externals_of, external_in, own_by, own_initials};
ghost use Rattle.plantevents.specs.Plants.{first_tasks, opening};
ghost use Rattle.plant.specs.OpeningSteps.{IsFirstImage, AreLawfulTasks, global_types, as_planned};

use ilblocks::BlockState;
use ilcompile::Setup;
use ilmachine::{External, Image, TaskImage, Verified};
use ilplan::{Plan, Slot, SlotOwner, Task};
use iltypes::{IlType, Value};
use std::alloc::{AllocError, Global};
use std::sync::Arc;

/// The global variable in a slot, with whether a program of the task stores to it.
fn external_at(task: &Task, number: usize, slot: Slot) -> Option<External>
    requires { number < length task.now.slots }
    ensures value { result ≡ external_in task.now number slot.variable }
{
    match slot.variable {
        SlotOwner::Global(global) => Some(External {
            global,
            stored: task.stores(number),
        }),
        SlotOwner::Own { .. } => None,
    }
}

/// The initial value of a slot, where it is an own variable of the task.
fn own_value(slot: Slot) -> Option<Value>
    ensures value { result ≡ own_by slot.variable slot.initial }
{
    match slot.variable {
        SlotOwner::Own { .. } => Some(slot.initial),
        SlotOwner::Global(_) => None,
    }
}

/// Puts an item behind the others, if there is one.
pub(crate) fn push_some<T: Copy + Drop>(
    items: &mut Vec<T>,
    item: Option<T>,
) -> Result<(), AllocError>
    ensures { IfOk result (λ _. items.new.items ≡ items.old.items ++ option_to_list item) }
{
    if let Some(item) = item {
        items.push(item)?;
    }
    Ok(())
}

/// The global variables that a task names, in the order of its slots.
fn externals(alloc: Global, task: &Task) -> Result<Vec<External>, AllocError>
    ensures { IfOk result (λ externals. externals.items ≡ externals_of task.now) }
{
    let slots = task.slots();
    let mut externals = Vec::new(alloc);
    for number in 0..slots.len() {
        push_some(&mut externals, external_at(task, number, slots[number]))?;
    }
    Ok(externals)
}

/// The initial values of a task's own variables.
fn own_values(alloc: Global, task: &Task) -> Result<Vec<Value>, AllocError>
    ensures { IfOk result (λ values. values.items ≡ own_initials task.now) }
{
    let slots = task.slots();
    let mut values = Vec::new(alloc);
    for number in 0..slots.len() {
        push_some(&mut values, own_value(slots[number]))?;
    }
    Ok(values)
}

/// What each block instance of a task keeps before the first scan.
fn states(alloc: Global, task: &Task) -> Result<Vec<BlockState>, AllocError>
    ensures { IfOk result (λ states. states.items ≡ task.now.states) }
{
    Vec::from_clones(alloc, task.states())
}

/// A task of the plan.
fn planned_task(setup: &Setup, task: usize) -> &Task
    requires { task < length setup.now.plan.tasks }
    ensures value { slice_get setup.now.plan.tasks task ≡ Some result.now }
    ensures limits { KeepsLimits setup.now.plan.functions result.now }
    ensures declared { IsTaskOf setup.now.plan.globals result.now }
    ensures states { HasStates setup.now.plan.buses result.now }
{
    setup.plan().task(task)
}

/// The verified code of a task.
fn code_of(setup: &Setup, task: usize) -> Result<Arc<Verified>, AllocError>
    requires { task < length setup.now.plan.tasks }
    ensures value { IfOk result (λ code.
        slice_get setup.now.codes task ≡ Some (arc_value code)) }
    ensures of_task { IfOk result (λ code. IfSome (slice_get setup.now.plan.tasks task)
        (λ t. IsCodeOf setup.now.plan t (arc_value code))) }
{
    let code = setup.code(task).clone()?;
    Ok(code)
}

/// A task before its first scan.
fn task_image(alloc: Global, setup: &Setup, task: usize) -> Result<TaskImage, AllocError>
    requires { task < length setup.now.plan.tasks }
    ensures { IfOk result (IsFirstImage setup.now task) }
{
    let planned = planned_task(setup, task);
    let externals = externals(alloc, planned)?;
    let values = own_values(alloc, planned)?;
    let blocks = states(alloc, planned)?;
    let code = code_of(setup, task)?;
    TaskImage::new(alloc, code, externals, values, blocks)
}

/// The tasks before the first scan.
fn task_images(alloc: Global, setup: &Setup) -> Result<Vec<TaskImage>, AllocError>
    ensures images { IfOk result (λ images.
        images.items ≡ first_tasks setup.now.plan.tasks setup.now.codes) }
    ensures lawful { IfOk result (λ images. AreLawfulTasks setup.now images.items) }
{
    let mut images = Vec::new(alloc);
    for task in 0..setup.plan().tasks() {
        images.push(task_image(alloc, setup, task)?)?;
    }
    Ok(images)
}

/// The types of the global variables.
fn types(alloc: Global, plan: &Plan) -> Result<Vec<IlType>, AllocError>
    ensures { IfOk result (λ types. types.items ≡ map (λ g. g.value_type) plan.now.globals) }
{
    let mut types = Vec::new(alloc);
    for global in 0..plan.globals() {
        types.push(plan.global(global).value_type)?;
    }
    Ok(types)
}

/// The initial values of the global variables.
fn initials(alloc: Global, plan: &Plan) -> Result<Vec<Value>, AllocError>
    ensures { IfOk result (λ values. values.items ≡ map (λ g. g.initial) plan.now.globals) }
{
    let mut values = Vec::new(alloc);
    for global in 0..plan.globals() {
        values.push(plan.global(global).initial)?;
    }
    Ok(values)
}

/// The process image before the first event: each variable at its initial value, each block
/// instance as the plan has it.
pub(crate) fn first_image(alloc: Global, setup: &Setup) -> Result<Image, AllocError>
    ensures { IfOk result (λ image. image ≡ opening (as_planned setup.now)) }
{
    let types = types(alloc, setup.plan())?;
    let values = initials(alloc, setup.plan())?;
    let tasks = task_images(alloc, setup)?;
    let _lawful = setup.plan().buses();
    Image::new(alloc, types, values, &tasks)
}
