//! What a plan says by itself: what tasks store, what starts them, and which functions and sources
//! are used.

ghost use Rattle.std.specs.Prelude.{◌↔◌, ◌<◌, ℕ, IfOk, IsTrue, MatchOption, length};
ghost use Rattle.ilnotes.specs.Planned.{IsAtSource, IsOfSource, IsStartedBy, IsStored, StartsTask};
ghost use Rattle.ilnotes.specs.Planned.{StoresInSlot, StoresTo, UsesFunction, UsesFunctionIn};
ghost use Rattle.ilnotes.specs.Planned.{UsesSource};

use ilplan::{Activation, Location, Plan, SlotOwner, Task};
use std::alloc::{AllocError, Global};

/// Whether some line of some task, reached or not, stores to the global variable of this number,
/// sets it or resets it.
pub fn is_stored(plan: &Plan, number: usize) -> bool
    ensures { IsTrue result ↔ IsStored plan.now number }
{
    storing_task(plan, number).is_some()
}

/// A task that stores to the global variable of this number.
fn storing_task(plan: &Plan, number: usize) -> Option<usize>
    ensures { MatchOption result ((task : ℕ) → ¬ StoresTo plan.now number task)
        (StoresTo plan.now number) }
{
    for task in 0..plan.tasks() {
        if stored_slot(plan.task(task), number).is_some() {
            return Some(task);
        }
    }
    None
}

/// The slot of the global variable of this number, where a task stores to it.
fn stored_slot(task: &Task, number: usize) -> Option<usize>
    ensures { MatchOption result ((slot : ℕ) → ¬ StoresInSlot number task.now slot)
        (StoresInSlot number task.now) }
{
    for slot in 0..task.slots().len() {
        if is_stored_slot(task, number, slot) {
            return Some(slot);
        }
    }
    None
}

/// Whether a slot is that of the global variable of this number, and the task stores to it.
fn is_stored_slot(task: &Task, number: usize, slot: usize) -> bool
    requires { slot < length task.now.slots }
    ensures { IsTrue result ↔ StoresInSlot number task.now slot }
{
    match task.slots()[slot].variable {
        SlotOwner::Global(other) => other == number && task.stores(slot),
        SlotOwner::Own { .. } => false,
    }
}

/// Whether the event whose trigger is the global variable of this number starts a task.
pub fn starts_task(plan: &Plan, number: usize) -> bool
    ensures { IsTrue result ↔ StartsTask plan.now number }
{
    started_task(plan, number).is_some()
}

/// A task that the event of this trigger starts.
fn started_task(plan: &Plan, number: usize) -> Option<usize>
    ensures { MatchOption result ((task : ℕ) → ¬ IsStartedBy plan.now number task)
        (IsStartedBy plan.now number) }
{
    for task in 0..plan.tasks() {
        if is_started_by(plan, number, task) {
            return Some(task);
        }
    }
    None
}

/// Whether the event of this trigger starts a task.
fn is_started_by(plan: &Plan, number: usize, task: usize) -> bool
    requires { task < length plan.now.tasks }
    ensures { IsTrue result ↔ IsStartedBy plan.now number task }
{
    match plan.task(task).activation() {
        Activation::Event { trigger } => trigger == number,
        Activation::Cyclic { .. } => false,
    }
}

/// Whether some task uses the function of this number: a line calls it, reached or not, or a
/// function does that the task uses.
///
/// # Errors
///
/// The allocator is out of memory.
pub fn uses_function(alloc: Global, plan: &Plan, number: usize) -> Result<bool, AllocError>
    ensures { IfOk result (λ is. IsTrue is ↔ UsesFunction plan.now number) }
{
    for task in 0..plan.tasks() {
        if uses_function_in(alloc, plan, number, task)? {
            return Ok(true);
        }
    }
    Ok(false)
}

/// Whether the task of this number uses the function.
fn uses_function_in(
    alloc: Global,
    plan: &Plan,
    number: usize,
    task: usize,
) -> Result<bool, AllocError>
    requires { task < length plan.now.tasks }
    ensures { IfOk result (λ is. IsTrue is ↔ UsesFunctionIn plan.now number task) }
{
    let used = plan.used_functions(alloc, task)?;
    Ok(number < used.len() && used[number])
}

/// Whether a global variable is located at this source of events: at its trigger, its information
/// or its count.
pub fn uses_source(plan: &Plan, bus: u8, source: u8) -> bool
    ensures { IsTrue result ↔ UsesSource plan.now bus source }
{
    variable_of_source(plan, bus, source).is_some()
}

/// A global variable that is located at this source.
fn variable_of_source(plan: &Plan, bus: u8, source: u8) -> Option<usize>
    ensures { MatchOption result ((number : ℕ) → ¬ IsAtSource plan.now bus source number)
        (IsAtSource plan.now bus source) }
{
    for number in 0..plan.globals() {
        if is_at_source(plan, bus, source, number) {
            return Some(number);
        }
    }
    None
}

/// Whether the global variable of this number is located at this source.
fn is_at_source(plan: &Plan, bus: u8, source: u8, number: usize) -> bool
    requires { number < length plan.now.globals }
    ensures { IsTrue result ↔ IsAtSource plan.now bus source number }
{
    match plan.global(number).location {
        Some(location) => is_of_source(location, bus, source),
        None => false,
    }
}

/// Whether a location is one of this source.
fn is_of_source(location: Location, bus: u8, source: u8) -> bool
    ensures { IsTrue result ↔ IsOfSource bus source location }
{
    match location {
        Location::Trigger { bus: b, source: s } => b == bus && s == source,
        Location::Information { bus: b, source: s } => b == bus && s == source,
        Location::Count { bus: b, source: s } => b == bus && s == source,
        _ => false,
    }
}
