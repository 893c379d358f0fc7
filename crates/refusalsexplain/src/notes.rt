//! What notes say of a plan.

ghost use Rattle.std.specs.Prelude.{◌≡◌, ℕ, IfOk, IsSomeAnd, Some, false, slice_get, true};
ghost use Rattle.ilnotes.specs.Planned.{IsAtSource, IsStartedBy, StoresTo, UsesFunctionIn};
ghost use Rattle.ilnotes.specs.Planned.{ReadsVariable};
ghost use Rattle.ilplan.specs.declared.global.Location.TheVariants.{Count};

use ilnotes::{Reads, is_stored, starts_task, uses_function, uses_source};
use ilplan::Plan;
use std::alloc::{AllocError, Global};

/// `stored_level_is_noted`: a level was said to be stored by no task though one stores it.
pub fn stored_variable_is_stored(plan: &Plan, number: usize, task: usize) -> bool
    requires { StoresTo plan.now number task }
    ensures { result ≡ true }
{
    is_stored(plan, number)
}

/// `level_is_passed_over`: a level was said to be stored though no task stores it.
pub fn unstored_variable_is_not_stored(plan: &Plan, number: usize) -> bool
    requires { (task : ℕ) → ¬ StoresTo plan.now number task }
    ensures { result ≡ false }
{
    is_stored(plan, number)
}

/// `read_input_is_noted`: an input was said to be read by no task though one reads it.
pub fn read_variable_is_read(
    alloc: Global,
    plan: &Plan,
    number: usize,
    task: usize,
) -> Result<bool, AllocError>
    requires { ReadsVariable plan.now number task }
    ensures { IfOk result (λ is. is ≡ true) }
{
    Ok(Reads::of(alloc, plan)?.is_read(number))
}

/// `unread_input_is_passed_over`: an input was said to be read though no task reads it.
pub fn unread_variable_is_not_read(
    alloc: Global,
    plan: &Plan,
    number: usize,
) -> Result<bool, AllocError>
    requires { (task : ℕ) → ¬ ReadsVariable plan.now number task }
    ensures { IfOk result (λ is. is ≡ false) }
{
    Ok(Reads::of(alloc, plan)?.is_read(number))
}

/// `started_task_is_passed_over`: a trigger was said to start no task though one is started by it.
pub fn trigger_of_a_task_starts_it(plan: &Plan, number: usize, task: usize) -> bool
    requires { IsStartedBy plan.now number task }
    ensures { result ≡ true }
{
    starts_task(plan, number)
}

/// `other_trigger_starts`: a trigger was said to start a task though no task is started by it.
pub fn trigger_of_no_task_starts_none(plan: &Plan, number: usize) -> bool
    requires { (task : ℕ) → ¬ IsStartedBy plan.now number task }
    ensures { result ≡ false }
{
    starts_task(plan, number)
}

/// `called_function_is_noted`: a function was said to be used by no task though one uses it.
pub fn called_function_is_used(
    alloc: Global,
    plan: &Plan,
    number: usize,
    task: usize,
) -> Result<bool, AllocError>
    requires { UsesFunctionIn plan.now number task }
    ensures { IfOk result (λ is. is ≡ true) }
{
    uses_function(alloc, plan, number)
}

/// `unused_function_is_passed_over`: a function was said to be used though no task uses it.
pub fn function_of_no_task_is_not_used(
    alloc: Global,
    plan: &Plan,
    number: usize,
) -> Result<bool, AllocError>
    requires { (task : ℕ) → ¬ UsesFunctionIn plan.now number task }
    ensures { IfOk result (λ is. is ≡ false) }
{
    uses_function(alloc, plan, number)
}

/// `counted_source_is_noted`: a source was said not to be used though its count is.
pub fn count_uses_its_source(plan: &Plan) -> bool
    requires { IsSomeAnd (slice_get plan.now.globals 3) (λ g. g.location ≡ Some (Count 1 2)) }
    ensures { result ≡ true }
{
    uses_source(plan, 1, 2)
}

/// `unused_source_is_passed_over`: a source was said to be used though no variable is located at it.
pub fn source_without_a_variable_is_not_used(plan: &Plan, bus: u8, source: u8) -> bool
    requires { (number : ℕ) → ¬ IsAtSource plan.now bus source number }
    ensures { result ≡ false }
{
    uses_source(plan, bus, source)
}
