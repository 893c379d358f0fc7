//! Plans of tasks.

ghost use Rattle.std.specs.Prelude.{◌≡◌, ◌<◌, [], ◌∷◌, IfOk, Some, is_some, length, map};
ghost use Rattle.std.specs.Prelude.{slice_get, true};
ghost use Rattle.ilplan.specs.Plans.{stores, used_functions};

use ilplan::{Activation, Constants, Plan, Slot, SlotOwner, Task};
use iltypes::Value;
use std::alloc::{AllocError, Global};
use wordlines::BusTries;

/// `unknown_constant_has_number_0`: a value that is no constant had the number of the first.
pub fn unknown_constant_has_the_next_number(constants: &Constants) -> usize
    requires { constants.now ≡ Value.Bool true ∷ [] }
    ensures { result ≡ 1 }
{
    constants.number_of(Value::Int(5))
}

/// `tries_of_the_next_bus`: a bus had the attempts that are said of the bus behind it.
pub fn attempts_are_those_of_the_bus(plan: &Plan, said: BusTries) -> u8
    requires said { plan.now.tries ≡ said ∷ [] }
    requires bus { said.bus ≡ 1 }
    requires tries { said.tries ≡ 5 }
    ensures { result ≡ 5 }
{
    plan.tries(1)
}

/// `trigger_is_false_at_first`: a scan by hand of an event task began with its trigger FALSE.
pub fn trigger_is_true_at_first(
    alloc: Global,
    task: &Task,
    slot: Slot,
) -> Result<Vec<Value>, AllocError>
    requires event { task.now.activation ≡ Activation.Event 4 }
    requires trigger { slot.variable ≡ SlotOwner.Global 4 }
    requires slots { task.now.slots ≡ slot ∷ [] }
    ensures { IfOk result (λ values. values.items ≡ Value.Bool true ∷ []) }
{
    task.first_values(alloc)
}

/// `the_next_slot_is_stored`: whether a slot is stored to was told of the slot behind it.
pub fn stored_slot_is_found(task: &Task) -> bool
    requires slots { 1 < length task.now.slots }
    requires first { stores task.now 0 ≡ true }
    ensures { result ≡ true }
{
    task.stores(0)
}

/// `function_that_another_calls_is_not_used`: a function that only a function calls was not used.
pub fn function_that_another_calls_is_used(
    alloc: Global,
    plan: &Plan,
    task: &Task,
) -> Result<Vec<bool>, AllocError>
    requires first { 0 < length plan.now.tasks }
    requires task { slice_get plan.now.tasks 0 ≡ Some task.now }
    requires both { map is_some (used_functions plan.now.functions task.now) ≡ true ∷ true ∷ [] }
    ensures { IfOk result (λ used. used.items ≡ true ∷ true ∷ []) }
{
    plan.used_functions(alloc, 0)
}
