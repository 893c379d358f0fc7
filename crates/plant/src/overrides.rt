//! What an event task takes in place of the image's values.

ghost use Rattle.std.specs.Prelude.{◌≡◌, ◌≤◌, ◌<◌, ℕ, All, List, Option, length, option_map};
ghost use Rattle.std.specs.Prelude.{IfOk, IfSome};
ghost use Rattle.iltypes.specs.declared.value.IlType.{IlType};
ghost use Rattle.iltypes.specs.declared.value.Value.{Value as AnyValue};
ghost use Rattle.ilmachine.specs.Images.{overridden};
ghost use Rattle.plantevents.specs.Variables.{event_value, newest};
ghost use Rattle.plantbuses.specs.AnswerSteps.{IsWrittenAs};
ghost use Rattle.plant.specs.IndexSteps.{AreInputsOf};
ghost use Rattle.plant.specs.TakingSteps.{event_at, given_to, IsInType};

use crate::opening::push_some;
use ilmachine::Override;
use ilplan::{Location, Plan};
use iltypes::Value;
use plantevents::PendingEvent;
use std::alloc::{AllocError, Global};

/// The value that an event task, whose trigger is located at this number of a bus, takes at a
/// location: TRUE at the trigger, and the information and the count of its pending event.
#[tactic(auto, using(plantbuses::proofs::Fitting::within_up_to))]
fn value_taken(location: Location, bus: u8, number: u8, event: PendingEvent) -> Option<Value>
    requires { event.information ≤ 1023 }
    ensures value { result ≡ event_value bus number event location }
    ensures in_type { (value_type : IlType) → IfSome result (IsWrittenAs value_type location) }
{
    match location {
        Location::Trigger { bus: b, source } if b == bus && source == number => {
            Some(Value::Bool(true))
        }
        Location::Information { bus: b, source } if b == bus && source == number => {
            Some(Value::Int(i64::from(event.information)))
        }
        Location::Count { bus: b, source } if b == bus && source == number => {
            Some(Value::Int(i64::from(event.count)))
        }
        _ => None,
    }
}

/// The override of a global variable under which the task is taken, if there is one.
fn override_of(
    plan: &Plan,
    global: usize,
    bus: u8,
    number: u8,
    event: PendingEvent,
) -> Option<Override>
    requires known { global < length plan.now.globals }
    requires small { event.information ≤ 1023 }
    ensures value { result ≡ option_map (given_to global)
        (event_at plan.now bus number event global) }
    ensures in_type { IfSome result (IsInType plan.now) }
{
    let _lawful = plan.buses();
    let location = plan.global(global).location?;
    let value = value_taken(location, bus, number, event)?;
    Some(Override { global, value })
}

/// The overrides under which the task is taken.
pub(crate) fn overrides(
    alloc: Global,
    plan: &Plan,
    inputs: &[usize],
    bus: u8,
    number: u8,
    event: PendingEvent,
) -> Result<Vec<Override>, AllocError>
    requires inputs { AreInputsOf plan.now bus inputs.now }
    requires small { event.information ≤ 1023 }
    ensures values { IfOk result (λ given. (global : ℕ) (value : Option AnyValue)
        → overridden given.items global value
        ≡ newest (event_at plan.now bus number event global) value) }
    ensures in_types { IfOk result (λ given. All (IsInType plan.now) given.items) }
{
    let mut given = Vec::new(alloc);
    for i in 0..inputs.len() {
        push_some(&mut given, override_of(plan, inputs[i], bus, number, event))?;
    }
    Ok(given)
}
