//! What the counts of sources begin at.

ghost use Rattle.std.specs.Prelude.{◌≡◌, [], IfOk};
ghost use Rattle.plantevents.specs.Plants.{first_count, is_count_at, count_in};
ghost use Rattle.plant.specs.KeptSteps.{CountsFollow};

use ilplan::{Location, Plan};
use iltypes::Value;
use std::alloc::{AllocError, Global};

/// Whether the count of the source at this place of a bus is located there.
fn is_count_at(bus: u8, number: u8, location: Option<Location>) -> bool
    ensures { result ≡ is_count_at bus number location }
{
    match location {
        Some(Location::Count { bus: own, source }) => own == bus && source == number,
        _ => false,
    }
}

/// The value, where it is a count, which has 16 bits, else 0.
fn count_in(value: Value) -> u16
    ensures { result ≡ count_in value }
{
    match value {
        Value::Int(number) if number >= 0 && number < 0x1_0000 => number as u16,
        _ => 0,
    }
}

/// What the count of the source at this place of a bus begins at: the first value of the global
/// variable that is located at it, and 0 where none is.
pub(crate) fn first_count(plan: &Plan, bus: u8, number: u8) -> u16
    ensures { result ≡ first_count plan.now.globals bus number }
{
    for global in 0..plan.globals() {
        let variable = plan.global(global);
        if is_count_at(bus, number, variable.location) {
            return count_in(variable.initial);
        }
    }
    0
}

/// What the count of each source begins at.
pub(crate) fn first_counts(alloc: Global, plan: &Plan) -> Result<Vec<u16>, AllocError>
    ensures { IfOk result (λ counts.
        CountsFollow plan.now.globals plan.now.sources [] counts.items) }
{
    let mut counts = Vec::new(alloc);
    for bound in plan.sources() {
        counts.push(first_count(plan, bound.bus, bound.number))?;
    }
    Ok(counts)
}
