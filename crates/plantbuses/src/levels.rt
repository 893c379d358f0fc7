//! The levels at which global variables are located.

ghost use Rattle.std.specs.Prelude.{◌≡◌, ◌<◌, ◌≤◌, IfSome, length};
ghost use Rattle.plantbuses.specs.OutputSteps.{level_of, place_in};

use ilplan::{Location, Plan};

/// The bus and the address of the level that this is.
fn level_place(location: Option<Location>) -> Option<(u8, u8)>
    ensures value { result ≡ place_in location }
{
    match location {
        Some(Location::Level { bus, address }) => Some((bus, address)),
        _ => None,
    }
}

/// The bus and the address of the level at which a global variable is located.
pub(crate) fn level_of(plan: &Plan, global: usize) -> Option<(u8, u8)>
    requires { global < length plan.now.globals }
    ensures value { result ≡ level_of plan.now global }
    ensures known { IfSome result (λ place. (place.0 < plan.now.buses) × (place.1 ≤ 80)) }
{
    let _lawful = plan.buses();
    level_place(plan.global(global).location)
}
