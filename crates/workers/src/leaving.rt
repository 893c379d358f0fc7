//! What is left after the clock came to its end, done on the caller's thread.

ghost use Rattle.std.specs.Prelude.{◌≡◌, ◌<◌, List, true, length, map, vec_len};
ghost use Rattle.buslink.specs.BusLog.{BusLog};
ghost use Rattle.buslink.specs.ClockLog.{ClockLog};
ghost use Rattle.plantevents.specs.Plants.{Plant as Planted};
ghost use Rattle.plant.specs.Shown.{is_full};
ghost use Rattle.plantturns.specs.Tied.{IsFront};
ghost use Rattle.plantturns.specs.Quiet.{IsQuiet};
ghost use Rattle.workers.specs.Closings.{IsClosed};
ghost use Rattle.workers.specs.declared.ended.Ended.TheVariants.{Asked, Limit};

use crate::closed::ClosedParts;
use crate::closed_plant::ClosedPlant;
use crate::ended::Ended;
use buslink::{Bus, Clock};
use plantturns::{Gate, Passing, settle};
use std::alloc::Global;

/// Does what is left where the clock came to its end: scans, sends and hears until there is nothing
/// left to be done, the history is full, or memory is wanting.
pub(crate) fn leave<B: Bus, C: Clock, G: Gate>(
    alloc: Global,
    gate: &G,
    closed: ClosedParts<B, C>,
) -> ClosedParts<B, C>
    requires workers { 0 < closed.plant.plant.workers }
    requires count { vec_len closed.buses ≡ closed.plant.plant.plan.buses }
    ensures closed { (p : Planted) (logs : List BusLog) (first : ClockLog)
        → IsClosed p logs first B.log C.log closed → IsClosed p logs first B.log C.log result }
    ensures left { (p : Planted) (logs : List BusLog) (first : ClockLog)
        → IsClosed p logs first B.log C.log closed → result.ended ≡ Asked
        → IsQuiet result.plant logs (map B.log result.buses.items) }
    ensures clock { result.clock ≡ closed.clock }
    ensures asked { result.ended ≡ Asked → closed.ended ≡ Asked }
    ensures front { IsFront closed.plant.history result.plant.history }
    ensures limit { result.plant.limit ≡ closed.plant.limit }
    ensures full { (closed.ended ≡ Limit → is_full closed.plant ≡ true) → result.ended ≡ Limit
        → is_full result.plant ≡ true }
    ensures count { length result.buses.items ≡ vec_len closed.buses }
{
    let ClosedParts {
        plant,
        mut buses,
        clock,
        ended,
    } = closed;
    if !matches!(ended, Ended::Asked) {
        return ClosedParts {
            plant,
            buses,
            clock,
            ended,
        };
    }
    let mut plant = plant.into_plant();
    let mut passing = Passing { gate };
    let ended = match settle(alloc, &mut plant, &mut buses, &mut passing) {
        Ok(()) => Ended::Asked,
        Err(error) => Ended::from(error),
    };
    let _events = plant.len();
    ClosedParts {
        plant: ClosedPlant { plant },
        buses,
        clock,
        ended,
    }
}
