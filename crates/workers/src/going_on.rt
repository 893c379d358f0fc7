//! What all runs do that go on from what another one left.

ghost use Rattle.std.specs.Prelude.{◌≡◌, ◌+◌, ◌≤◌, length, IfErr, IfOk};
ghost use Rattle.limits.specs.Limits.{most_total};
ghost use Rattle.plant.specs.Shown.{kept};
ghost use Rattle.plant.specs.declared.open_fault.OpenFault.TheVariants.{Memory};
ghost use Rattle.plantturns.specs.Open.{HasNothingOpen};
ghost use Rattle.workers.specs.Runs.{GoesOn};

use crate::beginning::NotBegun;
use crate::closed::{Closed, ClosedParts, NotGoneOn};
use crate::closed_plant::ClosedPlant;
use crate::ended::Ended;
use crate::running::{new_cells, run_named};
use buslink::{Bus, Clock};
use plant::OpenFault;
use planttallies::NewTallies;
use plantturns::Gate;
use std::alloc::Global;
use std::marker::Brand;
use std::sync::Wait;
use std::thread::Threads;
use std::time::Clock as Timer;

/// What was to go on, as it was before, with this limit.
fn as_before<B: Bus, C: Clock>(
    refused: NotBegun<B, C>,
    limit: u64,
    ended: Ended,
) -> ClosedParts<B, C>
    requires idle { HasNothingOpen refused.plant }
    requires room { length refused.plant.history + kept refused.plant ≤ limit }
    requires most { limit ≤ most_total }
    ensures plant { result.plant ≡ record refused.plant { limit = limit } }
    ensures links { (result.buses ≡ refused.lines) × (result.clock ≡ refused.clock) }
    ensures ended { result.ended ≡ ended }
{
    let NotBegun {
        mut plant,
        lines,
        clock,
    } = refused;
    plant.set_limit(limit);
    ClosedParts {
        plant: ClosedPlant { plant },
        buses: lines,
        clock,
        ended,
    }
}

/// Goes on under a limit that has room for what the history uses. The cells are those of the events
/// that come.
///
/// # Errors
///
/// The allocator is out of memory. What was left comes back unchanged.
pub(crate) fn run_under<B: Bus + Send, C: Clock + Send, G: Gate, R: Threads + Wait + Timer + Sync>(
    rt: &R,
    alloc: Global,
    closed: Closed<B, C>,
    limit: u64,
    gate: &G,
) -> Result<Closed<B, C>, NotGoneOn<B, C>>
    requires room { length closed.plant.history + kept closed.plant ≤ limit }
    requires most { limit ≤ most_total }
    ensures ok { IfOk result (GoesOn limit B.log C.log closed) }
    ensures err { IfErr result (λ e. (e.fault ≡ Memory) × (e.closed ≡ closed)) }
{
    let before = closed.plant().limit();
    let events = closed.plant().len();
    let _buses = closed.plant().setup().plan().buses();
    let Ok(cells) = new_cells(alloc, limit - events) else {
        let fault = OpenFault::Memory;
        return Err(NotGoneOn { fault, closed });
    };
    let ClosedParts {
        plant,
        buses,
        clock,
        ended,
    } = closed.into_parts();
    let mut plant = plant.into_plant();
    plant.set_limit(limit);
    let run = run_named::<B, C, Brand, Brand, G, R>(
        rt,
        alloc,
        plant,
        cells.as_slice(),
        NewTallies::new(),
        buses,
        clock,
        gate,
    );
    match run {
        Ok(left) => Ok(left),
        Err(refused) => {
            let fault = OpenFault::Memory;
            let parts = as_before(refused, before, ended);
            let closed = Closed { parts };
            Err(NotGoneOn { fault, closed })
        }
    }
}
