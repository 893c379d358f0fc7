//! One run after another.

ghost use Rattle.std.specs.Prelude.{ℕ, List, MatchResult};
ghost use Rattle.buslink.specs.BusLog.{BusLog};
ghost use Rattle.buslink.specs.ClockLog.{ClockLog};
ghost use Rattle.plantevents.specs.Plants.{Plant};
ghost use Rattle.plant.specs.Shown.{IsLimit, used};
ghost use Rattle.workers.specs.declared.ended.Ended.TheVariants.{Limit};
ghost use Rattle.workers.specs.Runs.{IsNotStarted};
ghost use Rattle.workers.specs.Starts.{IsMoreFault};
ghost use Rattle.plantlive.specs.Lives.{HasLived, IsEnd};
ghost use Rattle.plantlive.specs.LivesSteps.{IsSince};

use buslink::{Bus, Clock};
use plant::OpenFault;
use std::alloc::Global;
use std::sync::Wait;
use std::thread::Threads;
use std::time::Clock as Timer;
use workers::{Closed, Ended, Gate, NotGoneOn, NotStarted, Opening, go_on, run};

/// What all runs of a plant left, and why no other one follows.
#[derive(Drop)]
pub struct Lived<B: Bus, C: Clock> {
    /// What the last run left. Its history is that of all runs.
    pub left: Closed<B, C>,
    /// Why no other run follows: as the last one ended. [`Ended::Limit`] only where the history may
    /// have no events more, [`Ended::NoMemory`] also where there was no memory for those of another
    /// run.
    pub ended: Ended,
}

/// Why no other run follows one whose history is full, where going on was refused for this reason.
fn end_of(fault: OpenFault) -> Ended
    ensures { (past more : ℕ) → IsLimit more → IsMoreFault past more fault
        → IsEnd past more Limit result }
{
    match fault {
        OpenFault::Memory => Ended::NoMemory,
        OpenFault::BadCount | OpenFault::Limit => Ended::Limit,
    }
}

/// Goes on by the given number of events from what a run left, then from what that one left, while
/// the history is full and may have more, and there is memory.
fn go_on_while_full<B: Bus + Send, C: Clock + Send, G: Gate, R: Threads + Wait + Timer + Sync>(
    rt: &R,
    alloc: Global,
    left: Closed<B, C>,
    more: u64,
    gate: &G,
) -> Lived<B, C>
    requires more { IsLimit more }
    ensures since { (p : Plant) (logs : List BusLog) (first : ClockLog)
        → IsSince p logs first B.log C.log left → IsSince p logs first B.log C.log result.left }
    ensures why { IsEnd (used result.left.plant) more result.left.ended result.ended }
{
    let mut left = left;
    for _ in rt.forever() {
        let ended = left.ending();
        if !matches!(ended, Ended::Limit) {
            return Lived { left, ended };
        }
        match go_on(rt, alloc, left, more, gate) {
            Ok(next) => left = next,
            Err(NotGoneOn { fault, closed }) => {
                return Lived {
                    left: closed,
                    ended: end_of(fault),
                };
            }
        }
    }
    unreachable!()
}

/// Runs a plant over its buses and its clock as `workers::run` does, with the given number of
/// events as the limit says, and goes on by as many whenever the history is full: until the clock
/// gives no moment more, memory or a thread is refused, or the history has the most events that it
/// may have, 2^59. Plant, buses and clock are the same in all runs, and so is the history: what
/// goes over a link in any run stands in it.
///
/// # Errors
///
/// Those of `workers::run`. Nothing was sent, heard or asked.
pub fn live<B: Bus + Send, C: Clock + Send, G: Gate, R: Threads + Wait + Timer + Sync>(
    rt: &R,
    alloc: Global,
    opening: Opening,
    buses: Vec<B>,
    clock: C,
    workers: usize,
    gate: &G,
) -> Result<Lived<B, C>, NotStarted<B, C>>
    ensures lived { MatchResult result
        (HasLived opening.setup workers opening.limit buses.items clock B.log C.log)
        (IsNotStarted opening.setup workers opening.limit buses.items clock) }
{
    let events = opening.limit;
    let left = run(rt, alloc, opening, buses, clock, workers, gate)?;
    Ok(go_on_while_full(rt, alloc, left, events, gate))
}
