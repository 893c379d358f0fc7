//! Running a scenario.

ghost use Rattle.std.specs.Prelude.{◌≡◌, ◌≤◌, IfErr, IfOk};
ghost use Rattle.limits.specs.Limits.{most_buses};
ghost use Rattle.plantplay.specs.Installations.{IsStartFault};
ghost use Rattle.plantrun.specs.Runs.{IsRun};

use crate::staging::{Cast, cast_of, off_stage};
use ilcompile::Setup;
use plant::StartFault;
use simbus::{Scenario, Scene, ScriptedClock, SimBus};
use std::alloc::Global;
use std::marker::Brand;
use std::sync::Wait;
use std::thread::Threads;
use std::time::Clock as Timer;
use workers::{Closed, OpenGate, Opening};

/// Runs the plant of a setup on the simulated buses of a scenario, until the scenario's clock gives
/// no moment more and nothing is left to do, or it cannot go on. All that a bus is to hear waits
/// for it from the start, since a thread has it.
///
/// # Errors
///
/// The allocator is out of memory, there are not 1 to 16 scan workers, or the limit is not 100 to
/// 1,000,000, or below 500 with more than 16 buses.
pub fn run<R: Threads + Wait + Timer + Sync>(
    rt: &R,
    alloc: Global,
    setup: Setup,
    scenario: &Scenario,
    limit: u64,
    workers: usize,
) -> Result<Closed<SimBus, ScriptedClock>, StartFault>
    ensures run { IfOk result (IsRun setup scenario.now workers limit) }
    ensures fault { IfErr result (IsStartFault setup.plan.buses workers limit) }
{
    run_on_stage::<Brand, R>(rt, alloc, setup, scenario, limit, workers)
}

/// The same, where the scenario is that of a type: so each bus that comes back is known to be one
/// of the scenario's.
fn run_on_stage<S: Scene + Send, R: Threads + Wait + Timer + Sync>(
    rt: &R,
    alloc: Global,
    setup: Setup,
    scenario: &Scenario,
    limit: u64,
    workers: usize,
) -> Result<Closed<SimBus, ScriptedClock>, StartFault>
    requires scene { scenario.now ≡ S.statements }
    ensures run { IfOk result (IsRun setup scenario.now workers limit) }
    ensures fault { IfErr result (IsStartFault setup.plan.buses workers limit) }
{
    let Cast { buses, room } = cast_of::<S>(alloc, setup.plan().buses(), scenario)?;
    let clock = ScriptedClock::of(alloc, scenario)?;
    let opening = Opening { setup, limit };
    match workers::run(rt, alloc, opening, buses, clock, workers, &OpenGate) {
        Ok(left) => Ok(off_stage(left, room)),
        Err(refused) => Err(StartFault::Plant(refused.fault)),
    }
}
