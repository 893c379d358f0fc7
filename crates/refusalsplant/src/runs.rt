//! Runs of scenarios in threads.

ghost use Rattle.std.specs.Prelude.{◌≡◌, ◌≢◌, ◌<◌, [], ◌∷◌, IfErr, IfOk, Some, false, slice_get};
ghost use Rattle.wordlines.specs.Happenings.{ticks};
ghost use Rattle.simbus.specs.Simulated.{Simulated};
ghost use Rattle.plantevents.specs.Histories.{given_in, heard_in, is_down};
ghost use Rattle.plantrun.specs.Scenes.{events_on};
ghost use Rattle.workers.specs.declared.ended.Ended.TheVariants.{Asked};

use ilcompile::Setup;
use plant::{OpenFault, StartFault};
use plantrun::run;
use simbus::{Scenario, ScriptedClock, SimBus};
use std::alloc::Global;
use std::sync::Wait;
use std::thread::Threads;
use std::time::Clock as Timer;
use workers::Closed;

/// `the_first_tick_is_dropped`: the clock's first moment was not in the history of a whole run.
pub fn whole_run_has_each_tick<R: Threads + Wait + Timer + Sync>(
    rt: &R,
    alloc: Global,
    setup: Setup,
    scenario: &Scenario,
) -> Result<Closed<SimBus, ScriptedClock>, StartFault>
    requires { ticks scenario.now ≡ 5 ∷ 9 ∷ [] }
    ensures { IfOk result (λ left. left.ended ≡ Asked
        → given_in left.plant.history ≡ 5 ∷ 9 ∷ []) }
{
    run(rt, alloc, setup, scenario, 1000, 2)
}

/// `only_the_first_event_comes`: the second of two events of a bus was not heard in a whole run.
pub fn whole_run_has_each_event<R: Threads + Wait + Timer + Sync>(
    rt: &R,
    alloc: Global,
    setup: Setup,
    scenario: &Scenario,
) -> Result<Closed<SimBus, ScriptedClock>, StartFault>
    requires known { 0 < setup.plan.buses }
    requires events { events_on 0 scenario.now ≡ 7 ∷ 8 ∷ [] }
    ensures { IfOk result (λ left. left.ended ≡ Asked → is_down 0 left.plant.history ≡ false
        → heard_in 0 left.plant.history ≡ 7 ∷ 8 ∷ []) }
{
    run(rt, alloc, setup, scenario, 1000, 2)
}

/// `the_first_bus_is_left_out`: a run did not start for its counts, since a bus of the plan was not
/// there.
pub fn each_bus_of_the_plan_is_there<R: Threads + Wait + Timer + Sync>(
    rt: &R,
    alloc: Global,
    setup: Setup,
    scenario: &Scenario,
) -> Result<Closed<SimBus, ScriptedClock>, StartFault>
    ensures { IfErr result (λ fault. fault ≢ StartFault.Plant OpenFault.BadCount) }
{
    run(rt, alloc, setup, scenario, 1000, 2)
}

/// `two_buses_are_exchanged`: the first bus of a run had another number.
pub fn first_bus_has_number_0<R: Threads + Wait + Timer + Sync>(
    rt: &R,
    alloc: Global,
    setup: Setup,
    scenario: &Scenario,
) -> Result<Closed<SimBus, ScriptedClock>, StartFault>
    ensures { IfOk result (λ left. (bus : Simulated)
        → slice_get left.buses.items 0 ≡ Some bus → bus.log.number ≡ 0) }
{
    run(rt, alloc, setup, scenario, 1000, 2)
}
