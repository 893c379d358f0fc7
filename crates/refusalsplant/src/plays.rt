//! Plays of scenarios.

ghost use Rattle.std.specs.Prelude.{◌≡◌, ◌⊎◌, ◌<◌, [], ◌∷◌, IfOk, false, true};
ghost use Rattle.wordlines.specs.Happenings.{happenings, ticks};
ghost use Rattle.plantevents.specs.Histories.{given_in, heard_in, is_down, moment};
ghost use Rattle.plant.specs.Shown.{is_full};
ghost use Rattle.plantplay.specs.ByScenario.{events_on};
ghost use Rattle.plantplay.specs.Installations.{IsInstallation};

use ilcompile::Setup;
use plantdriving::Observer;
use plantplay::{Ending, Installation, play_on, plays_are_by_scenario};
use simbus::{Scenario, SimBus};
use std::alloc::Global;
use std::io;
use wordlines::Happening;

/// `a_play_stops_after_the_first_line`: a play was whole, and its plant had come to the first of
/// two ticks. `a_full_history_ends_a_play_as_whole`: so it was where the history had no place for
/// the second.
pub fn whole_play_has_each_tick<O: Observer<SimBus>>(
    alloc: Global,
    setup: &Setup,
    limit: u64,
    installation: &mut Installation<SimBus>,
    scenario: &Scenario,
    observer: &mut O,
) -> io::Result<Ending>
    requires start { IsInstallation setup.now scenario.now limit installation.old }
    requires ticks { ticks scenario.now ≡ 5 ∷ 9 ∷ [] }
    ensures { IfOk result (λ ending. ending ≡ Ending.Whole
        → given_in installation.new.plant.history ≡ 5 ∷ 9 ∷ []) }
{
    plays_are_by_scenario();
    play_on(alloc, installation, scenario, observer)
}

/// `what_comes_comes_on_the_bus_before`: what the scenario has for bus 1 was not heard there.
pub fn event_is_heard_on_its_bus<O: Observer<SimBus>>(
    alloc: Global,
    setup: &Setup,
    limit: u64,
    installation: &mut Installation<SimBus>,
    scenario: &Scenario,
    observer: &mut O,
) -> io::Result<Ending>
    requires start { IsInstallation setup.now scenario.now limit installation.old }
    requires known { 1 < setup.now.plan.buses }
    requires event { events_on 1 scenario.now ≡ 7 ∷ [] }
    ensures { IfOk result (λ ending. ending ≡ Ending.Whole
        → is_down 1 installation.new.plant.history ≡ false
        → heard_in 1 installation.new.plant.history ≡ 7 ∷ []) }
{
    plays_are_by_scenario();
    play_on(alloc, installation, scenario, observer)
}

/// `it_ends_at_its_limit_after_a_day`: a play ended since the history was full, and it was not: the
/// moment was one after the first day.
pub fn play_ends_at_its_limit_where_it_is_full<O: Observer<SimBus>>(
    alloc: Global,
    installation: &mut Installation<SimBus>,
    scenario: &Scenario,
    observer: &mut O,
) -> io::Result<Ending>
    requires { happenings scenario.now ≡ Happening.Tick 90000000 ∷ [] }
    ensures { IfOk result (λ ending. ending ≡ Ending.Limit
        → (is_full installation.new.plant ≡ true)
        ⊎ (90000000 < moment installation.new.plant.history)) }
{
    play_on(alloc, installation, scenario, observer)
}
