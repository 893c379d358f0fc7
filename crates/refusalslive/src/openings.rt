//! A building before it runs: its lines, its clock, and what stands against it.

ghost use Rattle.std.specs.Prelude.{◌≡◌, ◌<◌, All, IfOk, IfSome, None, OnOk, Some, codes, false};
ghost use Rattle.std.specs.Prelude.{option_map, slice_get};
ghost use Rattle.std.specs.Arc.{arc_value};
ghost use Rattle.std.specs.List.{Contains};
ghost use Rattle.livehouse.specs.Lineups.{HasNoLine};
ghost use Rattle.commandoptions.specs.declared.line_word.LineWord.{LineWord as Line};

use commandoptions::{LineWord, LiveOptions};
use ilcompile::Setup;
use livehouse::{Building, LiveStop, Site, open};
use plant::{OpenFault, StartFault};
use std::alloc::Global;

/// `each_bus_has_the_line_of_bus_0`, `two_lines_are_exchanged`, `the_patience_is_doubled`: bus 1
/// had the line of another bus, or another patience.
pub fn bus_1_has_the_line_that_names_it<'a, S: Site>(
    alloc: Global,
    site: &S,
    setup: Setup,
    lines: &[LineWord<'a>],
    options: &LiveOptions,
) -> Result<Building<S::Line, S::Clock>, LiveStop>
    ghost line: { Line }
    requires line { All (λ word. word.bus ≡ 1 → word ≡ line) lines.now }
    requires patience { options.now.patience ≡ 700 }
    ensures { IfOk result (λ building.
        IfSome (slice_get building.buses.items 1) (λ bus. S.is_of site.now bus line 700)) }
{
    open(alloc, site, setup, lines, options, 0)
}

/// `all_buses_have_the_number_0`: the second bus had the number 0 too.
pub fn second_bus_has_number_1<'a, S: Site>(
    alloc: Global,
    site: &S,
    setup: Setup,
    lines: &[LineWord<'a>],
    options: &LiveOptions,
) -> Result<Building<S::Line, S::Clock>, LiveStop>
    ensures { IfOk result (λ building.
        IfSome (slice_get building.buses.items 1) (λ bus. (S.Line.log bus).number ≡ 1)) }
{
    open(alloc, site, setup, lines, options, 0)
}

/// `the_period_is_three_times_as_long`, `the_clock_has_another_period`, `it_runs_twice_as_long`,
/// `the_stop_file_is_not_looked_for`, `its_clock_begins_at_zero_again`: the clock had another
/// period, beginning or end, or no path.
pub fn clock_has_the_period_and_the_end_that_are_asked_for<'a, S: Site>(
    alloc: Global,
    site: &S,
    setup: Setup,
    lines: &[LineWord<'a>],
    options: &LiveOptions,
) -> Result<Building<S::Line, S::Clock>, LiveStop>
    requires period { options.now.period ≡ Some 20 }
    requires seconds { options.now.seconds ≡ Some 5 }
    requires stop { option_map (λ path. path.now) options.now.stop ≡ Some (codes "stop") }
    ensures { IfOk result
        (λ building. S.is_timed site.now building.clock 20 3000 8000 (Some (codes "stop"))) }
{
    open(alloc, site, setup, lines, options, 3000)
}

/// `it_ends_where_a_bus_goes_down_though_that_is_not_asked`: a building ended where a bus went
/// down, though it was to stay.
pub fn building_stays_where_no_end_is_asked_for<'a, S: Site>(
    alloc: Global,
    site: &S,
    setup: Setup,
    lines: &[LineWord<'a>],
    options: &LiveOptions,
) -> Result<Building<S::Line, S::Clock>, LiveStop>
    requires { options.now.ends_on_down ≡ false }
    ensures { IfOk result (λ building. (arc_value building.watch).ends ≡ false) }
{
    open(alloc, site, setup, lines, options, 0)
}

/// `a_line_of_no_bus_is_let_through`: of two buses the third might have a line.
pub fn line_of_no_bus_is_refused<'a, S: Site>(
    alloc: Global,
    site: &S,
    setup: Setup,
    lines: &[LineWord<'a>],
    options: &LiveOptions,
) -> Result<Building<S::Line, S::Clock>, LiveStop>
    ghost line: { Line }
    requires buses { setup.plan.buses ≡ 2 }
    requires line { Contains lines.now line }
    requires bus { line.bus ≡ 2 }
    ensures { OnOk result ⊥ }
{
    open(alloc, site, setup, lines, options, 0)
}

/// `bus_0_needs_no_line`: a building was opened in which no line is that of bus 0.
pub fn bus_without_a_line_is_refused<'a, S: Site>(
    alloc: Global,
    site: &S,
    setup: Setup,
    lines: &[LineWord<'a>],
    options: &LiveOptions,
) -> Result<Building<S::Line, S::Clock>, LiveStop>
    requires buses { 0 < setup.plan.buses }
    requires line { HasNoLine 0 lines.now }
    ensures { OnOk result ⊥ }
{
    open(alloc, site, setup, lines, options, 0)
}

/// `few_events_for_many_buses_are_let_through`: of a limit that is too low for the given number of
/// buses it was said that their number is not the plan's.
pub fn low_limit_is_no_bad_count<'a, S: Site>(
    alloc: Global,
    site: &S,
    setup: Setup,
    lines: &[LineWord<'a>],
    options: &LiveOptions,
) -> bool
    ensures { result ≡ false }
{
    matches!(
        open(alloc, site, setup, lines, options, 0),
        Err(LiveStop::Start(StartFault::Plant(OpenFault::BadCount)))
    )
}

/// `a_building_is_over_before_it_begins`: a building did not begin, and the program ended as if all
/// were well, though no file was to end it.
pub fn building_that_no_file_ends_is_not_over<'a, S: Site>(
    alloc: Global,
    site: &S,
    setup: Setup,
    lines: &[LineWord<'a>],
    options: &LiveOptions,
) -> bool
    requires { options.now.stop ≡ None }
    ensures { result ≡ false }
{
    matches!(
        open(alloc, site, setup, lines, options, 0),
        Err(LiveStop::Ended)
    )
}
