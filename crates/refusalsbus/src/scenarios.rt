//! Files of scenarios.

ghost use Rattle.std.specs.Prelude.{◌≡◌, Err, true};

use std::alloc::Global;
use wordlines::{LineCause, LineFault, Scenario, ScenarioFault, Statement, parse};

/// `gear_after_an_event_at_0_accepted`: after an event gear might be declared, before the first
/// tick.
pub fn gear_after_an_event_is_refused(alloc: Global) -> bool
    ensures { result ≡ true }
{
    parse(alloc, b"event 0 000000\ngear 0 0").is_err()
}

/// `lines_counted_from_0`: the first line had the number 0.
pub fn no_line_has_number_0(alloc: Global, bytes: &[u8]) -> Result<Scenario, ScenarioFault>
    ensures { ¬ (result ≡ Err (LineFault.At 0 LineCause.BadLine)) }
{
    parse(alloc, bytes)
}

/// `reply_at_place_0_accepted`: the frames of a bus were counted from 0.
pub fn reply_at_place_0_is_refused(alloc: Global) -> bool
    ensures { result ≡ true }
{
    parse(alloc, b"reply 0 0 lost").is_err()
}

/// `falling_tick_accepted`: the clock might go back to 0.
pub fn falling_tick_is_refused(alloc: Global) -> bool
    ensures { result ≡ true }
{
    parse(alloc, b"tick 5\ntick 0").is_err()
}

/// `ticks_without_time_between_them`: a line might come to one moment without an end.
pub fn ticks_without_time_between_them_are_refused(alloc: Global) -> bool
    ensures { result ≡ true }
{
    parse(alloc, b"ticks 0 5 0").is_err()
}

/// A scene might stand before the groups.
pub fn group_behind_a_scene_is_refused(alloc: Global) -> bool
    ensures { result ≡ true }
{
    parse(alloc, b"gear 0 5 scene 1 9 group 1").is_err()
}

/// `group_taken_as_scene`: `scene 1` without a level put gear into group 1.
pub fn scene_without_a_level_is_refused(alloc: Global) -> bool
    ensures { result ≡ true }
{
    parse(alloc, b"gear 0 5 scene 1").is_err()
}

/// `scene_without_a_level_begins_at_0`: gear had a level in a scene of which nothing is said.
pub fn scene_that_is_not_said_has_no_level(alloc: Global) -> u8
    ensures { result ≡ 255 }
{
    match parse(alloc, b"gear 0 5") {
        Ok(scenario) => match scenario.lines().first() {
            Some(Statement::Gear { start, .. }) => start.scenes[15],
            _ => 255,
        },
        Err(_) => 255,
    }
}

/// `last_moment_of_ticks_left_out`, `one_tick_too_many`: a line of two ticks said one, or three.
pub fn ticks_from_0_to_5_are_two(alloc: Global) -> usize
    ensures { result ≡ 2 }
{
    match parse(alloc, b"ticks 0 5 5") {
        Ok(scenario) => scenario.lines().len(),
        Err(_) => 2,
    }
}

/// `one_statement_over_the_most`: a line said one tick more than a scenario may have statements.
pub fn one_tick_over_the_most_is_refused(alloc: Global) -> bool
    ensures { result ≡ true }
{
    parse(alloc, b"ticks 0 149796 1").is_err()
}
