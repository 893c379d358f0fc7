//! A run that goes on from what another one left.

ghost use Rattle.std.specs.Prelude.{◌≡◌, ◌+◌, MatchOption, MatchResult};
ghost use Rattle.workers.specs.Runs.{HasGoneOn, HasGoneOnBy, IsNotGoneOn, IsNotGoneOnBy};
ghost use Rattle.workers.specs.Starts.{IsMore};

use crate::closed::{Closed, NotGoneOn};
use crate::going_on::run_under;
use buslink::{Bus, Clock};
use limits::MOST_TOTAL;
use plant::{LEAST_LIMIT, MOST_LIMIT, OpenFault};
use plantturns::Gate;
use std::alloc::Global;
use std::sync::Wait;
use std::thread::Threads;
use std::time::Clock as Timer;

/// Goes on from what a run left, with the same plant, buses and clock and as many scan workers,
/// until the clock gives no moment more, the history is full, or memory or threads are wanting. The
/// old history is a front of the new one. All else is as `run` says it.
///
/// # Errors
///
/// The limit is below the one before or above 1,000,000; else the allocator is out of memory. What
/// was left comes back unchanged.
pub fn run_again<B: Bus + Send, C: Clock + Send, G: Gate, R: Threads + Wait + Timer + Sync>(
    rt: &R,
    alloc: Global,
    closed: Closed<B, C>,
    limit: u64,
    gate: &G,
) -> Result<Closed<B, C>, NotGoneOn<B, C>>
    ensures gone_on { MatchResult result (HasGoneOn limit B.log C.log closed)
        (IsNotGoneOn limit closed) }
{
    let _events = closed.plant().len();
    if limit < closed.plant().limit() || limit > MOST_LIMIT {
        let fault = OpenFault::Limit;
        return Err(NotGoneOn { fault, closed });
    }
    run_under(rt, alloc, closed, limit, gate)
}

/// The limit of a history for the given number of events more, where so many of its places are
/// used.
fn limit_for(past: u64, more: u64) -> Option<u64>
    ensures { MatchOption result (¬ IsMore past more)
        (λ limit. (limit ≡ past + more) × IsMore past more) }
{
    if more < LEAST_LIMIT || more > MOST_LIMIT {
        return None;
    }
    let limit = past.checked_add(more)?;
    (limit <= MOST_TOTAL).then_some(limit)
}

/// Goes on from what a run left as `run_again` does, by the given number of events more: its limit
/// is as much above the places of the history that are used. Its cells are those of the new events
/// alone, so that a plant may go on for as long as a building wants it.
///
/// # Errors
///
/// The events are not 100 to 1,000,000, or with the places that are used more than 2^59; else the
/// allocator is out of memory. What was left comes back unchanged.
pub fn go_on<B: Bus + Send, C: Clock + Send, G: Gate, R: Threads + Wait + Timer + Sync>(
    rt: &R,
    alloc: Global,
    closed: Closed<B, C>,
    more: u64,
    gate: &G,
) -> Result<Closed<B, C>, NotGoneOn<B, C>>
    ensures gone_on { MatchResult result (HasGoneOnBy more B.log C.log closed)
        (IsNotGoneOnBy more closed) }
{
    let Some(limit) = limit_for(closed.plant().used_places(), more) else {
        let fault = OpenFault::Limit;
        return Err(NotGoneOn { fault, closed });
    };
    run_under(rt, alloc, closed, limit, gate)
}
