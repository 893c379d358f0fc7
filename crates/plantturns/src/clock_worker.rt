//! A turn of the worker of the clock.

ghost use Rattle.std.specs.Prelude.{◌≡◌, false, IfOk};
ghost use Rattle.plantturns.specs.Logs.{HasEnded, IsTimed};

use crate::links::Links;
use buslink::Clock;
use plantdriving::{Halt, Happened, Observer};
use plantlock::{LockStart, Share, Shared};
use planttallies::{Tallies, Tally};
use std::sync::Wait;

/// The clock with its Share.
#[derive(Drop)]
pub struct ClockWithShare<'a, C: Clock, J: LockStart, T: Tally> {
    pub clock: C,
    pub share: Share<'a, J, T>,
}

/// Keeps a place back under the lock, asks the clock outside the lock, and notes the moment under
/// the lock. Answers whether the clock gave one; if not, it was asked here and came to its end.
/// What it gave stays what the Share has receipts for.
///
/// # Errors
///
/// The history is full: the clock was not asked. Or an observer failed, once the moment was noted.
#[tactic(auto, using(plantdriving::proofs::Counts::grown_by_one))]
pub fn tick_once<
    'a,
    B,
    C: Clock,
    J: LockStart + Links,
    T: Tally,
    K: Tallies<T>,
    O: Observer<B>,
    R: Wait,
>(
    rt: &R,
    observer: &mut O,
    shared: &Shared<'a, J, T, K>,
    timed: &mut ClockWithShare<'a, C, J, T>,
) -> Result<bool, Halt>
    requires timed { IsTimed J.clock timed.old.share (C.log timed.old.clock) }
    ensures timed { IsTimed J.clock timed.new.share (C.log timed.new.clock) }
    ensures ended { IfOk result (λ given. given ≡ false
        → HasEnded J.clock (C.log timed.new.clock)) }
{
    shared.may_tick(rt, &mut timed.share)?;
    let Some(moment) = timed.clock.now() else {
        return Ok(false);
    };
    let Ok(()) = shared.tick(rt, &mut timed.share, moment) else {
        unreachable!()
    };
    observer.note(timed.share.last_place(), Happened::Ticked { moment })?;
    Ok(true)
}
