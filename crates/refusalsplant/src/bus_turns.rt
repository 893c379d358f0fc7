//! Turns of buses and of the clock.

ghost use Rattle.std.specs.Prelude.{◌≡◌, ◌<◌, [], Ok, OnOk, false, true};
ghost use Rattle.buslink.specs.BusLog.{one_more};
ghost use Rattle.plantevents.specs.Parts.{shown_down, shown_given, shown_heard, shown_sent};
ghost use Rattle.plantreceipts.specs.Receipts.{whole};
ghost use Rattle.plantdriving.specs.Links.{log_of};
ghost use Rattle.plantturns.specs.Logs.{IsServed, IsTimed};

use buslink::{Bus, Clock};
use plantdriving::{Halt, Observer};
use plantlock::{LockStart, Shared};
use planttallies::{Tallies, Tally};
use plantturns::{
    BusWithShare, ClockWithShare, Links, Turn, come_up, hear_turn, send_turn, tick_once,
};
use std::sync::Wait;

/// `what_was_heard_is_forgotten`: a bus heard a frame, and its Share had no receipt of it.
pub fn heard_frames_have_receipts<
    'a,
    B: Bus,
    J: LockStart + Links,
    T: Tally,
    K: Tallies<T>,
    O: Observer<B>,
    R: Wait,
>(
    rt: &R,
    observer: &mut O,
    shared: &Shared<'a, J, T, K>,
    served: &mut BusWithShare<'a, B, J, T>,
) -> Result<Turn, Halt>
    requires served { IsServed (log_of J.buses 0) 0 served.old.share (B.log served.old.line) }
    requires none { (log_of J.buses 0).heard ≡ [] }
    ensures { (B.log served.new.line).heard ≡ shown_heard (whole served.new.share) }
{
    hear_turn(rt, observer, shared, 0, served)
}

/// `a_bus_is_idle_without_being_asked`: a turn that hears ended well, and the bus was not asked.
pub fn bus_is_asked_to_hear<
    'a,
    B: Bus,
    J: LockStart + Links,
    T: Tally,
    K: Tallies<T>,
    O: Observer<B>,
    R: Wait,
>(
    rt: &R,
    observer: &mut O,
    shared: &Shared<'a, J, T, K>,
    served: &mut BusWithShare<'a, B, J, T>,
) -> Result<Turn, Halt>
    requires served { IsServed (log_of J.buses 0) 0 served.old.share (B.log served.old.line) }
    requires up { shown_down (whole served.old.share) ≡ false }
    requires asked { (B.log served.old.line).hears ≡ 7 }
    ensures { OnOk result (7 < (B.log served.new.line).hears) }
{
    hear_turn(rt, observer, shared, 0, served)
}

/// `a_transaction_is_sent_twice_and_reported_once`: a bus sent frames of which its Share had no
/// receipt.
pub fn sent_frames_have_receipts<
    'a,
    B: Bus,
    J: LockStart + Links,
    T: Tally,
    K: Tallies<T>,
    O: Observer<B>,
    R: Wait,
>(
    rt: &R,
    observer: &mut O,
    shared: &Shared<'a, J, T, K>,
    served: &mut BusWithShare<'a, B, J, T>,
) -> Result<Turn, Halt>
    requires served { IsServed (log_of J.buses 0) 0 served.old.share (B.log served.old.line) }
    requires none { (log_of J.buses 0).sent ≡ [] }
    ensures { (B.log served.new.line).sent ≡ shown_sent (whole served.new.share) }
{
    send_turn(rt, observer, shared, 0, served)
}

/// `a_bus_comes_up_and_is_not_taken_up`: a bus came up by its receipts, and its interface was not
/// taken up.
pub fn bus_that_comes_up_is_taken_up<
    'a,
    B: Bus,
    J: LockStart + Links,
    T: Tally,
    K: Tallies<T>,
    O: Observer<B>,
    R: Wait,
>(
    rt: &R,
    observer: &mut O,
    shared: &Shared<'a, J, T, K>,
    served: &mut BusWithShare<'a, B, J, T>,
) -> Result<Turn, Halt>
    requires { IsServed (log_of J.buses 0) 0 served.old.share (B.log served.old.line) }
    ensures { result ≡ Ok Turn.Busy
        → (B.log served.new.line).mends ≡ one_more (B.log served.old.line).mends }
{
    come_up(rt, observer, shared, 0, served)
}

/// `a_bus_comes_up_without_being_asked`: a bus that was not down was idle, and its interface had
/// not said that it answers.
pub fn bus_is_asked_before_it_comes_up<
    'a,
    B: Bus,
    J: LockStart + Links,
    T: Tally,
    K: Tallies<T>,
    O: Observer<B>,
    R: Wait,
>(
    rt: &R,
    observer: &mut O,
    shared: &Shared<'a, J, T, K>,
    served: &mut BusWithShare<'a, B, J, T>,
) -> Result<Turn, Halt>
    requires served { IsServed (log_of J.buses 0) 0 served.old.share (B.log served.old.line) }
    requires unasked { (B.log served.old.line).is_mended ≡ false }
    ensures { result ≡ Ok Turn.Idle → (B.log served.new.line).is_mended ≡ true }
{
    come_up(rt, observer, shared, 0, served)
}

/// `a_bus_that_answers_stays_down`: bus 1 stayed down, and its interface had said that it answers.
pub fn bus_that_stays_down_does_not_answer<
    'a,
    B: Bus,
    J: LockStart + Links,
    T: Tally,
    K: Tallies<T>,
    O: Observer<B>,
    R: Wait,
>(
    rt: &R,
    observer: &mut O,
    shared: &Shared<'a, J, T, K>,
    served: &mut BusWithShare<'a, B, J, T>,
) -> Result<Turn, Halt>
    requires { IsServed (log_of J.buses 1) 1 served.old.share (B.log served.old.line) }
    ensures { result ≡ Ok Turn.Down → (B.log served.new.line).is_mended ≡ false }
{
    come_up(rt, observer, shared, 1, served)
}

/// `another_moment_is_noted`: the clock gave a moment, and its Share had a receipt of another one.
pub fn given_moments_have_receipts<
    'a,
    B,
    C: Clock,
    J: LockStart + Links,
    T: Tally,
    K: Tallies<T>,
    O: Observer<B>,
    R: Wait,
>(
    rt: &R,
    observer: &mut O,
    shared: &Shared<'a, J, T, K>,
    timed: &mut ClockWithShare<'a, C, J, T>,
) -> Result<bool, Halt>
    requires timed { IsTimed J.clock timed.old.share (C.log timed.old.clock) }
    requires none { J.clock.given ≡ [] }
    ensures { (C.log timed.new.clock).given ≡ shown_given (whole timed.new.share) }
{
    tick_once::<B, C, J, T, K, O, R>(rt, observer, shared, timed)
}

/// `the_clock_ends_without_being_asked`: the clock had come to its end, and was not asked.
pub fn clock_is_asked_before_its_end<
    'a,
    B,
    C: Clock,
    J: LockStart + Links,
    T: Tally,
    K: Tallies<T>,
    O: Observer<B>,
    R: Wait,
>(
    rt: &R,
    observer: &mut O,
    shared: &Shared<'a, J, T, K>,
    timed: &mut ClockWithShare<'a, C, J, T>,
) -> Result<bool, Halt>
    requires timed { IsTimed J.clock timed.old.share (C.log timed.old.clock) }
    requires unasked { (C.log timed.old.clock).gave_none ≡ false }
    ensures { result ≡ Ok false → (C.log timed.new.clock).gave_none ≡ true }
{
    tick_once::<B, C, J, T, K, O, R>(rt, observer, shared, timed)
}
