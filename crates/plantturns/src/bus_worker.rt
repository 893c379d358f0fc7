//! A turn of the worker of a bus.

ghost use Rattle.std.specs.Prelude.{◌≡◌, ◌≢◌, ℕ, false, OnOk, IfErr};
ghost use Rattle.buslink.specs.declared.marks.Outcome.TheVariants as outcomes;
ghost use Rattle.plantevents.specs.Parts.{shown_down};
ghost use Rattle.plantevents.specs.declared.event.Event.TheVariants.{Down};
ghost use Rattle.plantlock.specs.Receipts.{IsNoted, whole};
ghost use Rattle.plantdriving.specs.Links.{HasGrown, log_of};
ghost use Rattle.plantturns.specs.Handouts.{HasHandedNone};
ghost use Rattle.plantturns.specs.Logs.{HasFailed, IsServed};
ghost use Rattle.plantturns.specs.Outcomes.{ComesUp, SendsTurn, turn_where_refused};
ghost use Rattle.plantturns.specs.TurnSteps.{IsDownWhereFailed, IsTold, IsUnasked, SendsOnce, turn_after};

use crate::links::Links;
use crate::turn::Turn;
use buslink::{Bus, MOST_SENT, Outcome, Report, perform};
use plantdriving::{Halt, Happened, Observer};
use plantlock::{CallRefusal, Handed, LockStart, Share, Shared};
use planttallies::{Tallies, Tally};
use std::io;
use std::sync::Wait;

/// A bus with its Share.
#[derive(Drop)]
pub struct BusWithShare<'a, B: Bus, J: LockStart, T: Tally> {
    pub line: B,
    pub share: Share<'a, J, T>,
}

/// Where there was nothing to do the turn is idle, and where the bus is down it says so.
pub(crate) fn turn_where_refused(halt: Halt) -> Result<Turn, Halt>
    ensures { result ≡ turn_where_refused halt }
{
    match halt {
        Halt::Refused(CallRefusal::NothingReady) => Ok(Turn::Idle),
        Halt::Refused(CallRefusal::BusDown) => Ok(Turn::Down),
        other => Err(other),
    }
}

/// What a turn did, once an observer was told of it.
fn as_told(told: io::Result<()>, turn: Turn) -> Result<Turn, Halt>
    ensures { IsTold turn result }
{
    told?;
    Ok(turn)
}

/// Tells that a transaction was handed to a bus.
fn tell_handed<B, O: Observer<B>>(observer: &mut O, bus: u8, handed: &Handed) -> io::Result<()> {
    let happened = Happened::Handed {
        bus,
        origin: handed.origin,
        transaction: handed.transaction.clone().unwrap(),
    };
    observer.note(handed.number, happened)
}

/// Tells what became of a transaction, unless it failed to tell that the transaction was handed
/// out; and whether its bus went down, at which place of the history.
fn tell_report<B, O: Observer<B>>(
    observer: &mut O,
    handed: io::Result<()>,
    place: u64,
    down: Option<u64>,
    bus: u8,
    report: &Report,
    line: &B,
) -> Result<Turn, Halt>
    ensures { IsTold (turn_after down) result }
{
    handed?;
    let happened = Happened::Reported {
        bus,
        report: report.clone().unwrap(),
    };
    observer.note(place, happened)?;
    observer.note_line(bus, report, line)?;
    match down {
        None => Ok(Turn::Busy),
        Some(place) => as_told(observer.note(place, Happened::WentDown { bus }), Turn::Down),
    }
}

/// Notes under the lock that a bus goes down, since its interface failed. Answers the place of that
/// in the history.
fn go_down<'a, B: Bus, J: LockStart + Links, T: Tally, K: Tallies<T>, R: Wait>(
    rt: &R,
    shared: &Shared<'a, J, T, K>,
    bus: u8,
    served: &mut BusWithShare<'a, B, J, T>,
) -> u64
    requires up { shown_down (whole served.old.share) ≡ false }
    requires failed { HasFailed (log_of J.buses bus) bus served.old.share (B.log served.old.line) }
    ensures served { IsServed (log_of J.buses bus) bus served.new.share (B.log served.new.line) }
    ensures line { served.new.line ≡ served.old.line }
    ensures noted { (n : ℕ) × IsNoted n (Down bus) served.old.share served.new.share }
{
    let Ok(()) = shared.down(rt, &mut served.share, bus) else {
        unreachable!()
    };
    served.share.last_place()
}

/// Where the interface failed, the bus goes down: at which place of the history.
fn down_where_failed<'a, B: Bus, J: LockStart + Links, T: Tally, K: Tallies<T>, R: Wait>(
    rt: &R,
    shared: &Shared<'a, J, T, K>,
    bus: u8,
    served: &mut BusWithShare<'a, B, J, T>,
    outcome: Outcome,
) -> Option<u64>
    requires up { shown_down (whole served.old.share) ≡ false }
    requires fine { outcome ≢ outcomes.Failed
        → IsServed (log_of J.buses bus) bus served.old.share (B.log served.old.line) }
    requires failed { outcome ≡ outcomes.Failed
        → HasFailed (log_of J.buses bus) bus served.old.share (B.log served.old.line) }
    ensures served { IsServed (log_of J.buses bus) bus served.new.share (B.log served.new.line) }
    ensures line { served.new.line ≡ served.old.line }
    ensures down { IsDownWhereFailed bus outcome result served.old.share served.new.share }
{
    match outcome {
        Outcome::Done(_) | Outcome::GaveUp => None,
        Outcome::Failed => Some(go_down(rt, shared, bus, served)),
    }
}

/// Hands a transaction out under the lock, sends it outside the lock, and reports it under the
/// lock. Room for its frames is made before. Where the bus interface failed, the bus goes down.
/// What an observer fails to keep is answered once all this is done.
fn send_once<'a, B: Bus, J: LockStart + Links, T: Tally, K: Tallies<T>, O: Observer<B>, R: Wait>(
    rt: &R,
    observer: &mut O,
    shared: &Shared<'a, J, T, K>,
    bus: u8,
    served: &mut BusWithShare<'a, B, J, T>,
) -> Result<Turn, Halt>
    requires served { IsServed (log_of J.buses bus) bus served.old.share (B.log served.old.line) }
    ensures served { IsServed (log_of J.buses bus) bus served.new.share (B.log served.new.line) }
    ensures sends { SendsOnce J.start bus served.old.share served.new.share
        (B.log served.old.line) (B.log served.new.line) result }
{
    served.line.room(MOST_SENT)?;
    let handed = shared.hand(rt, &mut served.share, bus)?;
    let told = tell_handed::<B, O>(observer, bus, &handed);
    let report = perform(&mut served.line, &handed.transaction, handed.tries);
    let outcome = report.outcome();
    let noted = report.clone().unwrap();
    let Ok(()) = shared.note_report(rt, &mut served.share, bus, handed.number, noted) else {
        unreachable!()
    };
    let place = served.share.last_place();
    let down = down_where_failed(rt, shared, bus, served, outcome);
    tell_report(observer, told, place, down, bus, &report, &served.line)
}

/// Keeps a place back under the lock, hears outside the lock, and notes the frame under the lock.
/// Where the bus interface failed, the bus goes down. Where it succeeds, the bus was asked.
#[tactic(auto, using(plantdriving::proofs::Counts::grown_once))]
fn hear_once<'a, B: Bus, J: LockStart + Links, T: Tally, K: Tallies<T>, O: Observer<B>, R: Wait>(
    rt: &R,
    observer: &mut O,
    shared: &Shared<'a, J, T, K>,
    bus: u8,
    served: &mut BusWithShare<'a, B, J, T>,
) -> Result<Turn, Halt>
    requires served { IsServed (log_of J.buses bus) bus served.old.share (B.log served.old.line) }
    ensures served { IsServed (log_of J.buses bus) bus served.new.share (B.log served.new.line) }
    ensures asked { OnOk result
        (HasGrown (B.log served.old.line).hears (B.log served.new.line).hears) }
    ensures why { IfErr result (IsUnasked (whole served.old.share)) }
    ensures none { HasHandedNone served.old.share served.new.share
        (B.log served.old.line) (B.log served.new.line) }
{
    served.line.room(1)?;
    shared.may_hear(rt, &mut served.share, bus)?;
    match served.line.hear() {
        Ok(Some(frame)) => {
            let Ok(()) = shared.note_frame(rt, &mut served.share, bus, frame) else {
                unreachable!()
            };
            as_told(
                observer.note(served.share.last_place(), Happened::Heard { bus, frame }),
                Turn::Busy,
            )
        }
        Ok(None) => Ok(Turn::Idle),
        Err(_) => {
            let place = go_down(rt, shared, bus, served);
            as_told(observer.note(place, Happened::WentDown { bus }), Turn::Down)
        }
    }
}

/// Sends what is to be sent next on a bus, if anything is. What was sent and heard stays what the
/// Share has receipts for, and nothing is open afterwards.
///
/// # Errors
///
/// The allocator is out of memory, the history is full, or an observer failed. Nothing is open
/// then, either.
pub fn send_turn<
    'a,
    B: Bus,
    J: LockStart + Links,
    T: Tally,
    K: Tallies<T>,
    O: Observer<B>,
    R: Wait,
>(
    rt: &R,
    observer: &mut O,
    shared: &Shared<'a, J, T, K>,
    bus: u8,
    served: &mut BusWithShare<'a, B, J, T>,
) -> Result<Turn, Halt>
    requires served { IsServed (log_of J.buses bus) bus served.old.share (B.log served.old.line) }
    ensures served { IsServed (log_of J.buses bus) bus served.new.share (B.log served.new.line) }
    ensures sends { SendsTurn J.start bus served.old.share served.new.share
        (B.log served.old.line) (B.log served.new.line) result }
{
    match send_once(rt, observer, shared, bus, served) {
        Ok(turn) => Ok(turn),
        Err(halt) => turn_where_refused(halt),
    }
}

/// Hears what came on a bus, if anything did: the bus is asked, unless the Share shows that it is
/// down. What was sent and heard stays what the Share has receipts for.
///
/// # Errors
///
/// The allocator is out of memory, the history is full, or an observer failed. Nothing is open
/// then, either.
pub fn hear_turn<
    'a,
    B: Bus,
    J: LockStart + Links,
    T: Tally,
    K: Tallies<T>,
    O: Observer<B>,
    R: Wait,
>(
    rt: &R,
    observer: &mut O,
    shared: &Shared<'a, J, T, K>,
    bus: u8,
    served: &mut BusWithShare<'a, B, J, T>,
) -> Result<Turn, Halt>
    requires served { IsServed (log_of J.buses bus) bus served.old.share (B.log served.old.line) }
    ensures served { IsServed (log_of J.buses bus) bus served.new.share (B.log served.new.line) }
    ensures asked { OnOk result (shown_down (whole served.old.share) ≡ false
        → HasGrown (B.log served.old.line).hears (B.log served.new.line).hears) }
    ensures none { HasHandedNone served.old.share served.new.share
        (B.log served.old.line) (B.log served.new.line) }
{
    match hear_once(rt, observer, shared, bus, served) {
        Ok(turn) => Ok(turn),
        Err(halt) => turn_where_refused(halt),
    }
}

/// Asks a bus that is down whether its interface answers again, outside the lock. Where it does,
/// the bus comes up under the lock, and is taken up. It never waits for the interface.
///
/// # Errors
///
/// The history is full: the interface is asked again in a later turn. Or an observer failed, once
/// the bus was up.
pub fn come_up<'a, B: Bus, J: LockStart + Links, T: Tally, K: Tallies<T>, O: Observer<B>, R: Wait>(
    rt: &R,
    observer: &mut O,
    shared: &Shared<'a, J, T, K>,
    bus: u8,
    served: &mut BusWithShare<'a, B, J, T>,
) -> Result<Turn, Halt>
    requires served { IsServed (log_of J.buses bus) bus served.old.share (B.log served.old.line) }
    ensures served { IsServed (log_of J.buses bus) bus served.new.share (B.log served.new.line) }
    ensures comes { ComesUp bus served.old.share served.new.share
        (B.log served.old.line) (B.log served.new.line) result }
{
    if !served.line.mend() {
        return Ok(Turn::Down);
    }
    match shared.up(rt, &mut served.share, bus) {
        Ok(()) => {
            served.line.resume();
            as_told(
                observer.note(served.share.last_place(), Happened::CameUp { bus }),
                Turn::Busy,
            )
        }
        Err(refusal) => turn_where_refused(Halt::Refused(refusal)),
    }
}
