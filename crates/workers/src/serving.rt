//! The loops of the workers, until the end is told.

ghost use Rattle.std.specs.Prelude.{◌≡◌, IfErr, IfOk, OnErr, OnOk, Ok, Some};
ghost use Rattle.plantturns.specs.Links.{log_of};
ghost use Rattle.plantturns.specs.Handouts.{AreFollowed};
ghost use Rattle.plantturns.specs.Logs.{HasEnded, IsServed, IsTimed, IsWorker};
ghost use Rattle.workers.specs.declared.ended.Ended.TheVariants.{Asked};

use crate::ended::{End, Ended, ToldEnd};
use crate::pause::Pause;
use buslink::{Bus, Clock};
use planttallies::{Tallies, Tally};
use plantturns::{
    BusWithShare, ClockWithShare, Gate, Halt, Links, LockStart, Observer, Passing, Share, Shared,
    Turn, come_up, hear_turn, scan_turn, send_turn, tick_once,
};
use std::alloc::Global;
use std::sync::Wait;
use std::time::Clock as Timer;

/// What a turn did. Where its worker cannot go on, it tells the end, and shows that it is told.
fn or_told<'e, R: Wait>(rt: &R, end: &'e End, turn: Result<Turn, Halt>) -> Result<Turn, ToldEnd<'e>>
    ensures turn { IfOk result (λ done. turn ≡ Ok done) }
    ensures told { IfErr result (λ told. told.of ≡ end.now.told.id) }
{
    match turn {
        Ok(done) => Ok(done),
        Err(halt) => Err(end.tell(rt, Ended::from(halt))),
    }
}

/// Sends what is to be sent next on a bus, and hears what came, where the end was not told
/// meanwhile. A bus that is down is asked whether its interface answers again. Each transaction but
/// one is followed by a call that hears, or by the bus's going down; and that one only where the
/// end was told.
fn serve_once<
    'e,
    'a,
    B: Bus,
    J: LockStart + Links,
    T: Tally,
    K: Tallies<T>,
    O: Observer<B>,
    R: Wait,
>(
    rt: &R,
    observer: &mut O,
    shared: &Shared<'a, J, T, K>,
    end: &'e End,
    bus: u8,
    served: &mut BusWithShare<'a, B, J, T>,
) -> Result<Turn, ToldEnd<'e>>
    requires served { IsServed (log_of J.buses bus) bus served.old.share (B.log served.old.line) }
    ensures served { IsServed (log_of J.buses bus) bus served.new.share (B.log served.new.line) }
    ensures followed { OnOk result (AreFollowed 0 served.old.share served.new.share
        (B.log served.old.line) (B.log served.new.line)) }
    ensures but_one { OnErr result (AreFollowed 1 served.old.share served.new.share
        (B.log served.old.line) (B.log served.new.line)) }
    ensures told { IfErr result (λ told. told.of ≡ end.now.told.id) }
{
    let turn = send_turn(rt, observer, shared, bus, served);
    let sent = or_told(rt, end, turn)?;
    if matches!(sent, Turn::Down) {
        let turn = come_up(rt, observer, shared, bus, served);
        return or_told(rt, end, turn);
    }
    if let Some(told) = end.told() {
        return Err(told);
    }
    let turn = hear_turn(rt, observer, shared, bus, served);
    match or_told(rt, end, turn)? {
        Turn::Idle => Ok(sent),
        heard => Ok(heard),
    }
}

/// Serves a bus until the end is told, and shows that it is. What it sent and heard wakes the scan
/// workers. Where it is idle it rests as the bus says; a bus that is not told of what comes is asked
/// again and again, with pauses between. While the bus is down, its worker sleeps between the questions whether its interface
/// answers again, until something happens elsewhere, for a tenth of a second at most.
pub(crate) fn serve_bus<
    'e,
    'a,
    B: Bus,
    J: LockStart + Links,
    T: Tally,
    K: Tallies<T>,
    G: Gate,
    R: Wait + Timer,
>(
    rt: &R,
    gate: &G,
    shared: &Shared<'a, J, T, K>,
    end: &'e End,
    bus: u8,
    served: &mut BusWithShare<'a, B, J, T>,
) -> ToldEnd<'e>
    requires served { IsServed (log_of J.buses bus) bus served.old.share (B.log served.old.line) }
    ensures served { IsServed (log_of J.buses bus) bus served.new.share (B.log served.new.line) }
    ensures followed { AreFollowed 1 served.old.share served.new.share
        (B.log served.old.line) (B.log served.new.line) }
    ensures told { result.of ≡ end.now.told.id }
{
    let mut passing = Passing { gate };
    let mut pause = Pause::new();
    for _ in rt.forever() {
        if let Some(told) = end.told() {
            return told;
        }
        let rings = end.bell.rings(rt);
        match serve_once(rt, &mut passing, shared, end, bus, served) {
            Ok(Turn::Busy) => {
                end.bell.ring(rt);
                pause.begin_anew();
            }
            Ok(Turn::Idle) => {
                if !served.line.rest() {
                    pause.wait(rt);
                }
            }
            Ok(Turn::Down) => end.bell.wait_past(rt, rings),
            Err(told) => return told,
        }
    }
    unreachable!()
}

/// Scans what is ready until the end is told, and shows that it is: a worker that is refused memory
/// tells it. Where nothing is ready it sleeps until something happens, for a tenth of a second at
/// most: only a tick, a frame that is heard, and a scan of its own make a task ready.
pub(crate) fn serve_tasks<'e, 'a, J: LockStart, T: Tally, K: Tallies<T>, G: Gate, R: Wait + Timer>(
    rt: &R,
    alloc: Global,
    gate: &G,
    shared: &Shared<'a, J, T, K>,
    end: &'e End,
    worker: usize,
    share: &mut Share<'a, J, T>,
) -> ToldEnd<'e>
    requires worker { IsWorker worker share.old }
    ensures worker { IsWorker worker share.new }
    ensures told { result.of ≡ end.now.told.id }
{
    let mut passing = Passing { gate };
    for _ in rt.forever() {
        if let Some(told) = end.told() {
            return told;
        }
        let rings = end.bell.rings(rt);
        match scan_turn::<(), J, T, K, Passing<G>, R>(
            rt,
            alloc,
            &mut passing,
            shared,
            worker,
            share,
        ) {
            Ok(Turn::Busy) => {}
            Ok(Turn::Idle | Turn::Down) => end.bell.wait_past(rt, rings),
            Err(halt) => return end.tell(rt, Ended::from(halt)),
        }
    }
    unreachable!()
}

/// Asks the clock once. Answers why it ended, where it gave no moment or no event more may be
/// noted; then it tells the end. Where it answers `Asked`, the clock was asked here and came to its
/// end. The gate is told of the moment, and who sleeps wakes for it.
fn tick_turn<'a, C: Clock, J: LockStart + Links, T: Tally, K: Tallies<T>, G: Gate, R: Wait>(
    rt: &R,
    gate: &G,
    shared: &Shared<'a, J, T, K>,
    end: &End,
    timed: &mut ClockWithShare<'a, C, J, T>,
) -> Option<Ended>
    requires timed { IsTimed J.clock timed.old.share (C.log timed.old.clock) }
    ensures timed { IsTimed J.clock timed.new.share (C.log timed.new.clock) }
    ensures asked { result ≡ Some Asked → HasEnded J.clock (C.log timed.new.clock) }
{
    let mut passing = Passing { gate };
    match tick_once::<(), C, J, T, K, Passing<'_, G>, R>(rt, &mut passing, shared, timed) {
        Ok(true) => {
            end.bell.ring(rt);
            None
        }
        Ok(false) => {
            let _told = end.tell(rt, Ended::Asked);
            Some(Ended::Asked)
        }
        Err(halt) => {
            let ended = Ended::from(halt);
            let _told = end.tell(rt, ended);
            Some(ended)
        }
    }
}

/// As [`tick_turn`], where nothing happened yet; else the clock is not asked.
pub(crate) fn tick_first<
    'a,
    C: Clock,
    J: LockStart + Links,
    T: Tally,
    K: Tallies<T>,
    G: Gate,
    R: Wait,
>(
    rt: &R,
    gate: &G,
    shared: &Shared<'a, J, T, K>,
    end: &End,
    is_first: bool,
    timed: &mut ClockWithShare<'a, C, J, T>,
) -> Option<Ended>
    requires timed { IsTimed J.clock timed.old.share (C.log timed.old.clock) }
    ensures timed { IsTimed J.clock timed.new.share (C.log timed.new.clock) }
    ensures asked { result ≡ Some Asked → HasEnded J.clock (C.log timed.new.clock) }
{
    if is_first {
        tick_turn(rt, gate, shared, end, timed)
    } else {
        None
    }
}

/// As [`serve_clock`], unless the clock was asked already and that is why it ended.
pub(crate) fn serve_on<
    'a,
    C: Clock,
    J: LockStart + Links,
    T: Tally,
    K: Tallies<T>,
    G: Gate,
    R: Wait + Timer,
>(
    rt: &R,
    gate: &G,
    shared: &Shared<'a, J, T, K>,
    end: &End,
    over: Option<Ended>,
    timed: &mut ClockWithShare<'a, C, J, T>,
) -> Ended
    requires timed { IsTimed J.clock timed.old.share (C.log timed.old.clock) }
    requires over { over ≡ Some Asked → HasEnded J.clock (C.log timed.old.clock) }
    ensures timed { IsTimed J.clock timed.new.share (C.log timed.new.clock) }
    ensures asked { result ≡ Asked → HasEnded J.clock (C.log timed.new.clock) }
{
    match over {
        Some(ended) => ended,
        None => serve_clock(rt, gate, shared, end, timed),
    }
}

/// Asks the clock until it gives no moment more, tells the end and answers why. Where another
/// worker told an end, that is why. Where it answers `Asked`, the clock was asked here and came to
/// its end. It is never idle, since each answer is a moment or the end: it sleeps the shortest time
/// after each moment. The gate is told of each moment.
fn serve_clock<
    'a,
    C: Clock,
    J: LockStart + Links,
    T: Tally,
    K: Tallies<T>,
    G: Gate,
    R: Wait + Timer,
>(
    rt: &R,
    gate: &G,
    shared: &Shared<'a, J, T, K>,
    end: &End,
    timed: &mut ClockWithShare<'a, C, J, T>,
) -> Ended
    requires timed { IsTimed J.clock timed.old.share (C.log timed.old.clock) }
    ensures timed { IsTimed J.clock timed.new.share (C.log timed.new.clock) }
    ensures asked { result ≡ Asked → HasEnded J.clock (C.log timed.new.clock) }
{
    for _ in rt.forever() {
        if let Some(ended) = end.cut_short() {
            return ended;
        }
        match tick_turn(rt, gate, shared, end, timed) {
            None => Pause::new().wait(rt),
            Some(ended) => return ended,
        }
    }
    unreachable!()
}
