//! What is sent and heard on a bus.

ghost use Rattle.std.specs.Prelude.{◌≡◌, ◌≢◌, ◌+◌, ◌<◌, ◌≤◌, IfErr, OnOk, length};
ghost use Rattle.buslink.specs.Attempts.{most_sent};
ghost use Rattle.buslink.specs.declared.marks.Outcome.TheVariants as outcomes;
ghost use Rattle.plantevents.specs.declared.event.Event.TheVariants.{Done, Down};
ghost use Rattle.plantevents.specs.Legal.{IsUp};
ghost use Rattle.plant.specs.Matches.{IsReportOf};
ghost use Rattle.plant.specs.Shown.{grown};
ghost use Rattle.plantdriving.specs.declared.halt.Halt.TheVariants as halts;
ghost use Rattle.plantdriving.specs.Driven.{CannotGoOn, SendsNext};
ghost use Rattle.plantdriving.specs.Open.{HasNothingOpen};
ghost use Rattle.plantdriving.specs.Order.{sends_at};
ghost use Rattle.plantdriving.specs.Quiet.{HasNoFrame, HasNoHandout};
ghost use Rattle.plantdriving.specs.Tellings.{TellsEach, noted};
ghost use Rattle.plantdriving.specs.TurnSteps.{GoesOn, GoesTo, IsBusStep, IsHearing, IsIdleOr, IsTold};
ghost use Rattle.plantdriving.specs.TurnSteps.{Tells, TellsThese, down_place, report_told};
ghost use Rattle.plantdriving.specs.declared.happened.Happened.TheVariants as what;

use crate::{Halt, Happened, Observer};
use buslink::{Bus, MOST_SENT, Outcome, Report, perform};
use plant::{CallRefusal, Handed, Plant};
use std::io;

/// Notes the report of the transaction that a bus has open, by the attempts of the bus. Where the
/// interface failed, the bus goes down: at which place of the history.
fn note_report(plant: &mut Plant, bus: u8, number: u64, report: Report) -> Option<u64>
    requires open { IsReportOf plant.old bus number report }
    requires up { IsUp plant.old.plant plant.old.history bus }
    ensures fine { report.outcome ≢ outcomes.Failed
        → plant.new ≡ grown plant.old (Done bus number report) }
    ensures failed { report.outcome ≡ outcomes.Failed
        → plant.new ≡ grown (grown plant.old (Done bus number report)) (Down bus) }
    ensures down { result ≡ down_place report.outcome (length plant.old.history) }
{
    let has_failed = matches!(report.outcome(), Outcome::Failed);
    let Ok(()) = plant.note_report(bus, number, report) else {
        unreachable!()
    };
    if !has_failed {
        return None;
    }
    let place = plant.len();
    let Ok(()) = plant.down(bus) else {
        unreachable!()
    };
    Some(place)
}

/// Tells that a transaction was handed to a bus.
fn tell_handed<B, O: Observer<B>>(observer: &mut O, bus: u8, handed: &Handed) -> io::Result<()>
    ensures { O.told observer.new ≡ noted handed.now.number
        (what.Handed bus handed.now.origin handed.now.transaction) (O.told observer.old) }
{
    let happened = Happened::Handed {
        bus,
        origin: handed.origin,
        transaction: handed.transaction.clone().unwrap(),
    };
    observer.note(handed.number, happened)
}

/// Tells what became of a transaction, unless it failed to tell that the transaction was handed
/// out; and whether its bus went down, at which place of the history.
fn tell_report<B, O: Observer<B>>(
    observer: &mut O,
    handed: io::Result<()>,
    place: u64,
    down: Option<u64>,
    bus: u8,
    report: &Report,
    line: &B,
) -> io::Result<()>
    ensures { TellsThese (report_told bus report.now place down)
        (O.told observer.old) (O.told observer.new) result }
{
    handed?;
    let happened = Happened::Reported {
        bus,
        report: report.clone().unwrap(),
    };
    observer.note(place, happened)?;
    observer.note_line(bus, report, line)?;
    match down {
        None => Ok(()),
        Some(place) => observer.note(place, Happened::WentDown { bus }),
    }
}

/// Hands a bus what is to be sent next, sends it on the bus's line, and notes the report in the
/// plant. Where the interface failed, the bus goes down. Room for the frames is made on the line
/// before, so that what is handed out is reported.
///
/// # Errors
///
/// What `Plant::hand` refuses; else the line got no room. Nothing was sent then, and the plant is
/// unchanged. Or an observer failed, once what was handed out was reported.
pub fn send_next<B: Bus, O: Observer<B>>(
    plant: &mut Plant,
    bus: u8,
    line: &mut B,
    observer: &mut O,
) -> Result<(), Halt>
    ensures sends { SendsNext plant.old bus (B.log line.old) plant.new (B.log line.new) result }

    // Out of memory is answered only where the line had no room before.
    ensures enough { most_sent ≤ (B.log line.old).spare
        → IfErr result (λ halt. halt ≢ halts.Memory) }
    ensures told { TellsEach plant.old plant.new (O.told observer.old) (O.told observer.new)
        result }
{
    plant.allows_hand(bus)?;
    line.room(MOST_SENT)?;
    let Ok(handed) = plant.hand(bus) else {
        unreachable!()
    };
    let told = tell_handed::<B, O>(observer, bus, &handed);
    let report = perform(line, &handed.transaction, handed.tries);
    let noted = report.clone().unwrap();
    let place = plant.len();
    let down = note_report(plant, bus, handed.number, noted);
    tell_report(observer, told, place, down, bus, &report, line)?;
    Ok(())
}

/// Where there is nothing to send, or the bus is down, nothing is done; else it cannot go on.
fn idle_where_refused(halt: Halt) -> Result<bool, Halt>
    ensures { IsIdleOr halt result }
{
    match halt {
        Halt::Refused(CallRefusal::NothingReady | CallRefusal::BusDown) => Ok(false),
        other => Err(other),
    }
}

/// Sends what is to be sent next on a bus. Whether there was anything to send.
fn send_turn<B: Bus, O: Observer<B>>(
    plant: &mut Plant,
    bus: u8,
    line: &mut B,
    observer: &mut O,
) -> Result<bool, Halt>
    requires known { bus < plant.old.plant.plan.buses }
    requires open { HasNothingOpen plant.old }
    ensures step { IsBusStep bus plant.old plant.new (B.log line.old) (B.log line.new) }
    ensures turn { Tells plant.old plant.new (HasNoHandout plant.old bus) result }
    ensures goes_on { GoesOn (sends_at bus) (sends_at bus) plant.old plant.new }
    ensures stops { IfErr result (CannotGoOn plant.new) }
    ensures told { TellsEach plant.old plant.new (O.told observer.old) (O.told observer.new)
        result }
{
    match send_next(plant, bus, line, observer) {
        Ok(()) => Ok(true),
        Err(halt) => idle_where_refused(halt),
    }
}

/// Sends all that waits on a bus, one after another. Whether there was anything to send.
fn send_all<B: Bus, O: Observer<B>>(
    plant: &mut Plant,
    bus: u8,
    line: &mut B,
    observer: &mut O,
) -> Result<bool, Halt>
    requires known { bus < plant.old.plant.plan.buses }
    requires open { HasNothingOpen plant.old }
    ensures step { IsBusStep bus plant.old plant.new (B.log line.old) (B.log line.new) }
    ensures turn { Tells plant.old plant.new (HasNoHandout plant.old bus) result }
    ensures goes_on { GoesOn (sends_at bus) (sends_at bus) plant.old plant.new }
    ensures none { OnOk result (HasNoHandout plant.new bus) }
    ensures stops { IfErr result (CannotGoOn plant.new) }
    ensures told { TellsEach plant.old plant.new (O.told observer.old) (O.told observer.new)
        result }
{
    let mut any = false;
    for _ in 0..plant.limit() + 1 {
        if !send_turn(plant, bus, line, observer)? {
            return Ok(any);
        }
        any = true;
    }

    // Each of these turns made the history longer, and it is no longer than its limit.
    let _within = plant.len();
    unreachable!()
}

/// Whether something was done: an observer was told of it.
fn as_done(told: io::Result<()>) -> Result<bool, Halt>
    ensures { IsTold result }
{
    told?;
    Ok(true)
}

/// Hears the next frame that came on a bus, for which a place of the history is kept back before.
/// Where the interface fails, the bus goes down. Whether either happened.
fn hear_next<B: Bus, O: Observer<B>>(
    plant: &mut Plant,
    bus: u8,
    line: &mut B,
    observer: &mut O,
) -> Result<bool, Halt>
    requires known { bus < plant.old.plant.plan.buses }
    ensures step { IsBusStep bus plant.old plant.new (B.log line.old) (B.log line.new) }
    ensures only { IsHearing bus plant.old plant.new }
    ensures turn { Tells plant.old plant.new
        (HasNoFrame plant.old bus (B.log line.old) (B.log line.new)) result }
    ensures goes_on { HasNoHandout plant.old bus
        → GoesOn (sends_at bus) (sends_at (bus + 1)) plant.old plant.new }
    ensures stops { IfErr result (CannotGoOn plant.new) }
    ensures told { TellsEach plant.old plant.new (O.told observer.old) (O.told observer.new)
        result }
{
    line.room(1)?;
    if let Err(refusal) = plant.may_hear(bus) {
        return idle_where_refused(Halt::Refused(refusal));
    }
    let place = plant.len();
    match line.hear() {
        Ok(Some(frame)) => {
            let Ok(()) = plant.note_frame(bus, frame) else {
                unreachable!()
            };
            as_done(observer.note(place, Happened::Heard { bus, frame }))
        }
        Ok(None) => Ok(false),
        Err(_) => {
            let Ok(()) = plant.down(bus) else {
                unreachable!()
            };
            as_done(observer.note(place, Happened::WentDown { bus }))
        }
    }
}

/// Hears all that came on a bus.
pub(crate) fn hear_all<B: Bus, O: Observer<B>>(
    plant: &mut Plant,
    bus: u8,
    line: &mut B,
    observer: &mut O,
) -> Result<(), Halt>
    requires known { bus < plant.old.plant.plan.buses }
    ensures step { IsBusStep bus plant.old plant.new (B.log line.old) (B.log line.new) }
    ensures only { IsHearing bus plant.old plant.new }
    ensures silent { OnOk result
        (HasNoFrame plant.new bus (B.log line.old) (B.log line.new)) }
    ensures stops { IfErr result (CannotGoOn plant.new) }
    ensures told { TellsEach plant.old plant.new (O.told observer.old) (O.told observer.new)
        result }
{
    for _ in 0..plant.limit() + 1 {
        if !hear_next(plant, bus, line, observer)? {
            return Ok(());
        }
    }

    // Each of these calls made the history longer, and it is no longer than its limit.
    let _within = plant.len();
    unreachable!()
}

/// Sends all that waits on a bus, and hears what came next. Whether there was anything.
pub(crate) fn turn<B: Bus, O: Observer<B>>(
    plant: &mut Plant,
    bus: u8,
    line: &mut B,
    observer: &mut O,
) -> Result<bool, Halt>
    requires known { bus < plant.old.plant.plan.buses }
    requires open { HasNothingOpen plant.old }
    ensures step { IsBusStep bus plant.old plant.new (B.log line.old) (B.log line.new) }
    ensures turn { Tells plant.old plant.new (HasNoHandout plant.old bus
        × HasNoFrame plant.old bus (B.log line.old) (B.log line.new)) result }
    ensures goes_on { GoesTo (sends_at bus) (sends_at (bus + 1)) plant.old plant.new result }
    ensures stops { IfErr result (CannotGoOn plant.new) }
    ensures told { TellsEach plant.old plant.new (O.told observer.old) (O.told observer.new)
        result }
{
    let sent = send_all(plant, bus, line, observer)?;
    let heard = hear_next(plant, bus, line, observer)?;
    Ok(sent || heard)
}
