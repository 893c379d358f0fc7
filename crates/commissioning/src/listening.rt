//! What comes to be heard on a bus, in words.

ghost use Rattle.std.specs.Prelude.{◌<◌, [], None, Some, IfOk, MatchResult, OnOk};
ghost use Rattle.std.specs.Io.KnownBytes.{Appends};
ghost use Rattle.commissioning.specs.Listening.{IsListened, IsRecorded, SendsNothing, lines_of};
ghost use Rattle.commissioning.specs.ListeningSteps.{Hears, frames_of};

use crate::asking::AskFault;
use crate::places::Places;
use buslink::{Bus, Fault};
use dalievent::{EventSource, Heard, decode};
use daliframe::Frame24;
use daliwords::{HeardWords, SchemeWords};
use liveline::StopCondition;
use std::io::Write;
use std::time::{Clock as Timer, Duration, Instant};
use std::{io, thread};
use wordlines::Binding;

/// The milliseconds between two times that are heard, while nothing comes.
const PAUSE: u64 = 20;

/// When listening ends.
#[derive(Drop)]
pub struct ListenEnd<S: StopCondition> {
    /// After this number of milliseconds.
    pub millis: Option<u64>,
    /// As soon as this is wanted.
    pub stop: S,
}

/// Why listening ended.
#[derive(Clone, Copy, PartialEq, Eq)]
pub enum Silenced {
    /// It came to its end.
    Ended,
    /// The bus failed, or had no room.
    Fault(AskFault),
    /// The clock cannot be read.
    NoClock,
}

/// Writes what comes on a bus, a line each: the moment in milliseconds since it began, what came,
/// and where it is bound, or by which line it could be bound. `scenario` gets each event as lines
/// of a scenario: all that was heard, where no writer failed. Nothing is sent.
///
/// # Errors
///
/// One of the writers failed.
pub fn listen<B: Bus, W: Write, P: Write, R: Timer, S: StopCondition>(
    bus: &mut B,
    number: u8,
    binding: Option<&Binding>,
    to: &mut W,
    scenario: &mut P,
    timer: &R,
    end: &ListenEnd<S>,
) -> io::Result<Silenced>
    ensures silent { SendsNothing (B.log bus.old) (B.log bus.new) }
    ensures listened { IfOk result (λ silenced. IsListened number silenced
        (B.log bus.old) (B.log bus.new) (P.contents scenario.old) (P.contents scenario.new)) }
{
    let Ok(start) = Instant::now(timer) else {
        return Ok(Silenced::NoClock);
    };
    let mut places = Places::of(binding, number);
    for _ in 0..u64::MAX {
        let Some(moment) = millis_since(timer, start) else {
            return Ok(Silenced::NoClock);
        };
        if is_over(end, moment) {
            return Ok(Silenced::Ended);
        }
        if let Some(fault) = listen_once(bus, &mut places, to, scenario, timer, number, moment)? {
            return Ok(Silenced::Fault(fault));
        }
    }
    Ok(Silenced::Ended)
}

/// Writes the next frame that came, or waits for a while where none did; the fault of the bus.
fn listen_once<B: Bus, W: Write, P: Write, R: Timer>(
    bus: &mut B,
    places: &mut Places,
    to: &mut W,
    scenario: &mut P,
    timer: &R,
    number: u8,
    moment: u64,
) -> io::Result<Option<AskFault>>
    ensures silent { SendsNothing (B.log bus.old) (B.log bus.new) }
    ensures turn { IfOk result (λ fault. IsRecorded number fault
        (B.log bus.old) (B.log bus.new) (P.contents scenario.old) (P.contents scenario.new)) }
{
    match hear(bus) {
        Ok(Some(frame)) => {
            record_event(scenario, number, moment, frame)?;
            write_event(to, places, moment, frame)?;
            Ok(None)
        }
        Ok(None) => {
            thread::sleep(timer, Duration::from_millis(PAUSE));
            Ok(None)
        }
        Err(fault) => Ok(Some(fault)),
    }
}

/// The next frame that came.
fn hear<B: Bus>(bus: &mut B) -> Result<Option<Frame24>, AskFault>
    ensures silent { SendsNothing (B.log bus.old) (B.log bus.new) }
    ensures heard { MatchResult result
        (λ frame. Hears (frames_of frame) None (B.log bus.old) (B.log bus.new))
        (λ fault. Hears [] (Some fault) (B.log bus.old) (B.log bus.new)) }
{
    bus.room(1)?;
    match bus.hear() {
        Ok(heard) => Ok(heard),
        Err(Fault) => Err(AskFault::Failed),
    }
}

/// The milliseconds since the start, where the timer can be read and they have 64 bits.
fn millis_since<R: Timer>(timer: &R, start: Instant) -> Option<u64> {
    let elapsed = start.elapsed(timer).ok()?;
    u64::try_from(elapsed.as_millis()).ok()
}

/// Whether the end has come.
fn is_over<S: StopCondition>(end: &ListenEnd<S>, moment: u64) -> bool {
    end.stop.is_wanted() || end.millis.is_some_and(|millis| moment >= millis)
}

/// Writes an event as lines of a scenario.
fn record_event<P: Write>(scenario: &mut P, bus: u8, moment: u64, frame: Frame24) -> io::Result<()>
    ensures { OnOk result (Appends (P.contents scenario.old) (P.contents scenario.new)
        (lines_of bus (record { moment = moment; frame = frame }))) }
{
    writeln!(scenario, "tick {moment}\nevent {bus} {frame}")?;
    scenario.flush()
}

/// Writes what came, and where it is bound or could be.
fn write_event<W: Write>(
    to: &mut W,
    places: &mut Places,
    moment: u64,
    frame: Frame24,
) -> io::Result<()> {
    write!(to, "{moment} {} ({frame})", HeardWords(frame))?;
    if let Heard::Event(message) = decode(frame) {
        places.note(EventSource {
            scheme: message.scheme,
            a: message.a,
            b: message.b,
        });
        write_places(to, places, frame)?;
    }
    writeln!(to)?;
    to.flush()
}

/// Writes the places whose source sent a message.
fn write_places<W: Write>(to: &mut W, places: &Places, frame: Frame24) -> io::Result<()> {
    let bus = places.bus();
    for number in 0..64 {
        let Some(place) = places.at(number) else {
            continue;
        };
        if place.source.information(frame).is_none() {
            continue;
        }
        let EventSource { scheme, a, b } = place.source;
        if place.is_bound {
            write!(to, ", source {bus}.{number}")?;
        } else {
            write!(
                to,
                ", not bound: source {bus}.{number} {} {a} {b}",
                SchemeWords(scheme)
            )?;
        }
    }
    Ok(())
}
