//! The commands at one line: what they do, and what they print.

ghost use Rattle.std.specs.Prelude.{◌≡◌, ◌≤◌, IfOk, OnOk, Ok};
ghost use Rattle.buslink.specs.Attempts.{most_sent};
ghost use Rattle.commissioning.specs.Asking.{HasAsked};
ghost use Rattle.commissioning.specs.Blinking.{HasBlinked};
ghost use Rattle.commissioning.specs.Listening.{SendsNothing};
ghost use Rattle.commissioning.specs.Probing.{HasProbed};
ghost use Rattle.commissioning.specs.Serving.{EndsWith, IsListenServed, IsServed};
ghost use Rattle.commissioning.specs.Serving.{differences_told, served_as, served_by, served_of};

use crate::asking::{AskFault, ask};
use crate::blinking::{Blinked, Shown, blink};
use crate::comparing::write_differences;
use crate::declared::DeclaredBus;
use crate::houses::write_house;
use crate::listening::{ListenEnd, Silenced, listen};
use crate::objects::{write_failure, write_found};
use crate::probing::{Probed, probe};
use crate::surveys::is_answer;
use crate::tables::{Table, answer_in};
use bitflags::Flags;
use buslink::{Bus, Outcome, Reply, Report};
use daliframe::{BusNumber, Frame, ShortAddress};
use daliwords::{FrameWords, OutcomeWords, RequestWords, StatusWords};
use gearcmd::{Command, Request, Status};
use liveline::StopCondition;
use std::alloc::Global;
use std::io;
use std::io::Write;
use std::time::Clock as Timer;
use wordlines::Binding;

/// How a command at one line was served.
#[derive(Clone, Copy, PartialEq, Eq, Debug)]
pub enum Served {
    /// It was done.
    Done,
    /// The allocator is out of memory.
    NoMemory,
    /// The interface failed, or the clock cannot be read.
    Failed,
}

impl Served {
    /// How a command was served that met this fault.
    fn of_fault(fault: AskFault) -> Served
        ensures { result ≡ served_of fault }
    {
        match fault {
            AskFault::Memory => Served::NoMemory,
            AskFault::Failed => Served::Failed,
        }
    }
}

/// How what is found on a bus is written.
#[derive(Clone, Copy)]
pub struct ProbeForm<'a> {
    /// The number of the bus.
    pub bus: u8,
    /// What it is compared with, where a text is given.
    pub declared: Option<DeclaredBus<'a>>,
    /// As one JSON object, in place of the rows of a table.
    pub as_json: bool,
}

/// Probes a bus, and writes which gear and which instances are there, as rows of a table that are
/// written as they come, or as JSON; and where a text is given, how they differ from what it
/// declares. `scenario` gets a line of a scenario for each gear that answered, once all of the bus
/// was asked.
///
/// # Errors
///
/// One of the writers failed. All of the bus was asked nevertheless.
pub fn serve_probe<B: Bus, W: Write, P: Write, R: Write>(
    alloc: Global,
    bus: &mut B,
    to: &mut W,
    progress: &mut P,
    scenario: &mut R,
    form: ProbeForm,
) -> io::Result<Served>
    ensures { IsServed (λ probed. HasProbed probed (B.log bus.old) (B.log bus.new)
        × OnOk result (EndsWith W.contents (differences_told form.entry probed) to.new)) result }
{
    let mut table = Table::new(to, !form.as_json);
    let probed = probe(alloc, bus, &mut table, progress);
    let written = table.finish();
    write_probed(alloc, to, scenario, &probed, written, form)
}

/// Writes what was found, and what is behind the rows of a table.
fn write_probed<W: Write, R: Write>(
    alloc: Global,
    to: &mut W,
    scenario: &mut R,
    probed: &Result<Probed, AskFault>,
    written: io::Result<()>,
    form: ProbeForm,
) -> io::Result<Served>
    ensures served { IfOk result (λ served. served ≡ served_as probed.now) }
    ensures printed { OnOk result
        (EndsWith W.contents (differences_told form.entry probed.now) to.new) }
{
    written?;
    match probed {
        Ok(probed) => {
            write_house(scenario, form.bus, &probed.survey)?;
            write_survey(alloc, to, probed, form)?;
            Ok(Served::Done)
        }
        Err(fault) if form.as_json => {
            write_failure(to, *fault)?;
            Ok(Served::of_fault(*fault))
        }
        Err(fault) => write_fault(to, *fault),
    }
}

/// Writes what was found as JSON, or else what is behind the rows of a table: whether there is gear
/// without a short address, and how it differs from what a text declares.
fn write_survey<W: Write>(
    alloc: Global,
    to: &mut W,
    probed: &Probed,
    form: ProbeForm,
) -> io::Result<()>
    ensures { OnOk result
        (EndsWith W.contents (differences_told form.entry (Ok probed.now)) to.new) }
{
    if form.as_json {
        return write_found(alloc, to, form.bus, probed, form.declared);
    }
    write_unaddressed(to, probed.unaddressed)?;
    match form.declared {
        Some(declared) => write_differences(to, &probed.survey, declared),
        None => Ok(()),
    }
}

/// Writes that there is gear without a short address, or that this is not known.
fn write_unaddressed<W: Write>(to: &mut W, outcome: Outcome) -> io::Result<()> {
    if is_answer(outcome) {
        return writeln!(to, "there is gear without a short address");
    }
    if outcome == Outcome::GaveUp {
        return writeln!(
            to,
            "whether there is gear without a short address is not known, since each frame was lost"
        );
    }
    Ok(())
}

/// Writes why a command was not done.
fn write_fault<W: Write>(to: &mut W, fault: AskFault) -> io::Result<Served>
    ensures { IfOk result (λ served. served ≡ served_of fault) }
{
    writeln!(to, "{fault}")?;
    Ok(Served::of_fault(fault))
}

/// Listens to a bus, and writes what comes on it.
///
/// # Errors
///
/// One of the writers failed.
pub fn serve_listen<B: Bus, W: Write, P: Write, R: Timer, S: StopCondition>(
    bus: &mut B,
    number: u8,
    binding: Option<&Binding>,
    to: &mut W,
    scenario: &mut P,
    timer: &R,
    end: &ListenEnd<S>,
) -> io::Result<Served>
    ensures silent { SendsNothing (B.log bus.old) (B.log bus.new) }
    ensures served { IfOk result (λ served. IsListenServed number served
        (B.log bus.old) (B.log bus.new) (P.contents scenario.old) (P.contents scenario.new)) }
{
    let silenced = listen(bus, number, binding, to, scenario, timer, end)?;
    write_silenced(to, silenced)
}

/// Writes why listening ended before its end.
fn write_silenced<W: Write>(to: &mut W, silenced: Silenced) -> io::Result<Served>
    ensures { IfOk result (λ served. served ≡ served_by silenced) }
{
    match silenced {
        Silenced::Ended => Ok(Served::Done),
        Silenced::Fault(fault) => write_fault(to, fault),
        Silenced::NoClock => {
            writeln!(to, "cannot read the clock")?;
            Ok(Served::Failed)
        }
    }
}

/// Lets gear blink, and writes what became of it.
///
/// # Errors
///
/// The writer failed.
pub fn serve_blink<B: Bus, W: Write, R: Timer>(
    bus: &mut B,
    address: ShortAddress,
    to: &mut W,
    timer: &R,
) -> io::Result<Served>
    ensures { IsServed
        (λ blinked. HasBlinked address blinked (B.log bus.old) (B.log bus.new)) result }
{
    let shown = blink(bus, address, timer);
    write_shown(to, address, shown)
}

/// Writes what became of gear that was to blink.
fn write_shown<W: Write>(
    to: &mut W,
    address: ShortAddress,
    shown: Result<Shown, AskFault>,
) -> io::Result<Served>
    ensures { IfOk result (λ served. served ≡ served_as shown) }
{
    match shown {
        Ok(Shown { status, blinked }) => {
            write_lamp_failure(to, address, status)?;
            write_blinked(to, address, blinked)?;
            Ok(Served::Done)
        }
        Err(fault) => write_fault(to, fault),
    }
}

/// Writes that gear says that its lamp has failed, where it says so.
fn write_lamp_failure<W: Write>(
    to: &mut W,
    address: ShortAddress,
    status: Outcome,
) -> io::Result<()> {
    let gear = address.number();
    match answer_in(Some(status)) {
        Some(byte) if Status::from_bits_retain(byte).contains(Status::LAMP_FAILURE) => {
            writeln!(to, "gear {gear} says lamp failure, and may stay dark")
        }
        _ => Ok(()),
    }
}

/// Writes whether gear blinked, and to which level it was sent back.
fn write_blinked<W: Write>(to: &mut W, address: ShortAddress, blinked: Blinked) -> io::Result<()> {
    let gear = address.number();
    match blinked {
        Blinked::Back(level, Outcome::GaveUp) => {
            writeln!(to, "gear {gear} blinked, and its level {level} was lost")
        }
        Blinked::Back(level, _) => writeln!(
            to,
            "gear {gear} blinked, and was sent back to level {level}"
        ),
        Blinked::NoLevel(outcome) => writeln!(to, "gear {gear} gives no level: {outcome}"),
    }
}

/// Asks a command on a bus, and writes its frames and what was answered, in words.
///
/// # Errors
///
/// The writer failed.
pub fn serve_ask<B: Bus, W: Write>(bus: &mut B, command: Command, to: &mut W) -> io::Result<Served>
    ensures served { IsServed
        (λ asked. HasAsked command asked (B.log bus.old) (B.log bus.new)) result }

    // Memory is refused only where fifteen frames do not fit.
    ensures enough { most_sent ≤ (B.log bus.old).spare → ¬ (result ≡ Ok Served.NoMemory) }
{
    let asked = ask(bus, command);
    write_asked(to, &command, &asked)
}

/// Writes a command, its frames and what was answered.
fn write_asked<W: Write>(
    to: &mut W,
    command: &Command,
    asked: &Result<Report, AskFault>,
) -> io::Result<Served>
    ensures { IfOk result (λ served. served ≡ served_as asked.now) }
{
    let request = Request {
        bus: BusNumber::default(),
        command: *command,
    };
    writeln!(to, "{}", RequestWords(request))?;
    match asked {
        Ok(report) => {
            write_frames(to, report.transaction().frames())?;
            writeln!(to, "{}", OutcomeWords(report))?;
            write_status(to, command, report.outcome())?;
            Ok(Served::Done)
        }
        Err(fault) => write_fault(to, *fault),
    }
}

/// Writes frames, a line each.
fn write_frames<W: Write>(to: &mut W, frames: &[Frame]) -> io::Result<()> {
    for frame in frames {
        writeln!(to, "{} ({frame})", FrameWords(*frame))?;
    }
    Ok(())
}

/// Writes what a status byte says that was answered.
fn write_status<W: Write>(to: &mut W, command: &Command, outcome: Outcome) -> io::Result<()> {
    match (command, outcome) {
        (Command::GearAsk { command, .. }, Outcome::Done(Reply::Answer(byte)))
            if command.number() == 0 => {
            writeln!(to, "{}", StatusWords(Status::from_bits_retain(byte)))
        }
        _ => Ok(()),
    }
}
