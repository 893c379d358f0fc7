//! What a building is like now.

ghost use Rattle.std.specs.Prelude.{◌<◌, length};

use crate::levels::Levels;
use busqueue::Class;
use ilplan::{Location, Plan};
use iltypes::Value;
use jiff::Timestamp;
use plant::Plant;
use std::io;
use std::io::Write;

/// The classes of requests, by their numbers.
const CLASSES: [Class; 4] = [
    Class::UserAction,
    Class::Configuration,
    Class::AutomaticAction,
    Class::Query,
];

/// What a status says.
#[derive(Clone, Copy)]
pub(crate) struct Status<'s> {
    pub(crate) plant: &'s Plant,
    pub(crate) levels: &'s Levels,
    /// The milliseconds of the last tick.
    pub(crate) moment: u64,
    pub(crate) date: Timestamp,
    /// The memory that the program holds, in KiB, where it is known.
    pub(crate) memory: Option<u64>,
    /// Why the lines of buses are down, by their numbers, where that is known.
    pub(crate) reasons: &'s [Option<String>],
}

impl Status<'_> {
    /// Why a bus is down, where it is down and that is known.
    fn reason(&self, bus: u8) -> Option<&str>
        requires { bus < self.now.plant.now.plant.plan.buses }
    {
        if !self.plant.is_down(bus) {
            return None;
        }
        self.reasons.get(usize::from(bus))?.as_deref()
    }
}

/// Writes a status as lines.
///
/// # Errors
///
/// The writer's.
pub(crate) fn write_lines<W: Write>(out: &mut W, status: &Status) -> io::Result<()> {
    let plant = status.plant;
    let plan = plant.setup().plan();
    writeln!(out, "date {}", status.date)?;
    writeln!(out, "moment {}", status.moment)?;
    writeln!(out, "events {}", plant.len())?;
    if let Some(memory) = status.memory {
        writeln!(out, "memory {memory} KiB")?;
    }
    for bus in 0..plan.buses() {
        write_bus(out, status, bus)?;
    }
    for global in 0..plan.globals() {
        write_level(out, plan, status.levels, global)?;
    }
    for task in 0..plan.tasks() {
        let (name, scans, lost) = (
            plan.task_name(task),
            plant.scans(task),
            plant.loss_count(task),
        );
        writeln!(out, "task {name} scans {scans} lost {lost}")?;
    }
    for global in 0..plan.globals() {
        let (name, value) = (plan.global_name(global), plant.value(global));
        writeln!(out, "{name} = {value}")?;
    }
    Ok(())
}

/// The line of a bus.
fn write_bus<W: Write>(out: &mut W, status: &Status, bus: u8) -> io::Result<()>
    requires { bus < status.now.plant.now.plant.plan.buses }
{
    let plant = status.plant;
    let (sent, heard) = (plant.frames(bus), plant.heards(bus));
    let (waiting, dropped) = (waiting_at(plant, bus), dropped_at(plant, bus));
    let state = up_or_down(plant.is_down(bus));
    write!(out, "bus {bus} {state} ")?;
    if let Some(reason) = status.reason(bus) {
        write!(out, "({reason}) ")?;
    }
    writeln!(
        out,
        "sent {sent} heard {heard} waiting {waiting} dropped {dropped}"
    )
}

/// The line of the level that was handed out last, where a global variable is located at one.
fn write_level<W: Write>(out: &mut W, plan: &Plan, levels: &Levels, global: usize) -> io::Result<()>
    requires { global < length plan.now.globals }
{
    let Some(Location::Level { bus, address }) = plan.global(global).location else {
        return Ok(());
    };
    let Some(level) = levels.of(global) else {
        return Ok(());
    };
    match address {
        0..=63 => writeln!(out, "level bus {bus} short {address} sent {level}"),
        64..=79 => writeln!(out, "level bus {bus} group {} sent {level}", address - 64),
        _ => writeln!(out, "level bus {bus} broadcast sent {level}"),
    }
}

/// Writes a status as one JSON object, whose member `version` is 1.
///
/// # Errors
///
/// The writer's.
pub(crate) fn write_json<W: Write>(out: &mut W, status: &Status) -> io::Result<()> {
    let plant = status.plant;
    write!(out, "{{\"version\":1,\"date\":\"{}\"", status.date)?;
    write!(
        out,
        ",\"moment_ms\":{},\"events\":{}",
        status.moment,
        plant.len()
    )?;
    if let Some(memory) = status.memory {
        write!(out, ",\"memory_kib\":{memory}")?;
    }
    write_json_buses(out, status)?;
    write_json_levels(out, plant.setup().plan(), status.levels)?;
    write_json_tasks(out, plant)?;
    write_json_variables(out, plant)?;
    writeln!(out, "}}")
}

/// The buses, as JSON.
fn write_json_buses<W: Write>(out: &mut W, status: &Status) -> io::Result<()> {
    let plant = status.plant;
    write!(out, ",\"buses\":[")?;
    let mut before = "";
    for bus in 0..plant.setup().plan().buses() {
        let (sent, heard) = (plant.frames(bus), plant.heards(bus));
        let (waiting, dropped) = (waiting_at(plant, bus), dropped_at(plant, bus));
        let state = up_or_down(plant.is_down(bus));
        write!(out, "{before}{{\"bus\":{bus},\"state\":\"{state}\"")?;
        if let Some(reason) = status.reason(bus) {
            write_json_reason(out, reason)?;
        }
        write!(out, ",\"sent\":{sent},\"heard\":{heard}")?;
        write!(out, ",\"waiting\":{waiting},\"dropped\":{dropped}}}")?;
        before = ",";
    }
    write!(out, "]")
}

/// Why a bus is down, as a member of JSON.
fn write_json_reason<W: Write>(out: &mut W, reason: &str) -> io::Result<()> {
    write!(out, ",\"reason\":\"")?;
    for character in reason.chars() {
        match character {
            '"' | '\\' => write!(out, "\\{character}")?,
            _ => write!(out, "{character}")?,
        }
    }
    write!(out, "\"")
}

/// The levels that were handed out last, as JSON. An address is 0 to 63 for a short one, 64 to 79
/// for a group, and 80 for broadcast.
fn write_json_levels<W: Write>(out: &mut W, plan: &Plan, levels: &Levels) -> io::Result<()> {
    write!(out, ",\"levels\":[")?;
    let mut before = "";
    for global in 0..plan.globals() {
        let (location, level) = (plan.global(global).location, levels.of(global));
        if let (Some(Location::Level { bus, address }), Some(level)) = (location, level) {
            write!(
                out,
                "{before}{{\"bus\":{bus},\"address\":{address},\"sent\":{level}}}"
            )?;
            before = ",";
        }
    }
    write!(out, "]")
}

/// The tasks, as JSON.
fn write_json_tasks<W: Write>(out: &mut W, plant: &Plant) -> io::Result<()> {
    write!(out, ",\"tasks\":[")?;
    let plan = plant.setup().plan();
    let mut before = "";
    for task in 0..plan.tasks() {
        let (name, scans, lost) = (
            plan.task_name(task),
            plant.scans(task),
            plant.loss_count(task),
        );
        write!(
            out,
            "{before}{{\"task\":\"{name}\",\"scans\":{scans},\"lost\":{lost}}}"
        )?;
        before = ",";
    }
    write!(out, "]")
}

/// The global variables, as JSON. A duration is in milliseconds.
fn write_json_variables<W: Write>(out: &mut W, plant: &Plant) -> io::Result<()> {
    write!(out, ",\"variables\":{{")?;
    let plan = plant.setup().plan();
    let mut before = "";
    for global in 0..plan.globals() {
        let name = plan.global_name(global);
        match plant.value(global) {
            Value::Bool(truth) => write!(out, "{before}\"{name}\":{truth}")?,
            Value::Int(number) => write!(out, "{before}\"{name}\":{number}")?,
        }
        before = ",";
    }
    write!(out, "}}")
}

/// Whether a bus is up, in a word.
fn up_or_down(is_down: bool) -> &'static str {
    if is_down { "down" } else { "up" }
}

/// How many requests wait for a bus.
fn waiting_at(plant: &Plant, bus: u8) -> usize
    requires { bus < plant.now.plant.plan.buses }
{
    let mut waiting: usize = 0;
    for class in CLASSES {
        waiting = waiting.saturating_add(plant.waiting(bus, class));
    }
    waiting
}

/// How many requests were dropped at a bus.
pub(crate) fn dropped_at(plant: &Plant, bus: u8) -> u64
    requires { bus < plant.now.plant.plan.buses }
{
    let mut dropped: u64 = 0;
    for class in CLASSES {
        dropped = dropped.saturating_add(plant.drop_count(bus, class));
    }
    dropped
}
