//! A survey as a table: a row for each gear and each instance that is there.

ghost use Rattle.std.specs.Prelude.{◌<◌};

use crate::asking::Asked;
use crate::blinking::ACTUAL_LEVEL;
use crate::surveys::{instance_query, is_answer, outcome_in, query};
use bitflags::Flags;
use buslink::{Outcome, Reply};
use daliframe::{EventScheme, InstanceNumber, ShortAddress};
use daliwords::{SchemeWords, StatusWords};
use gearcmd::Status;
use std::io::Write;
use std::{fmt, io};

// The queries of GEAR_ASK.
pub(crate) const STATUS: u8 = 0;

pub(crate) const PRESENT: u8 = 1;

pub(crate) const DEVICE_TYPE: u8 = 9;

pub(crate) const MAX_LEVEL: u8 = 17;

pub(crate) const MIN_LEVEL: u8 = 18;

pub(crate) const POWER_ON_LEVEL: u8 = 19;

/// FADE TIME AND FADE RATE.
pub(crate) const FADE_TIME: u8 = 21;

const SCENE_0_LEVEL: u8 = 25;

const GROUPS_0_TO_7: u8 = 41;

const GROUPS_8_TO_15: u8 = 42;

// The queries of DEV_ASK.
pub(crate) const INSTANCE_TYPE: u8 = 0;

pub(crate) const EVENT_SCHEME: u8 = 1;

/// The level of a scene that gear is not in.
const NO_SCENE: u8 = 255;

/// The level at power on of gear that goes back to the level that it had.
const LEVEL_NAMES: &[(u8, &str)] = &[(255, "  last")];

/// The device types of gear that has none, and of gear that has several.
const TYPE_NAMES: &[(u8, &str)] = &[(254, "  none"), (255, "  many")];

/// The fade times by their numbers, in seconds: each is the root of 2 times the one before it (IEC
/// 62386-102, clause 9).
const FADE_TIMES: &[&str] = &[
    "  none", " 0.7 s", " 1.0 s", " 1.4 s", " 2.0 s", " 2.8 s", " 4.0 s", " 5.7 s", " 8.0 s",
    "11.3 s", "16.0 s", "22.6 s", "32.0 s", "45.3 s", "64.0 s", "90.5 s",
];

/// The table of a survey, whose rows are written as they come, where it is shown at all. The
/// writer's first failure is kept, and nothing is written behind it.
#[derive(Drop)]
pub struct Table<'a, W> {
    to: &'a mut W,
    is_shown: bool,
    written: io::Result<()>,
}

impl<'a, W: Write> Table<'a, W> {
    /// A table of which nothing is written yet.
    pub fn new(to: &'a mut W, is_shown: bool) -> Self {
        let written = Ok(());
        Table {
            to,
            is_shown,
            written,
        }
    }

    /// The end of the table.
    ///
    /// # Errors
    ///
    /// The writer's first failure.
    pub fn finish(self) -> io::Result<()> {
        let Table { written, .. } = self;
        written
    }

    /// Writes the head of the gear's rows.
    pub(crate) fn begin_gear(&mut self) {
        self.add_head(
            "gear  level    min    max  power on   type   fade  status, groups and scenes",
        );
    }

    /// Writes the head of the instances' rows.
    pub(crate) fn begin_devices(&mut self) {
        self.add_head("device  instance   type  scheme");
    }

    /// Writes the row of gear, where it is there.
    pub(crate) fn add_gear(&mut self, asked: &[Asked], address: ShortAddress) {
        self.add(&GearRow { asked, address });
    }

    /// Writes the rows of a device's instances that are there.
    pub(crate) fn add_device(&mut self, asked: &[Asked], address: ShortAddress) {
        self.add(&DeviceRows { asked, address });
    }

    /// Writes the head of rows.
    fn add_head(&mut self, head: &str) {
        if self.is_shown && self.written.is_ok() {
            self.written = writeln!(self.to, "{head}");
        }
    }

    /// Writes rows, each with its line feed.
    fn add<D: fmt::Display>(&mut self, rows: &D) {
        if self.is_shown && self.written.is_ok() {
            self.written = write_rows(self.to, rows);
        }
    }
}

/// Writes rows, of which nothing is left in a buffer.
fn write_rows<W: Write, D: fmt::Display>(to: &mut W, rows: &D) -> io::Result<()> {
    write!(to, "{rows}")?;
    to.flush()
}

/// The row of gear, or nothing where it is not there.
#[derive(Clone, Copy)]
struct GearRow<'a> {
    asked: &'a [Asked],
    address: ShortAddress,
}

impl fmt::Display for GearRow<'_> {
    fn fmt<W: fmt::Write>(&self, f: &mut fmt::Formatter<W>) -> fmt::Result {
        write_gear(f, self.asked, self.address)
    }
}

/// The rows of a device's instances that are there.
#[derive(Clone, Copy)]
struct DeviceRows<'a> {
    asked: &'a [Asked],
    address: ShortAddress,
}

impl fmt::Display for DeviceRows<'_> {
    fn fmt<W: fmt::Write>(&self, f: &mut fmt::Formatter<W>) -> fmt::Result {
        write_device(f, self.asked, self.address)
    }
}

/// Writes the row of gear, where it is there or each attempt to ask it was lost.
fn write_gear<W: fmt::Write>(
    f: &mut fmt::Formatter<W>,
    asked: &[Asked],
    address: ShortAddress,
) -> fmt::Result {
    let number = address.number();
    match outcome_in(asked, query(address, PRESENT)) {
        Some(Outcome::GaveUp) => writeln!(f, "{number:>4}  not known, since each frame was lost"),
        Some(outcome) if is_answer(outcome) => {
            let level = Cell(outcome_in(asked, query(address, ACTUAL_LEVEL)));
            let min = Cell(outcome_in(asked, query(address, MIN_LEVEL)));
            let max = Cell(outcome_in(asked, query(address, MAX_LEVEL)));
            write!(f, "{number:>4} {level} {min} {max}")?;
            write_settings(f, asked, address)?;
            write_status(f, outcome_in(asked, query(address, STATUS)))?;
            write_groups(f, asked, address)?;
            write_scenes(f, asked, address)?;
            writeln!(f)
        }
        _ => Ok(()),
    }
}

/// Writes the level at power on, the device type and the fade time of gear.
fn write_settings<W: fmt::Write>(
    f: &mut fmt::Formatter<W>,
    asked: &[Asked],
    address: ShortAddress,
) -> fmt::Result {
    let power_on = Named {
        names: LEVEL_NAMES,
        outcome: outcome_in(asked, query(address, POWER_ON_LEVEL)),
    };
    let kind = Named {
        names: TYPE_NAMES,
        outcome: outcome_in(asked, query(address, DEVICE_TYPE)),
    };
    let fade = FadeCell(outcome_in(asked, query(address, FADE_TIME)));
    write!(f, "    {power_on} {kind} {fade}  ")
}

/// Writes what gear says of its status.
fn write_status<W: fmt::Write>(f: &mut fmt::Formatter<W>, outcome: Option<Outcome>) -> fmt::Result {
    match answer_in(outcome) {
        Some(byte) => write!(f, "{}", StatusWords(Status::from_bits_retain(byte))),
        None => write!(f, "no status"),
    }
}

/// Writes the groups that gear is in, where there are some.
fn write_groups<W: fmt::Write>(
    f: &mut fmt::Formatter<W>,
    asked: &[Asked],
    address: ShortAddress,
) -> fmt::Result {
    let groups = groups_of(asked, address);
    if groups == 0 {
        return Ok(());
    }
    write!(f, "; groups")?;
    for group in 0..16u8 {
        if groups >> group & 1 == 1 {
            write!(f, " {group}")?;
        }
    }
    Ok(())
}

/// The groups that gear is in, a bit each, group 0 first.
pub(crate) fn groups_of(asked: &[Asked], address: ShortAddress) -> u16 {
    let low = answer_in(outcome_in(asked, query(address, GROUPS_0_TO_7))).unwrap_or(0);
    let high = answer_in(outcome_in(asked, query(address, GROUPS_8_TO_15))).unwrap_or(0);
    u16::from_le_bytes([low, high])
}

/// Writes the scenes that gear is in, each with its level.
fn write_scenes<W: fmt::Write>(
    f: &mut fmt::Formatter<W>,
    asked: &[Asked],
    address: ShortAddress,
) -> fmt::Result {
    for scene in 0..16u8 {
        if let Some(level) = scene_level(asked, address, scene) {
            write!(f, "; scene {scene} at {level}")?;
        }
    }
    Ok(())
}

/// The level of gear in a scene, where it has one.
pub(crate) fn scene_level(asked: &[Asked], address: ShortAddress, scene: u8) -> Option<u8>
    requires { scene < 16 }
{
    match answer_in(outcome_in(asked, query(address, SCENE_0_LEVEL + scene))) {
        None | Some(NO_SCENE) => None,
        level => level,
    }
}

/// Writes a row for each instance of a device that is there.
fn write_device<W: fmt::Write>(
    f: &mut fmt::Formatter<W>,
    asked: &[Asked],
    address: ShortAddress,
) -> fmt::Result {
    for number in 0..32 {
        if let Some(instance) = InstanceNumber::new(number) {
            write_instance(f, asked, address, instance)?;
        }
    }
    Ok(())
}

/// Writes the row of an instance, where it is there.
fn write_instance<W: fmt::Write>(
    f: &mut fmt::Formatter<W>,
    asked: &[Asked],
    address: ShortAddress,
    instance: InstanceNumber,
) -> fmt::Result {
    let kind = outcome_in(asked, instance_query(address, instance, INSTANCE_TYPE));
    if !kind.is_some_and(is_answer) {
        return Ok(());
    }
    let device = address.number();
    let number = instance.number();
    let kind = Cell(kind);
    write!(f, "{device:>6}  {number:>8} {kind}  ")?;
    let scheme = answer_in(outcome_in(asked, instance_query(address, instance, EVENT_SCHEME)));
    match scheme.and_then(EventScheme::new) {
        Some(scheme) => writeln!(f, "{}", SchemeWords(scheme)),
        None => writeln!(f, "not known"),
    }
}

/// The byte that was answered.
pub(crate) fn answer_in(outcome: Option<Outcome>) -> Option<u8> {
    match outcome {
        Some(Outcome::Done(Reply::Answer(byte))) => Some(byte),
        _ => None,
    }
}

/// An answer in a column of six: `?` where something came that is no answer, `-` where nothing did.
#[derive(Clone, Copy)]
struct Cell(Option<Outcome>);

impl fmt::Display for Cell {
    fn fmt<W: fmt::Write>(&self, f: &mut fmt::Formatter<W>) -> fmt::Result {
        match self.0 {
            Some(Outcome::Done(Reply::Answer(byte))) => write!(f, "{byte:>6}"),
            Some(Outcome::Done(Reply::Damaged)) => write!(f, "     ?"),
            _ => write!(f, "     -"),
        }
    }
}

/// An answer in a column of six, or its name where it has one.
#[derive(Clone, Copy)]
struct Named {
    names: &'static [(u8, &'static str)],
    outcome: Option<Outcome>,
}

impl fmt::Display for Named {
    fn fmt<W: fmt::Write>(&self, f: &mut fmt::Formatter<W>) -> fmt::Result {
        if let Some(byte) = answer_in(self.outcome) {
            for &(named, name) in self.names {
                if named == byte {
                    return f.write_str(name);
                }
            }
        }
        write!(f, "{}", Cell(self.outcome))
    }
}

/// The fade time in a column of six, of an answer that has it in its upper four bits.
#[derive(Clone, Copy)]
struct FadeCell(Option<Outcome>);

impl fmt::Display for FadeCell {
    fn fmt<W: fmt::Write>(&self, f: &mut fmt::Formatter<W>) -> fmt::Result {
        match answer_in(self.0) {
            Some(byte) => match FADE_TIMES.get(usize::from(byte >> 4)) {
                Some(time) => f.write_str(time),
                None => Ok(()),
            },
            None => write!(f, "{}", Cell(self.0)),
        }
    }
}
