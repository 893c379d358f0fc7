//! Forward frames in words.

use crate::addresses::AddressWords;
use crate::heard::MessageWords;
use crate::names::CommandName;
use crate::specials::SpecialWords;
use crate::targets::{DevicesWords, PartWords, names_instances};
use dalievent::{Heard, decode};
use daliframe::{Fields16, Frame, Frame16, Frame24};
use std::fmt;

/// What a forward frame says: `short 5 level 200`, `group 3 RECALL MAX LEVEL`, `DTR0 := 100`,
/// `device 3 instance 0 QUERY INPUT VALUE`, `event: device 3 instance 0, scheme device-instance,
/// information 2`. An opcode that this profile does not have is a number: `short 5 opcode 0x0B`.
#[derive(Clone, Copy)]
pub struct FrameWords(pub Frame);

impl fmt::Display for FrameWords {
    fn fmt<W: fmt::Write>(&self, f: &mut fmt::Formatter<W>) -> fmt::Result {
        match self.0 {
            Frame::Forward16(frame) => write_frame16(f, frame),
            Frame::Forward24(frame) => write_frame24(f, frame),
        }
    }
}

/// What forward frames say that are sent one after another, with `again` for one that is the same
/// as the one before: `DTR0 := 100, short 5 SET SCENE 2, again`.
#[derive(Clone, Copy)]
pub struct FramesWords<'a>(pub &'a [Frame]);

impl fmt::Display for FramesWords<'_> {
    fn fmt<W: fmt::Write>(&self, f: &mut fmt::Formatter<W>) -> fmt::Result {
        let mut before = None;
        for frame in self.0 {
            write_after(f, before, *frame)?;
            before = Some(*frame);
        }
        Ok(())
    }
}

/// Writes what a frame says that comes after another.
fn write_after<W: fmt::Write>(
    f: &mut fmt::Formatter<W>,
    before: Option<Frame>,
    frame: Frame,
) -> fmt::Result {
    match before {
        None => write!(f, "{}", FrameWords(frame)),
        Some(other) if other == frame => write!(f, ", again"),
        Some(_) => write!(f, ", {}", FrameWords(frame)),
    }
}

/// Writes what a frame for control gear says.
fn write_frame16<W: fmt::Write>(f: &mut fmt::Formatter<W>, frame: Frame16) -> fmt::Result {
    match frame.fields() {
        Fields16::Level { address, level } => {
            write!(f, "{} ", AddressWords(address))?;
            write_level(f, level)
        }
        Fields16::Command { address, opcode } => {
            write!(f, "{} ", AddressWords(address))?;
            write_name(f, CommandName::of_gear(opcode), opcode)
        }
        Fields16::Dtr0 { .. } | Fields16::Dtr1 { .. } | Fields16::Other => {
            write_unaddressed(f, frame)
        }
    }
}

/// Writes what a frame for control gear says that has no address.
fn write_unaddressed<W: fmt::Write>(f: &mut fmt::Formatter<W>, frame: Frame16) -> fmt::Result {
    let [first, second] = frame.number().to_be_bytes();
    match first {
        0xFC => {
            write!(f, "broadcast unaddressed ")?;
            write_level(f, second)
        }
        0xFD => {
            write!(f, "broadcast unaddressed ")?;
            write_name(f, CommandName::of_gear(second), second)
        }
        _ => write!(f, "{}", SpecialWords::of_gear(first, second)),
    }
}

/// Writes a direct level.
fn write_level<W: fmt::Write>(f: &mut fmt::Formatter<W>, level: u8) -> fmt::Result {
    write!(f, "level {level}")
}

/// Writes the name of a command, or its opcode where this profile does not have it.
fn write_name<W: fmt::Write>(
    f: &mut fmt::Formatter<W>,
    name: Option<CommandName>,
    opcode: u8,
) -> fmt::Result {
    match name {
        Some(name) => write!(f, "{name}"),
        None => write!(f, "opcode 0x{opcode:02X}"),
    }
}

/// Writes what a frame for or from control devices says.
fn write_frame24<W: fmt::Write>(f: &mut fmt::Formatter<W>, frame: Frame24) -> fmt::Result {
    match decode(frame) {
        Heard::Event(message) => write!(f, "event: {}", MessageWords(message)),
        Heard::Command => write_device_command(f, frame),
        Heard::Other => write!(f, "other frame"),
    }
}

/// Writes a command of control devices.
fn write_device_command<W: fmt::Write>(f: &mut fmt::Formatter<W>, frame: Frame24) -> fmt::Result {
    let [_, first, second, third] = frame.number().to_be_bytes();
    match first {
        0xC1 => write!(f, "devices {}", SpecialWords::of_devices(second, third)),
        0xC5 => write!(
            f,
            "devices DIRECT WRITE MEMORY offset {second} value {third}"
        ),
        0xC7 => write!(f, "devices DTR1 := {second}, DTR0 := {third}"),
        0xC9 => write!(f, "devices DTR2 := {second}, DTR1 := {third}"),
        _ => {
            write!(f, "{}{} ", DevicesWords(first), PartWords(second))?;
            write_name(f, name_at(second, third), third)
        }
    }
}

/// The name of a command of what an instance byte names: those of devices and of features have none
/// in this profile.
fn name_at(instance: u8, opcode: u8) -> Option<CommandName> {
    if names_instances(instance) {
        CommandName::of_device(opcode)
    } else {
        None
    }
}
