//! Requests in words.

use crate::Block;
use crate::addresses::{AddressWords, InstanceWords};
use crate::heard::SchemeWords;
use crate::names::CommandName;
use daliframe::{Address, EventScheme, InstanceNumber, ShortAddress};
use gearcmd::{
    Command, GearSetCommand, Request, dev_ask_opcode, dev_do_opcode, gear_ask_opcode,
    gear_do_opcode, gear_pair_opcode, gear_set_opcode,
};
use std::fmt;

/// What a request asks for, by the name of its block and its ports but for the bus: `GEAR_ASK short
/// 5 ACTUAL LEVEL`, `GEAR_SET group 2 SET FADE TIME 5`.
#[derive(Clone, Copy)]
pub struct RequestWords(pub Request);

impl fmt::Display for RequestWords {
    fn fmt<W: fmt::Write>(&self, f: &mut fmt::Formatter<W>) -> fmt::Result {
        let command = self.0.command;
        write!(f, "{} ", Block::of(&command))?;
        match command {
            Command::GearLevel { address, level } => {
                write!(f, "{} level {level}", AddressWords(address))
            }
            Command::GearDo { address, command } => write_gear(f, address, gear_do_opcode(command)),
            Command::GearSet {
                address,
                command,
                value,
            } => write_set(f, address, command, value),
            Command::GearPair { address, command } => {
                write_gear(f, address, gear_pair_opcode(command))
            }
            Command::GearAsk { address, command } => {
                write_gear(f, Address::Short(address), gear_ask_opcode(command))
            }
            Command::GearRead {
                address,
                bank,
                offset,
            } => write_read(f, address, bank, offset),
            Command::DevDo {
                address,
                instance,
                command,
            } => write_device(f, address, instance, dev_do_opcode(command)),
            Command::DevScheme {
                address,
                instance,
                scheme,
            } => write_scheme(f, address, instance, scheme),
            Command::DevAsk {
                address,
                instance,
                command,
            } => write_device(f, address, instance, dev_ask_opcode(command)),
        }
    }
}

/// Writes an opcode for control gear.
fn write_gear<W: fmt::Write>(
    f: &mut fmt::Formatter<W>,
    address: Address,
    opcode: u8,
) -> fmt::Result {
    write!(f, "{} ", AddressWords(address))?;
    write_name(f, CommandName::of_gear(opcode))
}

/// Writes an opcode for an instance of a control device.
fn write_device<W: fmt::Write>(
    f: &mut fmt::Formatter<W>,
    device: ShortAddress,
    instance: InstanceNumber,
    opcode: u8,
) -> fmt::Result {
    write!(f, "{} ", InstanceWords { device, instance })?;
    write_name(f, CommandName::of_device(opcode))
}

/// Writes the name of a command, which each command of a block has.
fn write_name<W: fmt::Write>(f: &mut fmt::Formatter<W>, name: Option<CommandName>) -> fmt::Result {
    match name {
        Some(name) => write!(f, "{}", name.without_query()),
        None => write!(f, "command"),
    }
}

/// Writes the ports of GEAR_SET.
fn write_set<W: fmt::Write>(
    f: &mut fmt::Formatter<W>,
    address: Address,
    command: GearSetCommand,
    value: u8,
) -> fmt::Result {
    write_gear(f, address, gear_set_opcode(command))?;
    write!(f, " {value}")
}

/// Writes the ports of DEV_SCHEME.
fn write_scheme<W: fmt::Write>(
    f: &mut fmt::Formatter<W>,
    device: ShortAddress,
    instance: InstanceNumber,
    scheme: EventScheme,
) -> fmt::Result {
    let instance = InstanceWords { device, instance };
    write!(f, "{instance} scheme {}", SchemeWords(scheme))
}

/// Writes the ports of GEAR_READ.
fn write_read<W: fmt::Write>(
    f: &mut fmt::Formatter<W>,
    address: ShortAddress,
    bank: u8,
    offset: u8,
) -> fmt::Result {
    let address = address.number();
    write!(f, "short {address} bank {bank} offset {offset}")
}
