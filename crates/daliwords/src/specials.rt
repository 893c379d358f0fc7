//! The special commands, which have no address (IEC 62386-102 and -103, clause 11).

use std::fmt;

/// What the last byte of a special command is.
#[derive(Clone, Copy, PartialEq, Eq)]
enum Operand {
    /// Nothing: it is 0.
    Nothing,
    /// What a register is set to.
    Register,
    /// A number.
    Number,
    /// Bits, such as an address with a mark behind it.
    Bits,
}

/// The special commands of control gear, by their first byte.
const GEAR_SPECIALS: &[(u8, &str, Operand)] = &[
    (0xA1, "TERMINATE", Operand::Nothing),
    (0xA3, "DTR0", Operand::Register),
    (0xA5, "INITIALISE", Operand::Bits),
    (0xA7, "RANDOMISE", Operand::Nothing),
    (0xA9, "COMPARE", Operand::Nothing),
    (0xAB, "WITHDRAW", Operand::Nothing),
    (0xAD, "PING", Operand::Nothing),
    (0xB1, "SEARCHADDRH", Operand::Register),
    (0xB3, "SEARCHADDRM", Operand::Register),
    (0xB5, "SEARCHADDRL", Operand::Register),
    (0xB7, "PROGRAM SHORT ADDRESS", Operand::Bits),
    (0xB9, "VERIFY SHORT ADDRESS", Operand::Bits),
    (0xBB, "QUERY SHORT ADDRESS", Operand::Nothing),
    (0xC1, "ENABLE DEVICE TYPE", Operand::Number),
    (0xC3, "DTR1", Operand::Register),
    (0xC5, "DTR2", Operand::Register),
    (0xC7, "WRITE MEMORY LOCATION", Operand::Number),
    (0xC9, "WRITE MEMORY LOCATION NO REPLY", Operand::Number),
];

/// The special commands of control devices with the first byte C1, by their second byte.
const DEVICE_SPECIALS: &[(u8, &str, Operand)] = &[
    (0x00, "TERMINATE", Operand::Nothing),
    (0x01, "INITIALISE", Operand::Bits),
    (0x02, "RANDOMISE", Operand::Nothing),
    (0x03, "COMPARE", Operand::Nothing),
    (0x04, "WITHDRAW", Operand::Nothing),
    (0x05, "SEARCHADDRH", Operand::Register),
    (0x06, "SEARCHADDRM", Operand::Register),
    (0x07, "SEARCHADDRL", Operand::Register),
    (0x08, "PROGRAM SHORT ADDRESS", Operand::Number),
    (0x09, "VERIFY SHORT ADDRESS", Operand::Number),
    (0x0A, "QUERY SHORT ADDRESS", Operand::Nothing),
    (0x20, "WRITE MEMORY LOCATION", Operand::Number),
    (0x21, "WRITE MEMORY LOCATION NO REPLY", Operand::Number),
    (0x30, "DTR0", Operand::Register),
    (0x31, "DTR1", Operand::Register),
    (0x32, "DTR2", Operand::Register),
    (0x33, "SEND TESTFRAME", Operand::Bits),
];

/// A special command: its opcode and its last byte.
#[derive(Clone, Copy)]
pub(crate) struct SpecialWords {
    opcode: u8,
    value: u8,
    row: Option<(&'static str, Operand)>,
}

impl SpecialWords {
    /// A special command of control gear.
    pub(crate) fn of_gear(opcode: u8, value: u8) -> Self {
        let row = row_of(GEAR_SPECIALS, opcode);
        SpecialWords { opcode, value, row }
    }

    /// A special command of control devices with the first byte C1.
    pub(crate) fn of_devices(opcode: u8, value: u8) -> Self {
        let row = row_of(DEVICE_SPECIALS, opcode);
        SpecialWords { opcode, value, row }
    }
}

impl fmt::Display for SpecialWords {
    fn fmt<W: fmt::Write>(&self, f: &mut fmt::Formatter<W>) -> fmt::Result {
        let SpecialWords { opcode, value, .. } = *self;
        match self.row {
            Some((name, Operand::Register)) => write!(f, "{name} := {value}"),
            Some((name, Operand::Number)) => write!(f, "{name} {value}"),
            Some((name, Operand::Bits)) => write!(f, "{name} 0x{value:02X}"),
            Some((name, Operand::Nothing)) if value == 0 => write!(f, "{name}"),
            _ => write!(f, "special opcode 0x{opcode:02X}, value {value}"),
        }
    }
}

/// What a table says of an opcode.
fn row_of(table: &[(u8, &'static str, Operand)], wanted: u8) -> Option<(&'static str, Operand)> {
    for &(opcode, name, operand) in table {
        if opcode == wanted {
            return Some((name, operand));
        }
    }
    None
}
