//! The names of commands, by their opcodes (IEC 62386-102 and -103, clause 11).

use std::fmt;

/// The commands of control gear in the order of their opcodes: the first opcode, the last one, and
/// the name. Commands with several opcodes are numbered from 0 on.
const GEAR_NAMES: &[(u8, u8, &str)] = &[
    (0x00, 0x00, "OFF"),
    (0x01, 0x01, "UP"),
    (0x02, 0x02, "DOWN"),
    (0x03, 0x03, "STEP UP"),
    (0x04, 0x04, "STEP DOWN"),
    (0x05, 0x05, "RECALL MAX LEVEL"),
    (0x06, 0x06, "RECALL MIN LEVEL"),
    (0x07, 0x07, "STEP DOWN AND OFF"),
    (0x08, 0x08, "ON AND STEP UP"),
    (0x0A, 0x0A, "GO TO LAST ACTIVE LEVEL"),
    (0x10, 0x1F, "GO TO SCENE"),
    (0x20, 0x20, "RESET"),
    (0x21, 0x21, "STORE ACTUAL LEVEL IN DTR0"),
    (0x2A, 0x2A, "SET MAX LEVEL"),
    (0x2B, 0x2B, "SET MIN LEVEL"),
    (0x2C, 0x2C, "SET SYSTEM FAILURE LEVEL"),
    (0x2D, 0x2D, "SET POWER ON LEVEL"),
    (0x2E, 0x2E, "SET FADE TIME"),
    (0x2F, 0x2F, "SET FADE RATE"),
    (0x30, 0x30, "SET EXTENDED FADE TIME"),
    (0x40, 0x4F, "SET SCENE"),
    (0x50, 0x5F, "REMOVE FROM SCENE"),
    (0x60, 0x6F, "ADD TO GROUP"),
    (0x70, 0x7F, "REMOVE FROM GROUP"),
    (0x90, 0x90, "QUERY STATUS"),
    (0x91, 0x91, "QUERY CONTROL GEAR PRESENT"),
    (0x92, 0x92, "QUERY LAMP FAILURE"),
    (0x93, 0x93, "QUERY LAMP POWER ON"),
    (0x94, 0x94, "QUERY LIMIT ERROR"),
    (0x95, 0x95, "QUERY RESET STATE"),
    (0x96, 0x96, "QUERY MISSING SHORT ADDRESS"),
    (0x97, 0x97, "QUERY VERSION NUMBER"),
    (0x98, 0x98, "QUERY CONTENT DTR0"),
    (0x99, 0x99, "QUERY DEVICE TYPE"),
    (0x9A, 0x9A, "QUERY PHYSICAL MINIMUM"),
    (0x9B, 0x9B, "QUERY POWER FAILURE"),
    (0x9C, 0x9C, "QUERY CONTENT DTR1"),
    (0x9D, 0x9D, "QUERY CONTENT DTR2"),
    (0x9E, 0x9E, "QUERY OPERATING MODE"),
    (0x9F, 0x9F, "QUERY LIGHT SOURCE TYPE"),
    (0xA0, 0xA0, "QUERY ACTUAL LEVEL"),
    (0xA1, 0xA1, "QUERY MAX LEVEL"),
    (0xA2, 0xA2, "QUERY MIN LEVEL"),
    (0xA3, 0xA3, "QUERY POWER ON LEVEL"),
    (0xA4, 0xA4, "QUERY SYSTEM FAILURE LEVEL"),
    (0xA5, 0xA5, "QUERY FADE TIME AND FADE RATE"),
    (0xA6, 0xA6, "QUERY MANUFACTURER SPECIFIC MODE"),
    (0xA8, 0xA8, "QUERY EXTENDED FADE TIME"),
    (0xAA, 0xAA, "QUERY CONTROL GEAR FAILURE"),
    (0xB0, 0xBF, "QUERY SCENE LEVEL"),
    (0xC0, 0xC0, "QUERY GROUPS 0 TO 7"),
    (0xC1, 0xC1, "QUERY GROUPS 8 TO 15"),
    (0xC5, 0xC5, "READ MEMORY LOCATION"),
];

/// The commands of instances of control devices, as those of control gear.
const DEVICE_NAMES: &[(u8, u8, &str)] = &[
    (0x62, 0x62, "ENABLE INSTANCE"),
    (0x63, 0x63, "DISABLE INSTANCE"),
    (0x67, 0x67, "SET EVENT SCHEME"),
    (0x80, 0x80, "QUERY INSTANCE TYPE"),
    (0x8B, 0x8B, "QUERY EVENT SCHEME"),
    (0x8C, 0x8C, "QUERY INPUT VALUE"),
];

/// The name of a command, with its number at the end where it has one.
#[derive(Clone, Copy)]
pub(crate) struct CommandName {
    name: &'static str,
    number: Option<u8>,
}

impl CommandName {
    /// The command of control gear with this opcode, where this profile has it.
    pub(crate) fn of_gear(opcode: u8) -> Option<Self> {
        named_in(GEAR_NAMES, opcode)
    }

    /// The command of an instance of a control device with this opcode, where this profile has it.
    pub(crate) fn of_device(opcode: u8) -> Option<Self> {
        named_in(DEVICE_NAMES, opcode)
    }

    /// The name of a query without its first word, which its block says.
    pub(crate) fn without_query(self) -> Self {
        CommandName {
            name: self.name.strip_prefix("QUERY ").unwrap_or(self.name),
            number: self.number,
        }
    }
}

impl fmt::Display for CommandName {
    fn fmt<W: fmt::Write>(&self, f: &mut fmt::Formatter<W>) -> fmt::Result {
        let name = self.name;
        match self.number {
            Some(number) => write!(f, "{name} {number}"),
            None => write!(f, "{name}"),
        }
    }
}

/// The name that a table has for this opcode.
fn named_in(table: &[(u8, u8, &'static str)], opcode: u8) -> Option<CommandName> {
    for &(first, last, name) in table {
        if first <= opcode && opcode <= last {
            let number = if first < last {
                Some(opcode - first)
            } else {
                None
            };
            return Some(CommandName { name, number });
        }
    }
    None
}
