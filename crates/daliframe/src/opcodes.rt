//! The classes of opcodes, by the opcode byte alone.
ghost use Rattle.std.specs.Prelude.{MatchOption};
ghost use Rattle.daliframe.specs.Opcodes.{IsOfClass, IsOfDeviceClass};

/// How control gear takes an opcode (IEC 62386-102, clause 11).
#[derive(Clone, Copy, Debug, PartialEq, Eq)]
pub enum OpcodeClass {
    /// Sent once.
    Once,
    /// Acts where the same frame comes twice with no other between.
    Twice,
    /// As `Twice`, with the value that was put in DTR0 before.
    TwiceAfterDtr0,
    /// Sent once and answered by a backward frame, or by none.
    Query,
    /// READ MEMORY LOCATION: the byte at offset DTR0 of bank DTR1.
    Read,
}

impl OpcodeClass {
    /// The class of an opcode of control gear, or `None` where this profile has no such opcode.
    pub fn of(opcode: u8) -> Option<Self>
        ensures { MatchOption result ((c : OpcodeClass) → ¬ IsOfClass c opcode)
            (λ c. IsOfClass c opcode) }
    {
        match opcode {
            0x00..=0x08 | 0x0A | 0x10..=0x1F => Some(OpcodeClass::Once),
            0x20..=0x21 | 0x50..=0x7F => Some(OpcodeClass::Twice),
            0x2A..=0x30 | 0x40..=0x4F => Some(OpcodeClass::TwiceAfterDtr0),
            0x90..=0xA6 | 0xA8 | 0xAA | 0xB0..=0xC1 => Some(OpcodeClass::Query),
            0xC5 => Some(OpcodeClass::Read),
            _ => None,
        }
    }
}

/// How a control device takes an opcode for one of its instances (profile).
#[derive(Clone, Copy, Debug, PartialEq, Eq)]
pub enum DeviceOpcodeClass {
    /// Acts where the same frame comes twice with no other between.
    Twice,
    /// As `Twice`, with the value that was put in DTR0 before.
    TwiceAfterDtr0,
    /// Sent once and answered by a backward frame, or by none.
    Query,
}

impl DeviceOpcodeClass {
    /// The class of an opcode of control devices, or `None` where this profile has no such opcode.
    pub fn of(opcode: u8) -> Option<Self>
        ensures { MatchOption result ((c : DeviceOpcodeClass) → ¬ IsOfDeviceClass c opcode)
            (λ c. IsOfDeviceClass c opcode) }
    {
        match opcode {
            0x62..=0x63 => Some(DeviceOpcodeClass::Twice),
            0x67 => Some(DeviceOpcodeClass::TwiceAfterDtr0),
            0x80 | 0x8B..=0x8C => Some(DeviceOpcodeClass::Query),
            _ => None,
        }
    }
}
