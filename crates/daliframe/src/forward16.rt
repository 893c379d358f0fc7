//! 16-bit forward frames, which control gear takes (IEC 62386-102, clause 7).
ghost use Rattle.std.specs.Prelude.{◌≡◌, ◌+◌, ◌*◌, ◌/◌, ◌%◌, ◌^◌, ◌<◌};
ghost use Rattle.daliframe.specs.Addresses.{IsAddress};
ghost use Rattle.daliframe.specs.Frames.{level_frame, command_frame, dtr0_frame, dtr1_frame};
ghost use Rattle.daliframe.specs.Frames.{HasFields16};

use crate::{Address, AddressClass};
use std::fmt;
use std::marker::Model;

/// A 16-bit forward frame, which contracts see as its number.
#[derive(Clone, Copy, Debug, PartialEq, Eq)]
pub struct Frame16 {
    number: u16,
}

impl Model for Frame16 {
    ghost use Rattle.std.specs.Prelude.{ℕ};

    ghost Value = { ℕ };

    ghost view = { λ f. f.number };

    ghost inverse = { λ n. record { number = n } };
}

/// The special command DTR0, which sets that register.
const DTR0: u8 = 0xA3;
/// The special command DTR1.
const DTR1: u8 = 0xC3;

/// What a 16-bit forward frame says.
#[derive(Clone, Copy, Debug, PartialEq, Eq)]
pub enum Fields16 {
    /// A direct level: 0 off, 1 to 254, 255 no new level.
    Level { address: Address, level: u8 },
    /// An opcode for this address.
    Command { address: Address, opcode: u8 },
    /// The special command DTR0, which sets that register.
    Dtr0 { value: u8 },
    /// The special command DTR1.
    Dtr1 { value: u8 },
    /// Anything else.
    Other,
}

impl Frame16 {
    /// The frame of this number.
    pub fn new(number: u16) -> Self
        ensures { result ≡ number }
    {
        Frame16 { number }
    }

    /// The frame as a number.
    pub fn number(self) -> u16
        ensures value { result ≡ self }
        ensures range { self < 2 ^ 16 }
    {
        self.number
    }

    fn of_bytes(first: u8, second: u8) -> Self
        ensures { result ≡ 2 ^ 8 * first + second }
    {
        Frame16 {
            number: (u16::from(first) << 8) | u16::from(second),
        }
    }

    /// A direct level for an address.
    pub fn level(address: Address, level: u8) -> Self
        ensures value { result ≡ level_frame address level }
        ensures legal { IsAddress address }
    {
        Self::of_bytes(address.level_byte(), level)
    }

    /// An opcode for an address.
    pub fn command(address: Address, opcode: u8) -> Self
        ensures value { result ≡ command_frame address opcode }
        ensures legal { IsAddress address }
    {
        Self::of_bytes(address.command_byte(), opcode)
    }

    /// The special command DTR0, `A3 d`.
    pub fn dtr0(value: u8) -> Self
        ensures { result ≡ dtr0_frame value }
    {
        Self::of_bytes(DTR0, value)
    }

    /// The special command DTR1, `C3 d`.
    pub fn dtr1(value: u8) -> Self
        ensures { result ≡ dtr1_frame value }
    {
        Self::of_bytes(DTR1, value)
    }

    fn first_byte(self) -> u8
        ensures { result ≡ self / 2 ^ 8 }
    {
        (self.number >> 8) as u8
    }

    fn second_byte(self) -> u8
        ensures { result ≡ self % 2 ^ 8 }
    {
        (self.number & 0xFF) as u8
    }

    /// What the frame says.
    pub fn fields(self) -> Fields16
        ensures { HasFields16 result self }
    {
        let value = self.second_byte();
        let first = self.first_byte();
        match AddressClass::of(first) {
            AddressClass::Level(address) => Fields16::Level {
                address,
                level: value,
            },
            AddressClass::Command(address) => Fields16::Command {
                address,
                opcode: value,
            },
            AddressClass::Special if first == DTR0 => Fields16::Dtr0 { value },
            AddressClass::Special if first == DTR1 => Fields16::Dtr1 { value },
            AddressClass::Special => Fields16::Other,
        }
    }
}

/// Four upper hexadecimal digits.
impl fmt::Display for Frame16 {
    ghost use Rattle.std.specs.Prelude.{Some};
    ghost use Rattle.daliframe.specs.Printed.{upper_hex};

    ghost output = { λ f. Some (upper_hex 4 f) };

    fn fmt<W: fmt::Write>(&self, f: &mut fmt::Formatter<W>) -> fmt::Result {
        let number = self.number;
        write!(f, "{number:04X}")
    }
}
