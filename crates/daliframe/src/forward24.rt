//! 24-bit forward frames, which control devices take and send (IEC 62386-103, clause 7).
ghost use Rattle.std.specs.Prelude.{◌≡◌, ◌^◌, ◌<◌, ◌↔◌, IsTrue};
ghost use Rattle.std.specs.Option.{SomeIff};
ghost use Rattle.daliframe.specs.Frames.{frame24, device_frame, device_dtr0_frame};
ghost use Rattle.daliframe.specs.Frames.{IsCommand24, HasFields24};

use crate::{Address, InstanceNumber, ShortAddress};
use std::fmt;
use std::marker::Model;

/// A 24-bit forward frame, which contracts see as its number.
#[derive(Clone, Copy, Debug, PartialEq, Eq)]
pub struct Frame24 {
    number: u32,
}

impl Model for Frame24 {
    ghost use Rattle.std.specs.Prelude.{ℕ, ◌<◌, ◌^◌};

    ghost Value = { ℕ };

    ghost view = { λ f. f.number };

    ghost invariant = { λ f. f.number < 2 ^ 24 };

    ghost inverse = { λ n. record { number = n } };
}

/// The address byte of the special commands of control devices.
const SPECIAL: u8 = 0xC1;
/// The instance byte of the special command DTR0, which sets that register.
const DTR0: u8 = 0x30;

/// What a 24-bit forward frame says.
#[derive(Clone, Copy, Debug, PartialEq, Eq)]
pub enum Fields24 {
    /// An event message.
    Event,
    /// A command to one instance of a control device.
    Command {
        address: ShortAddress,
        instance: InstanceNumber,
        opcode: u8,
    },
    /// The special command DTR0, which sets that register.
    Dtr0 {
        value: u8,
    },
    /// Any other command.
    OtherCommand,
}

impl Frame24 {
    /// The frame of this number, where it has at most 24 bits.
    pub fn new(number: u32) -> Option<Self>
        ensures { SomeIff result (number < 2 ^ 24) number }
    {
        if number < 1 << 24 {
            Some(Frame24 { number })
        } else {
            None
        }
    }

    /// The frame as a number, below 2^24.
    pub fn number(self) -> u32
        ensures value { result ≡ self }
        ensures range { self < 2 ^ 24 }
    {
        self.number
    }

    fn of_bytes(first: u8, second: u8, third: u8) -> Self
        ensures { result ≡ frame24 first second third }
    {
        let upper = (u32::from(first) << 8) | u32::from(second);
        Frame24 {
            number: (upper << 8) | u32::from(third),
        }
    }

    /// A command to one instance of a control device.
    pub fn command(address: ShortAddress, instance: InstanceNumber, opcode: u8) -> Self
        ensures value { result ≡ device_frame address instance opcode }
        ensures address_legal { address < 64 }
        ensures instance_legal { instance < 32 }
    {
        let address_byte = Address::Short(address).command_byte();
        Self::of_bytes(address_byte, instance.number(), opcode)
    }

    /// The special command DTR0 of control devices, `C1 30 d`.
    pub fn dtr0(value: u8) -> Self
        ensures { result ≡ device_dtr0_frame value }
    {
        Self::of_bytes(SPECIAL, DTR0, value)
    }

    /// Whether the frame is a command and not an event: its bit 16.
    pub fn is_command(self) -> bool
        ensures { IsTrue result ↔ IsCommand24 self }
    {
        (self.number >> 16) & 1 == 1
    }

    /// What the frame says.
    pub fn fields(self) -> Fields24
        ensures { HasFields24 result self }
    {
        if !self.is_command() {
            return Fields24::Event;
        }
        let opcode = (self.number & 0xFF) as u8;
        let instance_byte = (self.number >> 8 & 0xFF) as u8;
        if self.number >> 16 == u32::from(SPECIAL) && instance_byte == DTR0 {
            return Fields24::Dtr0 { value: opcode };
        }
        let address = ShortAddress::new((self.number >> 17) as u8);
        let instance = InstanceNumber::new(instance_byte);
        match (address, instance) {
            (Some(address), Some(instance)) => Fields24::Command {
                address,
                instance,
                opcode,
            },
            _ => Fields24::OtherCommand,
        }
    }
}

/// Six upper hexadecimal digits.
impl fmt::Display for Frame24 {
    ghost use Rattle.std.specs.Prelude.{Some};
    ghost use Rattle.daliframe.specs.Printed.{upper_hex};

    ghost output = { λ f. Some (upper_hex 6 f) };

    fn fmt<W: fmt::Write>(&self, f: &mut fmt::Formatter<W>) -> fmt::Result {
        let number = self.number;
        write!(f, "{number:06X}")
    }
}
