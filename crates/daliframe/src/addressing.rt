//! Addresses, and the address byte of a 16-bit forward frame.
ghost use Rattle.std.specs.Prelude.{◌≡◌, ◌≤◌, IsSome, IfSome, ◌↔◌};
ghost use Rattle.daliframe.specs.Addresses.{IsAddress, address_number, address_byte};
ghost use Rattle.daliframe.specs.Addresses.{IsAddressClass};

use crate::{GroupAddress, ShortAddress};

/// Whom a 16-bit forward frame is for (IEC 62386-102, clause 7).
#[derive(Clone, Copy, Debug, PartialEq, Eq)]
pub enum Address {
    /// The one control gear of this short address.
    Short(ShortAddress),
    /// The control gear of this group.
    Group(GroupAddress),
    /// All control gear.
    Broadcast,
}

impl Address {
    /// The address of a program's number: 0 to 63 a short address, 64 to 79 the groups 0 to 15, 80
    /// broadcast.
    pub fn from_number(number: u8) -> Option<Self>
        ensures known { IsSome result ↔ (number ≤ 80) }
        ensures value { IfSome result (λ a. IsAddress a × (address_number a ≡ number)) }
    {
        match number {
            0..=63 => Some(Address::Short(ShortAddress::below(number))),
            64..=79 => Some(Address::Group(GroupAddress::below(number - 64))),
            80 => Some(Address::Broadcast),
            _ => None,
        }
    }

    /// A program's number for this address, 0 to 80.
    pub fn number(self) -> u8
        ensures legal { IsAddress self }
        ensures value { result ≡ address_number self }
    {
        match self {
            Address::Short(address) => address.number(),
            Address::Group(group) => 64 + group.number(),
            Address::Broadcast => 80,
        }
    }

    /// The address byte whose selector bit is 0, which says that a level follows.
    pub(crate) fn level_byte(self) -> u8
        ensures legal { IsAddress self }
        ensures value { result ≡ address_byte self 0 }
    {
        match self {
            Address::Short(address) => address.number() << 1,
            Address::Group(group) => 0x80 | (group.number() << 1),
            Address::Broadcast => 0xFE,
        }
    }

    /// The address byte whose selector bit is 1, which says that an opcode follows.
    pub(crate) fn command_byte(self) -> u8
        ensures legal { IsAddress self }
        ensures value { result ≡ address_byte self 1 }
    {
        self.level_byte() | 1
    }
}

/// What the address byte of a 16-bit forward frame alone says.
#[derive(Clone, Copy, Debug, PartialEq, Eq)]
pub enum AddressClass {
    /// A direct level follows for this address.
    Level(Address),
    /// An opcode follows for this address.
    Command(Address),
    /// No address: a special command, broadcast unaddressed, or reserved.
    Special,
}

impl AddressClass {
    /// The class of an address byte.
    pub fn of(byte: u8) -> Self
        ensures { IsAddressClass result byte }
    {
        let address = match byte >> 1 {
            number @ 0..=63 => Address::Short(ShortAddress::below(number)),
            half @ 64..=79 => Address::Group(GroupAddress::below(half & 0x0F)),
            127 => Address::Broadcast,
            _ => return AddressClass::Special,
        };
        if byte & 1 == 0 {
            AddressClass::Level(address)
        } else {
            AddressClass::Command(address)
        }
    }
}
