//! Whom a 24-bit command is for, in words (IEC 62386-103, clause 7).

use std::fmt;

/// The control devices that an address byte names, whose lowest bit is 1: `device 3`.
#[derive(Clone, Copy)]
pub(crate) struct DevicesWords(pub u8);

impl fmt::Display for DevicesWords {
    fn fmt<W: fmt::Write>(&self, f: &mut fmt::Formatter<W>) -> fmt::Result {
        let half = self.0 >> 1;
        match half {
            0..=63 => write!(f, "device {half}"),
            64..=95 => write!(f, "device group {}", half & 0x1F),
            126 => write!(f, "unaddressed devices"),
            127 => write!(f, "all devices"),
            _ => write!(f, "reserved address 0x{:02X}", self.0),
        }
    }
}

/// The part of these devices that an instance byte names, with a blank before it: ` instance 0`;
/// and nothing where it is the device itself.
#[derive(Clone, Copy)]
pub(crate) struct PartWords(pub u8);

impl fmt::Display for PartWords {
    fn fmt<W: fmt::Write>(&self, f: &mut fmt::Formatter<W>) -> fmt::Result {
        let byte = self.0;
        match byte {
            0x00..=0x1F => write!(f, " instance {byte}"),
            0x80..=0x9F => write!(f, " instance group {}", byte & 0x1F),
            0xC0..=0xDF => write!(f, " instance type {}", byte & 0x1F),
            0xFF => write!(f, " all instances"),
            0xFE => Ok(()),
            _ => write!(f, " instance byte 0x{byte:02X}"),
        }
    }
}

/// Whether an instance byte names instances, and neither the device nor a feature.
pub(crate) fn names_instances(byte: u8) -> bool {
    matches!(byte, 0x00..=0x1F | 0x80..=0x9F | 0xC0..=0xDF | 0xFF)
}
