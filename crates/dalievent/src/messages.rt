//! Sources of event messages, and how a frame is read as a message of one.

ghost use Rattle.std.specs.Prelude.{◌≡◌, ◌≤◌, IfSome, if◌then◌else◌, Some, None};
ghost use Rattle.dalievent.specs.EventSchemes.{scheme_bits};
ghost use Rattle.dalievent.specs.Messages.{first_message, is_message, information};

use daliframe::{EventScheme, Frame24};

/// Where event messages come from: all that have this scheme and these two parts.
#[derive(Clone, Copy, Debug, PartialEq, Eq)]
pub struct EventSource {
    /// What `a` and `b` mean.
    pub scheme: EventScheme,
    /// The part from bit 17 on: a short address 0 to 63, else an instance type or group 0 to 31.
    pub a: u8,
    /// The part in bits 14 to 10: an instance number or type, 0 to 31.
    pub b: u8,
}

/// The number of values of a message's information, which has 10 bits.
const INFORMATIONS: u32 = 1024;

/// What the scheme adds to a frame.
fn bits_of(scheme: EventScheme) -> u32
    ensures value { result ≡ scheme_bits scheme }
{
    match scheme {
        EventScheme::Instance => 0x80_8000,
        EventScheme::Device => 0,
        EventScheme::DeviceInstance => 0x8000,
        EventScheme::DeviceGroup => 0x80_0000,
        EventScheme::InstanceGroup => 0xC0_0000,
    }
}

impl EventSource {
    /// The number of the message with the information 0.
    fn first_message(self) -> u32
        ensures value { result ≡ first_message self }
    {
        bits_of(self.scheme) + 0x2_0000 * u32::from(self.a) + 0x400 * u32::from(self.b)
    }

    /// The information of a frame, 0 to 1023, where it is a message of this source.
    pub fn information(self, frame: Frame24) -> Option<u16>
        ensures value { result
            ≡ (if is_message self frame then Some (information self frame) else None) }
        ensures range { IfSome result (λ information. information ≤ 1023) }
    {
        let first = self.first_message();
        let number = frame.number();
        if first <= number && number < first + INFORMATIONS {
            Some((number - first) as u16)
        } else {
            None
        }
    }
}
