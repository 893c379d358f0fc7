//! The frames of events.

ghost use Rattle.std.specs.Prelude.{◌≡◌, ℕ, MatchOption};
ghost use Rattle.dalievent.specs.EventSchemes.{a_limit, scheme_bits, Solves};
ghost use Rattle.daliwords.specs.Events.{event_of};

use dalievent::EventSource;
use daliframe::{EventScheme, Frame24};

/// The instance numbers, types and groups, and the device groups: five bits.
const PARTS: u8 = 32;

/// The values of a message's information: ten bits.
const INFORMATIONS: u32 = 1024;

/// The frame of the message of a source with this information. There is none where the information
/// has more than 10 bits, or the source has a part that no message can have.
pub fn frame_of_event(source: EventSource, information: u32) -> Option<Frame24>
    ensures { MatchOption result ((frame : ℕ) → ¬ Solves (event_of source information) frame)
        (Solves (event_of source information)) }
{
    let EventSource { scheme, a, b } = source;
    if a >= most_of(scheme) || b >= PARTS || information >= INFORMATIONS {
        return None;
    }
    let parts = 0x2_0000 * u32::from(a) + 0x400 * u32::from(b);
    Frame24::new(bits_of(scheme) + parts + information)
}

/// The number of values of the first part.
fn most_of(scheme: EventScheme) -> u8
    ensures { result ≡ a_limit scheme }
{
    match scheme {
        EventScheme::Device | EventScheme::DeviceInstance => 64,
        EventScheme::Instance | EventScheme::DeviceGroup | EventScheme::InstanceGroup => PARTS,
    }
}

/// What the scheme adds to a frame.
fn bits_of(scheme: EventScheme) -> u32
    ensures { result ≡ scheme_bits scheme }
{
    match scheme {
        EventScheme::Instance => 0x80_8000,
        EventScheme::Device => 0,
        EventScheme::DeviceInstance => 0x8000,
        EventScheme::DeviceGroup => 0x80_0000,
        EventScheme::InstanceGroup => 0xC0_0000,
    }
}
