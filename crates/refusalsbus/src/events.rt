//! Events and requests as an installer writes them.

ghost use Rattle.std.specs.Prelude.{◌≡◌, ◌+◌, true, false};

use dalievent::EventSource;
use daliframe::EventScheme;
use daliwords::{frame_of_event, request_of};
use gearcmd::Command;

/// `bank_and_offset_exchanged`: the numbers of GEAR_READ were taken the other way round.
pub fn bank_comes_first() -> u8
    ensures { result ≡ 1 }
{
    match request_of("GEAR_READ", 0, Some(1), Some(2)) {
        Some(Command::GearRead { bank, .. }) => bank,
        _ => 1,
    }
}

/// `another_block_for_the_words`: GEAR_DO was read as GEAR_PAIR.
pub fn gear_do_is_no_pair() -> bool
    ensures { result ≡ false }
{
    matches!(
        request_of("GEAR_DO", 0, Some(0), None),
        Some(Command::GearPair { .. })
    )
}

/// `parts_of_an_event_exchanged`: a stood where b stands. `information_one_more`: the information
/// was one more. `another_scheme_for_the_source`: a device's event had bit 15.
pub fn parts_of_an_event_have_their_places() -> u32
    ensures { result ≡ 0x2_0803 }
{
    let source = EventSource {
        scheme: EventScheme::Device,
        a: 1,
        b: 2,
    };
    match frame_of_event(source, 3) {
        Some(frame) => frame.number(),
        None => 0,
    }
}

/// `no_event_of_instance_31`: the greatest second part had no frame.
pub fn instance_31_has_events() -> bool
    ensures { result ≡ true }
{
    let source = EventSource {
        scheme: EventScheme::Device,
        a: 0,
        b: 31,
    };
    match frame_of_event(source, 0) {
        Some(_) => true,
        None => false,
    }
}
