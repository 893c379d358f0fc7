//! Simulated gear and devices under frames that no block sends, alone or between others, and what a
//! bus hears between the frames that are sent on it.

use buslink::Reply::{Answer, Damaged, Quiet};
use buslink::{Bus, Fault, Reply};
use daliframe::{BusNumber, Frame, Frame16, Frame24, InstanceNumber, ShortAddress};
use simbus::{BusSetup, SimBus, parse};
use std::alloc::{AllocError, Global};
use std::test::Fail;

const EQUIPMENT: &[u8] = b"gear 0 5\ngear 0 6\ndevice 0 5\ninstance 0 5 2 1 0 9\n";

/// A frame with its bits, and what is answered. Gear 5 is at level 128 and gear 6 at 7.
const FRAMES: [(u8, u32, Reply); 35] = [
    (16, 0x0A80, Quiet),
    (16, 0x0C07, Quiet),
    // one of two frames does not store the level in DTR0, whatever else is sent between
    (16, 0x0B21, Quiet),
    (16, 0x0BA0, Answer(128)),
    (16, 0x0B21, Quiet),
    (16, 0x0D21, Quiet),
    (16, 0x0B21, Quiet),
    (24, 0x0B_0280, Answer(1)),
    (16, 0x0B21, Quiet),
    (16, 0x0B98, Answer(0)),
    // two do, of gear 5 alone
    (16, 0x0B21, Quiet),
    (16, 0x0B21, Quiet),
    (16, 0x0B98, Answer(128)),
    (16, 0x0D98, Answer(0)),
    // to a group, to all, and to gear without an address
    (16, 0x0B69, Quiet),
    (16, 0x0B69, Quiet),
    (16, 0x93A0, Answer(128)),
    (16, 0x91A0, Quiet),
    (16, 0xFFA0, Damaged),
    (16, 0xFDA0, Quiet),
    // one frame alone sets no event scheme, and two set none above 4
    (24, 0xC1_3003, Quiet),
    (24, 0x0B_0267, Quiet),
    (24, 0x0B_028B, Answer(0)),
    (24, 0x0B_0267, Quiet),
    (24, 0x0B_0267, Quiet),
    (24, 0x0B_028B, Answer(3)),
    (24, 0xC1_3005, Quiet),
    (24, 0x0B_0267, Quiet),
    (24, 0x0B_0267, Quiet),
    (24, 0x0B_028B, Answer(3)),
    // DTR0 of gear is not that of devices
    (16, 0xA301, Quiet),
    (24, 0x0B_0267, Quiet),
    (24, 0x0B_0267, Quiet),
    (24, 0x0B_028B, Answer(3)),
    (16, 0x0B98, Answer(1)),
];

/// A 24-bit frame, and whether instance 2 of device 5 is enabled after it.
const ENABLING: [(u32, bool); 9] = [
    (0x0B_0280, true),
    (0x0B_0263, true),
    (0x0B_0263, false),
    (0x0B_0262, false),
    (0x0B_0263, false),
    (0x0B_0262, false),
    (0x0B_0362, false),
    (0x0B_0262, false),
    (0x0B_0262, true),
];

const HEARING: &[u8] = b"gear 0 5\nevent 0 0A8809\nevent 0 828809\nhearfault 0\nevent 0 020000\n";

/// What the calls that hear meet, once all came: a frame's number, a fault, and nothing at last.
const HEARD: [Result<Option<u32>, Fault>; 5] = [
    Ok(Some(0x82_8809)),
    Err(Fault),
    Ok(Some(0x02_0000)),
    Ok(None),
    Ok(None),
];

/// The bus 0 of a scenario.
fn simulated(alloc: Global, text: &[u8]) -> Result<SimBus, Fail> {
    let Ok(scenario) = parse(alloc, text) else {
        return Err(Fail::from("a scenario"));
    };
    let setup = BusSetup::of(alloc, &scenario, BusNumber::default())?;
    Ok(SimBus::new(alloc, setup)?)
}

/// The frame with the given number of bits, 16 or 24, and this number.
fn frame(bits: u8, number: u32) -> Option<Frame> {
    if bits == 16 {
        let number = u16::try_from(number).ok()?;
        return Some(Frame::Forward16(Frame16::new(number)));
    }
    Some(Frame::Forward24(Frame24::new(number)?))
}

/// Whether this is answered to a frame.
fn is_answered(bus: &mut SimBus, bits: u8, number: u32, reply: Reply) -> Result<bool, AllocError> {
    bus.room(1)?;
    Ok(match frame(bits, number) {
        Some(frame) => bus.send(frame, 2) == Ok(reply),
        None => false,
    })
}

/// Whether instance 2 of device 5 is enabled.
fn is_enabled(bus: &SimBus) -> Option<bool> {
    let address = ShortAddress::new(5)?;
    let variables = bus.instance(address, InstanceNumber::new(2)?)?;
    Some(variables.is_enabled)
}

/// What a call that hears meets: a frame as its number.
fn hear(bus: &mut SimBus) -> Result<Result<Option<u32>, Fault>, AllocError> {
    bus.room(1)?;
    Ok(match bus.hear() {
        Ok(Some(frame)) => Ok(Some(frame.number())),
        Ok(None) => Ok(None),
        Err(Fault) => Err(Fault),
    })
}

#[test]
fn frames_that_no_block_sends(rt: HostRuntime) -> Result<(), Fail> {
    let mut bus = simulated(rt.alloc(), EQUIPMENT)?;
    for (bits, number, reply) in FRAMES {
        let same = is_answered(&mut bus, bits, number, reply)?;
        assert!(rt; same, "{number:06X}");
    }
    Ok(())
}

#[test]
fn an_instance_is_enabled_and_disabled(rt: HostRuntime) -> Result<(), Fail> {
    let mut bus = simulated(rt.alloc(), EQUIPMENT)?;
    for (number, enabled) in ENABLING {
        let _is_answered = is_answered(&mut bus, 24, number, Quiet)?;
        assert!(rt; is_enabled(&bus) == Some(enabled), "{number:06X}");
    }
    Ok(())
}

/// A frame that is heard does not end a run of equal frames.
#[test]
fn what_is_heard_between_frames(rt: HostRuntime) -> Result<(), Fail> {
    let mut bus = simulated(rt.alloc(), HEARING)?;
    let _level = is_answered(&mut bus, 16, 0x0A80, Quiet)?;
    let _first = is_answered(&mut bus, 16, 0x0B21, Quiet)?;
    let has_come = bus.arrive();
    let heard = hear(&mut bus)?;
    assert!(rt; has_come && heard == Ok(Some(0x0A_8809)));
    let _second = is_answered(&mut bus, 16, 0x0B21, Quiet)?;
    assert!(rt; is_answered(&mut bus, 16, 0x0B98, Answer(128))?);
    bus.arrive_all();
    for wanted in HEARD {
        let heard = hear(&mut bus)?;
        assert!(rt; heard == wanted);
    }
    assert!(rt; !bus.arrive());
    Ok(())
}
