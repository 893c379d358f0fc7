//! Frames that no block sends and no simulated gear tells apart by an answer, with what their bits
//! say, by the tables of IEC 62386-102 and -103, clause 7.

use daliframe::{Fields16, Fields24, Frame16, Frame24};

/// A direct level, a command, DTR0, DTR1 or anything else, with the number of the address as a
/// program has it and what follows.
const GEAR_FRAMES: [(u16, u8, u8, u8); 18] = [
    (0x0000, b'L', 0, 0),
    (0x0A80, b'L', 5, 128),
    (0x7FFF, b'C', 63, 255),
    (0x8000, b'L', 64, 0),
    (0x8700, b'C', 67, 0),
    (0x9FC5, b'C', 79, 0xC5),
    (0xA000, b'-', 0, 0),
    (0xA100, b'-', 0, 0),
    (0xA264, b'-', 0, 0),
    (0xA364, b'0', 0, 100),
    (0xA464, b'-', 0, 0),
    (0xC300, b'1', 0, 0),
    (0xC1FF, b'-', 0, 0),
    (0xC508, b'-', 0, 0),
    (0xFC80, b'-', 0, 0),
    (0xFD00, b'-', 0, 0),
    (0xFE80, b'L', 80, 128),
    (0xFF05, b'C', 80, 5),
];

/// An event, a command to an instance, DTR0 or any other command, with the address, the instance
/// and what follows.
const DEVICE_FRAMES: [(u32, u8, u8, u8, u8); 14] = [
    (0x00_0000, b'E', 0, 0, 0),
    (0x82_8809, b'E', 0, 0, 0),
    (0xFE_FFFF, b'E', 0, 0, 0),
    (0x01_0000, b'C', 0, 0, 0),
    (0x0B_0267, b'C', 5, 2, 0x67),
    (0x7F_1FFF, b'C', 63, 31, 255),
    (0x7F_2000, b'-', 0, 0, 0),
    (0x0B_FE67, b'-', 0, 0, 0),
    (0x81_0067, b'-', 0, 0, 0),
    (0xC1_3002, b'0', 0, 0, 2),
    (0xC1_3102, b'-', 0, 0, 0),
    (0xC1_0000, b'-', 0, 0, 0),
    (0xC3_3002, b'-', 0, 0, 0),
    (0xFF_FFFF, b'-', 0, 0, 0),
];

/// What a 16-bit frame says, as its row has it.
fn gear_parts(number: u16) -> (u8, u8, u8) {
    match Frame16::new(number).fields() {
        Fields16::Level { address, level } => (b'L', address.number(), level),
        Fields16::Command { address, opcode } => (b'C', address.number(), opcode),
        Fields16::Dtr0 { value } => (b'0', 0, value),
        Fields16::Dtr1 { value } => (b'1', 0, value),
        Fields16::Other => (b'-', 0, 0),
    }
}

/// What a 24-bit frame says, as its row has it.
fn device_parts(frame: Frame24) -> (u8, u8, u8, u8) {
    match frame.fields() {
        Fields24::Event => (b'E', 0, 0, 0),
        Fields24::Command {
            address,
            instance,
            opcode,
        } => (b'C', address.number(), instance.number(), opcode),
        Fields24::Dtr0 { value } => (b'0', 0, 0, value),
        Fields24::OtherCommand => (b'-', 0, 0, 0),
    }
}

/// Whether a 24-bit frame says what its row has.
fn says(number: u32, parts: (u8, u8, u8, u8)) -> bool {
    match Frame24::new(number) {
        Some(frame) => device_parts(frame) == parts,
        None => false,
    }
}

#[test]
fn frames_of_control_gear(rt: HostRuntime) {
    for (number, kind, address, value) in GEAR_FRAMES {
        assert!(rt;
            gear_parts(number) == (kind, address, value),
            "{number:04X}"
        );
    }
}

#[test]
fn frames_of_control_devices(rt: HostRuntime) {
    for (number, kind, address, instance, value) in DEVICE_FRAMES {
        assert!(rt;
            says(number, (kind, address, instance, value)),
            "{number:06X}"
        );
    }
}
