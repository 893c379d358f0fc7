//! What a 24-bit forward frame is: a message of a control device, a command to one, or neither.

ghost use Rattle.dalievent.specs.EventSchemes.{IsRead};

use daliframe::{EventScheme, Frame24};

/// A message of a control device (IEC 62386-103, clause 9).
#[derive(Clone, Copy, Debug, PartialEq, Eq)]
pub struct EventMessage {
    /// What `a` and `b` mean.
    pub scheme: EventScheme,
    /// The part from bit 17 on: a short address 0 to 63, else an instance type or group 0 to 31.
    pub a: u8,
    /// The part in bits 14 to 10: an instance number or type, 0 to 31.
    pub b: u8,
    /// What the device tells, 0 to 1023.
    pub information: u16,
}

/// What a 24-bit forward frame is.
#[derive(Clone, Copy, Debug, PartialEq, Eq)]
pub enum Heard {
    /// A message of a control device.
    Event(EventMessage),
    /// A command to a control device: bit 16 is set.
    Command,
    /// Neither: no scheme has such a message.
    Other,
}

/// What a frame is.
pub fn decode(frame: Frame24) -> Heard
    ensures read { IsRead frame result }
{
    if frame.is_command() {
        return Heard::Command;
    }
    let number = frame.number();
    let scheme = match (number / 0x40_0000, number / 0x8000 % 2) {
        (0 | 1, 0) => EventScheme::Device,
        (0 | 1, _) => EventScheme::DeviceInstance,
        (2, 0) => EventScheme::DeviceGroup,
        (2, _) => EventScheme::Instance,
        (_, 0) => EventScheme::InstanceGroup,
        _ => return Heard::Other,
    };
    let parts = if number < 0x80_0000 { 64 } else { 32 };
    Heard::Event(EventMessage {
        scheme,
        a: (number / 0x2_0000 % parts) as u8,
        b: (number / 0x400 % 32) as u8,
        information: (number % 1024) as u16,
    })
}
