//! What comes to be heard, in words.

use dalievent::{EventMessage, Heard, decode};
use daliframe::{EventScheme, Frame24};
use std::fmt;

/// What a 24-bit forward frame is to those who listen: `device 3 instance 0, scheme
/// device-instance, information 2`; `command`, to a control device; or `other frame`.
#[derive(Clone, Copy)]
pub struct HeardWords(pub Frame24);

impl fmt::Display for HeardWords {
    fn fmt<W: fmt::Write>(&self, f: &mut fmt::Formatter<W>) -> fmt::Result {
        match decode(self.0) {
            Heard::Event(message) => write!(f, "{}", MessageWords(message)),
            Heard::Command => write!(f, "command"),
            Heard::Other => write!(f, "other frame"),
        }
    }
}

/// An event message, by its event scheme.
#[derive(Clone, Copy)]
pub(crate) struct MessageWords(pub EventMessage);

impl fmt::Display for MessageWords {
    fn fmt<W: fmt::Write>(&self, f: &mut fmt::Formatter<W>) -> fmt::Result {
        let EventMessage {
            scheme,
            a,
            b,
            information,
        } = self.0;
        let (first, second) = parts_of(scheme);
        let scheme = SchemeWords(scheme);
        write!(
            f,
            "{first} {a} {second} {b}, scheme {scheme}, information {information}"
        )
    }
}

/// What the two parts of an event message's sender are.
fn parts_of(scheme: EventScheme) -> (&'static str, &'static str) {
    match scheme {
        EventScheme::Instance => ("type", "instance"),
        EventScheme::Device => ("device", "type"),
        EventScheme::DeviceInstance => ("device", "instance"),
        EventScheme::DeviceGroup => ("device group", "type"),
        EventScheme::InstanceGroup => ("instance group", "type"),
    }
}

/// An event scheme by its keyword in a binding, such as `device-instance`.
#[derive(Clone, Copy)]
pub struct SchemeWords(pub EventScheme);

impl fmt::Display for SchemeWords {
    fn fmt<W: fmt::Write>(&self, f: &mut fmt::Formatter<W>) -> fmt::Result {
        f.write_str(match self.0 {
            EventScheme::Instance => "instance",
            EventScheme::Device => "device",
            EventScheme::DeviceInstance => "device-instance",
            EventScheme::DeviceGroup => "device-group",
            EventScheme::InstanceGroup => "instance-group",
        })
    }
}
