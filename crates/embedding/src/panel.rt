//! The panel: what its wires say, and the interface of a bus over them.

use gushewa::{Address, Fault, Fields16, Frame, Frame24, Interface, Reply};
use std::cell::Cell;

/// The short address of the lamp.
const LAMP: u8 = 5;
/// What the device with short address 5 sends of its instance 2: a short press.
const PRESS: u32 = 0x0A_8802;

/// What the panel's wires say.
#[derive(Drop)]
pub struct Wires {
    /// The level of the lamp, 0 to 254.
    lamp: Cell<u8>,
    /// Whether the push button was pressed, and nobody heard it yet.
    is_pressed: Cell<bool>,
}

impl Wires {
    /// The lamp is on, and the button is not pressed.
    pub fn new() -> Wires {
        Wires {
            lamp: Cell::new(254),
            is_pressed: Cell::new(false),
        }
    }

    /// What the lamp shows.
    pub fn lamp(&self) -> u8 {
        self.lamp.get()
    }

    /// Somebody presses the button.
    pub fn press(&self) {
        self.is_pressed.set(true);
    }
}

/// The panel as an interface: the lamp is the gear with short address 5.
#[derive(Drop)]
pub struct Panel<'w> {
    wires: &'w Wires,
}

impl<'w> Panel<'w> {
    /// The interface over these wires.
    pub fn new(wires: &'w Wires) -> Panel<'w> {
        Panel { wires }
    }
}

impl Interface for Panel<'_> {
    fn send(&mut self, frame: Frame, _priority: u8) -> Result<Reply, Fault> {
        let Frame::Forward16(frame) = frame else {
            return Ok(Reply::Quiet);
        };
        if let Fields16::Level { address, level } = frame.fields() {
            let is_for_lamp = match address {
                Address::Short(address) => address.number() == LAMP,
                Address::Group(_) => false,
                Address::Broadcast => true,
            };
            if is_for_lamp {
                self.wires.lamp.set(level);
            }
        }
        Ok(Reply::Quiet)
    }

    fn hear(&mut self) -> Result<Option<Frame24>, Fault> {
        if self.wires.is_pressed.replace(false) {
            return Ok(Frame24::new(PRESS));
        }
        Ok(None)
    }
}
