//! Addresses in words.

use daliframe::{Address, InstanceNumber, ShortAddress};
use std::fmt;

/// Whom a 16-bit forward frame is for: `short 5`, `group 3` or `broadcast`.
#[derive(Clone, Copy)]
pub struct AddressWords(pub Address);

impl fmt::Display for AddressWords {
    fn fmt<W: fmt::Write>(&self, f: &mut fmt::Formatter<W>) -> fmt::Result {
        match self.0 {
            Address::Short(address) => write!(f, "short {}", address.number()),
            Address::Group(group) => write!(f, "group {}", group.number()),
            Address::Broadcast => write!(f, "broadcast"),
        }
    }
}

/// An instance of a control device: `device 3 instance 0`.
#[derive(Clone, Copy)]
pub(crate) struct InstanceWords {
    pub device: ShortAddress,
    pub instance: InstanceNumber,
}

impl fmt::Display for InstanceWords {
    fn fmt<W: fmt::Write>(&self, f: &mut fmt::Formatter<W>) -> fmt::Result {
        let device = self.device.number();
        let instance = self.instance.number();
        write!(f, "device {device} instance {instance}")
    }
}
