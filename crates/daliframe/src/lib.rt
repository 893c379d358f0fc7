//! The forward frames of a DALI-2 bus: 16 bits for control gear, 24 bits for control devices.
//! Across the boundary go frames, which contracts see as their numbers, and what their bits mean:
//! addresses, levels, opcodes and the classes of these. They meet the bit equations of
//! `specs/Addresses.antt` and `specs/Frames.antt` and the sets of opcodes of `specs/Opcodes.antt`
//! (IEC 62386-101, -102 and -103).
//!
//! ```text
//! let frame = Frame16::level(Address::from_number(5)?, 200); // 0x0AC8: lamp 5 to level 200
//! ```
#![tactic(auto)]

mod addressing;
mod forward;
mod forward16;
mod forward24;
mod kinds;
mod numbers;
mod opcodes;
mod schemes;

pub use addressing::{Address, AddressClass};
pub use forward::Frame;
pub use forward16::{Fields16, Frame16};
pub use forward24::{Fields24, Frame24};
pub use kinds::{OfBus, OfGroup, OfInstance, OfInstanceKind, OfShort};
pub use numbers::{BusNumber, GroupAddress, InstanceNumber, InstanceType, Number, ShortAddress};
pub use opcodes::{DeviceOpcodeClass, OpcodeClass};
pub use schemes::EventScheme;
