//! What a number of this crate is the number of, so that a group is not taken for a bus.

/// A short address.
pub enum OfShort {}

/// A group of control gear.
pub enum OfGroup {}

/// An instance of a control device.
pub enum OfInstance {}

/// The type of an instance of a control device.
pub enum OfInstanceKind {}

/// A bus.
pub enum OfBus {}
