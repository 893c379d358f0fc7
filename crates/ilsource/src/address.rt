//! Addresses of located variables.

use iltokens::AddressKind;

/// A direct address such as `%QB0.5` (IEC 61131-3, 2.4.1.1): where a variable is located, as it is
/// written. The numbers may be those of no bus and of no place there.
#[derive(Clone, Copy)]
pub struct DirectAddress {
    /// The place of its first byte in the text.
    pub at: usize,
    /// `%QB`, a level of control gear; `%IW`, an answer, or the information of a source of events
    /// or its count; `%IX`, the trigger of a source.
    pub kind: AddressKind,
    /// The number of the bus.
    pub bus: u64,
    /// The number of the place on that bus.
    pub place: u64,
}
