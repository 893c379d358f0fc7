//! Places in banks.

/// Where the value of a slot stands: the bank, and the place in it.
#[derive(Clone, Copy, PartialEq, Eq, Debug)]
pub enum BankPlace {
    /// The bank of truth values.
    Truth(u16),

    /// The bank of whole numbers.
    Number(u16),
}
