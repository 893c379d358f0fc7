//! What the current result says of a slot.

use iltypes::Operator;

/// What the current result says of the number in a slot (profile).
#[derive(Clone, Copy, PartialEq, Eq)]
pub enum ResultMark {
    /// It is the number in the slot.
    Copy(usize),
    /// It is the outcome of `number OP limit`, of the number in the slot.
    Test {
        slot: usize,
        comparison: Operator,
        limit: i64,
    },
}
