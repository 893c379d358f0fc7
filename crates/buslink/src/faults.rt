//! Faults of a bus interface.

/// The bus interface failed.
#[derive(Clone, Copy, PartialEq, Eq)]
pub struct Fault;
