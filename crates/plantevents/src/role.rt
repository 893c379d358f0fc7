//! Roles.

/// Who an event comes from.
#[derive(Clone, Copy)]
pub enum Role {
    /// The scan worker of this number.
    Worker(usize),
    /// The bus of this number.
    Bus(u8),
    /// The clock.
    Clock,
}
