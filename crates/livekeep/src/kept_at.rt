//! When values were kept.

/// When values were kept.
#[derive(Clone, Copy, PartialEq, Eq, Debug)]
pub struct KeptAt {
    /// The machine's date, in seconds since 1970 (UTC).
    pub date: u64,
    /// The moment of the building's last tick, in milliseconds.
    pub moment: u64,
}
