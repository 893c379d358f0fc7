//! What ends a clock.

/// What a clock asks before each moment: whether it is to end.
pub trait StopCondition: Drop {
    /// Whether the end is wanted.
    fn is_wanted(&self) -> bool;

    /// The clock came to its end: it gives no moment more.
    fn note_end(&self) {}
}

/// Nothing but its time ends the clock.
#[derive(Clone, Copy)]
pub struct NoStop;

impl StopCondition for NoStop {
    fn is_wanted(&self) -> bool {
        false
    }
}
