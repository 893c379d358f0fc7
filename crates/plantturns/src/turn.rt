//! What became of a turn.

/// What a worker did in a turn.
#[derive(Clone, Copy, PartialEq, Eq, Debug)]
pub enum Turn {
    /// A scan was committed, a transaction was sent, a frame was heard, or a bus came up again.
    Busy,
    /// There was nothing to do.
    Idle,
    /// The bus is down: its interface failed, now or before, and does not answer yet.
    Down,
}
