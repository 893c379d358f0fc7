//! Why a line failed.

use crate::answers::is_fault;
use arrayvec::ArrayVec;

/// The most bytes of a line, with its end. No request and no answer needs more than half of them.
pub(crate) const MOST_LINE: usize = 64;

/// A line that was read, without its end.
pub type LineBytes = ArrayVec<u8, MOST_LINE>;

/// Why what was asked last came to nothing.
#[derive(Drop)]
pub enum Trouble {
    /// There is no line, or it failed before.
    Absent,
    /// The interface said nothing in time.
    Silent,
    /// Nothing can be written, or nothing more comes: the other end is gone.
    Closed,
    /// What was said came back, and nothing else in time.
    Echoed,
    /// The interface answered `fault`.
    Fault,
    /// It answered this line, which is no answer to what was asked.
    Answered(LineBytes),
}

impl Trouble {
    /// An answer that is none.
    pub(crate) fn of(line: LineBytes) -> Trouble {
        if is_fault(line.as_slice()) {
            Trouble::Fault
        } else {
            Trouble::Answered(line)
        }
    }
}
