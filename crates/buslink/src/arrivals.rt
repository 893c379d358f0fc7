//! What a call that hears meets.

use daliframe::Frame24;

/// What comes on a bus to be heard.
#[derive(Clone, Copy)]
pub enum Arrival {
    /// A frame.
    Frame(Frame24),
    /// A fault of the bus interface.
    Fault,
}
