//! Functions of a code.

/// A function of a code: where its words and its slots stand. Its words end where those of the next
/// function begin, or behind the last word; so do its slots, which are its inputs, its result and
/// its other variables in this order.
#[derive(Clone, Copy)]
pub struct FunctionBody {
    /// The place where its words begin.
    pub start: usize,
    /// The number of its first slot.
    pub first: usize,
    /// The number of its inputs, 1 to 16.
    pub inputs: usize,
    /// The number of its slots, more than that of its inputs.
    pub slots: usize,
}
