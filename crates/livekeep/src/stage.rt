//! How far a file of kept values is read.

/// What the lines so far are.
#[derive(Clone, Copy, PartialEq, Eq)]
pub(crate) enum Stage {
    /// None.
    Nothing,
    /// The head of a file of version 1.
    Head,
    /// All lines before the values, and any number of these.
    Values,
    /// All lines up to the one that says how many values there are.
    End,
    /// All lines: the last gives the check sum.
    Sum,
}
