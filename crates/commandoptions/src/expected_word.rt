//! What is expected of a value at a play's end.

/// What is expected of a value, as a word names it: `NAME=VALUE`.
#[derive(Clone, Copy)]
pub struct ExpectedWord<'a> {
    /// The value's name, which is not empty and has no `=`.
    pub name: &'a str,
    /// What it is to be, which is not empty.
    pub value: &'a str,
}

/// No name and no value, which fills the unused places of a collection of fixed capacity.
impl Default for ExpectedWord<'_> {
    fn default() -> Self {
        ExpectedWord {
            name: "",
            value: "",
        }
    }
}
