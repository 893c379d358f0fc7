//! Functions whose bodies run.

/// A call that is open: the function, the place where its caller goes on, and how many operators
/// waited for their parenthesis when it was opened. The function's number has more bits than in its
/// word: where the machine stored the 16 bits of the word themselves, it would keep the number of
/// each word twice.
#[derive(Clone, Copy)]
pub(crate) struct OpenFunction {
    pub(crate) function: u32,
    pub(crate) back: usize,
    pub(crate) mark: usize,
}

/// What fills the unused places of a collection of fixed capacity.
impl Default for OpenFunction {
    fn default() -> OpenFunction {
        OpenFunction {
            function: 0,
            back: 0,
            mark: 0,
        }
    }
}
