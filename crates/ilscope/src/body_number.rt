//! Numbers of what has lines.

/// A program or a function, by its number among those of the text.
#[derive(Clone, Copy)]
pub enum BodyNumber {
    Program(usize),
    Function(usize),
}
