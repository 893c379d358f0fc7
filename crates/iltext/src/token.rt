//! Tokens as the grammar sees them.

use iltokens::{LexicalCause, What};

/// What stands at a place of a text.
#[derive(Clone, Copy, PartialEq, Eq)]
pub enum TokenKind {
    Good(What),
    /// What begins no token, and why.
    Bad(LexicalCause),
}

/// A token and its bytes `from..to` in the text.
#[derive(Clone, Copy, PartialEq, Eq)]
pub struct Token {
    pub kind: TokenKind,
    pub from: usize,
    pub to: usize,
}
