//! Tokens of Instruction List: which one stands next in a text's bytes, and where; and grammars
//! over tokens of any type, with what holds of every parser of one.
//!
//! What crosses the boundary: [`token`], which goes over the blanks and comments at a place and
//! gives the longest token after them as a [`Lexed`], or the end, or the fault that stands there.
//! What a token is, is a [`What`]: reserved words, names, numbers, durations, addresses, delimiters
//! and line ends. Read `StandsNext` first (specs/Tokens.antt), then what each kind spells
//! (specs/Spellings.antt) and each reserved word ([`keyword_of`], specs/Keywords.antt).
//!
//! Of a grammar: the definition of an item (specs/Items.antt), built by `one`, `empty`, `map`,
//! `seq`, `lead`, `select`, `opt`, `alt` and `many`, with what it spells, what is a front of it and
//! how it is read; where a fault stands (specs/Stops.antt); and [`ReadError`], which a function
//! that reads an item returns (specs/Results.antt). The laws (proofs/Laws.antt, Firm.antt,
//! Exact.antt) say that reading is exact both ways.
//!
//! ```text
//! let Lexed::Token { what, from, to } = token(text, at) else { return };
//! fn range<'a>(tokens: &'a [Token]) -> Result<((i64, i64), &'a [Token]), ReadError<'a, Token>>
//! ```
#![tactic(auto)]

mod address;
mod blanks;
mod digits;
mod front;
mod keyword;
mod keyword_group;
mod lexed;
mod lexer;
mod number;
mod read_error;
mod spelled_words;
mod spelling;
mod time;

pub use keyword::{Keyword, keyword_of};
pub use keyword_group::KeywordGroup;
pub use lexed::{AddressKind, Delimiter, Lexed, LexicalCause, What};
pub use lexer::token;
pub use read_error::ReadError;
pub use spelled_words::keywords;
