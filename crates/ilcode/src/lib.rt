//! Code of one task, as the list of its instructions.
//!
//! What crosses the boundary: [`Code`], which the compiler makes, the verifier judges and the
//! machine runs, with its [`Word`]s and its functions, each a [`FunctionBody`], and [`Opened`], a
//! parenthesis that is open. A [`PackedWord`] is a word in 32 bits, its `spelling`
//! (specs/Words.antt): a number spells one word at most, and [`PackedWord::read`] finds it, or that
//! there is none.
//! Contracts see a code as a `Listing` (specs/Listings.antt, to be read first). What a word does is
//! `step` (specs/Steps.antt), and how words follow one another is `IsNext` (specs/Paths.antt): the
//! machine meets the first, the verifier both.
//!
//! ```text
//! match code.word(place) {
//!     Word::Load { negated, operand } => ..,
//!     Word::Jump { condition, target } => ..,
//! }
//! ```
#![tactic(auto)]

mod code;
mod computed_block_rows;
mod computed_function_rows;
mod computed_rows;
mod computed_word_rows;
mod function;
mod laws;
mod nesting;
mod packed;
mod reading;
mod spelling;
mod word;
mod word_laws;

pub use code::Code;
pub use function::FunctionBody;
pub use nesting::Opened;
pub use packed::{PackedWord, pack};
pub use reading::type_of;
pub use spelling::type_number;
pub use word::{Target, Word, WordOperand};
