//! The words of the command line, read with `clap`, and what a user asks for by them.
//!
//! What crosses the boundary: [`read`] takes the words behind the program's name and gives the
//! [`Invocation`] that they spell: a [`Question`] of a text, files that are played, run or looked
//! at, a building with the lines of its buses, a [`Tool`] at one line, a code file, or frames and
//! events in words. [`invocation_of`] is the step from what `clap` found, with its [`WordFault`].
//! Read `command_line` and `IsInvocation` (specs/CommandLine.antt) first, then `IsOfCommand`
//! (specs/Invocations.antt).
//!
//! ```text
//! match commandline::read(alloc, words)? {
//!     Invocation::Ask(inquiry) => ..
//! }
//! ```
#![tactic(auto)]

mod at_line;
mod builders;
mod checks;
mod expected_words;
mod invocations;
mod line_words;
mod messages;
mod questions;
mod readers;
mod reading;
mod refusal_text;
mod shows;
mod tables;
mod text_words;
mod tools;
mod watched_names;
mod word_fault;
mod words;

pub use expected_words::{ExpectedFault, ExpectedWords, MOST_EXPECTED};
pub use invocations::{GivenFrames, Invocation, LookOptions, PlayShows};
pub use line_words::{LineWordFault, LineWords};
pub use questions::{Question, word_in};
pub use readers::invocation_of;
pub use reading::read;
pub use refusal_text::said;
pub use text_words::{CodeWords, code_words_in};
pub use tools::{GivenListenEnd, GivenRequest, Tool};
pub use watched_names::{MOST_WATCHED, WatchedFault, WatchedNames};
pub use word_fault::WordFault;
