//! The verifier of codes, and what it knows before and after each word.
//!
//! What crosses the boundary: [`verify`] takes a code and answers it as [`Verified`] with its
//! bound, or the [`Refusal`] with word, line and cause. Of a `Verified` no step is undefined, each
//! run ends and makes few requests, and the bound is the length of a longest path (`IsVerified`,
//! specs/Verdicts.antt, to be read first), by certificates (specs/Certificates.antt): an [`Entry`]
//! for each word, which [`after_word`] leads on by the rules `AreWaysOf` (specs/Rules.antt).
//! Who prints what was found takes a [`Pass`], [`LongestWays`] and [`most_requests`].
//!
//! ```text
//! let verified = verify(alloc, code)?;
//! ```
#![tactic(auto)]

mod bound;
mod calls;
mod cause;
mod cause_laws;
mod change;
mod chunk;
mod chunks;
mod comparison;
mod entry;
mod functions;
mod joins;
mod jump;
mod known;
mod known_before;
mod longest;
mod mark;
mod marks;
mod nesting;
mod operand;
mod order;
mod pass;
mod passed;
mod refusal;
mod requests;
mod results;
mod rules;
mod safety;
mod slots;
mod through;
mod verified;
mod verifier;
mod word;

pub use cause::{Cause, least_cause_is_one};
pub use change::{Change, Changes};
pub use comparison::passing;
pub use entry::Entry;
pub use ilcode::Code;
pub use known::Known;
pub use known_before::Pass;
pub use longest::LongestWays;
pub use mark::ResultMark;
pub use nesting::{KnownOpened, OpenParentheses};
pub use order::more_known_before_is_more_known_after;
pub use passed::Passed;
pub use refusal::{Refusal, VerifyError};
pub use requests::most_requests;
pub use safety::words_are_safe;
pub use slots::Slots;
pub use verified::Verified;
pub use verifier::verify;
pub use word::after_word;
