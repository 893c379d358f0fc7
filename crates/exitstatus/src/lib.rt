//! How a call of the program ends.
//!
//! What crosses the boundary: an [`ExitStatus`], of words that are not taken, of what stands
//! against a text, of what is answered to a code file, and of how a play or a run ended;
//! [`ExitStatus::number`] is what the program exits with.
//! A [`PlayStop`] is the first of what stands against playing or running a scenario, and is printed
//! as a line. The definition to read first is `number_of_status` (specs/ExitStatuses.antt).
//!
//! ```text
//! let status = ExitStatus::of_stop(&stop); // of what stands against a text
//! ```
#![tactic(auto)]

mod exit_status;
mod play_stop;

pub use exit_status::ExitStatus;
pub use play_stop::PlayStop;
