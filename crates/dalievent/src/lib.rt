//! Event messages of DALI-2 control devices. A source of events comes in, with its scheme, one of
//! five, and its two address parts, and a 24-bit forward frame; whether the frame is a message of
//! the source goes out, with the information that it has. `decode` tells of any frame what it is.
//! The definitions to read first are `Solves`, five equations on the frame's number (profile), and
//! `IsRead`, in `specs/EventSchemes.antt`.
//!
//! ```text
//! let information = button.information(frame)?;
//! ```
#![tactic(auto)]

mod heard;
mod laws;
mod messages;

pub use heard::{EventMessage, Heard, decode};
pub use laws::messages_solve_their_equation;
pub use messages::EventSource;
