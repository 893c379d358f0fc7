//! What a caller asks of the controller, as plain values.
//!
//! What crosses the boundary: an [`Inquiry`] of a text and the [`Files`] that it reads; the
//! [`PlayFiles`] of a play; the [`LiveFiles`] of a building, its [`LiveOptions`] with the
//! [`RunSize`] and what is written [`Beside`] it, and a [`LineWord`] for each of its buses; and an
//! [`ExpectedWord`] for each value that a play is to come to. `commandline`, above, reads them from
//! the words of a command line; who embeds the controller makes them without one. The definition
//! to read first is `files_of` (specs/Inquiries.antt).
//!
//! ```text
//! let line = LineWord { bus: 0, from: "/dev/ttyUSB0", to: None };
//! ```
#![tactic(auto)]

mod beside;
mod expected_word;
mod files;
mod inquiry;
mod line_word;
mod live_options;

pub use beside::Beside;
pub use expected_word::ExpectedWord;
pub use files::{Files, LiveFiles, PlayFiles};
pub use inquiry::Inquiry;
pub use line_word::LineWord;
pub use live_options::{LiveOptions, RunSize};
