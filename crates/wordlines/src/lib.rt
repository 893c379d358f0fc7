//! Files of lines of words, and the two that there are: bindings and scenarios. A line ends with LF
//! or CR LF, and exactly one space stands between two words.
//!
//! What crosses the boundary: bytes, which [`read_lines`] reads by the rules of a kind of file, and
//! the state that their lines lead to, or a [`LineFault`]; and of a line the words that are left
//! ([`Words`]) and the numbers that words spell. Read specs/LineRules.antt first, which says what
//! the rules of a kind of file are; what is reported of bytes stands in specs/LineFiles.antt, and
//! what words are in specs/WordLines.antt.
//!
//! A [`Binding`] is what a controller is connected to: [`Binding::parse`] reads one, or reports the
//! line that is at fault ([`BindFault`]). Which bytes are a binding and what it says is `IsBinding`
//! (specs/Bindings.antt). A [`Scenario`] is what is on simulated buses and what happens there:
//! [`parse`] reads one, in time in proportion to its lines, or reports the first bad line
//! ([`ScenarioFault`]), and [`Scenario::happenings`] gives its ticks and events in order. Its
//! definition is `IsScenario` (specs/Scenarios.antt); what a line says stands in specs/Saying.antt,
//! which statement may follow which in specs/Following.antt.
//!
//! ```text
//! let said = read_lines(start, bytes)?; // or: bind fault at 3
//! let bus = number_of(Words::of(line).next()?, 63)?;
//! let buses = Binding::parse(alloc, b"# the north wing\nbuses 2\n")?.buses();
//! let mut happenings = parse(alloc, bytes)?.happenings();
//! ```
#![tactic(auto)]

mod bind_fault;
mod binding;
mod binding_lines;
mod cuts;
mod entries;
mod fault;
mod files;
mod follow;
mod happenings;
mod known;
mod lines;
mod numerals;
mod scenario;
mod scenario_fault;
mod scenario_lines;
mod sources;
mod statements;
mod tick_row;
mod tries;
mod words;

pub use bind_fault::BindFault;
pub use binding::Binding;
pub use cuts::parts_around_dot;
pub use fault::{FileKind, LineCause, LineFault, LineNumber};
pub use files::{LineState, read_lines};
pub use happenings::{Happening, Happenings};
pub use lines::{first_line, is_skipped};
pub use numerals::{hex_of, number_of};
pub use scenario::{Scenario, parse};
pub use scenario_fault::ScenarioFault;
pub use sources::BoundSource;
pub use statements::{FrameFate, GearStart, Statement};
pub use tries::{BusTries, tries_in};
pub use words::Words;
