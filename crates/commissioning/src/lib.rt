//! What an installer does at one bus before a building runs, or beside it: to see what is there, to
//! hear what comes, to let one lamp blink, and to ask one command.
//!
//! What crosses the boundary: a [`Bus`](buslink::Bus) and writers go in. What is sent are
//! transactions, legal by their type: [`ask`] sends one, and all else asks by it, but for
//! [`ask_unaddressed`], which sends the one query to all gear. [`probe`] gives a [`Survey`], which
//! goes to a [`Table`] as it comes, and [`write_differences`] compares it with the plan of a text.
//! [`listen`] only hears. Each command has a function `serve_..` that writes what is to be read and
//! tells how it was [`Served`]. The definition to read first is `IsAsked` (specs/Asking.antt), and
//! then `IsSurvey` (specs/Surveys.antt), which questions a survey has.
//!
//! ```text
//! let report = ask(&mut bus, command)?; // what became of it, attempt by attempt
//! serve_probe(alloc, &mut bus, &mut out, &mut io::sink(), &mut io::sink(), form)?;
//! ```
#![tactic(auto)]

mod asked;
mod asking;
mod blinking;
mod comparing;
mod declared;
mod differences;
mod houses;
mod listening;
mod objects;
mod places;
mod probing;
mod serving;
mod surveys;
mod tables;
mod unaddressed;

pub use asking::{AskFault, Asked, ask};
pub use blinking::{Blinked, Shown, blink};
pub use comparing::write_differences;
pub use declared::DeclaredBus;
pub use differences::{Difference, Levels, Member};
pub use listening::{ListenEnd, Silenced, listen};
pub use probing::{Probed, probe};
pub use serving::{ProbeForm, Served, serve_ask, serve_blink, serve_listen, serve_probe};
pub use surveys::{Survey, make_survey};
pub use tables::Table;
pub use unaddressed::ask_unaddressed;
