//! Transactions on a DALI-2 bus, and the links to a bus and to a clock.
//!
//! What crosses the boundary: a [`Transaction`] has the frames of a request, with their priorities,
//! legal by its type. [`perform`] sends it on a [`Bus`], tries it again after a loss, and gives its
//! [`Report`]. A [`Clock`] gives the moment that it is. Read `Spells` (specs/Attempts.antt) and
//! `after_report` first: what was sent is what the report says, frame for frame (IEC 62386-101 and
//! -102; profile for priorities and retries).
//!
//! ```text
//! let transaction = Transaction::of(&request, TaskKind::Event);
//! bus.room(MOST_SENT)?; // for the frames of the most attempts
//! let report = perform(&mut bus, &transaction, 3); // its attempts, at most three
//! ```
#![tactic(auto)]

mod arrivals;
mod buses;
mod clocks;
mod faults;
mod marks;
mod performing;
mod reports;
mod transactions;

pub use arrivals::Arrival;
pub use buses::Bus;
pub use clocks::Clock;
pub use faults::Fault;
pub use marks::{Mark, Outcome, Reply, Sent};
pub use performing::perform;
pub use reports::{MOST_SENT, Report};
pub use transactions::Transaction;
