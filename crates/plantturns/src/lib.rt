//! One turn of each worker: of a bus, of a scan worker, and of the clock.
//!
//! What crosses the boundary: [`send_turn`] sends what is to be sent next on a bus, [`hear_turn`]
//! hears what came there, [`come_up`] asks a bus that is down whether its interface answers again,
//! [`scan_turn`] makes the next scan, and [`tick_once`] asks the clock. Each
//! takes the plant's lock for its events alone: frames are sent, scans are made and the clock is
//! asked outside it. A turn begins and ends with nothing open, and what went over a link is what
//! its Share has receipts for. The definitions to read first are `IsServed`, `IsWorker` and
//! `IsTimed` (specs/Logs.antt). An observer is told what a turn did, with its place in the history,
//! outside the lock; [`Passing`] is one that lets a [`Gate`] hold back scans and transactions.
//!
//! ```text
//! match send_turn(rt, &mut Passing { gate }, shared, bus, &mut served) {
//!     Ok(Turn::Down) => come_up(..), // the bus interface failed
//!     turn => ..
//! }
//! ```
#![tactic(auto)]

mod bus_worker;
mod clock_worker;
mod gate;
mod links;
mod scan_worker;
mod turn;

pub use bus_worker::{BusWithShare, come_up, hear_turn, send_turn};
pub use clock_worker::{ClockWithShare, tick_once};
pub use gate::{Gate, OpenGate, Passing};
pub use links::Links;
pub use plantdriving::{Halt, Happened, Observer, settle};
pub use plantlock::{Final, LockStart, NotedPart, Share, Shared, Shares};
pub use scan_worker::scan_turn;
pub use turn::Turn;
