//! A plant on its buses, driven on one thread: what is ready is scanned, what waits is sent, and
//! what came is heard, until nothing is left to do. Whoever wants to know what happens is an
//! [`Observer`].
//!
//! What crosses the boundary: [`settle`] takes a plant in which nothing is open, with a line for
//! each of its buses; [`send_next`] is the turn of one bus. What they did is `IsDriven`, what is
//! known where nothing is left is `IsQuiet` (specs/Quiet.antt), the definition to read first, and
//! why they cannot go on is `CannotGoOn` (specs/Driven.antt).
//!
//! ```text
//! settle(alloc, &mut plant, &mut lines, &mut observer)?; // until nothing is left to do
//! ```
#![tactic(auto)]

mod downs;
mod halt;
mod happened;
mod idle_plant;
mod observer;
mod scanning;
mod serving;
mod settling;

pub use downs::has_down;
pub use halt::Halt;
pub use happened::{Happened, Told};
pub use idle_plant::IdlePlant;
pub use observer::Observer;
pub use serving::send_next;
pub use settling::settle;
