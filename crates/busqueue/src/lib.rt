//! The requests that wait for one bus: four classes, each a queue of 64 places, and a count of what
//! was dropped where no place was free.
//!
//! What crosses the boundary: [`Queues::offer`] takes a request of a [`Class`] in, or drops and
//! counts it; [`Queues::next`] hands out the oldest request of the least class. `after_offer` and
//! `IsNext` in specs/Queues.antt are the definitions to read first.
//!
//! ```text
//! let accepted = queues.offer(Class::of(&request, task), request);
//! ```
#![tactic(auto)]

mod class;
mod class_queue;
mod queues;

pub use class::Class;
pub use queues::Queues;
