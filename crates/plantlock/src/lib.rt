//! The plant under one lock, shared by parts whose receipts are its history.
//!
//! What crosses the boundary: [`Shared`] is the plant under its lock, and a [`Share`] is the part
//! of one scan worker, of one bus, or of the clock. Each call of the plant has its form here, takes
//! the Share of its role, and leaves a receipt there for an event. A commit and a report of what a
//! Share shows open are never refused. [`Shared::close`] opens the lock for good: the
//! receipts of each Share are then exactly its part of what happened. The definitions to read first
//! are `IsUnderLock` and `Answer` (specs/Answers.antt), what a call answers of the plant under the
//! lock, and `IsNoted` (specs/Receipts.antt of `plantreceipts`). `AreTied` (specs/Tied.antt) says
//! how receipts are kept.
//!
//! ```text
//! let handed = shared.hand(rt, &mut share, bus)?;
//! let noted = shared.note_report(rt, &mut share, bus, handed.number, report);
//! ```
#![tactic(auto)]

mod lock_notes;
mod locked_plant;
mod shared;

pub use plant::{CallRefusal, Handed};
pub use plantreceipts::{LockStart, NotedPart, Share, Shares};
pub use shared::{Final, Shared};
