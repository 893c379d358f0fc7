//! The part of one role: its receipts, and what ties them to the plant under the lock.
//!
//! What crosses the boundary: a [`Share`] is the part of one scan worker, of one bus, or of the
//! clock, and has a receipt for each event of its role; [`Shares`] are those of all roles. The
//! lock keeps a number of each role, and what shows its newest cell. With these a Share meets what
//! the lock knows, keeps a place back, and notes an event. The definitions to read first are
//! `IsNoted` (specs/Receipts.antt) and `Says` (specs/Tokens.antt).
//!
//! ```text
//! share.meet(&mut numbers, &newest);
//! let newest = share.note(rt, cells, &mut numbers, index, event);
//! ```
#![tactic(auto)]

mod lock_start;
mod receipt;
mod share;
mod shares;

pub use lock_start::LockStart;
pub use receipt::NotedPart;
pub use share::Share;
pub use shares::Shares;
