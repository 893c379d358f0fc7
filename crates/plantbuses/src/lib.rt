//! What a plant keeps of its buses and of its scan workers.
//!
//! What crosses the boundary: of each bus a [`BusState`], the global variables that are located at
//! its levels ([`BusOutputs`]), and which of its levels are owed ([`OwedLevels`], a bit for each
//! address); of each scan worker the scan that it has open ([`RunningScan`]). Each function that
//! notes something notes its part of one event of the plant's history, which nobody keeps here.
//! `BusFollows` in specs/KeptSteps.antt is the definition to read first: what is kept of a bus is
//! what the definitions of `plantevents` say of a history.
//!
//! ```text
//! note_hand(&mut buses, bus, place, next);
//! note_handed(&mut owed, bus, next); // a level is owed no more
//! ```
#![tactic(auto)]

mod address_set;
mod answers;
mod bus;
mod levels;
mod next;
mod offers;
mod outputs;
mod owed;
mod running;
mod stores;
mod storing;

pub use answers::answer_to;
pub use bus::{
    BusState, OpenTransaction, fresh_buses, note_down, note_hand, note_heard, note_report, note_up,
};
pub use next::{Next, first_of, level_in, transaction_of};
pub use offers::offer_all;
pub use outputs::{BusOutputs, LevelOutput, outputs_of};
pub use owed::{OwedLevels, note_handed, note_owed_anew, owed_levels};
pub use running::{RunningScan, idle_workers, note_end, note_scan, note_take};
pub use stores::note_stores;
