//! What happens to a plant: its events, its histories, and what histories say.
//!
//! What crosses the boundary: [`Event`] is one call of the plant that was accepted, and a history
//! is a list of events, the newest first. What a plant is made of is `Plant` (specs/Plants.antt),
//! and which histories are legal is `AreLegal` (specs/Legal.antt, to be read first): it asks what
//! a variable's value is, what waits for a bus, which tasks are ready and since when, each by the
//! newest event. The functions of `laws` say what these questions mean, asked of a whole history.
//!
//! ```text
//! let event = Event::Heard { bus: 0, frame };
//! ```
#![tactic(auto)]

mod activator;
mod computed_rows;
mod event;
mod laws;
mod noted;
mod role;

pub use activator::{Activator, PendingEvent};
pub use event::{Event, Origin};
pub use ilmachine::{ScanResult, Work, scan_into};
pub use laws::{
    counts_go_on, each_event_is_in_one_part, one_take_is_legal, requests_are_accepted_or_dropped,
    since_is_least, slots_are_those_of_the_plan, the_last_write_counts,
    what_a_bus_has_open_that_is_down, what_a_part_shows, what_a_part_shows_of_links,
    what_a_scan_writes, what_coming_up_changes, what_is_counted, what_is_given_up,
    what_is_handed_out, what_is_in_a_legal_history, what_is_owed, what_is_pending, what_is_scanned,
    what_waits,
};
pub use noted::{NotedResult, NotedSnapshot};
pub use role::Role;
