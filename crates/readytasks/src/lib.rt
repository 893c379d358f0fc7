//! The tasks of a plant: which are ready, what is pending for them, and which goes next.
//!
//! What crosses the boundary: each call of [`Tasks`] notes one event of the plant's history, which
//! nobody keeps here: [`Tasks::tick`], [`Tasks::note_frame`], [`Tasks::take_event`] and
//! [`Tasks::note_commit`]. [`Tasks::next`] is the task that is to be taken. `Follows` in
//! specs/TaskSets.antt is the definition to read first: the states are what the definitions of
//! `plantevents` say of a history.
//!
//! ```text
//! tasks.note_frame(place, bus, frame);
//! if let Some(task) = tasks.next() { let event = tasks.take_event(place + 1, task); }
//! ```
#![tactic(auto)]

mod activation;
mod choice;
mod laws;
mod noting;
mod ready_list;
mod setup;
mod task_state;
mod tasks;

pub use laws::other_events_leave_tasks;
pub use setup::TaskSetup;
pub use tasks::Tasks;
