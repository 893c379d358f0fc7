//! What a task is declared with.

use plantevents::Activator;

/// What a task is declared with (IEC 61131-3, 2.7.2).
#[derive(Clone, Copy)]
pub struct TaskSetup {
    /// What activates it; a task that nothing activates is never ready.
    pub activator: Option<Activator>,
    /// Its priority, of which 0 is the first.
    pub priority: u16,
}
