//! Slots of tasks.

/// A slot of a task of the image.
#[derive(Clone, Copy)]
pub(crate) struct TaskSlot {
    /// The number of the task.
    pub(crate) task: usize,

    /// The number of the slot in the task's code.
    pub(crate) slot: usize,
}

/// A slot of a task from which a scan stores to a global variable.
#[derive(Clone, Copy)]
pub struct StoredSlot {
    /// The number of the slot in the task's code.
    pub slot: usize,

    /// The number of the global variable.
    pub global: usize,
}
