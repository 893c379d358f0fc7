//! What lasts of a task.

use ilblocks::BlockState;
use iltypes::Value;
use std::marker::Model;

/// What lasts of a task from one scan to the next: a value for each of its slots, and what each of
/// its block instances keeps.
#[derive(Drop)]
pub struct TaskState {
    values: Vec<Value>,
    blocks: Vec<BlockState>,
}

impl Model for TaskState {
    ghost use Rattle.ilblocks.specs.Stores.{Lasting};

    ghost Value = { Lasting };

    ghost view = { λ s. record { slots = s.values.items; blocks = s.blocks.items } };
}

impl TaskState {
    ghost use Rattle.std.specs.Prelude.{◌≡◌};

    /// These values and instances, in the order of the task's.
    pub fn new(values: Vec<Value>, blocks: Vec<BlockState>) -> TaskState
        ensures { result ≡ record { slots = values.items; blocks = blocks.items } }
    {
        TaskState { values, blocks }
    }

    /// The values, one for each slot.
    pub fn values(&self) -> &[Value]
        ensures value { result.now ≡ self.now.slots }
    {
        &self.values
    }

    /// What each block instance keeps.
    pub fn blocks(&self) -> &[BlockState]
        ensures value { result.now ≡ self.now.blocks }
    {
        &self.blocks
    }
}
