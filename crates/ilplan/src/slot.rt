//! The variables of a task.

use ilsource::Name;
use iltypes::{IlType, Value};

/// A variable that a task's programs name.
#[derive(Clone, Copy)]
pub enum SlotOwner {
    /// The global variable of this number.
    Global(usize),
    /// A variable of a program instance, by the names of both in the text.
    Own { instance: Name, name: Name },
}

/// A place for the value of a variable.
#[derive(Clone, Copy)]
pub struct Slot {
    pub variable: SlotOwner,
    pub value_type: IlType,
    /// Its value before the first scan.
    pub initial: Value,
}
