//! Values that a snapshot has in place of the image's.

ghost use Rattle.std.specs.Prelude.{◌≡◌, ◌<◌, All, length};
ghost use Rattle.ilcells.specs.Banks.{kinds_of};
ghost use Rattle.ilmachine.specs.RowSteps.{MaySet, lists_of, slots_at, row_with, row_under};

use crate::slots::TaskSlot;
use ilcells::ValueRow;
use iltypes::Value;

/// A global variable with the value that a snapshot has in place of the image's, as the trigger of
/// an event task, which is TRUE in the snapshot alone.
#[derive(Clone, Copy)]
pub struct Override {
    /// The number of the global variable.
    pub global: usize,

    /// A value of its type.
    pub value: Value,
}

/// Puts the values that overrides give into the row of a task. It takes no memory.
pub(crate) fn put_overrides(
    row: &mut ValueRow,
    index: &[Vec<TaskSlot>],
    task: usize,
    overrides: &[Override],
)
    requires known { All (λ given. given.global < length index.now) overrides.now }
    requires kinds { All (λ given. All
        (λ one. one.task ≡ task → MaySet row.old one.slot given.value)
        (slots_at (lists_of (λ slots. slots.items) index.now) given.global)) overrides.now }
    ensures { row.new ≡ row_under (lists_of (λ slots. slots.items) index.now) task overrides.now
        row.old }
{
    for given in overrides {
        put_slots(row, &index[given.global], task, given.value);
    }
}

/// Puts a value into those of these slots that are the task's.
fn put_slots(row: &mut ValueRow, slots: &[TaskSlot], task: usize, value: Value)
    requires { All (λ one. one.task ≡ task → MaySet row.old one.slot value) slots.now }
    ensures value { row.new ≡ row_with slots.now value task row.old }
    ensures kinds { kinds_of row.new ≡ kinds_of row.old }
{
    for one in slots {
        if one.task == task {
            row.set(one.slot, value);
        }
    }
}
