//! What scans store to global variables.

ghost use Rattle.std.specs.Prelude.{◌≡◌, Some, length, map, slice_get};
ghost use Rattle.std.specs.Option.{IsSomeAnd};
ghost use Rattle.ilmachine.specs.Images.{TaskLayout, stored_slots};
ghost use Rattle.ilmachine.specs.TaskRows.{shown, AreReady};
ghost use Rattle.ilmachine.specs.RowSteps.{IsIndex, layouts_of, lists_of, AreStorable, stored_by};

use crate::row_writes::give;
use crate::slots::TaskSlot;
use crate::task_row::TaskRow;
use ilcells::ValueRow;
use iltypes::Value;

/// Writes, of the values that a scan of a task left in the programs' slots, those of the global
/// variables that the task stores to. It takes no memory.
pub(crate) fn store(
    globals: &mut Vec<Value>,
    tasks: &mut Vec<TaskRow>,
    index: &[Vec<TaskSlot>],
    task: usize,
    row: &ValueRow,
)
    requires each { length index.now ≡ length globals.old.items }
    requires storable { IsSomeAnd (slice_get (layouts_of tasks.old.items) task) (λ t.
        AreStorable (layouts_of tasks.old.items) row.now (length globals.old.items)
        (stored_slots t.externals)) }
    requires ready { AreReady globals.old.items tasks.old.items }
    requires indexed { IsIndex (layouts_of tasks.old.items)
        (lists_of (λ slots. slots.items) index.now) }
    ensures globals { (t : TaskLayout) → slice_get (layouts_of tasks.old.items) task ≡ Some t
        → globals.new.items ≡ stored_by (stored_slots t.externals) row.now globals.old.items }
    ensures layouts { layouts_of tasks.new.items ≡ layouts_of tasks.old.items }
    ensures shown { map shown tasks.new.items ≡ map shown tasks.old.items }
    ensures ready { AreReady globals.new.items tasks.new.items }
{
    let count = tasks[task].stores().len();
    for number in 0..count {
        let stored = tasks[task].stores()[number];
        give(globals, tasks, index, stored.global, row.get(stored.slot));
    }
}
