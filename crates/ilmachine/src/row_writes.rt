//! What is written into rows.

ghost use Rattle.std.specs.Prelude.{◌≡◌, ℕ, ◌<◌, All, length, map, option_map, slice_get};
ghost use Rattle.std.specs.Prelude.{slice_set};
ghost use Rattle.ilmachine.specs.TaskRows.{shown, AreReady};
ghost use Rattle.ilmachine.specs.RowSteps.{IsIndex, layouts_of, lists_of, MaySlotHave, MaySlotsHave};
ghost use Rattle.ilmachine.specs.RowSteps.{task_with};

use crate::slots::TaskSlot;
use crate::task_row::TaskRow;
use iltypes::Value;

/// Gives a global variable another value, in each row that has it too. It takes no memory.
pub(crate) fn give(
    globals: &mut Vec<Value>,
    tasks: &mut Vec<TaskRow>,
    index: &[Vec<TaskSlot>],
    global: usize,
    value: Value,
)
    requires there { global < length globals.old.items }
    requires each { length index.now ≡ length globals.old.items }
    requires fits { MaySlotsHave (layouts_of tasks.old.items) global value }
    requires ready { AreReady globals.old.items tasks.old.items }
    requires indexed { IsIndex (layouts_of tasks.old.items)
        (lists_of (λ slots. slots.items) index.now) }
    ensures globals { globals.new.items ≡ slice_set globals.old.items global value }
    ensures layouts { layouts_of tasks.new.items ≡ layouts_of tasks.old.items }
    ensures shown { map shown tasks.new.items ≡ map shown tasks.old.items }
    ensures ready { AreReady globals.new.items tasks.new.items }
{
    globals[global] = value;
    write_slots(tasks, &index[global], value);
}

/// Writes the value into each of these slots.
fn write_slots(tasks: &mut Vec<TaskRow>, slots: &[TaskSlot], value: Value)
    requires { All (λ one. MaySlotHave (layouts_of tasks.old.items) value one.task one.slot)
        slots.now }
    ensures written { (task : ℕ) → slice_get tasks.new.items task
        ≡ option_map (task_with slots.now value task) (slice_get tasks.old.items task) }
    ensures layouts { layouts_of tasks.new.items ≡ layouts_of tasks.old.items }
{
    for one in slots {
        let task = &mut tasks[one.task];
        task.put(one.slot, value);
    }
}
