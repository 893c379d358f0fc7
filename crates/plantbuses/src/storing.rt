//! The kinds of the tasks that store to global variables.

ghost use Rattle.std.specs.Prelude.{◌≡◌, ◌<◌, ℕ, length, IfOk};
ghost use Rattle.plantevents.specs.Plants.{external_in, stores_global};
ghost use Rattle.plantbuses.specs.OutputSteps.{planned, is_number, is_store_in};
ghost use Rattle.plantbuses.specs.OutputSteps.{AreNoted, AreKinds};

use gearcmd::TaskKind;
use ilplan::{Plan, SlotOwner, Task};
use std::alloc::{AllocError, Global};

/// The global variable in the slot of this number, where a program of the task stores to it.
fn stored_global(task: &Task, number: usize, variable: SlotOwner) -> Option<usize>
    requires { number < length task.now.slots }
    ensures { (g : ℕ) → is_number g result ≡ is_store_in g (external_in task.now number variable) }
{
    match variable {
        SlotOwner::Global(global) if task.stores(number) => Some(global),
        _ => None,
    }
}

/// Notes the kind of the task that stores to a global variable, where there is an entry for it.
fn note_kind(kinds: &mut Vec<TaskKind>, stored: Option<usize>, kind: TaskKind)
    ensures { AreNoted (λ g. is_number g stored) kind kinds.old.items kinds.new.items }
{
    if let Some(global) = stored
        && global < kinds.len()
    {
        kinds[global] = kind;
    }
}

/// Notes the kind of a task at each global variable that a program of the task stores to.
fn note_task(kinds: &mut Vec<TaskKind>, task: &Task, kind: TaskKind)
    ensures { AreNoted (stores_global task.now) kind kinds.old.items kinds.new.items }
{
    let slots = task.slots();
    for number in 0..slots.len() {
        let stored = stored_global(task, number, slots[number].variable);
        note_kind(kinds, stored, kind);
    }
}

/// Of each global variable the kind of the task that stores to it. It goes once over the slots of
/// each task.
pub(crate) fn storing_kinds(alloc: Global, plan: &Plan) -> Result<Vec<TaskKind>, AllocError>
    ensures { IfOk result (λ kinds. AreKinds (planned plan.now) kinds.items) }
{
    let mut kinds = vec![in alloc; TaskKind::Cyclic; plan.globals()]?;
    // Backwards, so that the first of several tasks stays.
    for task in (0..plan.tasks()).rev() {
        note_task(&mut kinds, plan.task(task), plan.kind(task));
    }
    Ok(kinds)
}
