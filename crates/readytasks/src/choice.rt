//! Which task goes next.
ghost use Rattle.std.specs.Prelude.{ℕ, length};
ghost use Rattle.plantevents.specs.Choices.{Chooses};
ghost use Rattle.readytasks.specs.TaskSetSteps.{is_free_at, rank_at};
ghost use Rattle.readytasks.specs.ReadyLists.{IsOrderOf, IsReadyList};

use crate::task_state::TaskState;

/// The task that is to be taken: the first that is ready and of which no scan is open.
pub(crate) fn choose(ready: &[usize], states: &[TaskState]) -> Option<usize>
    requires order { IsOrderOf states.now ready.now }
    ensures first { (moment : ℕ) → IsReadyList states.now moment ready.now
        → Chooses (is_free_at states.now moment) (rank_at states.now) (length states.now) result }
{
    for task in ready {
        if !states[*task].is_scanned() {
            return Some(*task);
        }
    }
    None
}
