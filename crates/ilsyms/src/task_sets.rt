//! Sets of tasks, of which as much is kept as shows whether two tasks are in them.

ghost use Rattle.std.specs.Prelude.{◌≡◌, ◌<◌, ℕ, All, IfOk, length, option_map, slice_get};
ghost use Rattle.ilsyms.specs.TaskSetSteps.{with_tasks};
ghost use Rattle.ilsyms.specs.declared.task_sets.TaskSet.TheVariants.{Empty};

use std::alloc::{AllocError, Global};

/// What is kept of a set of tasks.
#[derive(Clone, Copy)]
pub(crate) enum TaskSet {
    /// It has no task.
    Empty,
    /// It has the task with this number alone.
    One(usize),
    /// It has two tasks at least.
    Several,
}

impl TaskSet {
    ghost use Rattle.std.specs.Prelude.{◌≡◌};
    ghost use Rattle.ilsyms.specs.TaskSetSteps.{union};

    /// The tasks of either set.
    fn union(self, other: TaskSet) -> TaskSet
        ensures { result ≡ union self other }
    {
        match (self, other) {
            (TaskSet::Empty, other) => other,
            (one, TaskSet::Empty) => one,
            (TaskSet::One(task), TaskSet::One(other)) => {
                if task == other {
                    TaskSet::One(task)
                } else {
                    TaskSet::Several
                }
            }
            _ => TaskSet::Several,
        }
    }
}

/// So many empty sets.
pub(crate) fn empty_sets(alloc: Global, count: usize) -> Result<Vec<TaskSet>, AllocError>
    ensures count { IfOk result (λ v. length v.items ≡ count) }
    ensures empty { IfOk result (λ v. All (λ set. set ≡ Empty) v.items) }
{
    vec![in alloc; TaskSet::Empty; count]
}

/// Adds the tasks to the sets with these numbers.
pub(crate) fn add_tasks(sets: &mut [TaskSet], numbers: &[usize], tasks: TaskSet)
    requires { All (λ number. number < length sets.old) numbers.now }
    ensures { (number : ℕ) → slice_get sets.new number
        ≡ option_map (with_tasks numbers.now tasks number) (slice_get sets.old number) }
{
    for number in numbers {
        sets[*number] = sets[*number].union(tasks);
    }
}
