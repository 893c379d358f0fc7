//! What starts a task.

use ilblocks::TaskKind;

/// What starts a task (IEC 61131-3, 2.7.2).
#[derive(Clone, Copy)]
pub enum Activation {
    /// The clock, once in each interval of milliseconds, 1 or more.
    Cyclic { interval: u32 },
    /// An event, by the global variable of this number, the task's trigger.
    Event { trigger: usize },
}

impl Activation {
    ghost use Rattle.std.specs.Prelude.{◌≡◌};
    ghost use Rattle.ilplan.specs.Plans.{task_kind};

    /// The kind of the task that it starts.
    pub fn kind(self) -> TaskKind
        ensures value { result ≡ task_kind self }
    {
        match self {
            Activation::Cyclic { .. } => TaskKind::Cyclic,
            Activation::Event { .. } => TaskKind::Event,
        }
    }
}
