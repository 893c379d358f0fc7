//! Why a text is not loaded.

use ilplan::Plan;
use ilsource::Source;
use ilsyms::NameFault;
use iltext::TextFault;
use ilverify::Refusal;
use std::alloc::{AllocError, AllocFailed};
use std::error::Error;
use std::fmt;
use std::marker::Model;

/// A task whose code is refused, with the plan that has its name.
#[derive(Drop)]
pub struct RefusedTask {
    plan: Plan,
    task: usize,
    refusal: Refusal,
}

impl Model for RefusedTask {
    ghost use Rattle.std.specs.Prelude.{◌<◌, length};
    ghost use Rattle.std.specs.Coded.{codes};
    ghost use Rattle.ilplan.specs.contracts.plan.Plan as inner;
    ghost use Rattle.plantload.specs.RefusedTasks.{Refused, refused_of};

    ghost Value = { Refused };

    ghost coded = { Prim.hlevel (codes, inner.the_row.coded) };

    ghost view = { λ r. refused_of r.plan r.task r.refusal };

    ghost invariant = { λ r. r.task < length r.plan.tasks };
}

impl RefusedTask {
    ghost use Rattle.std.specs.Prelude.{◌≡◌, ◌<◌, length, slice_get, Some, option_map};
    ghost use Rattle.plantload.specs.RefusedTasks.{Refused, refused_of};

    /// The task of this number, refused for this reason.
    pub(crate) fn new(plan: Plan, task: usize, refusal: Refusal) -> RefusedTask
        requires { task < length plan.tasks }
        ensures { result ≡ refused_of plan task refusal }
    {
        RefusedTask {
            plan,
            task,
            refusal,
        }
    }

    /// The plan.
    pub fn plan(&self) -> &Plan
        ensures value { result.now ≡ self.now.plan }
    {
        &self.plan
    }

    /// The task's number in the plan.
    pub fn task(&self) -> usize
        ensures value { result ≡ self.now.task }
        ensures within { result < length self.now.plan.tasks }
    {
        self.task
    }

    /// The task's name, as declared.
    pub fn task_name(&self) -> &str
        ensures value { option_map (λ t. t.name) (slice_get self.now.plan.tasks self.now.task)
            ≡ Some result.now }
    {
        self.plan.task_name(self.task)
    }

    /// The refusal of the task's code.
    pub fn refusal(&self) -> Refusal
        ensures value { result ≡ self.now.refusal }
    {
        self.refusal
    }
}

/// `task main refused 3 at word 0 line 3`
impl fmt::Display for RefusedTask {
    ghost use Rattle.std.specs.Prelude.{Some};
    ghost use Rattle.plantload.specs.Printed.{printed_refused};

    ghost output = { λ refused. Some (printed_refused refused) };

    fn fmt<W: fmt::Write>(&self, f: &mut fmt::Formatter<W>) -> fmt::Result {
        write!(f, "task {} {}", self.task_name(), self.refusal())
    }
}

impl fmt::Debug for RefusedTask {
    fn fmt<W: fmt::Write>(&self, f: &mut fmt::Formatter<W>) -> fmt::Result {
        write!(f, "{self}")
    }
}

/// Why a text is not loaded: the first of these, in the order in which they are reported.
#[derive(Debug, Drop)]
pub enum LoadFault {
    /// The allocator is out of memory.
    Memory,
    /// The text's first fault.
    Text(TextFault),
    /// The least fault of its names.
    Name(NameFault),
    /// The first of its tasks whose code is refused.
    Code(RefusedTask),
}

/// Why a text is not loaded, with what was read of it.
#[derive(Drop)]
pub struct NotLoaded {
    /// Its first fault, as it is reported.
    pub fault: LoadFault,
    /// Its source program, where it reads whole.
    pub source: Option<Source>,
}

impl Error for LoadFault {}

impl fmt::Display for LoadFault {
    ghost use Rattle.std.specs.Prelude.{Some};
    ghost use Rattle.plantload.specs.PrintedFaults.{printed_load_fault};

    ghost output = { λ fault. Some (printed_load_fault fault) };

    fn fmt<W: fmt::Write>(&self, f: &mut fmt::Formatter<W>) -> fmt::Result {
        match self {
            LoadFault::Memory => write!(f, "no memory"),
            LoadFault::Text(fault) => write!(f, "{fault}"),
            LoadFault::Name(fault) => write!(f, "{fault}"),
            LoadFault::Code(refused) => write!(f, "{refused}"),
        }
    }
}

impl From<AllocError> for LoadFault {
    ghost use Rattle.std.specs.Prelude.{◌≡◌};
    ghost use Rattle.plantload.specs.declared.fault.LoadFault.TheVariants.{Memory};

    ghost from_gives = { λ _ fault. fault ≡ Memory };

    fn from(_refused: AllocError) -> Self {
        LoadFault::Memory
    }
}

impl<T: Drop> From<AllocFailed<T>> for LoadFault {
    ghost use Rattle.std.specs.Prelude.{◌≡◌};
    ghost use Rattle.plantload.specs.declared.fault.LoadFault.TheVariants.{Memory};

    ghost from_gives = { λ _ fault. fault ≡ Memory };

    fn from(_refused: AllocFailed<T>) -> Self {
        LoadFault::Memory
    }
}

impl From<TextFault> for LoadFault {
    ghost use Rattle.std.specs.Prelude.{◌≡◌};
    ghost use Rattle.plantload.specs.PrintedFaults.{of_text};

    ghost from_gives = { λ fault own. own ≡ of_text fault };

    fn from(fault: TextFault) -> Self {
        match fault {
            TextFault::Memory => LoadFault::Memory,
            fault => LoadFault::Text(fault),
        }
    }
}

impl From<NameFault> for LoadFault {
    ghost use Rattle.std.specs.Prelude.{◌≡◌};
    ghost use Rattle.plantload.specs.PrintedFaults.{of_name};

    ghost from_gives = { λ fault own. own ≡ of_name fault };

    fn from(fault: NameFault) -> Self {
        match fault {
            NameFault::Memory => LoadFault::Memory,
            fault => LoadFault::Name(fault),
        }
    }
}
