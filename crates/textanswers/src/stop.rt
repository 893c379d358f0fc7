//! Why a text is not run.

use ilplan::Plan;
use plantload::LoadFault;
use std::alloc::{AllocError, AllocFailed, Global};
use std::error::Error;
use std::fmt;
use std::marker::Model;
use wordlines::BindFault;

/// A task that is not there: the name that a user gave for it, where one was given, and the names
/// of those that are. Without a name, the text has no task or more than one.
#[derive(Drop)]
pub struct UnknownTask {
    asked: Option<String>,
    tasks: Vec<String>,
}

impl Model for UnknownTask {
    ghost use Rattle.std.specs.Prelude.{ℕ, List, Option, option_map, string_bytes};

    ghost Value = { Option (List ℕ) };

    ghost view = { λ unknown. option_map (λ name. string_bytes name) unknown.asked };
}

impl UnknownTask {
    ghost use Rattle.std.specs.Prelude.{◌≡◌, IfOk, option_map, unwrap_or, []};

    /// A copy of the name, and the names of the plan's tasks, which are printed by rows alone.
    pub fn of(alloc: Global, plan: &Plan, asked: Option<&str>) -> Result<UnknownTask, AllocError>
        ensures { IfOk result (λ unknown. unknown ≡ option_map (λ name. name.now) asked.entry) }
    {
        let tasks = names_of(alloc, plan)?;
        match asked {
            Some(name) => Ok(UnknownTask {
                asked: Some(String::from_str(alloc, name)?),
                tasks,
            }),
            None => Ok(UnknownTask { asked: None, tasks }),
        }
    }

    /// The name that was given, where one was.
    pub fn name(&self) -> Option<&str>
        ensures { option_map (λ name. name.now) result ≡ self.now }
    {
        match &self.asked {
            Some(name) => Some(name.as_str()),
            None => None,
        }
    }

    /// The name that was given, or none.
    fn text(&self) -> &str
        ensures { result.now ≡ unwrap_or self.now [] }
    {
        match &self.asked {
            Some(name) => name.as_str(),
            None => "",
        }
    }
}

/// The names of the tasks, in order.
fn names_of(alloc: Global, plan: &Plan) -> Result<Vec<String>, AllocError> {
    let mut names = Vec::new(alloc);
    for task in 0..plan.tasks() {
        names.push(String::from_str(alloc, plan.task_name(task))?)?;
    }
    Ok(names)
}

impl fmt::Debug for UnknownTask {
    fn fmt<W: fmt::Write>(&self, f: &mut fmt::Formatter<W>) -> fmt::Result {
        write!(f, "{}", self.text())
    }
}

/// What is said of it on standard error: which tasks there are, and before that, where none is
/// named, that one is to be.
impl fmt::Display for UnknownTask {
    fn fmt<W: fmt::Write>(&self, f: &mut fmt::Formatter<W>) -> fmt::Result {
        if self.asked.is_none() {
            write!(f, "error: no task is named: ")?;
        }
        match self.tasks.as_slice() {
            [] => write!(f, "there is no task"),
            [only] => write!(f, "the only task is {only}"),
            [first, others @ ..] => {
                write!(f, "the tasks are {first}")?;
                for other in others {
                    write!(f, ", {other}")?;
                }
                Ok(())
            }
        }
    }
}

/// The first of what stands against running a text, in the order in which it is reported.
#[derive(Debug, Drop)]
pub enum Stop {
    /// The allocator is out of memory.
    Memory,
    /// The binding's first fault.
    Binding(BindFault),
    /// The text is not loaded.
    Load(LoadFault),
    /// No task has the name, or none is named and there is not one alone.
    NoTask(UnknownTask),
}

impl Error for Stop {}

impl fmt::Display for Stop {
    ghost use Rattle.std.specs.Prelude.{Some};
    ghost use Rattle.textanswers.specs.Stops.{printed_stop};

    ghost output = { λ stop. Some (printed_stop stop) };

    fn fmt<W: fmt::Write>(&self, f: &mut fmt::Formatter<W>) -> fmt::Result {
        match self {
            Stop::Memory => write!(f, "no memory"),
            Stop::Binding(fault) => write!(f, "{fault}"),
            Stop::Load(fault) => write!(f, "{fault}"),
            Stop::NoTask(unknown) => write!(f, "no task {}", unknown.text()),
        }
    }
}

impl From<AllocError> for Stop {
    ghost use Rattle.std.specs.Prelude.{◌≡◌};
    ghost use Rattle.textanswers.specs.declared.stop.Stop.TheVariants.{Memory};

    ghost from_gives = { λ _ e. e ≡ Memory };

    fn from(_refused: AllocError) -> Stop {
        Stop::Memory
    }
}

impl<T: Drop> From<AllocFailed<T>> for Stop {
    ghost use Rattle.std.specs.Prelude.{◌≡◌};
    ghost use Rattle.textanswers.specs.declared.stop.Stop.TheVariants.{Memory};

    ghost from_gives = { λ _ e. e ≡ Memory };

    fn from(_refused: AllocFailed<T>) -> Stop {
        Stop::Memory
    }
}

impl From<LoadFault> for Stop {
    ghost use Rattle.std.specs.Prelude.{◌≡◌};
    ghost use Rattle.textanswers.specs.Stops.{of_load};

    ghost from_gives = { λ fault stop. stop ≡ of_load fault };

    fn from(fault: LoadFault) -> Stop {
        match fault {
            LoadFault::Memory => Stop::Memory,
            fault => Stop::Load(fault),
        }
    }
}

impl From<BindFault> for Stop {
    ghost use Rattle.std.specs.Prelude.{◌≡◌};
    ghost use Rattle.textanswers.specs.Stops.{of_binding};

    ghost from_gives = { λ fault stop. stop ≡ of_binding fault };

    fn from(fault: BindFault) -> Stop {
        match fault {
            BindFault::Memory => Stop::Memory,
            fault => Stop::Binding(fault),
        }
    }
}
