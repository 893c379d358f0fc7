//! How the program ends.

use clap::error::ErrorKind;
use plantplay::Ending;
use textanswers::{CodeAnswer, Stop, UnknownTask};
use workers::Ended;

/// How a call of the program ends.
#[derive(Clone, Copy, PartialEq, Eq, Debug)]
pub enum ExitStatus {
    /// What was asked for was done.
    Accepted,
    /// A file, a task's name or a code is refused, or what was expected of a play does not hold.
    Refused,
    /// The words are not a command line.
    Misused,
    /// A device failed, or the allocator is out of memory.
    Failed,
}

impl ExitStatus {
    ghost use Rattle.std.specs.Prelude.{◌≡◌};
    ghost use Rattle.exitstatus.specs.ExitStatuses.{number_of_status, status_of_code_answer};
    ghost use Rattle.exitstatus.specs.ExitStatuses.{status_of_play, status_of_run, status_of_stop};
    ghost use Rattle.exitstatus.specs.ExitStatuses.{status_of_unknown_task, status_of_words};

    /// The number that the program exits with.
    pub fn number(self) -> u8
        ensures { result ≡ number_of_status self }
    {
        match self {
            ExitStatus::Accepted => 0,
            ExitStatus::Refused => 1,
            ExitStatus::Misused => 2,
            ExitStatus::Failed => 3,
        }
    }

    /// Of words that `clap` did not take, by the kind of its error.
    pub fn of_words(kind: ErrorKind) -> ExitStatus
        ensures { result ≡ status_of_words kind }
    {
        match kind {
            ErrorKind::DisplayHelp | ErrorKind::DisplayVersion => ExitStatus::Accepted,
            ErrorKind::OutOfMemory => ExitStatus::Failed,
            _ => ExitStatus::Misused,
        }
    }

    /// Of how a play ended, and whether a bus is down then.
    pub fn of_play(ending: Ending, is_down: bool) -> ExitStatus
        ensures { result ≡ status_of_play ending is_down }
    {
        match (ending, is_down) {
            (Ending::Whole | Ending::Limit, false) => ExitStatus::Accepted,
            _ => ExitStatus::Failed,
        }
    }

    /// Of why a run ended, and whether a bus is down then.
    pub fn of_run(ended: Ended, is_down: bool) -> ExitStatus
        ensures { result ≡ status_of_run ended is_down }
    {
        match (ended, is_down) {
            (Ended::Asked, false) => ExitStatus::Accepted,
            _ => ExitStatus::Failed,
        }
    }

    /// Of what stands against a text.
    pub fn of_stop(stop: &Stop) -> ExitStatus
        ensures { result ≡ status_of_stop stop.now }
    {
        match stop {
            Stop::Memory => ExitStatus::Failed,
            Stop::NoTask(unknown) => ExitStatus::of_unknown_task(unknown),
            Stop::Binding(_) | Stop::Load(_) => ExitStatus::Refused,
        }
    }

    /// Of a task that is not there.
    pub fn of_unknown_task(unknown: &UnknownTask) -> ExitStatus
        ensures { result ≡ status_of_unknown_task unknown.now }
    {
        match unknown.name() {
            Some(_) => ExitStatus::Refused,
            None => ExitStatus::Misused,
        }
    }

    /// Of what is answered to a code file.
    pub fn of_code_answer(answer: &CodeAnswer) -> ExitStatus
        ensures { result ≡ status_of_code_answer answer.now }
    {
        match answer {
            CodeAnswer::Accepted { .. } => ExitStatus::Accepted,
            CodeAnswer::Refused(_) | CodeAnswer::Faulty(_) => ExitStatus::Refused,
            CodeAnswer::Memory => ExitStatus::Failed,
        }
    }
}
