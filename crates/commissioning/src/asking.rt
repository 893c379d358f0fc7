//! A command at one bus, and what it is answered.

ghost use Rattle.std.specs.Prelude.{◌≡◌, ◌≤◌, ◌↔◌, Err, IsTrue, MatchResult};
ghost use Rattle.buslink.specs.Attempts.{most_sent};
ghost use Rattle.commissioning.specs.Asking.{IsAnswered, IsUnanswered};

use buslink::{Bus, MOST_SENT, Outcome, Report, Transaction, perform};
use daliframe::BusNumber;
use gearcmd::{Command, Request, TaskKind};
use limits::USUAL_TRIES;
use std::alloc::AllocError;
use std::fmt;

/// Why a command was not answered.
#[derive(Clone, Copy, PartialEq, Eq, Debug)]
pub enum AskFault {
    /// The allocator is out of memory.
    Memory,
    /// The interface failed.
    Failed,
}

impl From<AllocError> for AskFault {
    ghost use Rattle.std.specs.Prelude.{◌≡◌};
    ghost use Rattle.commissioning.specs.declared.asking.AskFault.TheVariants.{Memory};

    ghost from_gives = { λ _ fault. fault ≡ Memory };

    fn from(_refused: AllocError) -> Self {
        AskFault::Memory
    }
}

impl fmt::Display for AskFault {
    fn fmt<W: fmt::Write>(&self, f: &mut fmt::Formatter<W>) -> fmt::Result {
        match self {
            AskFault::Memory => write!(f, "no memory"),
            AskFault::Failed => write!(f, "the interface failed"),
        }
    }
}

/// A command that was asked, and how it ended.
#[derive(Clone, Copy)]
pub struct Asked {
    pub command: Command,
    pub outcome: Outcome,
}

impl Asked {
    /// Whether this command was asked.
    pub(crate) fn is_of(&self, command: &Command) -> bool
        ensures { IsTrue result ↔ (self.now.command ≡ command.now) }
    {
        self.command == *command
    }
}

/// Sends the frames of a command on a bus, with the priority of what a person does, in as many
/// attempts as a bus has where nothing is said, and gives the report. Its outcome is not `Failed`.
///
/// # Errors
///
/// The bus has no room for the frames, and nothing was sent; or the interface failed.
pub fn ask<B: Bus>(bus: &mut B, command: Command) -> Result<Report, AskFault>
    ensures asked { MatchResult result
        (λ report. IsAnswered command report (B.log bus.old) (B.log bus.new))
        (λ fault. IsUnanswered command fault (B.log bus.old) (B.log bus.new)) }

    // Memory is refused only where fifteen frames do not fit.
    ensures enough { most_sent ≤ (B.log bus.old).spare → ¬ (result ≡ Err AskFault.Memory) }
{
    let request = Request {
        bus: BusNumber::default(),
        command,
    };
    let transaction = Transaction::of(&request, TaskKind::Event);
    bus.room(MOST_SENT)?;
    let report = perform(bus, &transaction, USUAL_TRIES);
    if report.outcome() == Outcome::Failed {
        return Err(AskFault::Failed);
    }
    Ok(report)
}
