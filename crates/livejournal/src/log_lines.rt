//! The lines of a log.

use buslink::{Mark, Outcome, Reply, Report, Transaction};
use daliwords::{FrameWords, HeardWords, OutcomeWords, RequestWords};
use ilplan::Plan;
use jiff::Timestamp;
use plantevents::Origin;
use plantturns::Happened;
use std::fmt;

/// Where an event stands, and when it came.
#[derive(Clone, Copy)]
pub(crate) struct Stamp {
    /// The place in the history.
    pub(crate) place: u64,
    /// The milliseconds of the last tick.
    pub(crate) moment: u64,
    /// The date of the tick at which it was written.
    pub(crate) date: Timestamp,
}

impl fmt::Display for Stamp {
    fn fmt<W: fmt::Write>(&self, f: &mut fmt::Formatter<W>) -> fmt::Result {
        write!(f, "{} {} {}", self.place, self.moment, self.date)
    }
}

/// An event in words, behind `! ` where something went wrong, or is right again. A tick and a Take
/// have no words.
#[derive(Clone, Copy)]
pub(crate) struct EventWords<'e> {
    pub(crate) plan: &'e Plan,
    pub(crate) happened: &'e Happened,
}

impl fmt::Display for EventWords<'_> {
    fn fmt<W: fmt::Write>(&self, f: &mut fmt::Formatter<W>) -> fmt::Result {
        match self.happened {
            Happened::Ticked { .. } | Happened::Took { .. } => Ok(()),
            Happened::Heard { bus, frame } => {
                write!(f, "heard bus {bus}: {} ({frame})", HeardWords(*frame))
            }
            Happened::Committed { task, steps, .. } => {
                write!(f, "commit {} steps {steps}", task_name(self.plan, *task))
            }
            Happened::Handed {
                bus,
                origin,
                transaction,
            } => {
                write!(f, "hand bus {bus}: ")?;
                write_handed(f, *origin, transaction)
            }
            Happened::Reported { bus, report } => write_report(f, *bus, report),
            Happened::WentDown { bus } => write!(f, "! down bus {bus}"),
            Happened::CameUp { bus } => write!(f, "! up bus {bus}"),
        }
    }
}

/// The name of a task.
fn task_name(plan: &Plan, task: usize) -> &str {
    if task < plan.tasks() {
        plan.task_name(task)
    } else {
        ""
    }
}

/// A transaction in words, with its frames behind.
fn write_handed<W: fmt::Write>(
    f: &mut fmt::Formatter<W>,
    origin: Origin,
    transaction: &Transaction,
) -> fmt::Result {
    let frames = transaction.frames();
    match (origin, frames.first()) {
        (Origin::Queued(request), _) => write!(f, "{}", RequestWords(request))?,
        (Origin::Output { .. }, Some(frame)) => write!(f, "{}", FrameWords(*frame))?,
        (Origin::Output { .. }, None) => {}
    }
    let mut before = " (";
    for frame in frames {
        write!(f, "{before}{frame}")?;
        before = " ";
    }
    write!(f, ")")
}

/// What became of a transaction.
fn write_report<W: fmt::Write>(f: &mut fmt::Formatter<W>, bus: u8, report: &Report) -> fmt::Result {
    if is_trouble(report) {
        write!(f, "! ")?;
    }
    write!(f, "done bus {bus}: {}", OutcomeWords(report))
}

/// Whether a frame was lost, an answer was damaged, or a transaction was not sent.
fn is_trouble(report: &Report) -> bool {
    match report.outcome() {
        Outcome::Done(Reply::Damaged | Reply::Lost) | Outcome::GaveUp | Outcome::Failed => true,
        Outcome::Done(Reply::Quiet | Reply::Answer(_)) => report
            .attempts()
            .iter()
            .any(|sent| matches!(sent.mark, Mark::Lost | Mark::Damaged)),
    }
}
