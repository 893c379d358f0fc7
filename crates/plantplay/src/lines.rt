//! The lines that are written of what happens.

use crate::watch::Watch;
use buslink::{Outcome, Transaction};
use daliframe::Frame;
use daliwords::FramesWords;
use ilplan::Plan;
use plant::Plant;
use plantdriving::{Happened, Observer};
use std::alloc::{AllocError, Global};
use std::io::Write;
use std::{fmt, io};

/// How the frames of a play are written.
#[derive(Clone, Copy, PartialEq, Eq, Debug)]
pub enum FrameStyle {
    /// As their hexadecimal digits.
    Digits,
    /// As their hexadecimal digits, and behind them in words.
    Words,
}

/// An observer that writes a line for each event, and behind the line of a commit one for each
/// variable that is watched and has another value than was told last.
#[derive(Drop)]
pub(crate) struct Lines<'a, W> {
    out: &'a mut W,
    style: FrameStyle,
    watch: Watch,
    /// The names of the tasks, by their numbers.
    tasks: Vec<String>,
}

impl<'a, W: Write> Lines<'a, W> {
    /// Lines of a plant, of whose variables those of these names are watched.
    ///
    /// # Errors
    ///
    /// The allocator is out of memory.
    pub(crate) fn new(
        alloc: Global,
        out: &'a mut W,
        style: FrameStyle,
        plant: &Plant,
        watched: &[&str],
    ) -> Result<Self, AllocError> {
        let tasks = task_names(alloc, plant.setup().plan())?;
        let watch = Watch::of(alloc, plant, watched)?;
        Ok(Lines {
            out,
            style,
            watch,
            tasks,
        })
    }
}

impl<W: Write> Lines<'_, W> {
    /// Writes the line of a transaction that a bus was handed.
    fn write_handed(&mut self, bus: u8, transaction: &Transaction) -> io::Result<()> {
        let handed = TransactionLine { bus, transaction };
        let behind = WordsBehind {
            style: self.style,
            frames: transaction.frames(),
        };
        writeln!(self.out, "hand {handed}{behind}")
    }
}

/// The names of the tasks, by their numbers.
fn task_names(alloc: Global, plan: &Plan) -> Result<Vec<String>, AllocError> {
    let mut names = Vec::new(alloc);
    for task in 0..plan.tasks() {
        names.push(String::from_str(alloc, plan.task_name(task))?)?;
    }
    Ok(names)
}

/// The name of a task.
fn name_of(tasks: &[String], task: usize) -> &str {
    match tasks.get(task) {
        Some(name) => name.as_str(),
        None => "",
    }
}

impl<B, W: Write> Observer<B> for Lines<'_, W> {
    fn note(&mut self, _place: u64, happened: Happened) -> io::Result<()> {
        match happened {
            Happened::Ticked { moment } => writeln!(self.out, "tick {moment}"),
            Happened::Heard { bus, frame } => {
                let behind = WordsBehind {
                    style: self.style,
                    frames: &[Frame::Forward24(frame)],
                };
                writeln!(self.out, "heard {bus} {frame}{behind}")
            }
            Happened::Took { task, .. } => {
                let name = name_of(&self.tasks, task);
                writeln!(self.out, "take {name}")
            }
            Happened::Committed { task, steps, .. } => {
                let name = name_of(&self.tasks, task);
                writeln!(self.out, "commit {name} steps {steps}")
            }
            Happened::Handed {
                bus,
                transaction,
                ..
            } => self.write_handed(bus, &transaction),
            Happened::Reported { bus, report } => {
                let outcome = report.outcome();
                writeln!(self.out, "done {}", OutcomeLine { bus, outcome })
            }
            Happened::WentDown { bus } => writeln!(self.out, "down {bus}"),
            Happened::CameUp { .. } => Ok(()),
        }
    }

    fn note_values(&mut self, plant: &Plant, task: usize) -> io::Result<()> {
        self.watch.note_values(plant, task)?;
        self.watch.write_changes(self.out)
    }
}

/// A transaction that was handed out: its bus, its class, and its frames in upper hexadecimal
/// digits, with one blank between.
#[derive(Clone, Copy)]
struct TransactionLine<'a> {
    bus: u8,
    transaction: &'a Transaction,
}

impl fmt::Display for TransactionLine<'_> {
    fn fmt<W: fmt::Write>(&self, f: &mut fmt::Formatter<W>) -> fmt::Result {
        write!(f, "{} {}", self.bus, self.transaction.first_priority())?;
        for frame in self.transaction.frames() {
            write!(f, " {frame}")?;
        }
        Ok(())
    }
}

/// What stands behind frames on their line: two blanks and the frames in words, or nothing.
#[derive(Clone, Copy)]
struct WordsBehind<'a> {
    style: FrameStyle,
    frames: &'a [Frame],
}

impl fmt::Display for WordsBehind<'_> {
    fn fmt<W: fmt::Write>(&self, f: &mut fmt::Formatter<W>) -> fmt::Result {
        match self.style {
            FrameStyle::Digits => Ok(()),
            FrameStyle::Words => write!(f, "  {}", FramesWords(self.frames)),
        }
    }
}

/// What became of a transaction: its bus, and how it ended.
#[derive(Clone, Copy)]
struct OutcomeLine {
    bus: u8,
    outcome: Outcome,
}

impl fmt::Display for OutcomeLine {
    fn fmt<W: fmt::Write>(&self, f: &mut fmt::Formatter<W>) -> fmt::Result {
        match self.outcome {
            Outcome::Done(reply) => write!(f, "{} {reply}", self.bus),
            Outcome::GaveUp => write!(f, "{} gave up", self.bus),
            Outcome::Failed => write!(f, "{} failed", self.bus),
        }
    }
}
