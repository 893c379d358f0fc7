//! What is asked about, and what is said of a fault.

ghost use Rattle.std.specs.Prelude.{◌≡◌, IfOk};
ghost use Rattle.explaincures.specs.declared.answers.Example.TheVariants.{Changed};

use crate::edits::{Edit, TriedLines};
use std::alloc::{AllocError, Global};
use std::io;
use std::io::Write;
use wordlines::Binding;

/// A text that is asked about, with the binding that it is loaded with.
#[derive(Clone, Copy)]
pub struct AskedText<'a> {
    /// The path of the text, as it was given.
    pub path: &'a str,
    pub text: &'a [u8],
    pub binding: &'a Binding,
    /// Whether the binding was given, or is that of one bus, of which nothing else is said.
    pub is_bound: bool,
}

/// What a cause means, and what helps.
#[derive(Clone, Copy)]
pub struct Advice {
    /// What is wrong.
    pub what: &'static str,
    /// What helps, in lines of some 72 characters.
    pub cure: &'static str,
    /// A line, or lines, of another text.
    pub line: &'static str,
}

impl Advice {
    /// What a row says: a text with `|` between what is wrong, what helps, and the line. One text a
    /// row has fewer steps to prove than three.
    pub fn of(row: &'static str) -> Advice {
        let (what, rest) = row.split_once('|').unwrap_or((row, ""));
        let (cure, line) = rest.split_once('|').unwrap_or((rest, ""));
        Advice { what, cure, line }
    }
}

/// What is said of a fault.
#[derive(Drop)]
pub struct FaultAnswer {
    /// What is wrong.
    pub what: String,
    /// What is known of it, in lines; none where it is empty.
    pub facts: String,
    /// What helps, in lines of some 72 characters.
    pub cure: String,
    pub example: Example,
}

/// Lines that show what helps.
#[derive(Drop)]
pub enum Example {
    /// A change of the text, or of the file of lines: with it that is accepted, or the fault is gone.
    Changed(Edit),
    /// Lines of another text.
    Other(String),
}

impl FaultAnswer {
    /// What advice says, of which the line is one of another text.
    pub fn of(alloc: Global, advice: Advice) -> Result<FaultAnswer, AllocError> {
        Ok(FaultAnswer {
            what: String::from_str(alloc, advice.what)?,
            facts: String::new(alloc),
            cure: String::from_str(alloc, advice.cure)?,
            example: Example::Other(String::from_str(alloc, advice.line)?),
        })
    }

    /// The same, with a change that was tried.
    pub fn with_change(self, edit: Edit) -> FaultAnswer
        ensures { result.example ≡ Changed edit }
    {
        let example = Example::Changed(edit);
        FaultAnswer { example, ..self }
    }

    /// The same, with more that is known.
    pub fn with_facts(self, facts: String) -> FaultAnswer
        ensures { result.example ≡ self.example }
    {
        FaultAnswer { facts, ..self }
    }
}

/// Writes what is known, what helps, and the lines, of a fault on this line of a text.
///
/// # Errors
///
/// The writer's, or that the allocator is out of memory.
pub fn write_answer<W: Write>(
    alloc: Global,
    out: &mut W,
    text: &[u8],
    answer: &FaultAnswer,
    line: usize,
) -> io::Result<()> {
    out.write_all(answer.facts.as_bytes())?;
    write_lines(out, ["cure: ", "      "], answer.cure.as_str())?;
    match &answer.example {
        Example::Changed(edit) => write_tried(out, &edit.lines(alloc, text)?, line),
        Example::Other(lines) => {
            out.write_all(b"for example:\n")?;
            write_lines(out, ["    "; 2], lines.as_str())
        }
    }
}

/// Writes lines that were tried, for a fault on this line.
fn write_tried<W: Write>(out: &mut W, tried: &TriedLines, line: usize) -> io::Result<()> {
    let TriedLines { first, last, with } = tried;
    if first != last {
        writeln!(out, "as lines {first} to {last} could read:")?;
    } else if *first != line {
        writeln!(out, "as line {first} could read:")?;
    } else {
        out.write_all(b"as it could read:\n")?;
    }
    write_lines(out, ["    "; 2], with.as_str())
}

/// Writes the lines of a text: the first with one front, the others with another.
fn write_lines<W: Write>(out: &mut W, fronts: [&str; 2], text: &str) -> io::Result<()> {
    let [first, next] = fronts;
    for (index, line) in text.split('\n').enumerate() {
        let front = if index == 0 { first } else { next };
        writeln!(out, "{front}{line}")?;
    }
    Ok(())
}
