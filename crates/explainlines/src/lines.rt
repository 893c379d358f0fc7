//! What is said of a bad line of a binding or of a scenario.

ghost use Rattle.std.specs.Prelude.{◌↔◌, All, IfOk, IsTrue};
ghost use Rattle.explaincures.specs.Trying.{IsShown};
ghost use Rattle.explainlines.specs.Curing.{CuresLine, IsGoodTo, IsGoodWith, IsOnLine, ReadsTo};
ghost use Rattle.explainlines.specs.LineForms.{IsLineOf};
ghost use Rattle.explainlines.specs.declared.lines.LineFile.TheVariants as files;

use crate::forms::{BINDING, Form, SCENARIO, form_of};
use crate::order::Said;
use crate::reason::{Meant, Reason};
use crate::words::{bad_words, first_word};
use explaincures::{Edit, Example, FaultAnswer, line_of, part, place_of, shown_text};
use ilsource::LineColumn;
use std::alloc::{AllocError, Global};
use wordlines::{Binding, LineCause, LineFault, first_line, is_skipped, parse};

/// A file of lines.
#[derive(Clone, Copy)]
pub enum LineFile {
    Binding,
    Scenario,
}

/// What is said of a bad line, with the column at which it is bad.
#[derive(Drop)]
pub struct BadLine {
    pub col: usize,
    pub answer: FaultAnswer,
}

/// What is said of the bad line of a number: with the line as it is meant, where that helps. A
/// change that is shown was tried: with it the file has no fault up to the change and the line.
///
/// # Errors
///
/// The allocator is out of memory.
pub fn bad_line(
    alloc: Global,
    file: LineFile,
    bytes: &[u8],
    number: usize,
    cause: LineCause,
) -> Result<BadLine, AllocError>
    ensures { IfOk result (λ bad. IsShown (CuresLine file bytes.now number) bad.answer.example) }
{
    let line = match part(bytes, place_of(bytes, number, 1), bytes.len()) {
        [] => &[],
        rest => first_line(rest).0,
    };
    let forms = forms_of(file);
    let reason = match cause {
        LineCause::TooLong => too_long(file),
        LineCause::BadLine => bad_in(file, bytes, number, line),
    };
    let meant = reason.meant_line(alloc, line)?;
    let other = line_like(file, cause, &meant);
    Ok(BadLine {
        col: reason.from.saturating_add(1),
        answer: FaultAnswer {
            what: reason.filled(alloc, reason.what, line, forms)?,
            facts: String::new(alloc),
            cure: reason.filled(alloc, reason.cure, line, forms)?,
            example: shown(alloc, file, bytes, number, reason.meant, &meant, other)?,
        },
    })
}

/// What is shown of the bad line of a number: the line as it is meant, where that helps, and else
/// another one.
fn shown(
    alloc: Global,
    file: LineFile,
    bytes: &[u8],
    number: usize,
    meant: Meant,
    line: &[u8],
    other: &str,
) -> Result<Example, AllocError>
    ensures { IfOk result (IsShown (CuresLine file bytes.now number)) }
{
    let from = place_of(bytes, number, 1);
    let to = from.saturating_add(line_of(bytes, number).len());
    let edit = Edit::new(alloc, from, to, line)?;
    if !is_on_line(bytes, number, &edit) || !is_cured(alloc, file, bytes, number, &edit)? {
        return Ok(Example::Other(String::from_str(alloc, other)?));
    }
    match meant {
        Meant::Perhaps(_) | Meant::Digits => Ok(Example::Other(shown_text(alloc, line)?)),
        _ => Ok(Example::Changed(edit)),
    }
}

/// The forms of the lines of a file. The line that each shows is one that such a file may have.
fn forms_of(file: LineFile) -> &'static [Form]
    ensures { All (λ form. IsLineOf file form.line.now) result.now }
{
    match file {
        LineFile::Binding => BINDING,
        LineFile::Scenario => SCENARIO,
    }
}

/// Why a file is bad that is too long.
fn too_long(file: LineFile) -> Reason {
    let (what, cure) = match file {
        LineFile::Binding => ("a binding of over 1,048,576 bytes", "leave comments out"),
        LineFile::Scenario => ("a scenario of over 1,048,576 bytes", "play it in two parts"),
    };
    Reason::of(what, cure)
}

/// Why the line of a number is bad.
fn bad_in(file: LineFile, bytes: &[u8], number: usize, line: &[u8]) -> Reason {
    match (file, bad_words(bytes, line, forms_of(file))) {
        (LineFile::Binding, _) if is_skipped(line) && !line.contains(&b'\r') => {
            let what = "no line says how many buses there are";
            let reason = Reason::of(what, "write the line `buses N`, of 1 to 64");
            reason.meaning(Meant::With("buses 1\n"))
        }
        (_, Err(reason)) => reason,
        (LineFile::Binding, Ok(form)) => Said::of(bytes, number, form).bad_in_binding(),
        (LineFile::Scenario, Ok(form)) => Said::of(bytes, number, form).bad_in_scenario(),
    }
}

/// Another line that begins as one does; where none does, one that its file may have.
fn line_like(file: LineFile, cause: LineCause, line: &[u8]) -> &'static str {
    match (file, cause, form_of(forms_of(file), first_word(line))) {
        (LineFile::Binding, LineCause::TooLong, _) => "buses 1",
        (LineFile::Scenario, LineCause::TooLong, _) => "tick 1000",
        (_, _, Some(form)) => form.line,
        (LineFile::Binding, _, None) => "source 0.0 device-instance 5 2",
        (LineFile::Scenario, _, None) => "event 0 048402",
    }
}

/// Whether a change is one of the line of a number, and of no other.
fn is_on_line(bytes: &[u8], number: usize, edit: &Edit) -> bool
    ensures { IsTrue result ↔ IsOnLine bytes.now number edit.now }
{
    LineColumn::of(bytes, edit.from).line == number && LineColumn::of(bytes, edit.to).line == number
}

/// Whether a file with a change has no fault up to the change, and up to the line of a number.
fn is_cured(
    alloc: Global,
    file: LineFile,
    bytes: &[u8],
    number: usize,
    edit: &Edit,
) -> Result<bool, AllocError>
    ensures { IfOk result (λ is. IsTrue is → IsGoodWith file bytes.now number edit.now) }
{
    let all = edit.changed(alloc, bytes)?;
    let last = edit.last_line(bytes, &all, number);
    match file {
        LineFile::Binding => is_good_binding(alloc, &all, last),
        LineFile::Scenario => is_good_scenario(alloc, &all, last),
    }
}

/// Whether a binding has no fault up to a line.
fn is_good_binding(alloc: Global, bytes: &[u8], last: usize) -> Result<bool, AllocError>
    ensures { IfOk result (λ is. IsTrue is → IsGoodTo files.Binding bytes.now last) }
{
    is_good(&Binding::parse(alloc, bytes), last)
}

/// Whether a scenario has no fault up to a line.
fn is_good_scenario(alloc: Global, bytes: &[u8], last: usize) -> Result<bool, AllocError>
    ensures { IfOk result (λ is. IsTrue is → IsGoodTo files.Scenario bytes.now last) }
{
    is_good(&parse(alloc, bytes), last)
}

/// Whether a file that was read has no fault up to a line.
fn is_good<Of>(file: &Result<Of, LineFault<Of>>, last: usize) -> Result<bool, AllocError>
    ensures { IfOk result (λ is. IsTrue is → ReadsTo last file.now) }
{
    match file {
        Ok(_) => Ok(true),
        Err(LineFault::Memory) => Err(AllocError),
        Err(LineFault::At { line, .. }) => Ok(line.number() > last),
    }
}
