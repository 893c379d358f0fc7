//! Files with their faults.

ghost use Rattle.std.specs.Prelude.{◌≡◌, IfOk, Some};
ghost use Rattle.explaincures.specs.Trying.{IsGone, NamesOn, ReadsOn, RunsOn, ShowsCure};
ghost use Rattle.explaining.specs.Explained.{StandsAt};

use crate::further::Further;
use crate::refused::{answer_task, print_refused};
use crate::told::{Explanation, Title};
use explaincures::{AskedText, Example, place_of};
use explainlines::{LineFile, bad_line};
use explainnames::{OtherFaults, answer_name};
use explaintexts::answer_text;
use ildeclared::{NameCause, NameFault};
use ilsource::Source;
use iltext::{TextCause, TextFault};
use plantload::{LoadFault, NotLoaded, RefusedTask};
use printout::Printout;
use std::alloc::{AllocError, Global};
use std::io;
use std::io::Write;
use wordlines::{BindFault, LineFault, ScenarioFault};

/// Why a text is not loaded, explained: at the place of the fault that the loader gives. A change
/// that is shown was tried: with it the text is accepted, or that fault is gone.
///
/// # Errors
///
/// The allocator is out of memory, or was when the text was loaded.
pub fn explanation_of(
    alloc: Global,
    asked: &AskedText,
    stop: &NotLoaded,
) -> Result<Explanation, AllocError>
    ensures place { IfOk result (StandsAt stop.now.fault) }
    ensures cure { IfOk result (λ told. ShowsCure asked.now.binding.now asked.now.text.now told.line
        (IsGone asked.now.text.now stop.now.fault) told.answer) }
{
    match (&stop.fault, &stop.source) {
        (LoadFault::Text(TextFault::At { line, col, cause }), _) => {
            told_text(alloc, asked, (*line, *col), *cause)
        }
        (LoadFault::Name(NameFault::At { line, col, cause }), Some(source)) => {
            told_name(alloc, asked, source, (*line, *col), *cause)
        }
        (LoadFault::Code(refused), _) => told_code(alloc, asked, refused),
        _ => Err(AllocError),
    }
}

/// What is written where memory ran out.
const NO_MEMORY: &[u8] = b"no memory\n";

/// Explains a fault of a text; where a change is shown that cures it, its faults behind that are
/// named.
fn told_text(
    alloc: Global,
    asked: &AskedText,
    place: (usize, usize),
    cause: TextCause,
) -> Result<Explanation, AllocError>
    ensures line { IfOk result (λ told. told.line ≡ place.0) }
    ensures mark { IfOk result (λ told. told.mark ≡ Some place.1) }
    ensures cure { IfOk result (λ told.
        ShowsCure asked.now.binding.now asked.now.text.now place.0
        (ReadsOn asked.now.text.now place.0 place.1) told.answer) }
{
    let answer = answer_text(alloc, asked, place.0, place.1, cause)?;
    let mut further = Further::of(alloc, asked);
    if let Example::Changed(edit) = &answer.example {
        further.add_behind(&edit.lines(alloc, asked.text)?)?;
    }
    let title = Title::Fault("text", cause.number());
    let behind = further.into_page();
    Ok(Explanation::of(alloc, asked.path, place, title, answer, behind))
}

/// Explains a fault of names; the others are named, a line each, and how many more there are.
fn told_name(
    alloc: Global,
    asked: &AskedText,
    source: &Source,
    place: (usize, usize),
    cause: NameCause,
) -> Result<Explanation, AllocError>
    ensures line { IfOk result (λ told. told.line ≡ place.0) }
    ensures mark { IfOk result (λ told. told.mark ≡ Some place.1) }
    ensures cure { IfOk result (λ told.
        ShowsCure asked.now.binding.now asked.now.text.now place.0 NamesOn told.answer) }
{
    let at = place_of(asked.text, place.0, place.1);
    let answer = answer_name(alloc, asked, source, place.0, at, cause)?;
    let others = OtherFaults::of(alloc, asked, source, at, cause)?;
    let mut further = Further::of(alloc, asked);
    for fault in &others.named {
        let title = Title::Fault("name", fault.cause.number());
        further.add(Some(fault.line), fault.col, title, &fault.what);
    }
    if !others.named.is_empty() {
        print_more(&mut further.page, others.more, others.is_cut);
    }
    let title = Title::Fault("name", cause.number());
    let behind = further.into_page();
    Ok(Explanation::of(alloc, asked.path, place, title, answer, behind))
}

/// Prints how many faults of names there are besides; where `is_cut` there may be more.
fn print_more(page: &mut Printout, more: usize, is_cut: bool) {
    let (front, behind) = match (more, is_cut) {
        (0, true) => return page.text("there may be more faults of names\n"),
        (0, false) => return,
        (1, true) => ("at least ", " more fault of names\n"),
        (1, false) => ("", " more fault of names\n"),
        (_, true) => ("at least ", " more faults of names\n"),
        (_, false) => ("", " more faults of names\n"),
    };
    page.text(front);
    page.count(more);
    page.text(behind);
}

/// Explains a task whose code is refused: with what leads to the word. Of each task behind it the
/// first refused word is named.
fn told_code(
    alloc: Global,
    asked: &AskedText,
    refused: &RefusedTask,
) -> Result<Explanation, AllocError>
    ensures line { IfOk result (λ told. told.line ≡ refused.now.refusal.line) }
    ensures cure { IfOk result (λ told. ShowsCure asked.now.binding.now asked.now.text.now
        refused.now.refusal.line (RunsOn refused.now.task refused.now.refusal.word) told.answer) }
{
    let (plan, task, refusal) = (refused.plan(), refused.task(), refused.refusal());
    let mut further = Further::of(alloc, asked);
    let page = &mut further.page;
    let (mark, answer) = answer_task(alloc, asked, page, true, plan, task, refusal)?;
    further.add_tasks(plan, task.saturating_add(1))?;
    let mut head = Printout::new(alloc);
    print_refused(
        &mut head,
        asked,
        refused.task_name(),
        refusal,
        mark,
        &answer.what,
    );
    Ok(Explanation {
        head,
        line: refusal.line,
        mark,
        is_found: false,
        answer,
        behind: further.into_page(),
    })
}

/// Explains a fault of a binding.
///
/// # Errors
///
/// The writer's, or that the allocator is out of memory.
pub fn explain_binding<W: Write>(
    alloc: Global,
    out: &mut W,
    path: &str,
    bytes: &[u8],
    fault: &BindFault,
) -> io::Result<()> {
    explain_lines(alloc, out, path, bytes, LineFile::Binding, fault)
}

/// Explains a fault of a scenario.
///
/// # Errors
///
/// The writer's, or that the allocator is out of memory.
pub fn explain_scenario<W: Write>(
    alloc: Global,
    out: &mut W,
    path: &str,
    bytes: &[u8],
    fault: &ScenarioFault,
) -> io::Result<()> {
    explain_lines(alloc, out, path, bytes, LineFile::Scenario, fault)
}

/// Explains a fault of a file of lines.
fn explain_lines<Of, W: Write>(
    alloc: Global,
    out: &mut W,
    path: &str,
    bytes: &[u8],
    file: LineFile,
    fault: &LineFault<Of>,
) -> io::Result<()> {
    let LineFault::At { line, cause } = fault else {
        return out.write_all(NO_MEMORY);
    };
    let line = line.number();
    let bad = bad_line(alloc, file, bytes, line, *cause)?;
    let title = match file {
        LineFile::Binding => Title::Line("bind"),
        LineFile::Scenario => Title::Line("scenario"),
    };
    let place = (line, bad.col);
    let told = Explanation::of(alloc, path, place, title, bad.answer, Printout::new(alloc));
    told.write_to(alloc, out, bytes)
}
