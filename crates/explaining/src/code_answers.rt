//! What is said of a refused word.

ghost use Rattle.std.specs.Prelude.{IfOk, IfSome};
ghost use Rattle.explaincures.specs.Trying.{IsCure, RunsOn, ShowsCure};

use crate::code_causes::{Line, Said, Try, commands_of, said_of};
use crate::code_edits::{edit_of, is_cure, limits_of};
use crate::mismatch::{Mismatch, ValueText};
use crate::refused::{Refused, input_of};
use crate::taken::{Lack, lack_at, ways_up_to};
use explaincures::{Edit, Example, FaultAnswer, shown_text};
use ilblocks::PortName;
use ilcode::Code;
use illisting::line_at;
use iltypes::Range;
use ilverify::{Cause, Known};
use std::alloc::{AllocError, Global};

/// What is said of a refused word: with the first of the changes that are tried which helps, where
/// one does.
pub(crate) fn answer_code(alloc: Global, refused: &Refused) -> Result<FaultAnswer, AllocError>
    ensures { let asked = refused.now.asked.now in
        IfOk result (ShowsCure asked.binding.now asked.text.now refused.now.refusal.line
        (RunsOn refused.now.names.now.task refused.now.refusal.word)) }
{
    let said = said_of(refused);
    let mut answer = answer_of(alloc, refused, said)?;
    let Some((edit, cure)) = cure_of(alloc, refused, said.tries)? else {
        return Ok(answer);
    };
    if !cure.is_empty() {
        answer.cure = String::from_str(alloc, cure)?;
    }
    Ok(answer.with_change(edit))
}

/// The first of some changes that helps, and what is said of it.
fn cure_of(
    alloc: Global,
    refused: &Refused,
    tries: &'static [Try],
) -> Result<Option<(Edit, &'static str)>, AllocError>
    ensures { let asked = refused.now.asked.now in
        IfOk result (λ found. IfSome found (λ cure. IsCure asked.binding.now asked.text.now
        refused.now.refusal.line
        (RunsOn refused.now.names.now.task refused.now.refusal.word) cure.0)) }
{
    for Try(change, cure) in tries {
        if let Some(edit) = edit_of(alloc, refused, *change)? {
            let outcome = edit.outcome(alloc, refused.asked, refused.refusal.line)?;
            if is_cure(refused, *change, &edit, outcome) {
                return Ok(Some((edit, *cure)));
            }
        }
    }
    Ok(None)
}

/// What is said of it where no change helps.
fn answer_of(alloc: Global, refused: &Refused, said: &Said) -> Result<FaultAnswer, AllocError>
    ensures { let asked = refused.now.asked.now in
        IfOk result (ShowsCure asked.binding.now asked.text.now refused.now.refusal.line
        (RunsOn refused.now.names.now.task refused.now.refusal.word)) }
{
    Ok(FaultAnswer {
        what: String::from_str(alloc, said.what)?,
        facts: facts_of(alloc, refused)?,
        cure: String::from_str(alloc, said.cure)?,
        example: Example::Other(example_of(alloc, refused, said.line)?),
    })
}

/// What is known of a refused word, in lines.
fn facts_of(alloc: Global, refused: &Refused) -> Result<String, AllocError> {
    match (refused.refusal.cause, refused.mismatch) {
        (Cause::WrongType, Some(mismatch)) => found_wanted(alloc, mismatch),
        (Cause::OutOfRange { found, allowed }, _) => {
            ranges_told(alloc, found, allowed, values_told(refused, allowed))
        }
        (Cause::NoResult, _) => lack_told(alloc, refused),
        _ => Ok(String::new(alloc)),
    }
}

/// What the input may be that a word gives, where that is a command or an address of gear.
fn values_told(refused: &Refused, allowed: Range) -> &'static str {
    match input_of(refused.names.code, refused.refusal.word) {
        Some((kind, PortName::Cmd)) => commands_of(kind),
        Some((_, PortName::Adr)) if allowed.hi == 80 => ADDRESSES,
        _ => "",
    }
}

/// The addresses of gear.
const ADDRESSES: &str = "ADR: 0 to 63 short addresses, 64 to 79 the groups 0 to 15, 80 all gear\n";

/// What was found and what is allowed, in lines, and what the values are.
fn ranges_told(
    alloc: Global,
    found: Range,
    allowed: Range,
    values: &'static str,
) -> Result<String, AllocError> {
    let (lo, hi, least, most) = (found.lo, found.hi, allowed.lo, allowed.hi);
    format!(in alloc; "found:   {lo}..{hi}\nallowed: {least}..{most}\n{values}")
}

/// What was found and what is wanted, in lines.
fn found_wanted(alloc: Global, mismatch: Mismatch) -> Result<String, AllocError> {
    let (found, wanted) = (ValueText(Some(mismatch.found)), ValueText(mismatch.wanted));
    let whose = if mismatch.is_operand {
        ""
    } else {
        ", the current result"
    };
    format!(in alloc; "found:  {found}{whose}\nwanted: {wanted}\n")
}

/// Which lines bring values of two kinds to a word, or which one leaves none, in a line.
fn lack_told(alloc: Global, refused: &Refused) -> Result<String, AllocError> {
    let (code, word) = (refused.names.code, refused.refusal.word);
    let ways = ways_up_to(alloc, code, word)?;
    lack_text(alloc, code, lack_at(code, &ways, word))
}

/// Why there is no current result, in a line.
fn lack_text(alloc: Global, code: &Code, lack: Option<Lack>) -> Result<String, AllocError> {
    match lack {
        Some(Lack::Meeting(one, other)) => meeting_text(alloc, code, one, other),
        Some(Lack::Begun) => String::from_str(alloc, BEGUN),
        Some(Lack::Called(place)) => {
            let line = line_at(code, place);
            format!(in alloc; "found:  none, since line {line} calls a block\n")
        }
        None => Ok(String::new(alloc)),
    }
}

/// Which lines bring values of two kinds, each from the word at its place.
fn meeting_text(
    alloc: Global,
    code: &Code,
    (one, found): (usize, Known),
    (other, met): (usize, Known),
) -> Result<String, AllocError> {
    let (first, last) = (line_at(code, one), line_at(code, other));
    let (found, met) = (ValueText(Some(found)), ValueText(Some(met)));
    format!(in alloc; "found:  {found} from line {first}, {met} from line {last}\n")
}

/// What is found where a program or a function begins.
const BEGUN: &str = "found:  none, since each program and each function begins without one\n";

/// Lines of another text.
fn example_of(alloc: Global, refused: &Refused, line: Line) -> Result<String, AllocError> {
    match (line, refused.refusal.cause) {
        (Line::Text(text), _) => String::from_str(alloc, text),
        (line, Cause::OutOfRange { found, allowed }) => {
            number_example(alloc, refused, line, found, allowed)
        }
        _ => Ok(String::new(alloc)),
    }
}

/// Lines of another text where a number may not fit.
fn number_example(
    alloc: Global,
    refused: &Refused,
    line: Line,
    found: Range,
    allowed: Range,
) -> Result<String, AllocError> {
    let nearest = found.hi.min(allowed.hi).max(allowed.lo);
    match line {
        Line::Input => input_example(alloc, refused, found, allowed),
        Line::Nearest => before_number(alloc, b"LD ", nearest),
        Line::Operand => before_number(alloc, front_of_operand(refused), nearest),
        Line::Limited => behind_limits(alloc, found, allowed, b"ST limited"),
        _ => behind_limits(alloc, found, allowed, refused.spot().rest()),
    }
}

/// What an input may be: a short address, or the most that is allowed.
fn input_example(
    alloc: Global,
    refused: &Refused,
    found: Range,
    allowed: Range,
) -> Result<String, AllocError> {
    let Some((_, name)) = input_of(refused.names.code, refused.refusal.word) else {
        return limits_of(alloc, found, allowed);
    };
    let number = match name {
        PortName::Adr => 5,
        _ => allowed.hi,
    };
    let name = shown_text(alloc, name.spelling())?;
    format!(in alloc; "{name} := {number}")
}

/// What stands on the line before the operand, from the instruction on.
fn front_of_operand<'q>(refused: &Refused<'q, '_>) -> &'q [u8] {
    let spot = refused.spot();
    let operand = refused.operand_of(refused.refusal.word).unwrap_or(spot);
    spot.part(spot.at, operand.at)
}

/// A number behind this front.
fn before_number(alloc: Global, front: &[u8], number: i64) -> Result<String, AllocError> {
    let front = shown_text(alloc, front)?;
    format!(in alloc; "{front}{number}")
}

/// The operators that keep a number within what is allowed, and a line behind them.
fn behind_limits(
    alloc: Global,
    found: Range,
    allowed: Range,
    line: &[u8],
) -> Result<String, AllocError> {
    let limits = limits_of(alloc, found, allowed)?;
    let line = shown_text(alloc, line)?;
    format!(in alloc; "{limits}\n{line}")
}
