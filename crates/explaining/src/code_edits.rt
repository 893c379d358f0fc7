//! Changes of a text that may cure a refused word, with the names of the text.

ghost use Rattle.std.specs.Prelude.{◌<◌, IsTrue};
ghost use Rattle.explaincures.specs.Trying.{RunsOn};

use crate::code_causes::Change;
use crate::refused::{Refused, instruction_on};
use explaincures::{Edit, EditOutcome, Spot, line_number, part, place_of};
use ilcode::{Code, Word};
use illisting::line_at;
use iltokens::{Keyword, keyword_of};
use iltypes::{Condition, Range};
use ilverify::Cause;
use std::alloc::{AllocError, Global};

/// A change of a text; none where it can't be made.
pub(crate) fn edit_of(
    alloc: Global,
    refused: &Refused,
    change: Change,
) -> Result<Option<Edit>, AllocError> {
    match change {
        Change::Truth => truth_edit(alloc, refused),
        Change::Comparison => comparison_edit(alloc, refused),
        Change::Guard(guard, label) => guard_edit(alloc, refused, guard, label),
        Change::Before(lines) if may_insert(refused) => inserted(alloc, refused, lines),
        Change::Before(_) => Ok(None),
        Change::Limits => limits_edit(alloc, refused),
    }
}

/// Whether lines before a refused word are tried: not where a value of the wrong type is not found.
fn may_insert(refused: &Refused) -> bool {
    refused.mismatch.is_some() || !matches!(refused.refusal.cause, Cause::WrongType)
}

/// Whether the word is accepted with a change that was tried, and with the words more that come
/// before it.
pub(crate) fn is_cure(refused: &Refused, change: Change, edit: &Edit, outcome: EditOutcome) -> bool
    ensures { IsTrue result → RunsOn refused.now.names.now.task refused.now.refusal.word outcome }
{
    let more = match change {
        Change::Guard(..) => 3,
        _ => line_number(&edit.with, edit.with.len()).saturating_sub(1),
    };
    match outcome {
        EditOutcome::Accepted => true,
        EditOutcome::Code { task, word } if task == refused.names.task => {
            is_behind(refused, word.saturating_sub(more))
        }
        EditOutcome::Code { task, .. } => task > refused.names.task,
        EditOutcome::Ended { .. } | EditOutcome::Text(_) | EditOutcome::Name(_) => false,
    }
}

/// Whether a change moves the refusal on to this place, and not just to what takes the result.
fn is_behind(refused: &Refused, place: usize) -> bool
    ensures { IsTrue result → refused.now.refusal.word < place }
{
    let (code, word) = (refused.names.code, refused.refusal.word);
    let is_free = match refused.refusal.cause {
        Cause::WrongType => false,
        Cause::TooBig => matches!(code.get(place), Some(Word::Store { .. })),
        _ => true,
    };
    let is_closing = matches!(code.get(place), Some(Word::Close));
    place > word && (is_free || !is_closing && place >= kept_to(code, word))
}

/// The operators that keep a number within what is allowed, in lines.
pub(crate) fn limits_of(alloc: Global, found: Range, allowed: Range) -> Result<String, AllocError> {
    let (least, most) = (allowed.lo, allowed.hi);
    match (found.lo < least, found.hi > most) {
        (true, true) => format!(in alloc; "MIN {most}\nMAX {least}"),
        (false, true) => format!(in alloc; "MIN {most}"),
        (true, false) => format!(in alloc; "MAX {least}"),
        (false, false) => Ok(String::new(alloc)),
    }
}

/// The operators before the refused instruction that keep the number within what is allowed.
fn limits_edit(alloc: Global, refused: &Refused) -> Result<Option<Edit>, AllocError> {
    let Cause::OutOfRange { found, allowed } = refused.refusal.cause else {
        return Ok(None);
    };
    let limits = limits_of(alloc, found, allowed)?;
    inserted(alloc, refused, &limits)
}

/// Lines before the refused instruction, set in as its line is.
fn inserted(alloc: Global, refused: &Refused, lines: &str) -> Result<Option<Edit>, AllocError> {
    let spot = refused.spot();
    let with = Lines {
        front: "",
        name: b"",
        lines,
        kept: b"",
        behind: "\n",
    };
    with.edit(alloc, &spot, spot.at, spot.at)
}

/// What comes into a text: what stands before a name, the name, lines, what is kept of the text,
/// and lines behind that. Lines are set in as that of a place is.
#[derive(Clone, Copy)]
struct Lines<'q> {
    front: &'static str,
    name: &'q [u8],
    lines: &'q str,
    kept: &'q [u8],
    behind: &'static str,
}

impl Lines<'_> {
    /// The change that puts it in place of what stands between two places.
    fn edit(
        &self,
        alloc: Global,
        spot: &Spot,
        from: usize,
        to: usize,
    ) -> Result<Option<Edit>, AllocError> {
        let blanks = blanks_before(spot);
        let mut with = Vec::from_slice(alloc, self.front.as_bytes())?;
        with.extend_from_slice(self.name)?;
        push_lines(&mut with, self.lines.as_bytes(), blanks)?;
        with.extend_from_slice(self.kept)?;
        push_lines(&mut with, self.behind.as_bytes(), blanks)?;
        Ok(Some(Edit { from, to, with }))
    }
}

/// Adds lines, with blanks behind each line end.
fn push_lines(with: &mut Vec<u8>, lines: &[u8], blanks: &[u8]) -> Result<(), AllocError> {
    for byte in lines {
        with.push(*byte)?;
        if *byte == b'\n' {
            with.extend_from_slice(blanks)?;
        }
    }
    Ok(())
}

/// The blanks at the front of a line.
fn blanks_before<'q>(spot: &Spot<'q>) -> &'q [u8] {
    let (first, _) = spot.first_place();
    spot.part(spot.line_from, first)
}

/// TRUE or FALSE in place of the operand, or of that of the word before, where that is 1 or 0.
fn truth_edit(alloc: Global, refused: &Refused) -> Result<Option<Edit>, AllocError> {
    let before = refused.operand_of(refused.refusal.word.saturating_sub(1));
    let Some(spot) = refused.wrong_operand().or(before) else {
        return Ok(None);
    };
    let truth = match spot.token() {
        b"1" => "TRUE",
        b"0" => "FALSE",
        _ => return Ok(None),
    };
    Ok(Some(Edit::new(alloc, spot.at, spot.found_to(), truth.as_bytes())?))
}

/// The operand, the name of a number, compared with 0 in parentheses; none of EQ and NE.
fn comparison_edit(alloc: Global, refused: &Refused) -> Result<Option<Edit>, AllocError> {
    let spot = refused.spot();
    let is_equal = matches!(keyword_of(spot.token()), Some(Keyword::Eq | Keyword::Ne));
    let (Some(operand), false) = (refused.wrong_operand(), is_equal) else {
        return Ok(None);
    };
    let name = name_at(&operand);
    let with = Lines {
        front: "( ",
        name,
        lines: "\nNE 0\n)",
        kept: b"",
        behind: "",
    };
    with.edit(
        alloc,
        &spot,
        spot.found_to(),
        operand.at.saturating_add(name.len()),
    )
}

/// A guard before what is computed around a division, and its label behind that; none where the
/// divisor is no name.
fn guard_edit(
    alloc: Global,
    refused: &Refused,
    guard: &'static str,
    label: &'static str,
) -> Result<Option<Edit>, AllocError> {
    let (Some(guarded), Some(divisor)) = (
        guarded_by(refused),
        refused.operand_of(refused.refusal.word),
    ) else {
        return Ok(None);
    };
    let name = name_at(&divisor);
    if name.is_empty() {
        return Ok(None);
    }
    let with = Lines {
        front: "LD ",
        name,
        lines: guard,
        kept: guarded.rest(),
        behind: label,
    };
    with.edit(alloc, &divisor, guarded.at, guarded.line_to)
}

/// What is computed around a division, from its LD on to the end of its last line.
fn guarded_by<'q>(refused: &Refused<'q, '_>) -> Option<Spot<'q>> {
    let text = refused.asked.text;
    let (first, last) = computation(refused.names.code, refused.refusal.word)?;
    let begin = instruction_on(text, first);
    if keyword_of(begin.token()) != Some(Keyword::Ld) {
        return None;
    }
    let end = Spot::of(text, place_of(text, last, 1));
    Some(Spot {
        line_to: end.line_to,
        ..begin
    })
}

/// The first and the last line of what is computed around a division: from the load before it to
/// the last word that takes what comes of it.
fn computation(code: &Code, word: usize) -> Option<(usize, usize)> {
    let mut first = code.len();
    for place in 0..word {
        if !is_kept(code, place) {
            first = place;
        }
    }
    let behind = kept_to(code, word);
    // What takes the result behind them would get that of the guard.
    let next = match code.get(behind) {
        Some(Word::Jump { condition, target }) if matches!(condition, Condition::Always) => {
            target as usize
        }
        _ => behind,
    };
    let is_over = match code.get(next) {
        Some(Word::Load { .. } | Word::Call(_) | Word::Pass { .. }) | None => true,
        _ => code.is_start(next),
    };
    match code.get(first) {
        Some(Word::Load { .. }) if is_over => {
            let last = behind.saturating_sub(1);
            Some((line_at(code, first), line_at(code, last)))
        }
        _ => None,
    }
}

/// The place behind the words that go on with the current result, from one on.
fn kept_to(code: &Code, word: usize) -> usize {
    for place in word..code.len() {
        if !is_kept(code, place) {
            return place;
        }
    }
    code.len()
}

/// Whether a word goes on with the current result.
fn is_kept(code: &Code, place: usize) -> bool {
    matches!(
        code.get(place),
        Some(
            Word::Apply(..)
                | Word::Transform(_)
                | Word::Store { .. }
                | Word::Set(_)
                | Word::Reset(_)
        )
    )
}

/// The name that stands at a place, with that of a port.
fn name_at<'q>(spot: &Spot<'q>) -> &'q [u8] {
    match spot.rest() {
        [b'0'..=b'9', ..] => b"",
        rest => part(rest, 0, name_len(rest)),
    }
}

/// How many bytes a name has that stands first, with that of a port.
fn name_len(bytes: &[u8]) -> usize {
    for (index, byte) in bytes.iter().enumerate() {
        if !byte.is_ascii_alphanumeric() && *byte != b'_' && *byte != b'.' {
            return index;
        }
    }
    bytes.len()
}
