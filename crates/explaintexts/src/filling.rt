//! What is said in words: slots are filled, and changes are tried.

ghost use Rattle.std.specs.Prelude.{IfOk, IfSome, IsTrue};
ghost use Rattle.explaincures.specs.Trying.{ReadsOn};
ghost use Rattle.explaintexts.specs.Readings.{CuresReading, ShowsReading};

use crate::said::{Change, Said, Trial};
use explaincures::{
    AskedText, Edit, EditOutcome, Example, FaultAnswer, Side, Spot, in_place_of_sign, left_out,
    part, shown_text,
};
use explainpatterns::Standing;
use iltokens::Keyword;
use std::alloc::{AllocError, Global};

/// The first of what may be said that can be said.
pub(crate) fn first_answer(
    alloc: Global,
    standing: &Standing,
    candidates: &[Option<Said>],
) -> Result<Option<FaultAnswer>, AllocError>
    ensures { IfOk result (λ found. IfSome found (ShowsReading standing.now)) }
{
    for candidate in candidates {
        if let Some(said) = candidate {
            let answer = said.answer(alloc, standing)?;
            if answer.is_some() {
                return Ok(answer);
            }
        }
    }
    Ok(None)
}

impl Said {
    /// The answer, with lines that were tried where the change helps; nothing where neither these
    /// nor lines of another text are there.
    pub(crate) fn answer(
        &self,
        alloc: Global,
        standing: &Standing,
    ) -> Result<Option<FaultAnswer>, AllocError>
        ensures { IfOk result (λ found. IfSome found (ShowsReading standing.now)) }
    {
        match self.cure(alloc, standing)? {
            Some(edit) => {
                let answer = self.plain(alloc, standing)?;
                Ok(Some(answer.with_change(edit)))
            }
            None if self.row.line.is_empty() => Ok(None),
            None => Ok(Some(self.plain(alloc, standing)?)),
        }
    }

    /// The answer, with the lines of another text.
    pub(crate) fn plain(
        &self,
        alloc: Global,
        standing: &Standing,
    ) -> Result<FaultAnswer, AllocError>
        ensures { IfOk result (ShowsReading standing.now) }
    {
        let text = standing.spot.text;
        Ok(FaultAnswer {
            what: shown_text(alloc, &self.fill(alloc, text, self.row.what, 0)?)?,
            facts: String::new(alloc),
            cure: shown_text(alloc, &self.fill(alloc, text, self.row.cure, 0)?)?,
            example: Example::Other(String::from_str(alloc, self.row.line)?),
        })
    }

    /// The change, where the text reads with it as far as it has to, and nothing stands against its
    /// names there.
    pub(crate) fn cure(
        &self,
        alloc: Global,
        standing: &Standing,
    ) -> Result<Option<Edit>, AllocError>
        ensures { IfOk result (λ found. IfSome found (CuresReading standing.now)) }
    {
        let Some(edit) = self.edit(alloc, &standing.spot)? else {
            return Ok(None);
        };
        if self.trial != Trial::Text && !self.is_read(alloc, standing, &edit)? {
            return Ok(None);
        }
        let outcome = edit.outcome(alloc, standing.asked, standing.line)?;
        let is_cut = matches!(outcome, EditOutcome::Text(_) | EditOutcome::Ended { .. });
        if !is_cure(standing, outcome, self.trial) {
            return Ok(None);
        }
        if is_cut && !edit.with.is_empty() && is_misnamed(alloc, standing, &edit)? {
            return Ok(None);
        }
        Ok(Some(edit))
    }

    /// Whether the lines read with a change.
    fn is_read(&self, alloc: Global, standing: &Standing, edit: &Edit) -> Result<bool, AllocError> {
        let around = &standing.around;
        let is_open = !around.is_in_body() || around.open > 0 || edit.with.contains(&b'(');
        // What was found stands on a line behind the change: that line shows whether it helps.
        let is_shown = edit.to <= standing.spot.line_from;
        let is_bold = self.trial == Trial::NextLine && is_open;
        let with_next = (is_bold || self.trial == Trial::Behind) && !is_shown;
        edit.is_read(alloc, &standing.spot, around.from, with_next)
    }

    /// The change.
    fn edit(&self, alloc: Global, spot: &Spot) -> Result<Option<Edit>, AllocError> {
        match self.change {
            Change::Put((from, to), with) => {
                let indent = from.saturating_sub(Spot::of(spot.text, from).line_from);
                let with = self.fill(alloc, spot.text, with, indent)?;
                Ok(Some(Edit::new(alloc, from, to, &with)?))
            }
            Change::LeaveOut => left_out(alloc, spot),
            Change::Sign(sign) => in_place_of_sign(alloc, spot, sign),
            Change::Nothing => Ok(None),
        }
    }

    /// A text with what stands in its slots, in a line that begins with the given number of blanks.
    fn fill(
        &self,
        alloc: Global,
        asked: &[u8],
        text: &str,
        indent: usize,
    ) -> Result<Vec<u8>, AllocError> {
        let mut bytes = Vec::new(alloc);
        for (number, piece) in text.split('{').enumerate() {
            let rest = match piece.as_bytes() {
                [slot, b'}', rest @ ..] if number > 0 => {
                    self.push(alloc, asked, *slot, indent, &mut bytes)?;
                    rest
                }
                plain => plain,
            };
            bytes.extend_from_slice(rest)?;
        }
        Ok(bytes)
    }

    /// Adds what stands in a slot.
    fn push(
        &self,
        alloc: Global,
        asked: &[u8],
        slot: u8,
        indent: usize,
        bytes: &mut Vec<u8>,
    ) -> Result<(), AllocError> {
        let (number, count) = self.numbers;
        match slot {
            b'w' => bytes.extend_from_slice(self.words.0.as_bytes()),
            b'v' => bytes.extend_from_slice(self.words.1.as_bytes()),
            b'n' => bytes.extend_from_slice(format!(in alloc; "{number}")?.as_bytes()),
            b'd' => bytes.extend_from_slice(format!(in alloc; "{count}")?.as_bytes()),
            b'i' => push_times(bytes, indent, b" "),
            b')' => push_times(bytes, count as usize, b")\n"),
            b'=' => push_given(bytes, self.part(asked, b'0')),
            digit => bytes.extend_from_slice(self.part(asked, digit)),
        }
    }

    /// The part of this digit.
    fn part<'a>(&self, asked: &'a [u8], digit: u8) -> &'a [u8] {
        let number = usize::from(digit.saturating_sub(b'0'));
        let (from, to) = self.parts.get(number).copied().unwrap_or((0, 0));
        part(asked, from, to)
    }
}

/// Whether what stands against a text with a change, as far as it was tried, is no more what stood
/// at this place.
fn is_cure(standing: &Standing, outcome: EditOutcome, trial: Trial) -> bool
    ensures { IsTrue result
        → ReadsOn standing.now.asked.now.text.now standing.now.line standing.now.col outcome }
{
    let is_whole = trial == Trial::Text;
    match outcome {
        EditOutcome::Ended { has_more } => !is_whole && (has_more || !standing.is_at_end()),
        EditOutcome::Text(Side::Behind) => !is_whole,
        EditOutcome::Text(_) => false,
        EditOutcome::Name(side) => is_whole || !matches!(side, Side::There),
        EditOutcome::Accepted | EditOutcome::Code { .. } => true,
    }
}

/// Whether names are at fault on the lines of a change, where the text has another fault behind it:
/// the program or the function that is open is read as if it ended there.
fn is_misnamed(alloc: Global, standing: &Standing, edit: &Edit) -> Result<bool, AllocError> {
    let Standing {
        asked,
        spot,
        around,
        ..
    } = standing;
    let end = match around.unit_word() {
        Some(Keyword::Program) if around.is_in_body() => "\nEND_PROGRAM\n",
        Some(Keyword::Function) if around.is_in_body() => "\nEND_FUNCTION\n",
        _ => return Ok(false),
    };
    let to = Spot::of(spot.text, edit.to.max(spot.at)).line_to;
    let mut text = Vec::from_slice(alloc, part(spot.text, 0, to))?;
    text.extend_from_slice(end.as_bytes())?;
    let cut = AskedText {
        path: asked.path,
        text: &text,
        binding: asked.binding,
        is_bound: asked.is_bound,
    };
    let outcome = edit.outcome(alloc, &cut, standing.line)?;
    Ok(matches!(outcome, EditOutcome::Name(Side::There)))
}

/// Adds some bytes the given number of times.
fn push_times(bytes: &mut Vec<u8>, times: usize, with: &[u8]) -> Result<(), AllocError> {
    for _ in 0..times {
        bytes.extend_from_slice(with)?;
    }
    Ok(())
}

/// Adds code with `:=` in place of each `=`, `==`, `=>` and `=:` that is no part of another sign.
fn push_given(bytes: &mut Vec<u8>, code: &[u8]) -> Result<(), AllocError> {
    let mut skipped: usize = 0;
    let mut last = b' ';
    for (index, byte) in code.iter().enumerate() {
        if skipped > 0 {
            skipped = 0;
        } else if *byte == b'=' && !matches!(last, b':' | b'<' | b'>') {
            bytes.extend_from_slice(b":=")?;
            skipped = given_len(part(code, index, code.len())).saturating_sub(1);
        } else {
            bytes.push(*byte)?;
        }
        last = *byte;
    }
    Ok(())
}

/// How many bytes `=`, `==`, `=>` or `=:` has that stands first.
pub(crate) fn given_len(bytes: &[u8]) -> usize {
    match bytes {
        [b'=', b'=' | b'>' | b':', ..] => 2,
        _ => 1,
    }
}
