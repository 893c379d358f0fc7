//! Changes of a text that may cure it, and trying them.

ghost use Rattle.std.specs.Prelude.{◌≡◌, ◌<◌, ◌↔◌, IfOk, IsTrue};
ghost use Rattle.explaincures.specs.LeavingOut.{IsEdit};
ghost use Rattle.explaincures.specs.Trying.{IsEnd, IsOnSide, IsTried, changed, changed_part};
ghost use Rattle.explaincures.specs.Trying.{content_of, last_line, lines_of};

use crate::answers::AskedText;
use crate::marking::{line_number, shown_text};
use crate::spots::{Spot, content_len, part, place_of};
use ildeclared::NameFault;
use ilsource::LineColumn;
use iltext::{TextFault, parse};
use plantload::{LoadFault, load};
use std::alloc::{AllocError, Global};

/// A change of a text: other bytes in place of those of `from..to`.
#[derive(Drop)]
pub struct Edit {
    pub from: usize,
    pub to: usize,
    pub with: Vec<u8>,
}

impl Edit {
    /// These bytes in place of others.
    pub fn new(alloc: Global, from: usize, to: usize, with: &[u8]) -> Result<Edit, AllocError>
        ensures { IfOk result (λ edit. IsEdit from to with.now edit) }
    {
        Ok(Edit {
            from,
            to,
            with: Vec::from_slice(alloc, with)?,
        })
    }

    /// The bytes from one place on, with the change, up to another.
    fn apply(
        &self,
        alloc: Global,
        text: &[u8],
        from: usize,
        to: usize,
    ) -> Result<Vec<u8>, AllocError>
        ensures { IfOk result (λ bytes. bytes.items ≡ changed_part self.now text.now from to) }
    {
        let mut bytes = Vec::from_slice(alloc, part(text, from, self.from))?;
        bytes.extend_from_slice(&self.with)?;
        bytes.extend_from_slice(part(text, self.to, to))?;
        Ok(bytes)
    }

    /// The whole text with the change.
    ///
    /// # Errors
    ///
    /// The allocator is out of memory.
    pub fn changed(&self, alloc: Global, text: &[u8]) -> Result<Vec<u8>, AllocError>
        ensures { IfOk result (λ bytes. bytes.items ≡ changed self.now text.now) }
    {
        self.apply(alloc, text, 0, text.len())
    }

    /// The line of the changed text up to which the change reaches, and a line of the text that it
    /// is to cure; both are counted from 1.
    pub fn last_line(&self, text: &[u8], bytes: &[u8], asked: usize) -> usize
        ensures { result ≡ last_line self.now text.now bytes.now asked }
    {
        let last = LineColumn::of(text, self.to).line.max(asked);
        lines_of(bytes).saturating_sub(lines_of(text).saturating_sub(last))
    }

    /// The lines that the change touches, as they could read.
    pub fn lines(&self, alloc: Global, text: &[u8]) -> Result<TriedLines, AllocError> {
        let first = Spot::of(text, self.from);
        let last = Spot::of(text, self.to);
        let bytes = self.apply(alloc, text, first.line_from, last.line_to)?;
        Ok(TriedLines {
            first: line_number(text, self.from),
            last: line_number(text, self.to),
            with: shown_text(alloc, part(&bytes, 0, content_len(&bytes)))?,
        })
    }

    /// Whether the text reads with the change up to the end of its last line, and of that of a
    /// place, and where `with_next` the line behind it too; all that stands before `start` may be
    /// left out.
    pub fn is_read(
        &self,
        alloc: Global,
        spot: &Spot,
        start: usize,
        with_next: bool,
    ) -> Result<bool, AllocError> {
        let last = Spot::of(spot.text, self.to.max(spot.at));
        let to = if with_next {
            last.next_line_to()
        } else {
            last.line_to
        };
        let mut bytes = self.apply(alloc, spot.text, start, to)?;
        bytes.extend_from_slice(b"\n")?;
        Ok(read_to(alloc, &bytes)? >= bytes.len())
    }

    /// What stands against the whole text with the change, which is to cure what stands on a line,
    /// counted from 1: what the loader says of it.
    ///
    /// # Errors
    ///
    /// The allocator is out of memory.
    pub fn outcome(
        &self,
        alloc: Global,
        asked: &AskedText,
        line: usize,
    ) -> Result<EditOutcome, AllocError>
        ensures { IfOk result (IsTried asked.now.binding.now asked.now.text.now line self.now) }
    {
        let text = asked.text;
        let bytes = self.changed(alloc, text)?;
        match load(alloc, &bytes, asked.binding) {
            Ok(_) => Ok(EditOutcome::Accepted),
            Err(
                LoadFault::Text(
                    TextFault::At {
                        line: found,
                        col,
                        ..
                    },
                ),
            ) => {
                if is_end(&bytes, found, col) {
                    return Ok(EditOutcome::Ended {
                        has_more: has_more(text, &bytes),
                    });
                }
                Ok(EditOutcome::Text(self.side_of(text, &bytes, line, found)))
            }
            Err(LoadFault::Name(NameFault::At { line: found, .. })) => {
                Ok(EditOutcome::Name(self.side_of(text, &bytes, line, found)))
            }
            Err(LoadFault::Code(refused)) => Ok(EditOutcome::Code {
                task: refused.task(),
                word: refused.refusal().word,
            }),
            Err(_) => Err(AllocError),
        }
    }

    /// On which side of the change, and of a line of the text, a line of the changed text stands.
    fn side_of(&self, text: &[u8], bytes: &[u8], asked: usize, line: usize) -> Side
        ensures { IsOnSide self.now text.now bytes.now asked line result }
    {
        if line < LineColumn::of(text, self.from).line {
            Side::Before
        } else if line > self.last_line(text, bytes, asked) {
            Side::Behind
        } else {
            Side::There
        }
    }
}

/// How many lines there are.
fn lines_of(bytes: &[u8]) -> usize
    ensures { result ≡ lines_of bytes.now }
{
    LineColumn::of(bytes, bytes.len()).line
}

/// Whether more stands in a changed text than in the text, blanks aside.
fn has_more(text: &[u8], bytes: &[u8]) -> bool
    ensures { IsTrue result ↔ (content_of text.now < content_of bytes.now) }
{
    content_of(text) < content_of(bytes)
}

/// How much stands in some bytes, blanks aside.
fn content_of(bytes: &[u8]) -> usize
    ensures { result ≡ content_of bytes.now }
{
    bytes
        .iter()
        .filter(|byte| !matches!(**byte, b' ' | b'\t' | b'\n' | b'\r'))
        .count()
}

/// Whether a line and a column are those of a text's end.
pub fn is_end(bytes: &[u8], line: usize, col: usize) -> bool
    ensures { IsTrue result ↔ IsEnd bytes.now line col }
{
    let end = LineColumn::of(bytes, bytes.len());
    end.line == line && end.col == col
}

/// Up to where a text reads: where its first fault stands, or behind all where it has none.
pub(crate) fn read_to(alloc: Global, bytes: &[u8]) -> Result<usize, AllocError> {
    match parse(alloc, bytes) {
        Ok(_) => Ok(usize::MAX),
        Err(TextFault::Memory) => Err(AllocError),
        Err(TextFault::At { line, col, .. }) => Ok(place_of(bytes, line, col)),
    }
}

/// Lines of a text, and what could stand in their place.
#[derive(Drop)]
pub struct TriedLines {
    /// The first and the last of them, counted from 1.
    pub first: usize,
    pub last: usize,
    pub with: String,
}

/// Where a line of a changed text stands.
#[derive(Clone, Copy)]
pub enum Side {
    Before,
    /// On a line of the change, or on one from there up to the line that it is to cure.
    There,
    Behind,
}

/// What stands against a text with a change.
#[derive(Clone, Copy)]
pub enum EditOutcome {
    Accepted,
    /// The text ends too early; whether more stands in it than before, blanks aside.
    Ended { has_more: bool },
    /// A fault of the text before its end.
    Text(Side),
    /// A fault of names.
    Name(Side),
    /// A refused word of a task.
    Code { task: usize, word: usize },
}
