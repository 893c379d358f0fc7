//! Notes, as small values.

ghost use Rattle.std.specs.Prelude.{◌≡◌, IsSomeAnd, Some, slice_get};
ghost use Rattle.ilnotes.specs.Said.{IsOn};

use crate::kinds::{Kind, Rule};
use crate::levels::LevelTarget;
use ilblocks::BlockKind;
use ilcode::Word;
use ilsource::Name;
use iltypes::Value;
use ilverify::Known;
use std::alloc::{AllocError, Global};

/// What was found, as a text of notes names it.
#[derive(Clone, Copy)]
pub(crate) enum Found {
    Nothing,
    /// The name of a port of a block.
    Port(BlockKind, usize),
    /// A name of the text.
    Name(Name),
    /// The name of the task of this number.
    Task(usize),
    Number(i64),
    Count(usize),
    Value(Value),
    /// A number of frames in a second, in tenths.
    Tenths(i64),
    Driven(LevelTarget),
    /// The control device with this short address.
    Device(LevelTarget),
    Source { bus: u8, source: u8 },
    /// The frame of an event.
    Event(u32),
    /// A word of a task's code.
    Word(usize, Word),
    Known(Known),
}

/// Where a note stands.
#[derive(Clone, Copy)]
pub(crate) enum NotePlace {
    /// Nowhere by itself: it is on the whole text.
    Whole,
    /// At a name of the text.
    Name(Name),
    /// At the first word of a line of the text, counted from 1.
    Line(usize),
    /// At a line of the scenario, counted from 1.
    Scenario(usize),
}

/// A note: what it says, where it stands, and what was found.
#[derive(Clone, Copy)]
pub(crate) struct Note {
    pub kind: Kind,
    pub place: NotePlace,
    pub found: [Found; 4],
}

/// A note that names so much.
pub(crate) fn note_at(kind: Kind, place: NotePlace, first: Found, second: Found) -> Option<Note>
    ensures { IsSomeAnd result (λ note. (note.kind ≡ kind) × (note.place ≡ place)
        × (slice_get note.found 0 ≡ Some first)) }
{
    note_of(kind, place, [first, second, Found::Nothing, Found::Nothing])
}

/// A note that names all this.
pub(crate) fn note_of(kind: Kind, place: NotePlace, found: [Found; 4]) -> Option<Note>
    ensures { IsSomeAnd result (λ note. (note.kind ≡ kind) × (note.place ≡ place)
        × (note.found ≡ found)) }
{
    Some(Note { kind, place, found })
}

/// A note on a name, and what else it names.
pub(crate) fn note_on(kind: Kind, name: Name, second: Found) -> Option<Note>
    ensures { IsSomeAnd result (λ note. (note.kind ≡ kind) × IsOn name note) }
{
    note_at(kind, NotePlace::Name(name), Found::Name(name), second)
}

/// Whether there was memory for what a rule keeps.
pub(crate) type Added = Result<(), AllocError>;

/// The notes so far, in the order in which they were found.
#[derive(Drop)]
pub(crate) struct Notes {
    pub alloc: Global,
    pub all: Vec<(Rule, Note)>,
    /// Whether a note was left out, since the allocator was out of memory.
    pub is_cut: bool,
}

impl Notes {
    /// Adds a note of a rule, where there is one.
    pub fn add(&mut self, rule: Rule, note: Option<Note>) {
        if let Some(note) = note {
            if self.all.push((rule, note)).is_err() {
                self.is_cut = true;
            }
        }
    }
}
