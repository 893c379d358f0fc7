//! What is said of a fault of names, as plain values.

use explaincures::Advice;
use ilsource::Name;

/// A row of what is said, as one text ([`Advice::of`]).
pub(crate) type Row = &'static str;

/// A row of these parts.
macro_rules! advice {
    ($what:literal; $cure:literal; $line:literal) => {
        concat!($what, "|", $cure, "|", $line)
    };
}

pub(crate) use advice;

/// What is said of a fault of names. A sign in braces is a slot of the texts.
#[derive(Clone, Copy)]
pub(crate) struct Said {
    pub row: Advice,
    /// What more is known, in lines.
    pub facts: &'static str,
    /// What stands for `{0}` to `{2}`.
    pub slots: [Slot; 3],
    /// The place of which `{l}` is the line's number, and `{g}` the line with its number.
    pub at: usize,
    pub change: Change,
}

/// What stands in a text in place of a slot.
#[derive(Clone, Copy)]
pub(crate) enum Slot {
    Nothing,
    Word(&'static str),
    Bytes(&'static [u8]),
    Number(u64),
    /// A number that a declaration has.
    Limit(i64),
    /// These bytes of the text.
    Part(usize, usize),
    /// The bus and the number of a source.
    Source(u64, u64),
    /// The line of this number, behind its number.
    Line(u64),
}

/// What may cure a fault; it is shown where it does.
#[derive(Clone, Copy)]
pub(crate) enum Change {
    Nothing,
    /// Another word, or a name of the text, that is near to what was found.
    Near,
    /// This text, which has slots too, in place of the bytes from one place to another.
    Put(usize, usize, &'static str),
    /// The address of a source of the binding: the word of the first slot, and the number that is
    /// added to the source's own.
    Source(u64),
}

impl Slot {
    /// A name of the text.
    pub(crate) fn of(name: Name) -> Slot {
        Slot::Part(name.from, name.to)
    }
}

impl Said {
    /// What a row says, and nothing else.
    pub(crate) fn of(row: Row) -> Said {
        Said {
            row: Advice::of(row),
            facts: "",
            slots: [Slot::Nothing; 3],
            at: 0,
            change: Change::Nothing,
        }
    }

    /// The same, with what stands for the slots.
    pub(crate) fn with_slots(self, slots: [Slot; 3]) -> Said {
        Said { slots, ..self }
    }

    /// The same, with more that is known, of a place.
    pub(crate) fn with_facts(self, facts: &'static str, at: usize) -> Said {
        Said { facts, at, ..self }
    }

    /// The same, with what may cure the fault.
    pub(crate) fn with_change(self, change: Change) -> Said {
        Said { change, ..self }
    }

    /// The same, with a text in place of the bytes from one place to another, and what stands for
    /// each slot.
    pub(crate) fn put(self, from: usize, to: usize, with: &'static str, slot: Slot) -> Said {
        let change = Change::Put(from, to, with);
        Said {
            change,
            slots: [slot; 3],
            ..self
        }
    }
}

/// What stands before the first `|` of a row, and what stands behind it.
pub(crate) fn parted(row: Row) -> (Row, Row) {
    row.split_once('|').unwrap_or((row, ""))
}
