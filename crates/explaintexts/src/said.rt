//! What is said of a fault, as small values: rows of texts, words, and places of the asked text.

use explaincures::Advice;
use explainpatterns::{Extent, Likeness};

/// A row of what is said, as one text ([`Advice::of`]).
pub(crate) type Row = &'static str;

/// A row of these parts: what is wrong, what helps, and lines of another text.
macro_rules! advice {
    ($what:literal; $cure:literal; $line:literal) => {
        concat!($what, "|", $cure, "|", $line)
    };
}

pub(crate) use advice;

/// What may be said of a fault: a row, and what stands for the slots of its texts and of a change.
/// Where the row has no lines of another text, it is said only with a change that helps.
#[derive(Clone, Copy)]
pub(crate) struct Said {
    pub row: Advice,
    /// `{0}` to `{5}`: parts of the asked text. `{=}` is the first with `:=` for each `=`.
    pub parts: [Extent; 6],
    /// `{w}` and `{v}`.
    pub words: (&'static str, &'static str),
    /// `{n}` and `{d}`; `{)}` is `)` on as many lines as the second says.
    pub numbers: (u64, u64),
    pub change: Change,
    pub trial: Trial,
}

/// A change that may cure the text.
#[derive(Clone, Copy)]
pub(crate) enum Change {
    Nothing,
    /// A text with slots in place of a part. `{i}` is as many blanks as stand before the part.
    Put(Extent, &'static str),
    /// Without the sign that was found, where nothing stands behind it.
    LeaveOut,
    /// This sign in place of the one that was found.
    Sign(&'static str),
}

/// Up to where the text has to read with a change.
#[derive(Clone, Copy, PartialEq, Eq)]
pub(crate) enum Trial {
    /// To the end of the line.
    Line,
    /// To the end of the next one, where a line does not end what it says: the change may take away
    /// what the next line needs.
    NextLine,
    /// To the end of the next one in any case.
    Behind,
    /// To its end.
    Text,
}

impl Said {
    /// What a row says of a part.
    pub(crate) fn of(row: Row, part: Extent) -> Said {
        Said::told(Advice::of(row), part)
    }

    /// What is said of a part.
    pub(crate) fn told(row: Advice, part: Extent) -> Said {
        Said {
            row,
            parts: [part; 6],
            words: ("", ""),
            numbers: (0, 0),
            change: Change::Nothing,
            trial: Trial::Line,
        }
    }

    /// What a row says of a line that is like a pattern: `{0}` and so on are its slots, `{w}` the
    /// word of its operator.
    pub(crate) fn like(row: Row, like: Likeness) -> Said {
        Said {
            parts: like.parts,
            words: (like.word, ""),
            ..Said::of(row, like.put)
        }
    }

    /// The same, with words.
    pub(crate) fn with_words(self, words: (&'static str, &'static str)) -> Said {
        Said { words, ..self }
    }

    /// The same, with numbers.
    pub(crate) fn with_numbers(self, numbers: (u64, u64)) -> Said {
        Said { numbers, ..self }
    }

    /// The same, with a text in place of a part.
    pub(crate) fn put(self, part: Extent, with: &'static str) -> Said {
        let change = Change::Put(part, with);
        Said { change, ..self }
    }

    /// The same of two parts, with a text in place of another one.
    pub(crate) fn put_parts(self, part: Extent, with: &'static str, parts: [Extent; 2]) -> Said {
        let [first, second] = parts;
        let parts = [first, second, first, second, second, second];
        Said {
            parts,
            ..self.put(part, with)
        }
    }

    /// The same with a change of signs, which may take away what the next line needs.
    pub(crate) fn bold(self, change: Change) -> Said {
        let trial = Trial::NextLine;
        Said {
            change,
            trial,
            ..self
        }
    }
}
