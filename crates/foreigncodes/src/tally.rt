//! How many files had which end.

use ilcodefile::FileCause;
use std::fmt;

/// What became of bytes.
#[derive(Clone, Copy)]
pub(crate) enum Ending {
    /// They are no code file.
    Faulty(FileCause),
    /// Their code is refused.
    Refused,
    /// Their code is accepted, and was scanned.
    Scanned,
    /// The code that was read of them has other bytes, or a scan exceeded its bound or left a value
    /// outside its type.
    Wrong,
}

/// How many files had which end.
#[derive(Clone, Copy, Default)]
pub(crate) struct Tally {
    magic: u64,
    cut: u64,
    trailing: u64,
    bad_field: u64,
    too_many: u64,
    refused: u64,
    scanned: u64,
    wrong: u64,
}

impl Tally {
    /// Counts one more.
    pub(crate) fn count(&mut self, ending: Ending) {
        let number = match ending {
            Ending::Faulty(FileCause::Magic) => &mut self.magic,
            Ending::Faulty(FileCause::Cut) => &mut self.cut,
            Ending::Faulty(FileCause::Trailing) => &mut self.trailing,
            Ending::Faulty(FileCause::BadField) => &mut self.bad_field,
            Ending::Faulty(FileCause::TooMany) => &mut self.too_many,
            Ending::Refused => &mut self.refused,
            Ending::Scanned => &mut self.scanned,
            Ending::Wrong => &mut self.wrong,
        };
        *number = number.saturating_add(1);
    }

    /// Whether none was wrong.
    pub(crate) fn is_good(&self) -> bool {
        self.wrong == 0
    }
}

impl fmt::Display for Tally {
    fn fmt<W: fmt::Write>(&self, f: &mut fmt::Formatter<W>) -> fmt::Result {
        write!(
            f,
            "magic {}, cut {}, trailing {}, bad field {}, too many {}, ",
            self.magic, self.cut, self.trailing, self.bad_field, self.too_many
        )?;
        write!(
            f,
            "refused {}, scanned {}, wrong {}",
            self.refused, self.scanned, self.wrong
        )
    }
}

/// What became of the files of a version.
#[derive(Clone, Copy)]
pub(crate) struct Ends {
    /// Of the fronts of a worked file.
    pub(crate) fronts: Tally,
    /// Of the worked file with each single bit changed.
    pub(crate) changed: Tally,
    /// Of random files.
    pub(crate) random: Tally,
}

impl Ends {
    /// Whether none was wrong.
    pub(crate) fn are_good(&self) -> bool {
        self.fronts.is_good() && self.changed.is_good() && self.random.is_good()
    }
}

impl fmt::Display for Ends {
    fn fmt<W: fmt::Write>(&self, f: &mut fmt::Formatter<W>) -> fmt::Result {
        writeln!(f, "fronts: {}", self.fronts)?;
        writeln!(f, "changed bits: {}", self.changed)?;
        write!(f, "random: {}", self.random)
    }
}
