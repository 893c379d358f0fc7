//! Moments as they are printed.

use std::fmt;
use std::fmt::Write;

/// A moment, in milliseconds: `0s`, `2.5s`, `1m30s`, `8h`.
#[derive(Clone, Copy)]
pub struct Moment {
    pub milliseconds: u64,
}

impl fmt::Display for Moment {
    fn fmt<W: fmt::Write>(&self, f: &mut fmt::Formatter<W>) -> fmt::Result {
        let (hours, minutes) = (
            self.milliseconds / 3_600_000,
            self.milliseconds / 60_000 % 60,
        );
        let (seconds, rest) = (self.milliseconds / 1000 % 60, self.milliseconds % 1000);
        let (fraction, digits) = match (rest % 10, rest % 100) {
            (0, 0) => (rest / 100, 1),
            (0, _) => (rest / 10, 2),
            _ => (rest, 3),
        };
        if hours > 0 {
            write!(f, "{hours}h")?;
        }
        if minutes > 0 {
            write!(f, "{minutes}m")?;
        }
        if rest > 0 {
            write!(f, "{seconds}.{fraction:0digits$}s")
        } else if seconds > 0 || self.milliseconds == 0 {
            write!(f, "{seconds}s")
        } else {
            Ok(())
        }
    }
}

/// How many characters it takes to print this.
pub(crate) fn width_of<D: fmt::Display>(shown: &D) -> usize {
    let mut counter = Counter { letters: 0 };
    let _ = write!(counter, "{shown}");
    counter.letters
}

/// Counts the characters of what is written.
#[derive(Drop)]
struct Counter {
    letters: usize,
}

impl fmt::Write for Counter {
    fn write_str(&mut self, text: &str) -> fmt::Result {
        self.letters = self.letters.saturating_add(text.chars().count());
        Ok(())
    }
}
