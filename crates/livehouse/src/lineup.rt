//! Which line each bus has.

ghost use Rattle.std.specs.Prelude.{◌<◌, ℕ, IfErr, MatchOption, OnOk};
ghost use Rattle.std.specs.List.{Contains};
ghost use Rattle.livehouse.specs.Lineups.{AreKnown, AreLinesOf, HasLine, HasNoLine, IsLineFor};
ghost use Rattle.livehouse.specs.Lineups.{IsLineupFault};

use commandoptions::LineWord;
use std::fmt;

/// Why the words of `--line` are not the lines of a plant's buses.
#[derive(Clone, Copy, PartialEq, Eq, Debug)]
pub enum LineupFault {
    /// A word names this bus, which is not in the binding.
    Unknown { bus: u8 },
    /// No word names this bus of the binding.
    Missing { bus: u8 },
}

impl fmt::Display for LineupFault {
    fn fmt<W: fmt::Write>(&self, f: &mut fmt::Formatter<W>) -> fmt::Result {
        match self {
            LineupFault::Unknown { bus } => write!(f, "bus {bus} of --line is not in the binding"),
            LineupFault::Missing { bus } => write!(f, "bus {bus} has no --line"),
        }
    }
}

/// The word for a bus: the first that names it.
pub(crate) fn line_for<'l, 'a>(words: &'l [LineWord<'a>], bus: u8) -> Option<&'l LineWord<'a>>
    ensures { MatchOption result (HasNoLine bus words.now)
        (λ word. IsLineFor bus words.now word.now) }
{
    words.iter().find(|word| word.bus == bus)
}

/// The first word that names none of the given number of buses.
fn unknown_in<'l, 'a>(words: &'l [LineWord<'a>], buses: u8) -> Option<&'l LineWord<'a>>
    ensures { MatchOption result (AreKnown buses words.now)
        (λ word. Contains words.now word.now × ¬ (word.now.bus < buses)) }
{
    words.iter().find(|word| word.bus >= buses)
}

/// The first of the given number of buses that no word names.
fn missing_in(words: &[LineWord], buses: u8) -> Option<u8>
    ensures { MatchOption result ((bus : ℕ) → bus < buses → HasLine bus words.now)
        (λ bus. (bus < buses) × HasNoLine bus words.now) }
{
    for bus in 0..buses {
        let Some(_line) = line_for(words, bus) else {
            return Some(bus);
        };
    }
    None
}

/// Whether the words are the lines of the given number of buses: each bus has one, and there is
/// none of another.
///
/// # Errors
///
/// The first word that names no bus of these; else the first bus that has none.
pub(crate) fn check_lines(words: &[LineWord], buses: u8) -> Result<(), LineupFault>
    ensures lines { OnOk result (AreLinesOf buses words.now) }
    ensures fault { IfErr result (IsLineupFault buses words.now) }
{
    if let Some(word) = unknown_in(words, buses) {
        return Err(LineupFault::Unknown { bus: word.bus });
    }
    match missing_in(words, buses) {
        Some(bus) => Err(LineupFault::Missing { bus }),
        None => Ok(()),
    }
}
