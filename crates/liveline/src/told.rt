//! What was told of a line.

ghost use Rattle.std.specs.Prelude.{◌≡◌, ◌≢◌, ◌+◌, ◌<◌, ◌↔◌, IsFalse, IsSome, IsTrue, None, Some, min};
ghost use Rattle.std.specs.Prelude.{true};
ghost use Rattle.liveline.specs.Tellings.{is_in_minute, lines_in, most_lines};

use crate::budget::millis_between;
use crate::reasons::ReasonKind;
use std::time::Instant;

/// In a minute in which so many lines were told it is not told that the line is down. So there are
/// seven at most, since that it is up is always told behind that. A line that is down is told of in
/// the next minute.
const MOST_LINES: u8 = 6;

/// The milliseconds of that minute.
const MINUTE: u64 = 60_000;

/// What was told of a line.
#[derive(Drop)]
pub(crate) struct Told {
    /// Why it is down, as that was told last, where it was not told since that it is up.
    pub(crate) last: Option<ReasonKind>,
    /// When the minute began, with the first line that was told in it.
    pub(crate) minute: Option<Instant>,
    /// How many lines were told in it.
    pub(crate) lines: u8,
}

impl Told {
    /// Nothing was told.
    pub(crate) fn nothing() -> Told
        ensures { (result.last ≡ None) × (result.minute ≡ None) × (result.lines ≡ 0) }
    {
        Told {
            last: None,
            minute: None,
            lines: 0,
        }
    }

    /// Whether it is told at this moment that the line is down for such a reason: where that was not
    /// told last, and not too much was told in this minute. It counts as told then.
    pub(crate) fn takes_down(&mut self, kind: ReasonKind, now: Instant) -> bool
        ensures when { IsTrue result ↔ ((self.old.last ≢ Some kind)
            × (lines_in self.old now < most_lines)) }
        ensures told { IsTrue result → (self.new.last ≡ Some kind)
            × (lines_in self.new now ≡ lines_in self.old now + 1) }
        ensures not_told { IsFalse result → (self.new.last ≡ self.old.last)
            × (lines_in self.new now ≡ lines_in self.old now) }
    {
        if is_same(self.last, kind) {
            return false;
        }
        self.turn_minute(now);
        if self.lines >= MOST_LINES {
            return false;
        }
        self.lines += 1;
        self.last = Some(kind);
        true
    }

    /// Begins another minute, where the one of before is over at this moment.
    fn turn_minute(&mut self, now: Instant)
        ensures minute { is_in_minute self.new.minute now ≡ true }
        ensures lines { self.new.lines ≡ lines_in self.old now }
        ensures last { self.new.last ≡ self.old.last }
    {
        if !is_in_minute(self.minute, now) {
            self.minute = Some(now);
            self.lines = 0;
        }
    }

    /// Whether it is told that the line is up: where it was told last that it is down. It counts as
    /// told then, in the minute that there is.
    pub(crate) fn takes_up(&mut self) -> bool
        ensures when { IsTrue result ↔ IsSome self.old.last }
        ensures last { self.new.last ≡ None }
        ensures minute { self.new.minute ≡ self.old.minute }
        ensures counted { IsTrue result → self.new.lines ≡ min (self.old.lines + 1) 255 }
        ensures not_counted { IsFalse result → self.new.lines ≡ self.old.lines }
    {
        let was_told = self.last.is_some();
        if was_told {
            self.lines = self.lines.saturating_add(1);
        }
        self.last = None;
        was_told
    }
}

/// Whether the reason that was told last is of this kind.
fn is_same(last: Option<ReasonKind>, kind: ReasonKind) -> bool
    ensures { IsTrue result ↔ (last ≡ Some kind) }
{
    match last {
        Some(last) => last == kind,
        None => false,
    }
}

/// Whether the moment is in the minute that began then, where one began.
fn is_in_minute(began: Option<Instant>, now: Instant) -> bool
    ensures { result ≡ is_in_minute began now }
{
    match began {
        Some(began) => millis_between(began, now) < MINUTE,
        None => false,
    }
}
