//! Ticks that one line says.

ghost use Rattle.std.specs.Prelude.{◌≡◌, ◌≤◌};
ghost use Rattle.wordlines.specs.TickRows.{row_of, further, moment_at};

use std::marker::Model;

/// Ticks that one line says: from a moment up to another one, each so much later than the one
/// before, in milliseconds. There is one at least.
#[derive(Clone, Copy)]
pub(crate) struct TickRow {
    from: u64,
    to: u64,
    every: u64,
}

impl Model for TickRow {
    ghost use Rattle.wordlines.specs.TickRows.{TickRow as Row, IsTickRow};

    ghost Value = { Row };

    ghost view = { λ row. record { from = row.from; to = row.to; every = row.every } };

    ghost invariant = { λ row. IsTickRow
        (record { from = row.from; to = row.to; every = row.every }) };

    ghost inverse = { λ row. record { from = row.from; to = row.to; every = row.every } };
}

impl TickRow {
    /// The ticks from one moment up to another, where there are any, and time goes on.
    pub(crate) fn new(from: u64, to: u64, every: u64) -> Option<TickRow>
        ensures { result ≡ row_of from to every }
    {
        if from <= to && every > 0 {
            Some(TickRow { from, to, every })
        } else {
            None
        }
    }

    /// The first moment.
    pub(crate) fn first(&self) -> u64
        ensures { result ≡ self.now.from }
    {
        self.from
    }

    /// How many ticks come behind the first.
    pub(crate) fn further(&self) -> u64
        ensures { result ≡ further self.now }
    {
        (self.to - self.from) / self.every
    }

    /// The moment of a tick, by its place from 0.
    pub(crate) fn moment_at(&self, place: u64) -> u64
        requires { place ≤ further self.now }
        ensures { result ≡ moment_at self.now place }
    {
        self.from + place * self.every
    }

    /// The last moment.
    pub(crate) fn last(&self) -> u64
        ensures { result ≡ moment_at self.now (further self.now) }
    {
        self.moment_at(self.further())
    }
}
