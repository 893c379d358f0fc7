//! Nine groups side by side: 81 ledgers.

ghost use Rattle.std.specs.Prelude.{◌≡◌, ◌+◌, ◌<◌, ◌≤◌, [], length};
ghost use Rattle.std.specs.Prelude.{slice_index, slice_set, slice_index_or};
ghost use Rattle.planttallies.specs.SeatTallies.{number};

use crate::tallies::{Tallies, Tally};
use std::marker::Model;
use tallygroups::{GroupLockTallies, GroupThreadTally, LedgerNames};

/// The number of each seat, as it stands under the lock. Contracts see them, by groups of nine.
pub struct LockTallies<N: LedgerNames> {
    pub(crate) g0: GroupLockTallies<N, 0>,
    pub(crate) g1: GroupLockTallies<N, 1>,
    pub(crate) g2: GroupLockTallies<N, 2>,
    pub(crate) g3: GroupLockTallies<N, 3>,
    pub(crate) g4: GroupLockTallies<N, 4>,
    pub(crate) g5: GroupLockTallies<N, 5>,
    pub(crate) g6: GroupLockTallies<N, 6>,
    pub(crate) g7: GroupLockTallies<N, 7>,
    pub(crate) g8: GroupLockTallies<N, 8>,
}

/// Written out, so that it is proved here alone.
impl<N: LedgerNames> Drop for LockTallies<N> {
    fn drop(self) {
        let Self {
            g0: _,
            g1: _,
            g2: _,
            g3: _,
            g4: _,
            g5: _,
            g6: _,
            g7: _,
            g8: _,
        } = self;
    }
}

impl<N: LedgerNames> Model for LockTallies<N> {
    ghost use Rattle.std.specs.Prelude.{List, ℕ, [], ◌∷◌};

    ghost Value = { List (List ℕ) };

    ghost view = { λ r. r.g0 ∷ r.g1 ∷ r.g2 ∷ r.g3 ∷ r.g4 ∷ r.g5 ∷ r.g6 ∷ r.g7 ∷ r.g8 ∷ [] };
}

/// The tally of a seat, by the group that it is of.
#[derive(Drop)]
pub enum TallyByGroup<N: LedgerNames> {
    G0(GroupThreadTally<N, 0>),
    G1(GroupThreadTally<N, 1>),
    G2(GroupThreadTally<N, 2>),
    G3(GroupThreadTally<N, 3>),
    G4(GroupThreadTally<N, 4>),
    G5(GroupThreadTally<N, 5>),
    G6(GroupThreadTally<N, 6>),
    G7(GroupThreadTally<N, 7>),
    G8(GroupThreadTally<N, 8>),
}

/// The number of one seat, as it stands in a thread: the whole share of its ledger. Contracts see
/// the seat and the amount.
pub struct ThreadTally<N: LedgerNames> {
    pub(crate) by_group: TallyByGroup<N>,
}

/// Written out, so that it is proved here alone.
impl<N: LedgerNames> Drop for ThreadTally<N> {
    fn drop(self) {
        let Self { by_group: _ } = self;
    }
}

impl<N: LedgerNames> Model for ThreadTally<N> {
    ghost use Rattle.planttallies.specs.SeatTallies.{SeatAmount, seat_amount_of};

    ghost Value = { SeatAmount };

    ghost view = { λ t. seat_amount_of t.by_group };
}

impl<N: LedgerNames> Tally for ThreadTally<N> {
    ghost seat = { λ t. t.seat };

    ghost amount = { λ t. t.amount };
}

/// The two agree, grow by the first number, and fall by the second.
fn change_place<N: LedgerNames, const G: usize>(
    tallies: &mut GroupLockTallies<N, G>,
    tally: &mut GroupThreadTally<N, G>,
    by: (u64, u64),
)
    requires { by.1 ≤ tally.old.1 }
    ensures same { slice_index tallies.old tally.old.0 ≡ tally.old.1 }
    ensures below { tally.old.0 < length tallies.old }
    ensures place { tally.new.0 ≡ tally.old.0 }
    ensures amount { tally.new.1 + by.1 ≡ tally.old.1 + by.0 }
    ensures rows { tallies.new ≡ slice_set tallies.old tally.old.0 tally.new.1 }
{
    tallies.add(tally, by.0);
    tallies.sub(tally, by.1);
}

impl<N: LedgerNames> LockTallies<N> {
    /// The two agree, grow by the first number, and fall by the second.
    fn change(&mut self, tally: &mut ThreadTally<N>, by: (u64, u64))
        requires { by.1 ≤ tally.old.amount }
        ensures same { number self.old tally.old.seat ≡ tally.old.amount }
        ensures group { tally.old.seat.0 < length self.old }
        ensures place { tally.old.seat.1 < length (slice_index_or self.old tally.old.seat.0 []) }
        ensures seat { tally.new.seat ≡ tally.old.seat }
        ensures amount { tally.new.amount + by.1 ≡ tally.old.amount + by.0 }
        ensures rows { self.new ≡ slice_set self.old tally.old.seat.0
            (slice_set (slice_index_or self.old tally.old.seat.0 []) tally.old.seat.1
            tally.new.amount) }
    {
        match &mut tally.by_group {
            TallyByGroup::G0(tally) => change_place(&mut self.g0, tally, by),
            TallyByGroup::G1(tally) => change_place(&mut self.g1, tally, by),
            TallyByGroup::G2(tally) => change_place(&mut self.g2, tally, by),
            TallyByGroup::G3(tally) => change_place(&mut self.g3, tally, by),
            TallyByGroup::G4(tally) => change_place(&mut self.g4, tally, by),
            TallyByGroup::G5(tally) => change_place(&mut self.g5, tally, by),
            TallyByGroup::G6(tally) => change_place(&mut self.g6, tally, by),
            TallyByGroup::G7(tally) => change_place(&mut self.g7, tally, by),
            TallyByGroup::G8(tally) => change_place(&mut self.g8, tally, by),
        }
    }
}

impl<N: LedgerNames> Tallies<ThreadTally<N>> for LockTallies<N> {
    ghost number = { number };

    fn audit(&mut self, tally: &mut ThreadTally<N>) {
        self.change(tally, (0, 0))
    }

    fn add(&mut self, tally: &mut ThreadTally<N>, by: u64) {
        self.change(tally, (by, 0))
    }

    fn sub(&mut self, tally: &mut ThreadTally<N>, by: u64) {
        self.change(tally, (0, by))
    }
}
