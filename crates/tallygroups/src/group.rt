//! Nine ledgers side by side: a group.

ghost use Rattle.std.specs.Prelude.{◌≡◌, ◌+◌, ◌-◌, ◌<◌, ◌≤◌, [], length};
ghost use Rattle.std.specs.Prelude.{slice_index, slice_index_or, slice_set};

use crate::names::{LedgerNames, SeatLedger};
use std::marker::Model;
use std::sync::ledger::{Blank, Book, Share};

/// The book of place `K` of a group. Contracts see its total.
pub(crate) struct PlaceTally<N: LedgerNames, const G: usize, const K: usize> {
    book: Book<SeatLedger<N, G, K>>,
}

/// Written out, so that it is proved here alone.
impl<N: LedgerNames, const G: usize, const K: usize> Drop for PlaceTally<N, G, K> {
    fn drop(self) {
        let Self { book: _ } = self;
    }
}

impl<N: LedgerNames, const G: usize, const K: usize> Model for PlaceTally<N, G, K> {
    ghost use Rattle.std.specs.Prelude.{ℕ};

    ghost Value = { ℕ };

    ghost view = { λ b. b.book.total };
}

impl<N: LedgerNames, const G: usize, const K: usize> PlaceTally<N, G, K> {
    /// The book of a new ledger, and its whole share.
    pub(crate) fn open(blank: Blank) -> (PlaceTally<N, G, K>, Share<SeatLedger<N, G, K>>)
        requires name { blank.name ≡ slice_index (slice_index_or N.names G []) K }
        requires parts { blank.parts ≡ 1 }
        ensures total { result.0 ≡ 0 }
        ensures amount { result.1.amount ≡ 0 }
        ensures parts { result.1.parts ≡ 1 }
    {
        let (book, share) = blank.open::<SeatLedger<N, G, K>>();
        (PlaceTally { book }, share)
    }

    /// The whole share has the total.
    fn audit(&mut self, share: &mut Share<SeatLedger<N, G, K>>)
        requires { share.old.parts ≡ 1 }
        ensures same { self.old ≡ share.old.amount }
        ensures total { self.new ≡ self.old }
        ensures amount { share.new.amount ≡ share.old.amount }
        ensures parts { share.new.parts ≡ 1 }
    {
        self.book.audit(share)
    }

    /// The whole share has the total, and both grow by the first number and fall by the second.
    fn add(&mut self, share: &mut Share<SeatLedger<N, G, K>>, by: (u64, u64))
        requires whole { share.old.parts ≡ 1 }
        requires enough { by.1 ≤ share.old.amount }
        ensures same { self.old ≡ share.old.amount }
        ensures total { self.new ≡ share.new.amount }
        ensures amount { share.new.amount + by.1 ≡ share.old.amount + by.0 }
        ensures parts { share.new.parts ≡ 1 }
    {
        self.audit(share);
        self.book.add(share, by.0);
        self.book.sub(share, by.1);
    }
}

/// The totals of a group, as they stand under the lock. Contracts see them.
pub struct GroupLockTallies<N: LedgerNames, const G: usize> {
    pub(crate) b0: PlaceTally<N, G, 0>,
    pub(crate) b1: PlaceTally<N, G, 1>,
    pub(crate) b2: PlaceTally<N, G, 2>,
    pub(crate) b3: PlaceTally<N, G, 3>,
    pub(crate) b4: PlaceTally<N, G, 4>,
    pub(crate) b5: PlaceTally<N, G, 5>,
    pub(crate) b6: PlaceTally<N, G, 6>,
    pub(crate) b7: PlaceTally<N, G, 7>,
    pub(crate) b8: PlaceTally<N, G, 8>,
}

/// Written out, so that it is proved here alone.
impl<N: LedgerNames, const G: usize> Drop for GroupLockTallies<N, G> {
    fn drop(self) {
        let Self {
            b0: _,
            b1: _,
            b2: _,
            b3: _,
            b4: _,
            b5: _,
            b6: _,
            b7: _,
            b8: _,
        } = self;
    }
}

impl<N: LedgerNames, const G: usize> Model for GroupLockTallies<N, G> {
    ghost use Rattle.std.specs.Prelude.{List, ℕ, [], ◌∷◌};

    ghost Value = { List ℕ };

    ghost view = { λ r. r.b0 ∷ r.b1 ∷ r.b2 ∷ r.b3 ∷ r.b4 ∷ r.b5 ∷ r.b6 ∷ r.b7 ∷ r.b8 ∷ [] };
}

/// The whole share of one of the ledgers of a group.
#[derive(Drop)]
pub enum TallyByPlace<N: LedgerNames, const G: usize> {
    H0(Share<SeatLedger<N, G, 0>>),
    H1(Share<SeatLedger<N, G, 1>>),
    H2(Share<SeatLedger<N, G, 2>>),
    H3(Share<SeatLedger<N, G, 3>>),
    H4(Share<SeatLedger<N, G, 4>>),
    H5(Share<SeatLedger<N, G, 5>>),
    H6(Share<SeatLedger<N, G, 6>>),
    H7(Share<SeatLedger<N, G, 7>>),
    H8(Share<SeatLedger<N, G, 8>>),
}

/// The whole share of one of the ledgers of a group. Contracts see its place and its amount.
pub struct GroupThreadTally<N: LedgerNames, const G: usize> {
    pub(crate) by_place: TallyByPlace<N, G>,
}

/// Written out, so that it is proved here alone.
impl<N: LedgerNames, const G: usize> Drop for GroupThreadTally<N, G> {
    fn drop(self) {
        let Self { by_place: _ } = self;
    }
}

impl<N: LedgerNames, const G: usize> Model for GroupThreadTally<N, G> {
    ghost use Rattle.std.specs.Prelude.{ℕ};
    ghost use Rattle.tallygroups.specs.Groups.{place_of, amount_of, IsWhole};

    ghost Value = { ℕ × ℕ };

    ghost view = { λ t. (place_of t.by_place, amount_of t.by_place) };

    ghost invariant = { λ t. IsWhole t.by_place };
}

impl<N: LedgerNames, const G: usize> GroupLockTallies<N, G> {
    /// The two agree, grow by the first number, and fall by the second.
    fn change(&mut self, tally: &mut GroupThreadTally<N, G>, by: (u64, u64))
        requires { by.1 ≤ tally.old.1 }
        ensures same { slice_index self.old tally.old.0 ≡ tally.old.1 }
        ensures below { tally.old.0 < length self.old }
        ensures place { tally.new.0 ≡ tally.old.0 }
        ensures amount { tally.new.1 + by.1 ≡ tally.old.1 + by.0 }
        ensures rows { self.new ≡ slice_set self.old tally.old.0 tally.new.1 }
    {
        match &mut tally.by_place {
            TallyByPlace::H0(share) => {
                self.b0.add(share, by);
            }
            TallyByPlace::H1(share) => {
                self.b1.add(share, by);
            }
            TallyByPlace::H2(share) => {
                self.b2.add(share, by);
            }
            TallyByPlace::H3(share) => {
                self.b3.add(share, by);
            }
            TallyByPlace::H4(share) => {
                self.b4.add(share, by);
            }
            TallyByPlace::H5(share) => {
                self.b5.add(share, by);
            }
            TallyByPlace::H6(share) => {
                self.b6.add(share, by);
            }
            TallyByPlace::H7(share) => {
                self.b7.add(share, by);
            }
            TallyByPlace::H8(share) => {
                self.b8.add(share, by);
            }
        }
    }

    /// The two agree.
    pub fn audit(&mut self, tally: &mut GroupThreadTally<N, G>)
        ensures same { slice_index self.old tally.old.0 ≡ tally.old.1 }
        ensures rows { self.new ≡ self.old }
        ensures tally { tally.new ≡ tally.old }
    {
        self.change(tally, (0, 0))
    }

    /// The two agree, and grow together.
    pub fn add(&mut self, tally: &mut GroupThreadTally<N, G>, by: u64)
        ensures same { slice_index self.old tally.old.0 ≡ tally.old.1 }
        ensures rows { self.new ≡ slice_set self.old tally.old.0 (tally.old.1 + by) }
        ensures tally { tally.new ≡ (tally.old.0, tally.old.1 + by) }
        ensures below { tally.old.0 < length self.old }
    {
        self.change(tally, (by, 0))
    }

    /// The two agree, and fall together.
    pub fn sub(&mut self, tally: &mut GroupThreadTally<N, G>, by: u64)
        requires { by ≤ tally.old.1 }
        ensures same { slice_index self.old tally.old.0 ≡ tally.old.1 }
        ensures rows { self.new ≡ slice_set self.old tally.old.0 (tally.old.1 - by) }
        ensures tally { tally.new ≡ (tally.old.0, tally.old.1 - by) }
        ensures below { tally.old.0 < length self.old }
    {
        self.change(tally, (0, by))
    }
}
