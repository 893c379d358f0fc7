//! Ledgers that no type stands for yet.

ghost use Rattle.std.specs.Prelude.{◌≡◌, [], slice_index_or};
ghost use Rattle.tallygroups.specs.Openings.{no_amounts, each_place};
ghost use Rattle.tallygroups.specs.GroupThreadTallies.{tallies_of};

use crate::group::{GroupLockTallies, GroupThreadTally, PlaceTally, TallyByPlace};
use crate::names::LedgerNames;
use std::marker::Model;
use std::sync::ledger::Blank;

/// A new ledger for each place of a group. Contracts see their names.
pub struct NewGroupTallies {
    b0: Blank,
    b1: Blank,
    b2: Blank,
    b3: Blank,
    b4: Blank,
    b5: Blank,
    b6: Blank,
    b7: Blank,
    b8: Blank,
}

/// Written out, so that it is proved here alone.
impl Drop for NewGroupTallies {
    fn drop(self) {
        let Self {
            b0: _,
            b1: _,
            b2: _,
            b3: _,
            b4: _,
            b5: _,
            b6: _,
            b7: _,
            b8: _,
        } = self;
    }
}

impl Model for NewGroupTallies {
    ghost use Rattle.std.specs.Prelude.{List, ℕ, [], ◌∷◌, ◌≡◌};

    ghost Value = { List ℕ };

    ghost view = { λ b.
        b.b0.name ∷ b.b1.name ∷ b.b2.name ∷ b.b3.name ∷ b.b4.name ∷ b.b5.name ∷ b.b6.name
        ∷ b.b7.name ∷ b.b8.name ∷ [] };

    ghost invariant = { λ b.
        (b.b0.parts ≡ 1) × (b.b1.parts ≡ 1) × (b.b2.parts ≡ 1) × (b.b3.parts ≡ 1)
        × (b.b4.parts ≡ 1) × (b.b5.parts ≡ 1) × (b.b6.parts ≡ 1) × (b.b7.parts ≡ 1)
        × (b.b8.parts ≡ 1) };
}

/// The tally of each place of a group.
#[derive(Drop)]
pub struct GroupThreadTallies<N: LedgerNames, const G: usize> {
    /// The tally of place 0.
    pub t0: GroupThreadTally<N, G>,
    /// The tally of place 1.
    pub t1: GroupThreadTally<N, G>,
    /// The tally of place 2.
    pub t2: GroupThreadTally<N, G>,
    /// The tally of place 3.
    pub t3: GroupThreadTally<N, G>,
    /// The tally of place 4.
    pub t4: GroupThreadTally<N, G>,
    /// The tally of place 5.
    pub t5: GroupThreadTally<N, G>,
    /// The tally of place 6.
    pub t6: GroupThreadTally<N, G>,
    /// The tally of place 7.
    pub t7: GroupThreadTally<N, G>,
    /// The tally of place 8.
    pub t8: GroupThreadTally<N, G>,
}

impl NewGroupTallies {
    /// Nine new ledgers.
    pub fn new() -> NewGroupTallies {
        NewGroupTallies {
            b0: Blank::new(1),
            b1: Blank::new(1),
            b2: Blank::new(1),
            b3: Blank::new(1),
            b4: Blank::new(1),
            b5: Blank::new(1),
            b6: Blank::new(1),
            b7: Blank::new(1),
            b8: Blank::new(1),
        }
    }

    /// Opens the ledgers of group `G`: the lock's totals, with no amounts, and the tally of each
    /// place.
    pub fn open<N: LedgerNames, const G: usize>(
        self,
    ) -> (GroupLockTallies<N, G>, GroupThreadTallies<N, G>)
        requires { self ≡ slice_index_or N.names G [] }
        ensures tallies { result.0 ≡ no_amounts }
        ensures thread_tallies { tallies_of result.1 ≡ each_place }
    {
        let NewGroupTallies {
            b0,
            b1,
            b2,
            b3,
            b4,
            b5,
            b6,
            b7,
            b8,
        } = self;
        let (b0, h0) = PlaceTally::<N, G, 0>::open(b0);
        let (b1, h1) = PlaceTally::<N, G, 1>::open(b1);
        let (b2, h2) = PlaceTally::<N, G, 2>::open(b2);
        let (b3, h3) = PlaceTally::<N, G, 3>::open(b3);
        let (b4, h4) = PlaceTally::<N, G, 4>::open(b4);
        let (b5, h5) = PlaceTally::<N, G, 5>::open(b5);
        let (b6, h6) = PlaceTally::<N, G, 6>::open(b6);
        let (b7, h7) = PlaceTally::<N, G, 7>::open(b7);
        let (b8, h8) = PlaceTally::<N, G, 8>::open(b8);
        let tallies = GroupLockTallies {
            b0,
            b1,
            b2,
            b3,
            b4,
            b5,
            b6,
            b7,
            b8,
        };
        let thread_tallies = GroupThreadTallies {
            t0: GroupThreadTally {
                by_place: TallyByPlace::H0(h0),
            },
            t1: GroupThreadTally {
                by_place: TallyByPlace::H1(h1),
            },
            t2: GroupThreadTally {
                by_place: TallyByPlace::H2(h2),
            },
            t3: GroupThreadTally {
                by_place: TallyByPlace::H3(h3),
            },
            t4: GroupThreadTally {
                by_place: TallyByPlace::H4(h4),
            },
            t5: GroupThreadTally {
                by_place: TallyByPlace::H5(h5),
            },
            t6: GroupThreadTally {
                by_place: TallyByPlace::H6(h6),
            },
            t7: GroupThreadTally {
                by_place: TallyByPlace::H7(h7),
            },
            t8: GroupThreadTally {
                by_place: TallyByPlace::H8(h8),
            },
        };
        (tallies, thread_tallies)
    }
}
