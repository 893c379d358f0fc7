//! Opening: the lock's tallies without amounts, and the thread's tally of each seat.

ghost use Rattle.std.specs.Prelude.{◌≡◌, ℕ, ◌+◌, ◌≤◌, [], ◌∷◌, ◌++◌, IfOk, map};
ghost use Rattle.std.specs.Prelude.{slice_index_or, vec_capacity, vec_len};
ghost use Rattle.std.specs.List.{range_with_len};
ghost use Rattle.limits.specs.Limits.{most_seats};
ghost use Rattle.tallygroups.specs.Openings.{no_amounts};
ghost use Rattle.planttallies.specs.SeatTallies.{SeatAmount, number, seat_amount_of};
ghost use Rattle.planttallies.specs.Openings.{fresh, fresh_group};

use crate::all_groups::{LockTallies, TallyByGroup, ThreadTally};
use limits::MOST_SEATS;
use std::alloc::{AllocError, Global};
use std::marker::Model;
use tallygroups::{
    GroupLockTallies, GroupThreadTallies, GroupThreadTally, LedgerNames, NewGroupTallies,
};

/// A new ledger for each seat. Contracts see their names, by groups of nine.
pub struct NewTallies {
    g0: NewGroupTallies,
    g1: NewGroupTallies,
    g2: NewGroupTallies,
    g3: NewGroupTallies,
    g4: NewGroupTallies,
    g5: NewGroupTallies,
    g6: NewGroupTallies,
    g7: NewGroupTallies,
    g8: NewGroupTallies,
}

/// Written out, so that it is proved here alone.
impl Drop for NewTallies {
    fn drop(self) {
        let Self {
            g0: _,
            g1: _,
            g2: _,
            g3: _,
            g4: _,
            g5: _,
            g6: _,
            g7: _,
            g8: _,
        } = self;
    }
}

impl Model for NewTallies {
    ghost use Rattle.std.specs.Prelude.{List, ℕ, [], ◌∷◌};

    ghost Value = { List (List ℕ) };

    ghost view = { λ b. b.g0 ∷ b.g1 ∷ b.g2 ∷ b.g3 ∷ b.g4 ∷ b.g5 ∷ b.g6 ∷ b.g7 ∷ b.g8 ∷ [] };
}

/// The form that `TallyByGroup` has for a group, so that what is done for one group stands once.
trait OfGroup<N: LedgerNames, X> {
    ghost seat_amount: { X → SeatAmount };

    /// The tally, as one of this group.
    fn by_group(tally: X) -> TallyByGroup<N>
        ensures { seat_amount_of result ≡ seat_amount tally };
}

impl<N: LedgerNames> OfGroup<N, GroupThreadTally<N, 0>> for TallyByGroup<N> {
    ghost seat_amount = { λ t. record { seat = (0, t.0); amount = t.1 } };

    fn by_group(tally: GroupThreadTally<N, 0>) -> TallyByGroup<N>
        ensures { seat_amount_of result ≡ record { seat = (0, tally.0); amount = tally.1 } }
    {
        TallyByGroup::G0(tally)
    }
}

impl<N: LedgerNames> OfGroup<N, GroupThreadTally<N, 1>> for TallyByGroup<N> {
    ghost seat_amount = { λ t. record { seat = (1, t.0); amount = t.1 } };

    fn by_group(tally: GroupThreadTally<N, 1>) -> TallyByGroup<N>
        ensures { seat_amount_of result ≡ record { seat = (1, tally.0); amount = tally.1 } }
    {
        TallyByGroup::G1(tally)
    }
}

impl<N: LedgerNames> OfGroup<N, GroupThreadTally<N, 2>> for TallyByGroup<N> {
    ghost seat_amount = { λ t. record { seat = (2, t.0); amount = t.1 } };

    fn by_group(tally: GroupThreadTally<N, 2>) -> TallyByGroup<N>
        ensures { seat_amount_of result ≡ record { seat = (2, tally.0); amount = tally.1 } }
    {
        TallyByGroup::G2(tally)
    }
}

impl<N: LedgerNames> OfGroup<N, GroupThreadTally<N, 3>> for TallyByGroup<N> {
    ghost seat_amount = { λ t. record { seat = (3, t.0); amount = t.1 } };

    fn by_group(tally: GroupThreadTally<N, 3>) -> TallyByGroup<N>
        ensures { seat_amount_of result ≡ record { seat = (3, tally.0); amount = tally.1 } }
    {
        TallyByGroup::G3(tally)
    }
}

impl<N: LedgerNames> OfGroup<N, GroupThreadTally<N, 4>> for TallyByGroup<N> {
    ghost seat_amount = { λ t. record { seat = (4, t.0); amount = t.1 } };

    fn by_group(tally: GroupThreadTally<N, 4>) -> TallyByGroup<N>
        ensures { seat_amount_of result ≡ record { seat = (4, tally.0); amount = tally.1 } }
    {
        TallyByGroup::G4(tally)
    }
}

impl<N: LedgerNames> OfGroup<N, GroupThreadTally<N, 5>> for TallyByGroup<N> {
    ghost seat_amount = { λ t. record { seat = (5, t.0); amount = t.1 } };

    fn by_group(tally: GroupThreadTally<N, 5>) -> TallyByGroup<N>
        ensures { seat_amount_of result ≡ record { seat = (5, tally.0); amount = tally.1 } }
    {
        TallyByGroup::G5(tally)
    }
}

impl<N: LedgerNames> OfGroup<N, GroupThreadTally<N, 6>> for TallyByGroup<N> {
    ghost seat_amount = { λ t. record { seat = (6, t.0); amount = t.1 } };

    fn by_group(tally: GroupThreadTally<N, 6>) -> TallyByGroup<N>
        ensures { seat_amount_of result ≡ record { seat = (6, tally.0); amount = tally.1 } }
    {
        TallyByGroup::G6(tally)
    }
}

impl<N: LedgerNames> OfGroup<N, GroupThreadTally<N, 7>> for TallyByGroup<N> {
    ghost seat_amount = { λ t. record { seat = (7, t.0); amount = t.1 } };

    fn by_group(tally: GroupThreadTally<N, 7>) -> TallyByGroup<N>
        ensures { seat_amount_of result ≡ record { seat = (7, tally.0); amount = tally.1 } }
    {
        TallyByGroup::G7(tally)
    }
}

impl<N: LedgerNames> OfGroup<N, GroupThreadTally<N, 8>> for TallyByGroup<N> {
    ghost seat_amount = { λ t. record { seat = (8, t.0); amount = t.1 } };

    fn by_group(tally: GroupThreadTally<N, 8>) -> TallyByGroup<N>
        ensures { seat_amount_of result ≡ record { seat = (8, tally.0); amount = tally.1 } }
    {
        TallyByGroup::G8(tally)
    }
}

/// Puts the tally of a seat after those that are there.
fn put<N: LedgerNames, X, H: OfGroup<N, X>>(thread_tallies: &mut Vec<ThreadTally<N>>, tally: X)
    requires { vec_len thread_tallies.old + 1 ≤ vec_capacity thread_tallies.old }
    ensures thread_tallies { thread_tallies.new.items
        ≡ thread_tallies.old.items ++ H.seat_amount tally ∷ [] }
    ensures len { vec_len thread_tallies.new ≡ vec_len thread_tallies.old + 1 }
    ensures capacity { vec_capacity thread_tallies.new ≡ vec_capacity thread_tallies.old }
{
    thread_tallies.push_reserved(ThreadTally {
        by_group: H::by_group(tally),
    });
}

/// Opens a group.
fn open_group<N: LedgerNames, const G: usize, H: OfGroup<N, GroupThreadTally<N, G>>>(
    new_tallies: NewGroupTallies,
    thread_tallies: &mut Vec<ThreadTally<N>>,
) -> GroupLockTallies<N, G>
    requires names { new_tallies ≡ slice_index_or N.names G [] }
    requires room { vec_len thread_tallies.old + 9 ≤ vec_capacity thread_tallies.old }
    requires seats { (t : ℕ × ℕ) → H.seat_amount t ≡ record { seat = (G, t.0); amount = t.1 } }
    ensures tallies { result ≡ no_amounts }
    ensures thread_tallies { thread_tallies.new.items ≡ thread_tallies.old.items ++ fresh_group G }
    ensures len { vec_len thread_tallies.new ≡ vec_len thread_tallies.old + 9 }
    ensures capacity { vec_capacity thread_tallies.new ≡ vec_capacity thread_tallies.old }
{
    let (
        tallies,
        GroupThreadTallies {
            t0,
            t1,
            t2,
            t3,
            t4,
            t5,
            t6,
            t7,
            t8,
        },
    ) = new_tallies.open::<N, G>();
    put::<N, GroupThreadTally<N, G>, H>(thread_tallies, t0);
    put::<N, GroupThreadTally<N, G>, H>(thread_tallies, t1);
    put::<N, GroupThreadTally<N, G>, H>(thread_tallies, t2);
    put::<N, GroupThreadTally<N, G>, H>(thread_tallies, t3);
    put::<N, GroupThreadTally<N, G>, H>(thread_tallies, t4);
    put::<N, GroupThreadTally<N, G>, H>(thread_tallies, t5);
    put::<N, GroupThreadTally<N, G>, H>(thread_tallies, t6);
    put::<N, GroupThreadTally<N, G>, H>(thread_tallies, t7);
    put::<N, GroupThreadTally<N, G>, H>(thread_tallies, t8);
    tallies
}

impl NewTallies {
    /// New ledgers for all seats.
    pub fn new() -> NewTallies {
        NewTallies {
            g0: NewGroupTallies::new(),
            g1: NewGroupTallies::new(),
            g2: NewGroupTallies::new(),
            g3: NewGroupTallies::new(),
            g4: NewGroupTallies::new(),
            g5: NewGroupTallies::new(),
            g6: NewGroupTallies::new(),
            g7: NewGroupTallies::new(),
            g8: NewGroupTallies::new(),
        }
    }

    /// Opens them: the lock has no amount at any seat, and there is the thread's tally of each seat
    /// in turn.
    pub fn open<N: LedgerNames>(
        self,
        alloc: Global,
    ) -> Result<(LockTallies<N>, Vec<ThreadTally<N>>), AllocError>
        requires { self ≡ N.names }
        ensures tallies { IfOk result (λ r. (seat : ℕ × ℕ) → number r.0 seat ≡ 0) }
        ensures thread_tallies { IfOk result
            (λ r. r.1.items ≡ map fresh (range_with_len 0 most_seats)) }
    {
        let mut thread_tallies = Vec::new(alloc);
        thread_tallies.reserve(MOST_SEATS)?;
        let NewTallies {
            g0,
            g1,
            g2,
            g3,
            g4,
            g5,
            g6,
            g7,
            g8,
        } = self;
        let tallies = LockTallies {
            g0: open_group::<N, 0, TallyByGroup<N>>(g0, &mut thread_tallies),
            g1: open_group::<N, 1, TallyByGroup<N>>(g1, &mut thread_tallies),
            g2: open_group::<N, 2, TallyByGroup<N>>(g2, &mut thread_tallies),
            g3: open_group::<N, 3, TallyByGroup<N>>(g3, &mut thread_tallies),
            g4: open_group::<N, 4, TallyByGroup<N>>(g4, &mut thread_tallies),
            g5: open_group::<N, 5, TallyByGroup<N>>(g5, &mut thread_tallies),
            g6: open_group::<N, 6, TallyByGroup<N>>(g6, &mut thread_tallies),
            g7: open_group::<N, 7, TallyByGroup<N>>(g7, &mut thread_tallies),
            g8: open_group::<N, 8, TallyByGroup<N>>(g8, &mut thread_tallies),
        };
        Ok((tallies, thread_tallies))
    }
}
