//! What the lock keeps beside the plant.

ghost use Rattle.std.specs.Prelude.{◌≡◌, ◌<◌, length};
ghost use Rattle.plantevents.specs.Plants.{Plant as Made};
ghost use Rattle.plantevents.specs.Parts.{part, role_of};
ghost use Rattle.plantevents.specs.declared.role.Role.{Role as RoleOf};
ghost use Rattle.plant.specs.Shown.{Shown, grown, reserving, is_reserved};
ghost use Rattle.limits.specs.Limits.{most_seats};
ghost use Rattle.plantreceipts.specs.Receipts.{IsNoted, IsReserved, IsRole, index_of, whole};
ghost use Rattle.plantlock.specs.Tied.{AreTied, HasPlace};

use limits::{MOST_SEATS, MOST_WORKERS};
use plant::Plant;
use plantevents::{Event, Role};
use plantreceipts::{LockStart, NotedPart, Share};
use planttallies::{Tallies, Tally};
use std::marker::PhantomData;
use std::sync::{OnceLock, OnceToken, Wait};

/// The row of cells, and of each role the number that its Share has too, and what shows its newest
/// cell.
#[derive(Drop)]
pub(crate) struct LockNotes<'a, J: LockStart, T: Tally, K: Tallies<T>> {
    pub cells: &'a [OnceLock<NotedPart>],
    pub numbers: K,
    pub newest: Vec<Option<OnceToken<'a, NotedPart>>>,
    pub lock_start: PhantomData<(J, T)>,
}

/// Where a role stands among those that have a seat: scan workers, buses, the clock.
fn index_of(role: Role) -> usize
    requires { (p : Made) × IsRole p role }
    ensures value { result ≡ index_of role }
    ensures below { result < most_seats }
{
    match role {
        Role::Worker(worker) => worker,
        Role::Bus(bus) => MOST_WORKERS + usize::from(bus),
        Role::Clock => MOST_SEATS - 1,
    }
}

impl<'a, J: LockStart, T: Tally, K: Tallies<T>> LockNotes<'a, J, T, K> {
    /// What a Share has is its part of the history.
    pub(crate) fn meet(&mut self, share: &mut Share<'a, J, T>)
        requires tied { (p : Shown)
            × AreTied J.cells J.start p (K.number self.old.numbers) self.old.newest.items }
        ensures agree { (p : Shown)
            → AreTied J.cells J.start p (K.number self.old.numbers) self.old.newest.items
            → (whole share.old ≡ part share.old.role p.history)
            × (share.old.reserved ≡ is_reserved share.old.role p) }
        ensures known { IsRole J.start.plant share.old.role }
        ensures before { share.old.before ≡ part share.old.role J.start.history }
        ensures same { (self.new ≡ self.old) × (share.new ≡ share.old) }
    {
        let index = index_of(share.role());
        share.meet(&mut self.numbers, &self.newest[index]);
    }

    /// Keeps a place back for a role, as the plant did.
    pub(crate) fn keep(&mut self, share: &mut Share<'a, J, T>)
        requires tied { (p : Shown)
            × AreTied J.cells J.start p (K.number self.old.numbers) self.old.newest.items }
        ensures tied { (p : Shown) (role : RoleOf) → share.old.role ≡ role → HasPlace role p
            → AreTied J.cells J.start p (K.number self.old.numbers) self.old.newest.items
            → AreTied J.cells J.start (reserving role p) (K.number self.new.numbers)
            self.new.newest.items }
        ensures cells { self.new.cells.now ≡ self.old.cells.now }
        ensures reserved { IsReserved share.old share.new }
    {
        self.meet(share);
        share.keep(&mut self.numbers);
    }

    /// Files an event, with which the plant has become this one.
    pub(crate) fn file<R: Wait>(
        &mut self,
        rt: &R,
        share: &mut Share<'a, J, T>,
        plant: &Plant,
        event: Event,
    )
        requires cells { self.old.cells.now ≡ J.cells }
        requires tied { (p : Shown) × (plant.now ≡ grown p event)
            × AreTied J.cells J.start p (K.number self.old.numbers) self.old.newest.items }
        requires role { role_of event ≡ share.old.role }
        ensures tied { AreTied J.cells J.start plant.now (K.number self.new.numbers)
            self.new.newest.items }
        ensures cells { self.new.cells.now ≡ self.old.cells.now }
        ensures noted { (p : Shown) → plant.now ≡ grown p event
            → IsNoted (length p.history) event share.old share.new }
    {
        let index = plant.len() - 1;
        let _most = plant.limit();
        let slot = index_of(share.role());
        share.meet(&mut self.numbers, &self.newest[slot]);
        let token = share.note(rt, self.cells, &mut self.numbers, index, event);
        self.newest[slot] = token;
    }
}
