//! The plant with what ties the Shares to it: what lies under the lock.

ghost use Rattle.std.specs.Prelude.{◌≡◌, ℕ, ◌+◌, ◌<◌, ◌≤◌, None, true, false, OnOk, OnErr, IfErr, IsOk};
ghost use Rattle.std.specs.Prelude.{length, slice_index_or};
ghost use Rattle.limits.specs.Limits.{most_seats};
ghost use Rattle.plantevents.specs.declared.event.Event.TheVariants as event;
ghost use Rattle.plantevents.specs.declared.role.Role.TheVariants as roles;
ghost use Rattle.plantevents.specs.Legal.{AreLegal};
ghost use Rattle.plantevents.specs.Parts.{part, shown_moment, shown_down};
ghost use Rattle.plant.specs.Refusals.{GivesFirst, tick_cases, may_tick_cases, heard_cases};
ghost use Rattle.plant.specs.Shown.{grown, reserving};
ghost use Rattle.plantreceipts.specs.Receipts.{IsNoted, IsReserved, whole};
ghost use Rattle.plantreceipts.specs.Seats.{AreCounted};
ghost use Rattle.plantlock.specs.Answers.{IsUnderLock, IsUnheard};
ghost use Rattle.plantlock.specs.Tied.{IsFront};

mod scanning;
mod sending;

use crate::lock_notes::LockNotes;
use daliframe::Frame24;
use plant::{CallRefusal, Plant};
use plantevents::{Event, what_a_part_shows};
use plantreceipts::{LockStart, NotedPart, Share};
use planttallies::{Tallies, Tally};
use std::marker::{Model, PhantomData};
use std::sync::{OnceLock, OnceToken, Wait};

/// The plant with what ties the Shares to it. Contracts see the plant.
#[derive(Drop)]
pub(crate) struct LockedPlant<'a, J: LockStart, T: Tally, K: Tallies<T>> {
    plant: Plant,
    notes: LockNotes<'a, J, T, K>,
}

impl<'a, J: LockStart, T: Tally, K: Tallies<T>> Model for LockedPlant<'a, J, T, K> {
    ghost use Rattle.std.specs.Prelude.{◌≡◌};
    ghost use Rattle.std.specs.Coded.{codes};
    ghost use Rattle.ilplan.specs.contracts.plan.Plan as inner;
    ghost use Rattle.plant.specs.Shown.{Shown};
    ghost use Rattle.plantlock.specs.Tied.{AreTied};

    ghost Value = { Shown };

    ghost coded = { Prim.hlevel (codes, inner.the_row.coded) };

    ghost view = { λ d. d.plant };

    ghost invariant = { λ d. (d.notes.cells.now ≡ J.cells)
        × AreTied J.cells J.start d.plant (K.number d.notes.numbers) d.notes.newest.items };
}

impl<'a, J: LockStart, T: Tally, K: Tallies<T>> LockedPlant<'a, J, T, K> {
    /// What lies under the lock at the start.
    pub(crate) fn new(
        plant: Plant,
        cells: &'a [OnceLock<NotedPart>],
        numbers: K,
        newest: Vec<Option<OnceToken<'a, NotedPart>>>,
    ) -> LockedPlant<'a, J, T, K>
        requires start { plant ≡ J.start }
        requires cells { cells.now ≡ J.cells }
        requires enough { J.start.limit ≤ length J.start.history + length J.cells }
        requires numbers { AreCounted J.start (K.number numbers) most_seats }
        requires newest { (length newest.items ≡ most_seats)
            × ((k : ℕ) → k < most_seats → slice_index_or newest.items k None ≡ None) }
        ensures { result ≡ J.start }
    {
        LockedPlant {
            plant,
            notes: LockNotes {
                cells,
                numbers,
                newest,
                lock_start: PhantomData,
            },
        }
    }

    /// The plant is as a Share says: what the Share has is its part of the history, which is legal,
    /// and its place is kept back in the plant.
    pub fn meet(&mut self, share: &mut Share<'a, J, T>)
        ensures under { IsUnderLock J.start share.old self.old }
        ensures before { share.old.before ≡ part share.old.role J.start.history }
        ensures same { (self.new ≡ self.old) × (share.new ≡ share.old) }
    {
        self.notes.meet(share);
        let _legal = self.plant.len();
    }

    /// The plant, to whose history at the start events were added.
    pub fn into_plant(self) -> Plant
        ensures same { result ≡ self.entry }
        ensures legal { AreLegal result.plant result.history }
        ensures plant { result.plant ≡ J.start.plant }
        ensures limit { result.limit ≡ J.start.limit }
        ensures front { IsFront J.start.history result.history }
    {
        let LockedPlant { plant, notes: _ } = self;
        let _legal = plant.len();
        plant
    }

    /// Notes that it is this moment. Where a place is kept back, and the moment is not below the
    /// last one that the Share shows, it is not refused.
    pub fn tick<R: Wait>(
        &mut self,
        rt: &R,
        share: &mut Share<'a, J, T>,
        moment: u64,
    ) -> Result<(), CallRefusal>
        requires role { share.old.role ≡ roles.Clock }
        ensures event { OnOk result (self.new ≡ grown self.old (event.Tick moment)) }
        ensures noted { OnOk result
            (IsNoted (length self.old.history) (event.Tick moment) share.old share.new) }
        ensures refused { GivesFirst (tick_cases self.old moment) result }
        ensures err { OnErr result ((self.new ≡ self.old) × (share.new ≡ share.old)) }
        ensures kept { share.old.reserved ≡ true → shown_moment (whole share.old) ≤ moment
            → IsOk result }
    {
        what_a_part_shows();
        self.notes.meet(share);
        self.plant.tick(moment)?;
        self.notes
            .file(rt, share, &self.plant, Event::Tick { moment });
        Ok(())
    }

    /// Keeps a place of the history back for a tick, until it is used.
    pub fn may_tick(&mut self, share: &mut Share<'a, J, T>) -> Result<(), CallRefusal>
        requires role { share.old.role ≡ roles.Clock }
        ensures place { OnOk result (self.new ≡ reserving roles.Clock self.old) }
        ensures reserved { OnOk result (IsReserved share.old share.new) }
        ensures refused { GivesFirst (may_tick_cases self.old) result }
        ensures err { OnErr result ((self.new ≡ self.old) × (share.new ≡ share.old)) }
    {
        self.plant.may_tick()?;
        self.notes.keep(share);
        Ok(())
    }

    /// Keeps a place of the history back for a frame of a bus, until it is used.
    pub fn may_hear(&mut self, share: &mut Share<'a, J, T>, bus: u8) -> Result<(), CallRefusal>
        requires role { share.old.role ≡ roles.Bus bus }
        ensures place { OnOk result (self.new ≡ reserving (roles.Bus bus) self.old) }
        ensures reserved { OnOk result (IsReserved share.old share.new) }
        ensures up { OnOk result (shown_down (whole share.old) ≡ false) }
        ensures refused { GivesFirst (heard_cases self.old bus) result }
        ensures why { IfErr result (IsUnheard (whole share.old)) }
        ensures err { OnErr result ((self.new ≡ self.old) × (share.new ≡ share.old)) }
    {
        what_a_part_shows();
        self.notes.meet(share);
        let _places = self.plant.len();
        self.plant.may_hear(bus)?;
        self.notes.keep(share);
        Ok(())
    }

    /// Notes a frame that was heard on a bus. Where a place is kept back, and the Share shows that
    /// the bus is not down, it is not refused.
    pub fn note_frame<R: Wait>(
        &mut self,
        rt: &R,
        share: &mut Share<'a, J, T>,
        bus: u8,
        frame: Frame24,
    ) -> Result<(), CallRefusal>
        requires role { share.old.role ≡ roles.Bus bus }
        ensures event { OnOk result (self.new ≡ grown self.old (event.Heard bus frame)) }
        ensures noted { OnOk result
            (IsNoted (length self.old.history) (event.Heard bus frame) share.old share.new) }
        ensures refused { GivesFirst (heard_cases self.old bus) result }
        ensures err { OnErr result ((self.new ≡ self.old) × (share.new ≡ share.old)) }
        ensures kept { share.old.reserved ≡ true → shown_down (whole share.old) ≡ false
            → IsOk result }
    {
        what_a_part_shows();
        self.notes.meet(share);
        self.plant.note_frame(bus, frame)?;
        self.notes
            .file(rt, share, &self.plant, Event::Heard { bus, frame });
        Ok(())
    }
}
