//! The plant under its one lock.

ghost use Rattle.std.specs.Prelude.{◌≡◌, ℕ, ◌+◌, ◌<◌, ◌≤◌, None, true, false, OnOk, OnErr, IfOk, IfErr};
ghost use Rattle.std.specs.Prelude.{IsOk, Some, length, slice_get, slice_index_or};
ghost use Rattle.plantevents.specs.declared.event.Event.TheVariants as event;
ghost use Rattle.plantevents.specs.declared.role.Role.TheVariants as roles;
ghost use Rattle.plantevents.specs.Legal.{AreLegal};
ghost use Rattle.plantevents.specs.Parts.{shown_moment, shown_down};
ghost use Rattle.plantevents.specs.Plants.{tries_of};
ghost use Rattle.limits.specs.Limits.{AreTries, most_buses, most_seats, most_workers};
ghost use Rattle.plantreceipts.specs.Each.{Each};
ghost use Rattle.plantreceipts.specs.Opened.{AreFreshShares, HaveAllParts, HaveReceipts};
ghost use Rattle.plantreceipts.specs.Receipts.{ShareParts, IsNoted, IsReserved, whole};
ghost use Rattle.plantreceipts.specs.Seats.{AreUnused};
ghost use Rattle.plant.specs.Matches.{IsOpenScan, IsReportOf};
ghost use Rattle.plant.specs.Refusals.{GivesFirst, GivesFirstOrMemory, down_cases, up_cases};
ghost use Rattle.plant.specs.Refusals.{heard_cases, may_tick_cases, take_cases, tick_cases};
ghost use Rattle.plant.specs.Shown.{grown, reserving};
ghost use Rattle.plantlock.specs.Answers.{Decides, GivesHand, IsAnswered, IsNotUp, IsOwn, IsUnheard};
ghost use Rattle.plantlock.specs.Answers.{ShowsScan, ShowsTransaction};
ghost use Rattle.plantlock.specs.Tied.{IsFront, IsMet};

use crate::locked_plant::LockedPlant;
use buslink::Report;
use daliframe::Frame24;
use ilmachine::ScanResult;
use limits::MOST_SEATS;
use plant::{CallError, CallRefusal, Handed, Order, Plant};
use plantreceipts::{LockStart, NotedPart, Share, Shares};
use planttallies::{Tallies, Tally};
use std::alloc::{AllocError, Global};
use std::sync::{Mutex, OnceLock, OnceToken, Wait};

/// The lock round the plant.
pub struct Shared<'a, J: LockStart, T: Tally, K: Tallies<T>> {
    locked: Mutex<LockedPlant<'a, J, T, K>>,
}

/// Written out, so that it is proved here alone.
impl<'a, J: LockStart, T: Tally, K: Tallies<T>> Drop for Shared<'a, J, T, K> {
    fn drop(self) {
        let Self { locked: _ } = self;
    }
}

/// The plant after the lock was opened for good, and the Shares.
#[derive(Drop)]
pub struct Final<'a, J: LockStart, T: Tally> {
    pub plant: Plant,
    pub shares: Shares<'a, J, T>,
}

/// For each seat that there is no newest cell.
fn no_tokens<'a>(alloc: Global) -> Result<Vec<Option<OnceToken<'a, NotedPart>>>, AllocError>
    ensures { IfOk result (λ v. (length v.items ≡ most_seats)
        × ((k : ℕ) → k < most_seats → slice_index_or v.items k None ≡ None)) }
{
    let mut tokens = Vec::new(alloc);
    for _seat in 0..MOST_SEATS {
        tokens.push(None)?;
    }
    Ok(tokens)
}

/// What one of the Shares had and has is its part of the histories.
fn meet_at<'a, J: LockStart, T: Tally, K: Tallies<T>>(
    locked: &mut LockedPlant<'a, J, T, K>,
    shares: &mut Vec<Share<'a, J, T>>,
    k: usize,
)
    requires { k < length shares.old.items }
    ensures met { (share : ShareParts) → slice_get shares.old.items k ≡ Some share
        → IsMet J.start.history share locked.old.history }
    ensures shares { shares.new.items ≡ shares.old.items }
    ensures locked { locked.new ≡ locked.old }
{
    locked.meet(&mut shares[k]);
}

/// What each of the Shares had and has is its part of the histories.
fn meet_all<'a, J: LockStart, T: Tally, K: Tallies<T>>(
    locked: &mut LockedPlant<'a, J, T, K>,
    shares: &mut Vec<Share<'a, J, T>>,
)
    ensures met { Each (λ k s. IsMet J.start.history s locked.old.history) 0 shares.old.items }
    ensures shares { shares.new.items ≡ shares.old.items }
    ensures locked { locked.new ≡ locked.old }
{
    for k in 0..shares.len() {
        meet_at(locked, shares, k);
    }
}

impl<'a, J: LockStart, T: Tally, K: Tallies<T>> Shared<'a, J, T, K> {
    /// The plant under a lock, and the Share of each role. There is a cell for each event from now
    /// on, up to the plant's limit at least; whoever lends the cells makes them new, since a call
    /// waits without end where its cell was written before. The tallies of the lock and of the
    /// threads are those of all seats, none with an amount.
    ///
    /// # Errors
    ///
    /// The allocator is out of memory. The plant comes back.
    pub fn new(
        alloc: Global,
        plant: Plant,
        cells: &'a [OnceLock<NotedPart>],
        tallies: K,
        thread_tallies: Vec<T>,
    ) -> Result<(Shared<'a, J, T, K>, Shares<'a, J, T>), Plant>
        requires start { plant ≡ J.start }
        requires cells { cells.now ≡ J.cells }
        requires enough { J.start.limit ≤ length J.start.history + length J.cells }
        requires workers { J.start.plant.workers ≤ most_workers }
        requires buses { J.start.plant.plan.buses ≤ most_buses }
        requires unused { AreUnused T.seat T.amount 0 thread_tallies.items }
        ensures fresh { IfOk result (λ made. AreFreshShares J.start made.1) }
        ensures err { IfErr result (λ back. back ≡ plant) }
    {
        let mut tallies = tallies;
        let Ok(newest) = no_tokens(alloc) else {
            return Err(plant);
        };
        let Ok(shares) = Shares::of(alloc, &plant, &mut tallies, thread_tallies) else {
            return Err(plant);
        };
        let locked = LockedPlant::new(plant, cells, tallies, newest);
        Ok((
            Shared {
                locked: Mutex::new(locked),
            },
            shares,
        ))
    }

    /// Keeps a place of the history back for a tick, until it is used.
    pub fn may_tick<R: Wait>(&self, rt: &R, share: &mut Share<'a, J, T>) -> Result<(), CallRefusal>
        requires role { share.old.role ≡ roles.Clock }
        ensures answered { IsAnswered J.start share.old share.new
            (λ p. GivesFirst (may_tick_cases p))
            (λ _. reserving roles.Clock) result }
        ensures reserved { OnOk result (IsReserved share.old share.new) }
        ensures err { OnErr result (share.new ≡ share.old) }
    {
        let mut locked = self.locked.lock(rt);
        locked.meet(share);
        let answer = locked.may_tick(share);
        locked.meet(share);
        answer
    }

    /// Keeps a place of the history back for a frame of a bus, until it is used.
    pub fn may_hear<R: Wait>(
        &self,
        rt: &R,
        share: &mut Share<'a, J, T>,
        bus: u8,
    ) -> Result<(), CallRefusal>
        requires role { share.old.role ≡ roles.Bus bus }
        ensures answered { IsAnswered J.start share.old share.new
            (λ p. GivesFirst (heard_cases p bus))
            (λ _. reserving (roles.Bus bus)) result }
        ensures reserved { OnOk result (IsReserved share.old share.new) }
        ensures up { OnOk result (shown_down (whole share.old) ≡ false) }
        ensures why { IfErr result (IsUnheard (whole share.old)) }
        ensures err { OnErr result (share.new ≡ share.old) }
    {
        let mut locked = self.locked.lock(rt);
        locked.meet(share);
        let answer = locked.may_hear(share, bus);
        locked.meet(share);
        answer
    }

    /// Notes that it is this moment.
    pub fn tick<R: Wait>(
        &self,
        rt: &R,
        share: &mut Share<'a, J, T>,
        moment: u64,
    ) -> Result<(), CallRefusal>
        requires role { share.old.role ≡ roles.Clock }
        ensures answered { IsAnswered J.start share.old share.new
            (λ p. GivesFirst (tick_cases p moment))
            (λ _ p. grown p (event.Tick moment)) result }
        ensures noted { OnOk result
            ((n : ℕ) × IsNoted n (event.Tick moment) share.old share.new) }
        ensures err { OnErr result (share.new ≡ share.old) }
        ensures kept { share.old.reserved ≡ true → shown_moment (whole share.old) ≤ moment
            → IsOk result }
    {
        let mut locked = self.locked.lock(rt);
        locked.meet(share);
        let answer = locked.tick(rt, share, moment);
        locked.meet(share);
        answer
    }

    /// Notes a frame that was heard on a bus.
    pub fn note_frame<R: Wait>(
        &self,
        rt: &R,
        share: &mut Share<'a, J, T>,
        bus: u8,
        frame: Frame24,
    ) -> Result<(), CallRefusal>
        requires role { share.old.role ≡ roles.Bus bus }
        ensures answered { IsAnswered J.start share.old share.new
            (λ p. GivesFirst (heard_cases p bus))
            (λ _ p. grown p (event.Heard bus frame)) result }
        ensures noted { OnOk result
            ((n : ℕ) × IsNoted n (event.Heard bus frame) share.old share.new) }
        ensures err { OnErr result (share.new ≡ share.old) }
        ensures kept { share.old.reserved ≡ true → shown_down (whole share.old) ≡ false
            → IsOk result }
    {
        let mut locked = self.locked.lock(rt);
        locked.meet(share);
        let answer = locked.note_frame(rt, share, bus, frame);
        locked.meet(share);
        answer
    }

    /// Takes the next task for a scan worker.
    pub fn take<R: Wait>(
        &self,
        rt: &R,
        alloc: Global,
        share: &mut Share<'a, J, T>,
        worker: usize,
    ) -> Result<Order, CallError>
        requires role { share.old.role ≡ roles.Worker worker }
        ensures answered { IsAnswered J.start share.old share.new
            (λ p. GivesFirstOrMemory (take_cases p worker))
            (λ order p. grown p (event.Take worker order.task order.work.snapshot)) result }
        ensures noted { IfOk result (λ order. IsNoted order.number
            (event.Take worker order.task order.work.snapshot) share.old share.new) }
        ensures number { IfOk result (λ order. order.work.number ≡ order.number) }
        ensures err { OnErr result (share.new ≡ share.old) }
    {
        let mut locked = self.locked.lock(rt);
        locked.meet(share);
        let answer = locked.take(rt, alloc, share, worker);
        locked.meet(share);
        answer
    }

    /// Commits a scan. The one that the Share shows open is not refused.
    pub fn commit<R: Wait>(
        &self,
        rt: &R,
        share: &mut Share<'a, J, T>,
        worker: usize,
        scan: ScanResult,
    ) -> Result<(), ScanResult>
        requires role { share.old.role ≡ roles.Worker worker }
        requires own { IsOwn (whole share.old) scan }
        ensures answered { IsAnswered J.start share.old share.new
            (λ p. Decides (IsOpenScan p worker scan))
            (λ _ p. grown p (event.Commit worker scan.number scan)) result }
        ensures noted { OnOk result
            ((n : ℕ) × IsNoted n (event.Commit worker scan.number scan) share.old share.new) }
        ensures err { IfErr result (λ back. (share.new ≡ share.old) × (back ≡ scan)) }
        ensures open { ShowsScan (whole share.old) scan → IsOk result }
    {
        let mut locked = self.locked.lock(rt);
        locked.meet(share);
        let answer = locked.commit(rt, share, worker, scan);
        locked.meet(share);
        answer
    }

    /// Hands a bus what is to be sent next.
    pub fn hand<R: Wait>(
        &self,
        rt: &R,
        share: &mut Share<'a, J, T>,
        bus: u8,
    ) -> Result<Handed, CallRefusal>
        requires role { share.old.role ≡ roles.Bus bus }
        ensures answered { IsAnswered J.start share.old share.new
            (GivesHand bus)
            (λ handed p. grown p (event.Hand bus handed.origin handed.transaction)) result }
        ensures noted { IfOk result (λ handed. IsNoted handed.number
            (event.Hand bus handed.origin handed.transaction) share.old share.new) }
        ensures tries { IfOk result (λ handed. handed.tries ≡ tries_of J.start.plant bus) }
        ensures range { IfOk result (λ handed. AreTries handed.tries) }
        ensures up { OnOk result (shown_down (whole share.old) ≡ false) }
        ensures err { OnErr result (share.new ≡ share.old) }
    {
        let mut locked = self.locked.lock(rt);
        locked.meet(share);
        let answer = locked.hand(rt, share, bus);
        locked.meet(share);
        answer
    }

    /// Notes the report of a transaction. That of the one that the Share shows open is not refused,
    /// if it was made for the attempts of the bus.
    pub fn note_report<R: Wait>(
        &self,
        rt: &R,
        share: &mut Share<'a, J, T>,
        bus: u8,
        number: u64,
        report: Report,
    ) -> Result<(), Report>
        requires role { share.old.role ≡ roles.Bus bus }
        ensures answered { IsAnswered J.start share.old share.new
            (λ p. Decides (IsReportOf p bus number report))
            (λ _ p. grown p (event.Done bus number report)) result }
        ensures noted { OnOk result
            ((n : ℕ) × IsNoted n (event.Done bus number report) share.old share.new) }
        ensures err { IfErr result (λ back. (share.new ≡ share.old) × (back ≡ report)) }
        ensures open { ShowsTransaction (whole share.old) number report.transaction
            → report.tries ≡ tries_of J.start.plant bus → IsOk result }
    {
        let mut locked = self.locked.lock(rt);
        locked.meet(share);
        let answer = locked.note_report(rt, share, bus, number, report);
        locked.meet(share);
        answer
    }

    /// Closes a bus. Where the Share shows that it is not down, it is not refused.
    pub fn down<R: Wait>(
        &self,
        rt: &R,
        share: &mut Share<'a, J, T>,
        bus: u8,
    ) -> Result<(), CallRefusal>
        requires role { share.old.role ≡ roles.Bus bus }
        ensures answered { IsAnswered J.start share.old share.new
            (λ p. GivesFirst (down_cases p bus))
            (λ _ p. grown p (event.Down bus)) result }
        ensures noted { OnOk result ((n : ℕ) × IsNoted n (event.Down bus) share.old share.new) }
        ensures err { OnErr result (share.new ≡ share.old) }
        ensures up { shown_down (whole share.old) ≡ false → IsOk result }
    {
        let mut locked = self.locked.lock(rt);
        locked.meet(share);
        let answer = locked.down(rt, share, bus);
        locked.meet(share);
        answer
    }

    /// Opens a bus that was down again.
    pub fn up<R: Wait>(
        &self,
        rt: &R,
        share: &mut Share<'a, J, T>,
        bus: u8,
    ) -> Result<(), CallRefusal>
        requires role { share.old.role ≡ roles.Bus bus }
        ensures answered { IsAnswered J.start share.old share.new
            (λ p. GivesFirst (up_cases p bus))
            (λ _ p. grown p (event.Up bus)) result }
        ensures noted { OnOk result ((n : ℕ) × IsNoted n (event.Up bus) share.old share.new) }
        ensures down { OnOk result (shown_down (whole share.old) ≡ true) }
        ensures why { IfErr result (IsNotUp (whole share.old)) }
        ensures err { OnErr result (share.new ≡ share.old) }
    {
        let mut locked = self.locked.lock(rt);
        locked.meet(share);
        let answer = locked.up(rt, share, bus);
        locked.meet(share);
        answer
    }

    /// Opens the lock for good. The history at the start is a front of the plant's, which is legal.
    /// The receipts of each Share are its role's events of those that came after that front, and
    /// with its part of the front they are its part of the history.
    pub fn close(self, shares: Shares<'a, J, T>) -> Final<'a, J, T>
        ensures legal { AreLegal result.plant.plant result.plant.history }
        ensures plant { result.plant.plant ≡ J.start.plant }
        ensures limit { result.plant.limit ≡ J.start.limit }
        ensures front { IsFront J.start.history result.plant.history }
        ensures workers { result.shares.workers.items ≡ shares.entry.workers.items }
        ensures buses { result.shares.buses.items ≡ shares.entry.buses.items }
        ensures clock { result.shares.clock ≡ shares.entry.clock }
        ensures parts { HaveAllParts result.shares result.plant.history }
        ensures receipts { HaveReceipts J.start.history result.shares result.plant.history }
    {
        let Shared { locked } = self;
        let mut locked = locked.into_inner();
        let Shares {
            mut workers,
            mut buses,
            mut clock,
        } = shares;
        meet_all(&mut locked, &mut workers);
        meet_all(&mut locked, &mut buses);
        locked.meet(&mut clock);
        let plant = locked.into_plant();
        Final {
            plant,
            shares: Shares {
                workers,
                buses,
                clock,
            },
        }
    }
}
