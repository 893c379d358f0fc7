//! Scans under the lock.

ghost use Rattle.std.specs.Prelude.{◌≡◌, OnOk, OnErr, IfOk, IfErr, IsOk, length};
ghost use Rattle.plantevents.specs.declared.event.Event.TheVariants as event;
ghost use Rattle.plantevents.specs.declared.role.Role.TheVariants as roles;
ghost use Rattle.plant.specs.Matches.{IsOpenScan};
ghost use Rattle.plant.specs.Refusals.{GivesFirstOrMemory, take_cases};
ghost use Rattle.plant.specs.Shown.{grown};
ghost use Rattle.plantreceipts.specs.Receipts.{IsNoted, whole};
ghost use Rattle.plantlock.specs.Answers.{Decides, IsOwn, ShowsScan};

use super::LockedPlant;
use ilmachine::ScanResult;
use plant::{CallError, Order};
use plantevents::{Event, NotedResult, NotedSnapshot, what_a_part_shows};
use plantreceipts::{LockStart, Share};
use planttallies::{Tallies, Tally};
use std::alloc::Global;
use std::sync::Wait;

impl<'a, J: LockStart, T: Tally, K: Tallies<T>> LockedPlant<'a, J, T, K> {
    /// Takes the next task for a scan worker.
    pub fn take<R: Wait>(
        &mut self,
        rt: &R,
        alloc: Global,
        share: &mut Share<'a, J, T>,
        worker: usize,
    ) -> Result<Order, CallError>
        requires role { share.old.role ≡ roles.Worker worker }
        ensures event { IfOk result (λ order. self.new
            ≡ grown self.old (event.Take worker order.task order.work.snapshot)) }
        ensures noted { IfOk result (λ order. IsNoted order.number
            (event.Take worker order.task order.work.snapshot) share.old share.new) }
        ensures number { IfOk result (λ order. (order.number ≡ length self.old.history)
            × (order.work.number ≡ order.number)) }
        ensures refused { GivesFirstOrMemory (take_cases self.old worker) result }
        ensures err { OnErr result ((self.new ≡ self.old) × (share.new ≡ share.old)) }
    {
        let order = self.plant.take(alloc, worker)?;
        let event = Event::Take {
            worker,
            task: order.task,
            snapshot: NotedSnapshot::of(order.work.snapshot()),
        };
        self.notes.file(rt, share, &self.plant, event);
        Ok(order)
    }

    /// Commits a scan. The one that the Share shows open is not refused.
    pub fn commit<R: Wait>(
        &mut self,
        rt: &R,
        share: &mut Share<'a, J, T>,
        worker: usize,
        scan: ScanResult,
    ) -> Result<(), ScanResult>
        requires role { share.old.role ≡ roles.Worker worker }
        requires own { IsOwn (whole share.old) scan }
        ensures event { OnOk result
            (self.new ≡ grown self.old (event.Commit worker scan.number scan)) }
        ensures noted { OnOk result (IsNoted (length self.old.history)
            (event.Commit worker scan.number scan) share.old share.new) }
        ensures decided { Decides (IsOpenScan self.old worker scan) result }
        ensures err { IfErr result (λ back. (self.new ≡ self.old) × (share.new ≡ share.old)
            × (back ≡ scan)) }
        ensures open { ShowsScan (whole share.old) scan → IsOk result }
    {
        what_a_part_shows();
        self.notes.meet(share);
        let number = scan.number();
        let noted = NotedResult::of(&scan);
        match self.plant.commit(worker, scan) {
            Ok(()) => {}
            Err(back) => return Err(back),
        }
        let event = Event::Commit {
            worker,
            number,
            result: noted,
        };
        self.notes.file(rt, share, &self.plant, event);
        Ok(())
    }
}
