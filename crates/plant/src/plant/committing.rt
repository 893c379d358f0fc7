//! How scans are committed.

ghost use Rattle.std.specs.Prelude.{◌≡◌, None, OnOk, OnErr, IfErr, IfSome};
ghost use Rattle.plantevents.specs.declared.event.Event.TheVariants as event;
ghost use Rattle.plant.specs.Shown.{grown};
ghost use Rattle.plant.specs.Matches.{IsOpenScan, IsOwnScan};
ghost use Rattle.plant.specs.CommitSteps.{IsOpenScanOf, IsScanOfTask};

use super::Plant;
use crate::writes::write_scan;
use plantbuses::{note_end, note_stores, offer_all};
use plantevents::{Event, NotedResult, ScanResult};

impl Plant {
    /// The task of this scan, if the worker has it open.
    fn open_task(&self, worker: usize, scan: &ScanResult) -> Option<usize>
        requires own { IsOwnScan self.now worker scan.now }
        ensures open { IfSome result (IsOpenScanOf self.now worker scan.now) }
        ensures none { result ≡ None → ¬ IsOpenScan self.now worker scan.now }
    {
        if worker >= self.workers {
            return None;
        }
        let Some(running) = &self.scans[worker] else {
            return None;
        };
        if running.has_number(scan.number()) {
            Some(running.task())
        } else {
            None
        }
    }

    /// The task of this scan, if the worker has it open and so may commit it: the scan is what the
    /// task means.
    fn task_of(&self, worker: usize, scan: &ScanResult) -> Option<usize>
        requires own { IsOwnScan self.now worker scan.now }
        ensures open { IfSome result (λ task. IsOpenScan self.now worker scan.now) }
        ensures allowed { IfSome result (IsScanOfTask self.now worker scan.now) }
        ensures none { result ≡ None → ¬ IsOpenScan self.now worker scan.now }
    {
        let task = self.open_task(worker, scan)?;
        let _run = scan.row();
        let _limits = self.setup.plan().task(task);
        Some(task)
    }

    /// Writes what the scan that a worker has open came to: the global variables that its task
    /// stores, the task's own variables and its block instances; and offers its requests to their
    /// buses, in order. It takes no memory.
    ///
    /// # Errors
    ///
    /// There is no such worker, or this is not the scan that it has open. The scan comes back, and
    /// the plant is unchanged.
    pub fn commit(&mut self, worker: usize, scan: ScanResult) -> Result<(), ScanResult>
        requires own { IsOwnScan self.old worker scan }
        ensures open { OnOk result (IsOpenScan self.old worker scan) }
        ensures grown { OnOk result
            (self.new ≡ grown self.old (event.Commit worker scan.number scan)) }
        ensures stranger { OnErr result (¬ IsOpenScan self.old worker scan) }
        ensures err { IfErr result (λ back. (self.new ≡ self.old) × (back ≡ scan)) }
    {
        let Some(task) = self.task_of(worker, &scan) else {
            return Err(scan);
        };
        let number = scan.number();
        let noted = NotedResult::of(&scan);
        let kind = self.setup.plan().kind(task);
        offer_all(&mut self.buses, kind, scan.outbox());
        write_scan(&mut self.image, task, scan);
        note_stores(
            &mut self.owed,
            self.setup.plan(),
            &self.outputs,
            &self.buses,
            &self.image,
            task,
        );
        self.tasks.note_commit(task);
        note_end(&mut self.scans, worker);
        self.history.push(&Event::Commit {
            worker,
            number,
            result: noted,
        });
        self.length += 1;
        self.kept -= 1;
        Ok(())
    }
}
