//! Scans that are open.

ghost use Rattle.std.specs.Prelude.{◌≡◌, ◌↔◌, ℕ, ◌+◌, ◌<◌, ◌^◌, ◌∷◌, List, IfOk, IsTrue, length};
ghost use Rattle.std.specs.Prelude.{slice_index_or};
ghost use Rattle.ilmachine.specs.Snapshots.{ScanStart};
ghost use Rattle.plantevents.specs.Scans.{Scan};
ghost use Rattle.plantevents.specs.declared.event.Event.{Event};
ghost use Rattle.plantevents.specs.declared.event.Event.TheVariants.{Take, Commit};
ghost use Rattle.plantevents.specs.Plants.{Plant as Made};
ghost use Rattle.plantbuses.specs.KeptSteps.{AreIdle, ScansFollow, TakesFollow};

use plantevents::NotedSnapshot;
use std::alloc::{AllocError, Global};
use std::marker::Model;

/// A scan that a worker has open.
#[derive(Drop)]
pub struct RunningScan {
    place: u64,
    task: usize,
    /// What it began from, for contracts alone.
    snapshot: NotedSnapshot,
}

impl Model for RunningScan {
    ghost use Rattle.plantevents.specs.Histories.{OpenScan};

    ghost Value = { OpenScan };

    ghost view = { λ s. record { place = s.place; task = s.task; snapshot = s.snapshot } };
}

impl RunningScan {
    /// Whether this is its number: the place of its Take in the history.
    pub fn has_number(&self, number: u64) -> bool
        ensures value { IsTrue result ↔ (number ≡ self.now.place) }
    {
        self.place == number
    }

    /// The number of its task.
    pub fn task(&self) -> usize
        ensures value { result ≡ self.now.task }
    {
        self.task
    }
}

/// So many scan workers without a scan.
pub fn idle_workers(alloc: Global, workers: usize) -> Result<Vec<Option<RunningScan>>, AllocError>
    ensures { IfOk result (λ scans. AreIdle workers scans.items) }
{
    let mut scans = Vec::new(alloc);
    for _ in 0..workers {
        scans.push(None)?;
    }
    Ok(scans)
}

/// Notes that a worker took a task from this snapshot, at this place of the history: it has a scan
/// open.
pub fn note_scan(
    scans: &mut Vec<Option<RunningScan>>,
    worker: usize,
    place: u64,
    task: usize,
    snapshot: NotedSnapshot,
)
    requires { worker < length scans.old.items }
    ensures { (p : Made) (h : List Event) → ScansFollow p h scans.old.items → place ≡ length h
        → ScansFollow p (Take worker task snapshot ∷ h) scans.new.items }
{
    scans[worker] = Some(RunningScan {
        place,
        task,
        snapshot,
    });
}

/// Notes that a worker has no scan open any more.
pub fn note_end(scans: &mut Vec<Option<RunningScan>>, worker: usize)
    requires { worker < length scans.old.items }
    ensures { (p : Made) (n : ℕ) (result : Scan) (h : List Event)
        → ScansFollow p h scans.old.items
        → ScansFollow p (Commit worker n result ∷ h) scans.new.items }
{
    scans[worker] = None;
}

/// Notes that a task was taken.
pub fn note_take(takes: &mut Vec<u64>, task: usize)
    requires known { task < length takes.old.items }
    requires few { slice_index_or takes.old.items task 0 + 1 < 2 ^ 64 }
    ensures { (p : Made) (w : ℕ) (s : ScanStart) (h : List Event)
        → TakesFollow p h takes.old.items → TakesFollow p (Take w task s ∷ h) takes.new.items }
{
    takes[task] += 1;
}
