//! Scans and what they need.

ghost use Rattle.std.specs.Prelude.{◌≡◌, IfOk};
ghost use Rattle.ilmachine.specs.Scans.{IsScan, store_of};

use crate::left::Left;
use crate::machine::run;
use crate::snapshot::Snapshot;
use crate::state::State;
use gearcmd::Request;
use ilblocks::BlockState;
use ilcells::ValueRow;
use std::alloc::AllocError;
use std::marker::Model;

/// A scan to be made, with all the room that it needs.
#[derive(Drop)]
pub struct Work {
    number: u64,
    snapshot: Snapshot,
    state: State,
    room: Option<ValueRow>,
}

impl Model for Work {
    ghost use Rattle.ilmachine.specs.MachineSteps.{IsPrepared};
    ghost use Rattle.ilmachine.specs.Scans.{Task};

    ghost Value = { Task };

    ghost view = { λ w. record { number = w.number; snapshot = w.snapshot } };

    ghost invariant = { λ w. IsPrepared w.snapshot w.state w.room };
}

/// A scan that was made.
pub struct ScanResult {
    number: u64,
    snapshot: Snapshot,
    steps: u32,
    left: Left,
}

/// Written out, so that it is proved here alone.
impl Drop for ScanResult {
    fn drop(self) {
        let Self {
            number: _,
            snapshot: _,
            steps: _,
            left: _,
        } = self;
    }
}

impl Model for ScanResult {
    ghost use Rattle.ilmachine.specs.Scans.{Scan, IsScan, store_of};

    ghost Value = { Scan };

    ghost view = { λ r. record {
      number = r.number;
      snapshot = r.snapshot;
      steps = r.steps;
      after = r.left;
    } };

    ghost invariant = { λ r. IsScan r.snapshot.verified (store_of r.snapshot) r.steps r.left };
}

impl Work {
    ghost use Rattle.std.specs.Prelude.{◌≡◌, IfOk};
    ghost use Rattle.ilmachine.specs.Scans.{Task, task_of};

    /// The scan of the snapshot, under a number of the caller's choice.
    pub fn new(number: u64, snapshot: Snapshot) -> Result<Work, AllocError>
        ensures { IfOk result (λ work. work ≡ task_of number snapshot) }
    {
        let (state, room) = State::begin(&snapshot)?;
        Ok(Work {
            number,
            snapshot,
            state,
            room,
        })
    }

    /// What the scan begins from.
    pub fn snapshot(&self) -> &Snapshot
        ensures value { result.now ≡ self.now.snapshot }
    {
        &self.snapshot
    }
}

impl ScanResult {
    ghost use Rattle.std.specs.Prelude.{◌≡◌, ◌≤◌, length};
    ghost use Rattle.limits.specs.Limits.{most_requests};
    ghost use Rattle.ilmachine.specs.Snapshots.{ScanStart, IsLastingOf};
    ghost use Rattle.ilmachine.specs.Scans.{Scan, IsScan, store_of, next_start};

    /// The number of the scan.
    pub fn number(&self) -> u64
        ensures value { result ≡ self.now.number }
    {
        self.number
    }

    /// What the scan began from.
    pub fn snapshot(&self) -> &Snapshot
        ensures value { result.now ≡ self.now.snapshot }
    {
        &self.snapshot
    }

    /// The values of the slots that last, as they are at the end of the run, each in its slot's
    /// type.
    pub fn row(&self) -> &ValueRow
        ensures value { result.now ≡ self.now.after.slots }
        ensures run { IsScan self.now.snapshot.verified (store_of self.now.snapshot)
            self.now.steps self.now.after }
    {
        self.left.row()
    }

    /// What each block instance keeps at the end of the run.
    pub fn blocks(&self) -> &[BlockState]
        ensures value { result.now ≡ self.now.after.blocks }
    {
        self.left.blocks()
    }

    /// The requests of the scan, in the order of their calls.
    pub fn outbox(&self) -> &[Request]
        ensures value { result.now ≡ self.now.after.requests }
        ensures few { length result.now ≤ most_requests }
    {
        self.left.requests()
    }

    /// The number of steps of the run, one a word: no more than the bound of its code.
    pub fn steps(&self) -> u32
        ensures value { result ≡ self.now.steps }
    {
        self.steps
    }

    /// What the scan began from, and the values and the block instances as the scan left them. It
    /// takes no memory.
    pub fn into_parts(self) -> (Snapshot, ValueRow, Vec<BlockState>)
        ensures snapshot { result.0 ≡ self.snapshot }
        ensures values { result.1 ≡ self.after.slots }
        ensures blocks { result.2.items ≡ self.after.blocks }
        ensures in_types { IsLastingOf self.snapshot.verified.code
            (record { slots = result.1; blocks = result.2.items }) }
        ensures run { IsScan self.snapshot.verified (store_of self.snapshot) self.steps self.after }
    {
        let Self {
            number: _,
            snapshot,
            steps: _,
            left,
        } = self;
        let (row, blocks) = left.into_lasting();
        (snapshot, row, blocks)
    }

    /// What the next scan of the code begins from, at this moment in milliseconds: the values and
    /// the block instances as the scan left them. It takes no memory.
    pub fn into_next(self, moment: u64) -> Snapshot
        ensures { result ≡ next_start self moment }
    {
        let (snapshot, row, blocks) = self.into_parts();
        snapshot.with(row, blocks, moment)
    }
}

/// Makes the scan in the room that was made for it.
pub fn scan_into(work: Work) -> ScanResult
    ensures number { result.number ≡ work.number }
    ensures snapshot { result.snapshot ≡ work.snapshot }
    ensures run { IsScan work.snapshot.verified (store_of work.snapshot) result.steps result.after }
{
    let Work {
        number,
        snapshot,
        mut state,
        room,
    } = work;
    let steps = run(snapshot.prepared_code(), &mut state);
    let left = state.end(snapshot.verified_code().code(), room);
    ScanResult {
        number,
        snapshot,
        steps,
        left,
    }
}

/// Makes the scan of the snapshot, under number 0.
pub fn scan(snapshot: Snapshot) -> Result<ScanResult, AllocError>
    ensures number { IfOk result (λ scan. scan.number ≡ 0) }
    ensures snapshot { IfOk result (λ scan. scan.snapshot ≡ snapshot) }
    ensures run { IfOk result (λ scan.
        IsScan snapshot.verified (store_of snapshot) scan.steps scan.after) }
{
    let work = Work::new(0, snapshot)?;
    Ok(scan_into(work))
}
