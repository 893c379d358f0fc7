//! Large values as contracts alone see them, so that an event takes no memory.

ghost use Rattle.std.specs.Prelude.{◌≡◌};

use ghosts::Memo;
use ilmachine::{ScanResult, Snapshot};
use std::marker::Model;

/// What a scan starts from, for contracts alone.
#[derive(Drop)]
pub struct NotedSnapshot {
    memo: Memo<Snapshot>,
}

impl Model for NotedSnapshot {
    ghost use Rattle.ilmachine.specs.Snapshots.{ScanStart};

    ghost Value = { ScanStart };

    ghost view = { λ n. n.memo.value };
}

impl NotedSnapshot {
    /// The snapshot, noted.
    pub fn of(snapshot: &Snapshot) -> NotedSnapshot
        ensures { result ≡ snapshot.now }
    {
        NotedSnapshot {
            memo: Memo::of(snapshot),
        }
    }
}

/// What a scan came to, for contracts alone.
#[derive(Drop)]
pub struct NotedResult {
    memo: Memo<ScanResult>,
}

impl Model for NotedResult {
    ghost use Rattle.ilmachine.specs.Scans.{Scan};

    ghost Value = { Scan };

    ghost view = { λ n. n.memo.value };
}

impl NotedResult {
    /// The scan, noted.
    pub fn of(scan: &ScanResult) -> NotedResult
        ensures { result ≡ scan.now }
    {
        NotedResult {
            memo: Memo::of(scan),
        }
    }
}
