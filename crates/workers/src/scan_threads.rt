//! Threads of scan workers.

ghost use Rattle.std.specs.Prelude.{ℕ};
ghost use Rattle.plantturns.specs.Logs.{IsWorker};
ghost use Rattle.workers.specs.Started.{IsStartedScans};

use crate::ended::{End, Ended};
use crate::serving::serve_tasks;
use planttallies::{Tallies, Tally};
use plantturns::{Gate, LockStart, Share, Shared};
use std::alloc::Global;
use std::sync::Wait;
use std::thread::{Promise, PromisedHandle, Scope, Threads};
use std::time::Clock as Timer;

/// The work of a scan worker. It is one value, so that a closure captures one.
#[derive(Drop)]
pub(crate) struct ScanTask<'s, 'a, J: LockStart, T: Tally, K: Tallies<T>, G: Gate> {
    pub alloc: Global,
    pub gate: &'s G,
    pub shared: &'s Shared<'a, J, T, K>,
    pub end: &'s End,
    pub worker: usize,
    pub share: Share<'a, J, T>,
}

/// The Share of a scan worker comes back with nothing open.
#[derive(Clone, Copy)]
pub(crate) struct Scans {
    pub worker: usize,
}

impl<'a, J: LockStart, T: Tally> Promise<Share<'a, J, T>> for Scans {
    ghost use Rattle.plantturns.specs.Logs.{IsWorker};

    ghost kept_by = { λ p r. IsWorker p.worker r };
}

/// A thread that scans, or the Share where no thread could be made.
#[derive(Drop)]
pub(crate) enum StartedScans<'a, J: LockStart, T: Tally> {
    There(PromisedHandle<Share<'a, J, T>, Scans>),
    Here(Share<'a, J, T>),
}

/// Scans what is ready until the end is told.
fn scan_task<'s, 'a, J: LockStart, T: Tally, K: Tallies<T>, G: Gate, R: Wait + Timer>(
    rt: &R,
    task: ScanTask<'s, 'a, J, T, K, G>,
) -> Share<'a, J, T>
    requires worker { IsWorker task.worker task.share }
    ensures worker { IsWorker task.entry.worker result }
{
    let ScanTask {
        alloc,
        gate,
        shared,
        end,
        worker,
        mut share,
    } = task;
    let _told = serve_tasks(rt, alloc, gate, shared, end, worker, &mut share);
    share
}

/// Starts a scan worker in a thread of its own. Where none can be made the end is told, and it
/// works here.
pub(crate) fn start_scans<
    't,
    's,
    'a,
    E,
    J: LockStart + Send + Sync,
    T: Tally + Send,
    K: Tallies<T> + Send,
    G: Gate,
    R: Threads + Wait + Timer + Sync,
>(rt: &'t R, scope: &Scope<'t, E>, task: ScanTask<'s, 'a, J, T, K, G>) -> StartedScans<'a, J, T>
where
    's: 't,
    'a: 't,
    J: 't,
    T: 't,
    K: 't,
    G: 't,
    requires worker { IsWorker task.worker task.share }
    ensures { IsStartedScans task.entry.worker result }
{
    let end = task.end;
    let promise = Scans {
        worker: task.worker,
    };
    let job = move ||
        requires worker { IsWorker task.worker task.share }
        ensures worker { IsWorker task.entry.worker result }
    { scan_task(rt, task) };
    match scope.spawn_with(promise, job) {
        Ok(child) => StartedScans::There(child),
        Err(refused) => {
            let _told = end.tell(rt, Ended::NoThread);
            StartedScans::Here((refused.value)())
        }
    }
}

/// Waits for a scan worker.
pub(crate) fn finish_scans<'a, J: LockStart + Send + Sync, T: Tally + Send, R: Threads + Wait>(
    rt: &R,
    started: StartedScans<'a, J, T>,
) -> Share<'a, J, T>
    ensures { (worker : ℕ) → IsStartedScans worker started.entry → IsWorker worker result }
{
    match started {
        StartedScans::There(child) => child.join(rt),
        StartedScans::Here(share) => share,
    }
}
