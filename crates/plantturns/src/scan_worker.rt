//! A turn of a scan worker.

ghost use Rattle.plantturns.specs.Logs.{IsWorker};
ghost use Rattle.plantturns.specs.Outcomes.{ScansTurn};
ghost use Rattle.plantturns.specs.TurnSteps.{IsUnwritten, ScansOnce};

use crate::bus_worker::turn_where_refused;
use crate::turn::Turn;
use ilmachine::scan_into;
use plantdriving::{Halt, Happened, Observer};
use plantlock::{LockStart, Share, Shared};
use planttallies::{Tallies, Tally};
use std::alloc::Global;
use std::io;
use std::sync::Wait;

/// Tells that a scan was committed, unless it failed to tell that its task was taken.
fn tell_scan<B, O: Observer<B>>(
    observer: &mut O,
    took: io::Result<()>,
    place: u64,
    worker: usize,
    task: usize,
    steps: u32,
) -> io::Result<()> {
    took?;
    let committed = Happened::Committed {
        worker,
        task,
        steps,
    };
    observer.note(place, committed)
}

/// Takes a task under the lock, makes its scan outside the lock, and commits it under the lock.
/// Nothing is open afterwards. What an observer fails to keep is answered then.
fn scan_once<'a, B, J: LockStart, T: Tally, K: Tallies<T>, O: Observer<B>, R: Wait>(
    rt: &R,
    alloc: Global,
    observer: &mut O,
    shared: &Shared<'a, J, T, K>,
    worker: usize,
    share: &mut Share<'a, J, T>,
) -> Result<(), Halt>
    requires worker { IsWorker worker share.old }
    ensures worker { IsWorker worker share.new }
    ensures scans { ScansOnce J.start worker share.old share.new result }
{
    let order = shared.take(rt, alloc, share, worker)?;
    let task = order.task;
    let took = observer.note(order.number, Happened::Took { worker, task });
    let scan = scan_into(order.work);
    let steps = scan.steps();
    let Ok(()) = shared.commit(rt, share, worker, scan) else {
        unreachable!()
    };
    tell_scan::<B, O>(observer, took, share.last_place(), worker, task, steps)?;
    Ok(())
}

/// Makes the next scan, where a task is ready. Nothing is open afterwards.
///
/// # Errors
///
/// The allocator is out of memory, the history is full, or an observer failed. Nothing is open
/// then, either.
pub fn scan_turn<'a, B, J: LockStart, T: Tally, K: Tallies<T>, O: Observer<B>, R: Wait>(
    rt: &R,
    alloc: Global,
    observer: &mut O,
    shared: &Shared<'a, J, T, K>,
    worker: usize,
    share: &mut Share<'a, J, T>,
) -> Result<Turn, Halt>
    requires worker { IsWorker worker share.old }
    ensures worker { IsWorker worker share.new }
    ensures scans { ScansTurn J.start worker share.old share.new result }
{
    match scan_once::<B, J, T, K, O, R>(rt, alloc, observer, shared, worker, share) {
        Ok(()) => Ok(Turn::Busy),
        Err(halt) => turn_where_refused(halt),
    }
}
