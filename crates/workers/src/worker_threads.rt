//! All workers at once: one thread for each bus and each scan worker.

ghost use Rattle.std.specs.Prelude.{◌≡◌, ◌+◌, ◌<◌, ◌≤◌, [], length, vec_len, vec_capacity};
ghost use Rattle.limits.specs.Limits.{most_buses};
ghost use Rattle.workers.specs.WorkerThreads.{AreStartedBuses, AreStartedScans};
ghost use Rattle.workers.specs.LinkedShares.{AreServed, AreWorkers};

use crate::bus_threads::{BusTask, StartedBus, finish_bus, start_bus};
use crate::ended::End;
use crate::scan_threads::{ScanTask, StartedScans, finish_scans, start_scans};
use buslink::Bus;
use planttallies::{Tallies, Tally};
use plantturns::{BusWithShare, Gate, Links, LockStart, Share, Shared};
use std::alloc::Global;
use std::sync::Wait;
use std::thread::{Scope, Threads};
use std::time::Clock as Timer;

/// What all workers share.
#[derive(Drop)]
pub(crate) struct WorkerContext<'s, 'a, J: LockStart, T: Tally, K: Tallies<T>, G: Gate> {
    pub alloc: Global,
    pub gate: &'s G,
    pub shared: &'s Shared<'a, J, T, K>,
    pub end: &'s End,
}

/// Starts the worker of each bus.
pub(crate) fn start_buses<
    't,
    's,
    'a,
    E,
    B: Bus + Send,
    J: LockStart + Links + Send + Sync,
    T: Tally + Send,
    K: Tallies<T> + Send,
    G: Gate,
    R: Threads + Wait + Timer + Sync,
>(
    rt: &'t R,
    scope: &Scope<'t, E>,
    context: &WorkerContext<'s, 'a, J, T, K, G>,
    buses: &mut Vec<BusWithShare<'a, B, J, T>>,
    started: &mut Vec<StartedBus<'a, B, J, T>>,
)
where
    's: 't,
    'a: 't,
    B: 't,
    J: 't,
    T: 't,
    K: 't,
    G: 't,
    requires few { vec_len buses.old ≤ most_buses }
    requires none { started.old.items ≡ [] }
    requires room { vec_len buses.old ≤ vec_capacity started.old }
    requires served { AreServed J.buses B.log 0 buses.old.items }
    ensures started { AreStartedBuses J.buses B.log started.new.items }
    ensures count { length started.new.items ≡ length buses.old.items }
    ensures left { (buses.new.items ≡ []) × (vec_capacity buses.new ≡ vec_capacity buses.old) }
{
    let count = buses.len() as u8;
    for bus in 0..count {
        let served = buses.remove(0);
        let task = BusTask {
            gate: context.gate,
            shared: context.shared,
            end: context.end,
            bus,
            served,
        };
        started.push_reserved(start_bus(rt, scope, task));
    }
}

/// Waits for the worker of each bus.
pub(crate) fn finish_buses<
    'a,
    B: Bus + Send,
    J: LockStart + Links + Send + Sync,
    T: Tally + Send,
    R: Threads + Wait,
>(rt: &R, started: &mut Vec<StartedBus<'a, B, J, T>>, buses: &mut Vec<BusWithShare<'a, B, J, T>>)
    requires none { buses.old.items ≡ [] }
    requires room { vec_len started.old ≤ vec_capacity buses.old }
    requires started { AreStartedBuses J.buses B.log started.old.items }
    ensures served { AreServed J.buses B.log 0 buses.new.items }
    ensures count { length buses.new.items ≡ length started.old.items }
{
    for _bus in 0..started.len() {
        let served = finish_bus(rt, started.remove(0));
        buses.push_reserved(served);
    }
}

/// Starts each scan worker.
pub(crate) fn start_workers<
    't,
    's,
    'a,
    E,
    J: LockStart + Send + Sync,
    T: Tally + Send,
    K: Tallies<T> + Send,
    G: Gate,
    R: Threads + Wait + Timer + Sync,
>(
    rt: &'t R,
    scope: &Scope<'t, E>,
    context: &WorkerContext<'s, 'a, J, T, K, G>,
    workers: &mut Vec<Share<'a, J, T>>,
    started: &mut Vec<StartedScans<'a, J, T>>,
)
where
    's: 't,
    'a: 't,
    J: 't,
    T: 't,
    K: 't,
    G: 't,
    requires none { started.old.items ≡ [] }
    requires room { vec_len workers.old ≤ vec_capacity started.old }
    requires workers { AreWorkers 0 workers.old.items }
    ensures started { AreStartedScans started.new.items }
    ensures count { length started.new.items ≡ length workers.old.items }
    ensures left { (workers.new.items ≡ []) × (vec_capacity workers.new ≡ vec_capacity workers.old) }
{
    for worker in 0..workers.len() {
        let share = workers.remove(0);
        let task = ScanTask {
            alloc: context.alloc,
            gate: context.gate,
            shared: context.shared,
            end: context.end,
            worker,
            share,
        };
        started.push_reserved(start_scans(rt, scope, task));
    }
}

/// Waits for each scan worker.
pub(crate) fn finish_workers<'a, J: LockStart + Send + Sync, T: Tally + Send, R: Threads + Wait>(
    rt: &R,
    started: &mut Vec<StartedScans<'a, J, T>>,
    workers: &mut Vec<Share<'a, J, T>>,
)
    requires none { workers.old.items ≡ [] }
    requires room { vec_len started.old ≤ vec_capacity workers.old }
    requires started { AreStartedScans started.old.items }
    ensures workers { AreWorkers 0 workers.new.items }
    ensures count { length workers.new.items ≡ length started.old.items }
{
    for _worker in 0..started.len() {
        let share = finish_scans(rt, started.remove(0));
        workers.push_reserved(share);
    }
}
