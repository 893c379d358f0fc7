//! All workers, until the end is told.

ghost use Rattle.std.specs.Prelude.{◌≡◌, IfOk};
ghost use Rattle.plantturns.specs.Logs.{HasEnded};
ghost use Rattle.workers.specs.WorkerThreads.{AreReadyToStart, HasThreadRoom};
ghost use Rattle.workers.specs.LinkedShares.{AreLinkedShares, HasSameCounts};
ghost use Rattle.workers.specs.declared.ended.Ended.TheVariants.{Asked};

use crate::bus_threads::StartedBus;
use crate::ended::Ended;
use crate::linked_shares::LinkedShares;
use crate::scan_threads::StartedScans;
use crate::serving::{serve_on, tick_first};
use crate::worker_threads::{
    WorkerContext, finish_buses, finish_workers, start_buses, start_workers,
};
use buslink::{Bus, Clock};
use planttallies::{Tallies, Tally};
use plantturns::{Gate, Links, LockStart};
use std::alloc::{AllocError, Global};
use std::sync::Wait;
use std::thread;
use std::thread::{Scope, Threads};
use std::time::Clock as Timer;

/// Room for the threads, made before the first begins.
#[derive(Drop)]
pub(crate) struct ThreadLists<'a, B: Bus, J: LockStart + Links, T: Tally> {
    pub buses: Vec<StartedBus<'a, B, J, T>>,
    pub workers: Vec<StartedScans<'a, J, T>>,
}

/// The workers with what they share and the lists of their threads. It is one value, so that a
/// closure captures one.
#[derive(Drop)]
pub(crate) struct AllWorkers<
    's,
    'a,
    B: Bus,
    C: Clock,
    J: LockStart + Links,
    T: Tally,
    K: Tallies<T>,
    G: Gate,
> {
    pub context: WorkerContext<'s, 'a, J, T, K, G>,
    pub linked: LinkedShares<'a, B, C, J, T>,
    pub thread_lists: ThreadLists<'a, B, J, T>,
    /// Whether nothing happened yet.
    pub is_first: bool,
}

/// What the workers leave: the Shares with their links, and why the worker of the clock ended.
#[derive(Drop)]
pub(crate) struct WorkResult<'a, B: Bus, C: Clock, J: LockStart, T: Tally> {
    pub linked: LinkedShares<'a, B, C, J, T>,
    pub ended: Ended,
}

impl<'a, B: Bus, J: LockStart + Links, T: Tally> ThreadLists<'a, B, J, T> {
    /// Room for the given number of threads.
    ///
    /// # Errors
    ///
    /// The allocator is out of memory.
    pub(crate) fn new(
        alloc: Global,
        buses: usize,
        workers: usize,
    ) -> Result<ThreadLists<'a, B, J, T>, AllocError>
        ensures { IfOk result (HasThreadRoom buses workers) }
    {
        let mut serving = Vec::new(alloc);
        serving.reserve(buses)?;
        let mut scanning = Vec::new(alloc);
        scanning.reserve(workers)?;
        Ok(ThreadLists {
            buses: serving,
            workers: scanning,
        })
    }
}

/// Starts all threads, asks the clock until it comes to its end, and waits for all threads. Where
/// nothing happened yet, the clock is asked once before the scan workers begin: so no task is
/// scanned before the first moment, and what a timer kept is not measured from 0.
fn work_in<
    't,
    's,
    'a,
    E,
    B: Bus + Send,
    C: Clock,
    J: LockStart + Links + Send + Sync,
    T: Tally + Send,
    K: Tallies<T> + Send,
    G: Gate,
    R: Threads + Wait + Timer + Sync,
>(
    rt: &'t R,
    scope: &Scope<'t, E>,
    all_workers: AllWorkers<'s, 'a, B, C, J, T, K, G>,
) -> WorkResult<'a, B, C, J, T>
where
    's: 't,
    'a: 't,
    B: 't,
    J: 't,
    T: 't,
    K: 't,
    G: 't,
    requires all_workers { AreReadyToStart J.buses J.clock B.log C.log all_workers }
    ensures linked { AreLinkedShares J.buses J.clock B.log C.log result.linked }
    ensures same { HasSameCounts all_workers.entry.linked result.linked }
    ensures asked { result.ended ≡ Asked → HasEnded J.clock (C.log result.linked.timed.clock) }
{
    let AllWorkers {
        context,
        mut linked,
        mut thread_lists,
        is_first,
    } = all_workers;
    start_buses(
        rt,
        scope,
        &context,
        &mut linked.buses,
        &mut thread_lists.buses,
    );
    let over = tick_first(
        rt,
        context.gate,
        context.shared,
        context.end,
        is_first,
        &mut linked.timed,
    );
    start_workers(
        rt,
        scope,
        &context,
        &mut linked.workers,
        &mut thread_lists.workers,
    );
    let ended = serve_on(
        rt,
        context.gate,
        context.shared,
        context.end,
        over,
        &mut linked.timed,
    );
    finish_workers(rt, &mut thread_lists.workers, &mut linked.workers);
    finish_buses(rt, &mut thread_lists.buses, &mut linked.buses);
    WorkResult { linked, ended }
}

/// Lets all workers work until the end is told.
pub(crate) fn work<
    's,
    'a,
    B: Bus + Send,
    C: Clock + Send,
    J: LockStart + Links + Send + Sync,
    T: Tally + Send,
    K: Tallies<T> + Send,
    G: Gate,
    R: Threads + Wait + Timer + Sync,
>(rt: &R, all_workers: AllWorkers<'s, 'a, B, C, J, T, K, G>) -> WorkResult<'a, B, C, J, T>
    requires all_workers { AreReadyToStart J.buses J.clock B.log C.log all_workers }
    ensures linked { AreLinkedShares J.buses J.clock B.log C.log result.linked }
    ensures same { HasSameCounts all_workers.entry.linked result.linked }
    ensures asked { result.ended ≡ Asked → HasEnded J.clock (C.log result.linked.timed.clock) }
{
    thread::scope(
        thread::scope_env(),
        rt,
        |scope|
            requires all_workers { AreReadyToStart J.buses J.clock B.log C.log all_workers }
            ensures linked { AreLinkedShares J.buses J.clock B.log C.log result.linked }
            ensures same { HasSameCounts all_workers.entry.linked result.linked }
            ensures asked { result.ended ≡ Asked
                → HasEnded J.clock (C.log result.linked.timed.clock) }
        { work_in(rt, scope, all_workers) },
    )
}
