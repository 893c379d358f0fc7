//! Threads that serve buses.

ghost use Rattle.std.specs.Prelude.{ℕ};
ghost use Rattle.plantturns.specs.Links.{log_of};
ghost use Rattle.plantturns.specs.Logs.{IsServed};
ghost use Rattle.workers.specs.Started.{IsStartedBus};

use crate::ended::{End, Ended};
use crate::serving::serve_bus;
use buslink::Bus;
use planttallies::{Tallies, Tally};
use plantturns::{BusWithShare, Gate, Links, LockStart, Shared};
use std::sync::Wait;
use std::thread::{Promise, PromisedHandle, Scope, Threads};
use std::time::Clock as Timer;

/// The work of a bus's worker. It is one value, so that a closure captures one.
#[derive(Drop)]
pub(crate) struct BusTask<'s, 'a, B: Bus, J: LockStart, T: Tally, K: Tallies<T>, G: Gate> {
    pub gate: &'s G,
    pub shared: &'s Shared<'a, J, T, K>,
    pub end: &'s End,
    pub bus: u8,
    pub served: BusWithShare<'a, B, J, T>,
}

/// A bus comes back with what its Share has receipts for.
#[derive(Clone, Copy)]
pub(crate) struct Serves {
    pub bus: u8,
}

impl<'a, B: Bus, J: LockStart + Links, T: Tally> Promise<BusWithShare<'a, B, J, T>> for Serves {
    ghost use Rattle.plantturns.specs.Links.{log_of};
    ghost use Rattle.plantturns.specs.Logs.{IsServed};

    ghost kept_by = { λ p r. IsServed (log_of J.buses p.bus) p.bus r.share (B.log r.line) };
}

/// A thread that serves a bus, or what became of the bus where no thread could be made.
#[derive(Drop)]
pub(crate) enum StartedBus<'a, B: Bus, J: LockStart + Links, T: Tally> {
    There(PromisedHandle<BusWithShare<'a, B, J, T>, Serves>),
    Here(BusWithShare<'a, B, J, T>),
}

/// Serves a bus until the end is told.
fn serve_task<
    's,
    'a,
    B: Bus,
    J: LockStart + Links,
    T: Tally,
    K: Tallies<T>,
    G: Gate,
    R: Wait + Timer,
>(rt: &R, task: BusTask<'s, 'a, B, J, T, K, G>) -> BusWithShare<'a, B, J, T>
    requires served { IsServed (log_of J.buses task.bus) task.bus task.served.share
        (B.log task.served.line) }
    ensures served { IsServed (log_of J.buses task.entry.bus) task.entry.bus result.share
        (B.log result.line) }
{
    let BusTask {
        gate,
        shared,
        end,
        bus,
        mut served,
    } = task;
    let _told = serve_bus(rt, gate, shared, end, bus, &mut served);
    served
}

/// Starts the worker of a bus in a thread of its own. Where none can be made the end is told, and
/// the bus is served here.
pub(crate) fn start_bus<
    't,
    's,
    'a,
    E,
    B: Bus + Send,
    J: LockStart + Links + Send + Sync,
    T: Tally + Send,
    K: Tallies<T> + Send,
    G: Gate,
    R: Threads + Wait + Timer + Sync,
>(rt: &'t R, scope: &Scope<'t, E>, task: BusTask<'s, 'a, B, J, T, K, G>) -> StartedBus<'a, B, J, T>
where
    's: 't,
    'a: 't,
    B: 't,
    J: 't,
    T: 't,
    K: 't,
    G: 't,
    requires served { IsServed (log_of J.buses task.bus) task.bus task.served.share
        (B.log task.served.line) }
    ensures { IsStartedBus J.buses B.log task.entry.bus result }
{
    let end = task.end;
    let promise = Serves { bus: task.bus };
    let job = move ||
        requires served { IsServed (log_of J.buses task.bus) task.bus task.served.share
            (B.log task.served.line) }
        ensures served { IsServed (log_of J.buses task.entry.bus) task.entry.bus result.share
            (B.log result.line) }
    { serve_task(rt, task) };
    match scope.spawn_with(promise, job) {
        Ok(child) => StartedBus::There(child),
        Err(refused) => {
            let _told = end.tell(rt, Ended::NoThread);
            StartedBus::Here((refused.value)())
        }
    }
}

/// Waits for the worker of a bus.
pub(crate) fn finish_bus<
    'a,
    B: Bus + Send,
    J: LockStart + Links + Send + Sync,
    T: Tally + Send,
    R: Threads + Wait,
>(rt: &R, started: StartedBus<'a, B, J, T>) -> BusWithShare<'a, B, J, T>
    ensures { (bus : ℕ) → IsStartedBus J.buses B.log bus started.entry
        → IsServed (log_of J.buses bus) bus result.share (B.log result.line) }
{
    match started {
        StartedBus::There(child) => child.join(rt),
        StartedBus::Here(served) => served,
    }
}
