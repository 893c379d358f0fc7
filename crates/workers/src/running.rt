//! A run, from the plant's opening to its close.

ghost use Rattle.std.specs.Prelude.{◌≡◌, ◌+◌, ◌≤◌, true, length, vec_len, IfOk, IfErr, MatchResult};
ghost use Rattle.limits.specs.Limits.{most_buses};
ghost use Rattle.plant.specs.declared.open_fault.OpenFault.TheVariants.{Memory};
ghost use Rattle.plant.specs.Shown.{IsWorkerCount, is_full};
ghost use Rattle.plantturns.specs.Tied.{IsFront};
ghost use Rattle.plantturns.specs.Open.{HasNothingOpen};
ghost use Rattle.workers.specs.Beginnings.{IsInStep};
ghost use Rattle.workers.specs.Closings.{IsClosed};
ghost use Rattle.workers.specs.Runs.{HasEndedQuietly, HasRun, IsNotStarted};
ghost use Rattle.workers.specs.declared.ended.Ended.TheVariants.{Asked, Limit};

use crate::beginning::{NotBegun, RunParts, begin};
use crate::closed::{Closed, NotStarted};
use crate::closing::close;
use crate::ended::End;
use crate::leaving::leave;
use crate::worker_threads::WorkerContext;
use crate::working::{AllWorkers, WorkResult, work};
use buslink::{Bus, Clock};
use ilcompile::Setup;
use plant::{OpenFault, Plant};
use planttallies::{LedgerNames, NewTallies, Tallies, Tally};
use plantturns::{Gate, Links, LockStart, NotedPart, Shared};
use std::alloc::{AllocError, Global};
use std::marker::Brand;
use std::sync::{OnceLock, Wait};
use std::thread::Threads;
use std::time::Clock as Timer;

/// What a run is opened with: what a text was loaded to, and the most events of its history, 100 to
/// 1,000,000.
#[derive(Drop)]
pub struct Opening {
    pub setup: Setup,
    pub limit: u64,
}

/// So many cells, none of which was written.
pub(crate) fn new_cells(alloc: Global, count: u64) -> Result<Vec<OnceLock<NotedPart>>, AllocError>
    ensures { IfOk result (λ cells. length cells.items ≡ count) }
{
    let mut cells = Vec::new(alloc);
    for _cell in 0..count {
        cells.push(OnceLock::new())?;
    }
    Ok(cells)
}

/// A run over cells and ledgers that are new, from a plant in which nothing is open.
pub(crate) fn run_named<
    'a,
    B: Bus + Send,
    C: Clock + Send,
    J: LockStart + Links + Send + Sync,
    N: LedgerNames + Send + Sync,
    G: Gate,
    R: Threads + Wait + Timer + Sync,
>(
    rt: &R,
    alloc: Global,
    plant: Plant,
    cells: &'a [OnceLock<NotedPart>],
    new_tallies: NewTallies,
    lines: Vec<B>,
    clock: C,
    gate: &G,
) -> Result<Closed<B, C>, NotBegun<B, C>>
    requires start { plant ≡ J.start }
    requires idle { HasNothingOpen J.start }
    requires cells { (cells.now ≡ J.cells)
        × (J.start.limit ≤ length J.start.history + length J.cells) }
    requires names { new_tallies ≡ N.names }
    requires links { IsInStep J.start J.buses J.clock B.log C.log lines.items clock }
    requires workers { IsWorkerCount J.start.plant.workers }
    requires buses { (vec_len lines ≡ J.start.plant.plan.buses) × (vec_len lines ≤ most_buses) }
    ensures closed { IfOk result (IsClosed J.start.plant J.buses J.clock B.log C.log) }
    ensures ended { IfOk result
        (λ c. c.ended ≡ Asked → HasEndedQuietly J.buses J.clock B.log C.log c) }
    ensures full { IfOk result (λ c. c.ended ≡ Limit → is_full c.plant ≡ true) }
    ensures front { IfOk result (λ c. IsFront J.start.history c.plant.history) }
    ensures limit { IfOk result (λ c. c.plant.limit ≡ J.start.limit) }
    ensures count { IfOk result (λ c. length c.buses.items ≡ vec_len lines) }
    ensures err { IfErr result (λ e. (e.plant ≡ plant) × (e.lines ≡ lines) × (e.clock ≡ clock)) }
{
    let is_first = plant.len() == 0;
    let run_parts = begin::<B, C, J, N>(alloc, plant, cells, new_tallies, lines, clock)?;
    let RunParts {
        shared,
        linked,
        bus_lists,
        thread_lists,
    } = run_parts;
    let end = End::new();
    let all_workers = AllWorkers {
        context: WorkerContext {
            alloc,
            gate,
            shared: &shared,
            end: &end,
        },
        linked,
        thread_lists,
        is_first,
    };
    let WorkResult { linked, ended } = work(rt, all_workers);
    let ended = end.cut_short().unwrap_or(ended);
    let closed = close(shared, linked, bus_lists, ended);
    let parts = leave(alloc, gate, closed);
    Ok(Closed { parts })
}

/// A run that does not start for want of memory.
fn not_started<B: Bus, C: Clock>(refused: NotBegun<B, C>) -> NotStarted<B, C>
    ensures fault { result.fault ≡ Memory }
    ensures links { (result.buses ≡ refused.lines) × (result.clock ≡ refused.clock) }
{
    let NotBegun { lines, clock, .. } = refused;
    NotStarted {
        fault: OpenFault::Memory,
        buses: lines,
        clock,
    }
}

/// Runs a plant over its buses and its clock, in a thread for each scan worker and each bus, until
/// the clock gives no moment more, the history is full, or memory or a thread is refused. Then
/// nothing is open: the history is legal, and what went over each link since the start is what the
/// history says. After the clock's end, what is left to be done is done here. Where the run ended
/// so, the clock was asked in it, and each bus that is not down was asked to hear. Where the
/// history is full, its length and the places that are kept leave none for an event and the one
/// that it keeps.
///
/// # Errors
///
/// There are not 1 to 16 scan workers, or not as many buses as the plan has; else the limit is not
/// 100 to 1,000,000, or below 500 with more than 16 buses; else the allocator is out of memory.
/// Nothing was sent, heard or asked.
pub fn run<B: Bus + Send, C: Clock + Send, G: Gate, R: Threads + Wait + Timer + Sync>(
    rt: &R,
    alloc: Global,
    opening: Opening,
    buses: Vec<B>,
    clock: C,
    workers: usize,
    gate: &G,
) -> Result<Closed<B, C>, NotStarted<B, C>>
    ensures run { MatchResult result
        (HasRun opening.setup workers opening.limit buses.items clock B.log C.log)
        (IsNotStarted opening.setup workers opening.limit buses.items clock) }
{
    let Opening { setup, limit } = opening;
    let _within = setup.plan().buses();
    if buses.len() != usize::from(setup.plan().buses()) {
        return Err(NotStarted {
            fault: OpenFault::BadCount,
            buses,
            clock,
        });
    }
    let plant = match Plant::open(alloc, setup, workers, limit) {
        Ok(plant) => plant,
        Err(fault) => {
            return Err(NotStarted {
                fault,
                buses,
                clock,
            });
        }
    };
    let Ok(cells) = new_cells(alloc, limit) else {
        return Err(NotStarted {
            fault: OpenFault::Memory,
            buses,
            clock,
        });
    };
    let run = run_named::<B, C, Brand, Brand, G, R>(
        rt,
        alloc,
        plant,
        cells.as_slice(),
        NewTallies::new(),
        buses,
        clock,
        gate,
    );
    match run {
        Ok(left) => Ok(left),
        Err(refused) => Err(not_started(refused)),
    }
}
