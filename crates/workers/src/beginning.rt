//! The lock, the Shares with their links, and the lists of threads, before the first thread begins.

ghost use Rattle.std.specs.Prelude.{◌≡◌, ◌+◌, ◌≤◌, [], length, map, vec_len, vec_capacity, IfOk, IfErr};
ghost use Rattle.plantturns.specs.Open.{HasNothingOpen};
ghost use Rattle.plant.specs.Shown.{IsWorkerCount};
ghost use Rattle.std.specs.List.{range_with_len};
ghost use Rattle.limits.specs.Limits.{most_buses, most_seats};
ghost use Rattle.planttallies.specs.Openings.{fresh};
ghost use Rattle.workers.specs.Beginnings.{AreRunParts, IsInStep};
ghost use Rattle.workers.specs.WorkerThreads.{HasThreadRoom};

use crate::closing::BusLists;
use crate::linked_shares::LinkedShares;
use crate::pairing::put_together;
use crate::working::ThreadLists;
use buslink::{Bus, Clock};
use plant::Plant;
use plantevents::{what_a_part_shows, what_a_part_shows_of_links};
use planttallies::{LedgerNames, LockTallies, NewTallies, ThreadTally};
use plantturns::{BusWithShare, ClockWithShare, Links, LockStart, NotedPart, Shared, Shares};
use std::alloc::{AllocError, Global};
use std::sync::OnceLock;

/// What a run begins with.
#[derive(Drop)]
pub(crate) struct RunParts<'a, B: Bus, C: Clock, J: LockStart + Links, N: LedgerNames> {
    pub shared: Shared<'a, J, ThreadTally<N>, LockTallies<N>>,
    pub linked: LinkedShares<'a, B, C, J, ThreadTally<N>>,
    pub bus_lists: BusLists<'a, B, J, ThreadTally<N>>,
    pub thread_lists: ThreadLists<'a, B, J, ThreadTally<N>>,
}

/// What did not begin, as it was.
#[derive(Drop)]
pub(crate) struct NotBegun<B: Bus, C: Clock> {
    pub plant: Plant,
    pub lines: Vec<B>,
    pub clock: C,
}

/// An empty list with room for the given number of items.
fn room_for<X: Drop>(alloc: Global, count: usize) -> Result<Vec<X>, AllocError>
    ensures { IfOk result (λ v. (v.items ≡ []) × (count ≤ vec_capacity v)) }
{
    let mut list = Vec::new(alloc);
    list.reserve(count)?;
    Ok(list)
}

/// What is made before the lock: the ledgers, and room for the links with their Shares and for the
/// threads.
#[derive(Drop)]
struct Allocations<'a, B: Bus, J: LockStart + Links, N: LedgerNames> {
    thread_lists: ThreadLists<'a, B, J, ThreadTally<N>>,
    served: Vec<BusWithShare<'a, B, J, ThreadTally<N>>>,
    tallies: LockTallies<N>,
    thread_tallies: Vec<ThreadTally<N>>,
}

/// Makes what is made before the lock, for the given number of buses and scan workers.
fn allocate<'a, B: Bus, J: LockStart + Links, N: LedgerNames>(
    alloc: Global,
    new_tallies: NewTallies,
    buses: usize,
    workers: usize,
) -> Result<Allocations<'a, B, J, N>, AllocError>
    requires names { new_tallies ≡ N.names }
    ensures thread_lists { IfOk result (λ made. HasThreadRoom buses workers made.thread_lists) }
    ensures served { IfOk result
        (λ made. (made.served.items ≡ []) × (buses ≤ vec_capacity made.served)) }
    ensures thread_tallies { IfOk result
        (λ made. made.thread_tallies.items ≡ map fresh (range_with_len 0 most_seats)) }
{
    // (first, so that nothing but the call lets go of the new tallies)
    let (tallies, thread_tallies) = new_tallies.open::<N>(alloc)?;
    let thread_lists = ThreadLists::new(alloc, buses, workers)?;
    let served = room_for(alloc, buses)?;
    Ok(Allocations {
        thread_lists,
        served,
        tallies,
        thread_tallies,
    })
}

/// The lock round the plant, and its Shares with their links. What became of the links goes with
/// the plant's history, in which nothing is open.
///
/// # Errors
///
/// The allocator is out of memory. All comes back as it was.
pub(crate) fn begin<'a, B: Bus, C: Clock, J: LockStart + Links, N: LedgerNames>(
    alloc: Global,
    plant: Plant,
    cells: &'a [OnceLock<NotedPart>],
    new_tallies: NewTallies,
    lines: Vec<B>,
    clock: C,
) -> Result<RunParts<'a, B, C, J, N>, NotBegun<B, C>>
    requires start { plant ≡ J.start }
    requires idle { HasNothingOpen J.start }
    requires cells { (cells.now ≡ J.cells)
        × (J.start.limit ≤ length J.start.history + length J.cells) }
    requires names { new_tallies ≡ N.names }
    requires links { IsInStep J.start J.buses J.clock B.log C.log lines.items clock }
    requires workers { IsWorkerCount J.start.plant.workers }
    requires buses { (vec_len lines ≡ J.start.plant.plan.buses) × (vec_len lines ≤ most_buses) }
    ensures run_parts { IfOk result (AreRunParts J.start.plant J.buses J.clock B.log C.log) }
    ensures err { IfErr result (λ e. (e.plant ≡ plant) × (e.lines ≡ lines) × (e.clock ≡ clock)) }
{
    what_a_part_shows();
    what_a_part_shows_of_links();
    let mut lines = lines;
    let count = lines.len();
    let Ok(made) = allocate::<B, J, N>(alloc, new_tallies, count, plant.workers()) else {
        return Err(NotBegun {
            plant,
            lines,
            clock,
        });
    };
    let Allocations {
        thread_lists,
        mut served,
        tallies,
        thread_tallies,
    } = made;
    let (shared, shares) = match Shared::new(alloc, plant, cells, tallies, thread_tallies) {
        Ok(made) => made,
        Err(plant) => {
            return Err(NotBegun {
                plant,
                lines,
                clock,
            });
        }
    };
    let Shares {
        workers,
        buses: mut shares,
        clock: share,
    } = shares;
    put_together(&mut lines, &mut shares, &mut served);
    Ok(RunParts {
        shared,
        linked: LinkedShares {
            buses: served,
            workers,
            timed: ClockWithShare { clock, share },
        },
        bus_lists: BusLists { lines, shares },
        thread_lists,
    })
}
