//! The Shares of all roles.

ghost use Rattle.std.specs.Prelude.{◌≡◌, ◌≢◌, ℕ, ◌+◌, ◌<◌, ◌≤◌, OnOk, IfOk};
ghost use Rattle.plantevents.specs.declared.role.Role.TheVariants as roles;
ghost use Rattle.limits.specs.Limits.{most_buses, most_seats, most_workers};
ghost use Rattle.plantreceipts.specs.Opened.{AreFreshShares};
ghost use Rattle.plantreceipts.specs.Receipts.{IsFresh, AreFresh, IsRole, index_of};
ghost use Rattle.plantreceipts.specs.Seats.{AreCounted, AreUnused, IsNextTally};
ghost use Rattle.plantreceipts.specs.Tokens.{one_if};

use crate::lock_start::LockStart;
use crate::share::Share;
use limits::{MOST_BUSES, MOST_WORKERS};
use plant::Plant;
use plantevents::Role;
use planttallies::{Tallies, Tally};
use std::alloc::{AllocError, Global};

/// The Share of each role.
#[derive(Drop)]
pub struct Shares<'a, J: LockStart, T: Tally> {
    /// Those of the scan workers, by their numbers.
    pub workers: Vec<Share<'a, J, T>>,
    /// Those of the buses, by their numbers.
    pub buses: Vec<Share<'a, J, T>>,
    /// That of the clock.
    pub clock: Share<'a, J, T>,
}

/// The tally of the next seat.
fn next_tally<T: Tally>(thread_tallies: &mut Vec<T>) -> T
    requires { (n : ℕ) × (n < most_seats) × AreUnused T.seat T.amount n thread_tallies.old.items }
    ensures { (n : ℕ) → n < most_seats → AreUnused T.seat T.amount n thread_tallies.old.items
        → IsNextTally T.seat T.amount n result thread_tallies.new.items }
{
    thread_tallies.remove(0)
}

/// Passes over the tallies of the given number of seats, which have no role.
fn skip_tallies<T: Tally>(thread_tallies: &mut Vec<T>, seats: usize)
    requires { (n : ℕ) × (n + seats ≤ most_seats)
        × AreUnused T.seat T.amount n thread_tallies.old.items }
    ensures { (n : ℕ) → n + seats ≤ most_seats
        → AreUnused T.seat T.amount n thread_tallies.old.items
        → AreUnused T.seat T.amount (n + seats) thread_tallies.new.items }
{
    for _seat in 0..seats {
        let _unused = next_tally(thread_tallies);
    }
}

/// The Share of the role whose seat is the next.
fn next_share<'a, J: LockStart, T: Tally, K: Tallies<T>>(
    plant: &Plant,
    role: Role,
    tallies: &mut K,
    thread_tallies: &mut Vec<T>,
) -> Share<'a, J, T>
    requires start { plant.now ≡ J.start }
    requires known { IsRole J.start.plant role }
    requires unused { AreUnused T.seat T.amount (index_of role) thread_tallies.old.items }
    ensures fresh { IsFresh J.start role result }
    ensures unused { AreUnused T.seat T.amount (index_of role + 1) thread_tallies.new.items }
    ensures counted { AreCounted J.start (K.number tallies.old) (index_of role)
        → AreCounted J.start (K.number tallies.new) (index_of role + 1) }
{
    let mut tally = next_tally(thread_tallies);
    let reserved = plant.keeps(role);
    count_place(tallies, &mut tally, reserved);
    Share::new(plant.len(), role, reserved, tally)
}

/// Counts a place that is kept back before the first event.
fn count_place<T: Tally, K: Tallies<T>>(tallies: &mut K, tally: &mut T, reserved: bool)
    requires { T.amount tally.old ≡ 0 }
    ensures mine { K.number tallies.new (T.seat tally.old) ≡ one_if reserved }
    ensures others { (k : ℕ × ℕ) → k ≢ T.seat tally.old
        → K.number tallies.new k ≡ K.number tallies.old k }
    ensures seat { T.seat tally.new ≡ T.seat tally.old }
    ensures amount { T.amount tally.new ≡ one_if reserved }
{
    if reserved {
        tallies.add(tally, 1);
    } else {
        tallies.audit(tally);
    }
}

/// The Shares of the scan workers.
fn worker_shares<'a, J: LockStart, T: Tally, K: Tallies<T>>(
    alloc: Global,
    plant: &Plant,
    tallies: &mut K,
    thread_tallies: &mut Vec<T>,
) -> Result<Vec<Share<'a, J, T>>, AllocError>
    requires start { plant.now ≡ J.start }
    requires seated { J.start.plant.workers ≤ most_workers }
    requires unused { AreUnused T.seat T.amount 0 thread_tallies.old.items }
    ensures shares { IfOk result
        (λ v. AreFresh J.start roles.Worker J.start.plant.workers v.items) }
    ensures unused { OnOk result (AreUnused T.seat T.amount most_workers thread_tallies.new.items) }
    ensures counted { OnOk result (AreCounted J.start (K.number tallies.new) most_workers) }
{
    let mut shares = Vec::new(alloc);
    let workers = plant.workers();
    for worker in 0..workers {
        let share = next_share(plant, Role::Worker(worker), tallies, thread_tallies);
        shares.push(share)?;
    }
    skip_tallies(thread_tallies, MOST_WORKERS - workers);
    Ok(shares)
}

/// The Shares of the buses.
fn bus_shares<'a, J: LockStart, T: Tally, K: Tallies<T>>(
    alloc: Global,
    plant: &Plant,
    tallies: &mut K,
    thread_tallies: &mut Vec<T>,
) -> Result<Vec<Share<'a, J, T>>, AllocError>
    requires start { plant.now ≡ J.start }
    requires seated { J.start.plant.plan.buses ≤ most_buses }
    requires unused { AreUnused T.seat T.amount most_workers thread_tallies.old.items }
    requires counted { AreCounted J.start (K.number tallies.old) most_workers }
    ensures shares { IfOk result
        (λ v. AreFresh J.start roles.Bus J.start.plant.plan.buses v.items) }
    ensures unused { OnOk result
        (AreUnused T.seat T.amount (most_workers + most_buses) thread_tallies.new.items) }
    ensures counted { OnOk result
        (AreCounted J.start (K.number tallies.new) (most_workers + most_buses)) }
{
    let mut shares = Vec::new(alloc);
    let buses = plant.setup().plan().buses();
    for bus in 0..buses {
        let share = next_share(plant, Role::Bus(bus), tallies, thread_tallies);
        shares.push(share)?;
    }
    skip_tallies(thread_tallies, usize::from(MOST_BUSES - buses));
    Ok(shares)
}

impl<'a, J: LockStart, T: Tally> Shares<'a, J, T> {
    /// The Share of each role of a plant, without a receipt. The lock's tallies then say which
    /// roles have a place kept back.
    ///
    /// # Errors
    ///
    /// The allocator is out of memory.
    pub fn of<K: Tallies<T>>(
        alloc: Global,
        plant: &Plant,
        tallies: &mut K,
        thread_tallies: Vec<T>,
    ) -> Result<Shares<'a, J, T>, AllocError>
        requires start { plant.now ≡ J.start }
        requires workers { J.start.plant.workers ≤ most_workers }
        requires buses { J.start.plant.plan.buses ≤ most_buses }
        requires unused { AreUnused T.seat T.amount 0 thread_tallies.items }
        ensures fresh { IfOk result (AreFreshShares J.start) }
        ensures counted { OnOk result (AreCounted J.start (K.number tallies.new) most_seats) }
    {
        let mut thread_tallies = thread_tallies;
        let workers = worker_shares(alloc, plant, tallies, &mut thread_tallies)?;
        let buses = bus_shares(alloc, plant, tallies, &mut thread_tallies)?;
        let clock = next_share(plant, Role::Clock, tallies, &mut thread_tallies);
        Ok(Shares {
            workers,
            buses,
            clock,
        })
    }
}
