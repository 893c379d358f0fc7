//! Turns until nothing is left to do.

ghost use Rattle.std.specs.Prelude.{◌≡◌, ◌≢◌, ℕ, ◌+◌, ◌<◌, vec_len, IfErr, OnOk};
ghost use Rattle.plantdriving.specs.Driven.{CannotGoOn, IsDriven, IsHeard, IsHeardFirst, IsInOrder};
ghost use Rattle.plantdriving.specs.Links.{log_of, logs};
ghost use Rattle.plantdriving.specs.Open.{HasNothingOpen};
ghost use Rattle.plantdriving.specs.Order.{scans_at, sends_at};
ghost use Rattle.plantdriving.specs.Quiet.{HasNoFrame, HasNoHandout, IsQuiet};
ghost use Rattle.plantdriving.specs.Tellings.{TellsEach};
ghost use Rattle.plantdriving.specs.TurnSteps.{AreHeardInOrder, AreQuiet, GoesTo, IsHearing, Tells};

use crate::scanning::scan_all;
use crate::serving::{hear_all, turn};
use crate::{Halt, Observer};
use buslink::Bus;
use plant::Plant;
use std::alloc::Global;

/// The bus of this number hears all that came.
fn hear_at<B: Bus, O: Observer<B>>(
    plant: &mut Plant,
    lines: &mut Vec<B>,
    bus: u8,
    observer: &mut O,
) -> Result<(), Halt>
    requires known { bus < plant.old.plant.plan.buses }
    requires count { vec_len lines.old ≡ plant.old.plant.plan.buses }
    ensures driven { IsDriven plant.old plant.new (logs B.log lines.old) (logs B.log lines.new) }
    ensures only { IsHearing bus plant.old plant.new }
    ensures others { (b : ℕ) → b ≢ bus → log_of (logs B.log lines.new) b
        ≡ log_of (logs B.log lines.old) b }
    ensures silent { OnOk result (HasNoFrame plant.new bus
        (log_of (logs B.log lines.old) bus) (log_of (logs B.log lines.new) bus)) }
    ensures stops { IfErr result (CannotGoOn plant.new) }
    ensures told { TellsEach plant.old plant.new (O.told observer.old) (O.told observer.new)
        result }
{
    hear_all(plant, bus, &mut lines[usize::from(bus)], observer)
}

/// Each bus, in the order of their numbers, hears all that came.
fn hear_buses<B: Bus, O: Observer<B>>(
    plant: &mut Plant,
    lines: &mut Vec<B>,
    observer: &mut O,
) -> Result<(), Halt>
    requires count { vec_len lines.old ≡ plant.old.plant.plan.buses }
    ensures driven { IsDriven plant.old plant.new (logs B.log lines.old) (logs B.log lines.new) }
    ensures heard { OnOk result (IsHeard plant.old plant.new (logs B.log lines.old)
        (logs B.log lines.new)) }
    ensures order { AreHeardInOrder plant.old plant.new }
    ensures stops { IfErr result (CannotGoOn plant.new) }
    ensures told { TellsEach plant.old plant.new (O.told observer.old) (O.told observer.new)
        result }
{
    let buses = plant.setup().plan().buses();
    for bus in 0..buses {
        hear_at(plant, lines, bus, observer)?;
    }
    Ok(())
}

/// A turn of the bus of this number. Whether there was anything to do.
fn turn_at<B: Bus, O: Observer<B>>(
    plant: &mut Plant,
    lines: &mut Vec<B>,
    bus: u8,
    observer: &mut O,
) -> Result<bool, Halt>
    requires known { bus < plant.old.plant.plan.buses }
    requires count { vec_len lines.old ≡ plant.old.plant.plan.buses }
    requires open { HasNothingOpen plant.old }
    ensures driven { IsDriven plant.old plant.new (logs B.log lines.old) (logs B.log lines.new) }
    ensures others { (b : ℕ) → b ≢ bus → log_of (logs B.log lines.new) b
        ≡ log_of (logs B.log lines.old) b }
    ensures turn { Tells plant.old plant.new (HasNoHandout plant.old bus
        × HasNoFrame plant.old bus (log_of (logs B.log lines.old) bus)
        (log_of (logs B.log lines.new) bus)) result }
    ensures goes_on { GoesTo (sends_at bus) (sends_at (bus + 1)) plant.old plant.new result }
    ensures stops { IfErr result (CannotGoOn plant.new) }
    ensures told { TellsEach plant.old plant.new (O.told observer.old) (O.told observer.new)
        result }
{
    turn(plant, bus, &mut lines[usize::from(bus)], observer)
}

/// A turn of each bus, in the order of their numbers. Whether there was anything to do.
fn turn_all<B: Bus, O: Observer<B>>(
    plant: &mut Plant,
    lines: &mut Vec<B>,
    observer: &mut O,
) -> Result<bool, Halt>
    requires count { vec_len lines.old ≡ plant.old.plant.plan.buses }
    requires open { HasNothingOpen plant.old }
    ensures driven { IsDriven plant.old plant.new (logs B.log lines.old) (logs B.log lines.new) }
    ensures turn { Tells plant.old plant.new
        (AreQuiet plant.old (logs B.log lines.old) (logs B.log lines.new)
        plant.old.plant.plan.buses) result }
    ensures goes_on { GoesTo (sends_at 0) (sends_at plant.old.plant.plan.buses)
        plant.old plant.new result }
    ensures stops { IfErr result (CannotGoOn plant.new) }
    ensures told { TellsEach plant.old plant.new (O.told observer.old) (O.told observer.new)
        result }
{
    let mut any = false;
    let buses = plant.setup().plan().buses();
    for bus in 0..buses {
        if turn_at(plant, lines, bus, observer)? {
            any = true;
        }
    }
    Ok(any)
}

/// All scans, and a turn of each bus. Whether there was anything to do.
fn round<B: Bus, O: Observer<B>>(
    alloc: Global,
    plant: &mut Plant,
    lines: &mut Vec<B>,
    observer: &mut O,
) -> Result<bool, Halt>
    requires workers { 0 < plant.old.plant.workers }
    requires count { vec_len lines.old ≡ plant.old.plant.plan.buses }
    requires open { HasNothingOpen plant.old }
    ensures driven { IsDriven plant.old plant.new (logs B.log lines.old) (logs B.log lines.new) }
    ensures turn { Tells plant.old plant.new
        (IsQuiet plant.new (logs B.log lines.old) (logs B.log lines.new)) result }
    ensures goes_on { GoesTo scans_at scans_at plant.old plant.new result }
    ensures stops { IfErr result (CannotGoOn plant.new) }
    ensures told { TellsEach plant.old plant.new (O.told observer.old) (O.told observer.new)
        result }
{
    let scanned = scan_all::<B, O>(alloc, plant, observer)?;
    let turned = turn_all(plant, lines, observer)?;
    Ok(scanned || turned)
}

/// Rounds until nothing is left to do.
fn finish<B: Bus, O: Observer<B>>(
    alloc: Global,
    plant: &mut Plant,
    lines: &mut Vec<B>,
    observer: &mut O,
) -> Result<(), Halt>
    requires workers { 0 < plant.old.plant.workers }
    requires count { vec_len lines.old ≡ plant.old.plant.plan.buses }
    requires open { HasNothingOpen plant.old }
    ensures driven { IsDriven plant.old plant.new (logs B.log lines.old) (logs B.log lines.new) }
    ensures quiet { OnOk result (IsQuiet plant.new (logs B.log lines.old) (logs B.log lines.new)) }
    ensures goes_on { GoesTo scans_at scans_at plant.old plant.new result }
    ensures stops { IfErr result (CannotGoOn plant.new) }
    ensures told { TellsEach plant.old plant.new (O.told observer.old) (O.told observer.new)
        result }
{
    for _ in 0..plant.limit() + 1 {
        if !round(alloc, plant, lines, observer)? {
            return Ok(());
        }
    }

    // Each of these rounds made the history longer, and it is no longer than its limit.
    let _within = plant.len();
    unreachable!()
}

/// Hears what came on each bus, and then scans, sends and hears, in rounds, until nothing is left
/// to do. In a round all tasks that are ready are scanned, one after another, and then each bus, in
/// the order of their numbers, sends all that waits for it and hears what came next. The history
/// stays legal: that is in the type of `Plant`, as its invariant, and `Plant::len` shows it.
///
/// # Errors
///
/// The history is full, the allocator is out of memory, or an observer failed. Nothing is open
/// then, either.
pub fn settle<B: Bus, O: Observer<B>>(
    alloc: Global,
    plant: &mut Plant,
    lines: &mut Vec<B>,
    observer: &mut O,
) -> Result<(), Halt>
    requires workers { 0 < plant.old.plant.workers }
    requires count { vec_len lines.old ≡ plant.old.plant.plan.buses }
    requires open { HasNothingOpen plant.old }
    ensures driven { IsDriven plant.old plant.new (logs B.log lines.old) (logs B.log lines.new) }
    ensures order { IsInOrder plant.old plant.new }
    ensures heard { OnOk result (IsHeardFirst plant.old plant.new (logs B.log lines.old)
        (logs B.log lines.new)) }
    ensures quiet { OnOk result (IsQuiet plant.new (logs B.log lines.old) (logs B.log lines.new)) }
    ensures stops { IfErr result (CannotGoOn plant.new) }
    ensures told { TellsEach plant.old plant.new (O.told observer.old) (O.told observer.new)
        result }
{
    hear_buses(plant, lines, observer)?;
    finish(alloc, plant, lines, observer)
}
