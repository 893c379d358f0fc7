//! Scans of tasks.

ghost use Rattle.std.specs.Prelude.{◌<◌, [], ◌∷◌, IfErr, OnOk};
ghost use Rattle.plantdriving.specs.Driven.{CannotGoOn};
ghost use Rattle.plantdriving.specs.Open.{HasNothingOpen};
ghost use Rattle.plantdriving.specs.Order.{scans_at};
ghost use Rattle.plantdriving.specs.Quiet.{HasNoScan};
ghost use Rattle.plantdriving.specs.Tellings.{TellsEach};
ghost use Rattle.plantdriving.specs.TurnSteps.{GoesOn, IsScanStep, IsTold, Tells, TellsThese};
ghost use Rattle.plantdriving.specs.declared.happened.Happened.TheVariants as what;

use crate::{Halt, Happened, Observer};
use plant::{CallError, CallRefusal, Plant};
use plantevents::scan_into;
use std::alloc::Global;
use std::io;

/// The number of the scan worker that makes the scans.
const WORKER: usize = 0;

/// Tells that a scan was committed, and what the plant is since then, unless it failed to tell that
/// its task was taken.
fn tell_scan<B, O: Observer<B>>(
    observer: &mut O,
    plant: &Plant,
    took: io::Result<()>,
    place: u64,
    task: usize,
    steps: u32,
) -> Result<bool, Halt>
    ensures done { IsTold result }
    ensures told { TellsThese (record { place = place; happened = what.Committed 0 task steps } ∷ [])
        (O.told observer.old) (O.told observer.new) result }
{
    took?;
    let committed = Happened::Committed {
        worker: WORKER,
        task,
        steps,
    };
    observer.note(place, committed)?;
    observer.note_values(plant, task)?;
    Ok(true)
}

/// Takes the next task, makes its scan and commits that. Whether there was one.
pub(crate) fn scan_next<B, O: Observer<B>>(
    alloc: Global,
    plant: &mut Plant,
    observer: &mut O,
) -> Result<bool, Halt>
    requires workers { 0 < plant.old.plant.workers }
    requires open { HasNothingOpen plant.old }
    ensures step { IsScanStep plant.old plant.new }
    ensures turn { Tells plant.old plant.new (HasNoScan plant.old) result }
    ensures goes_on { GoesOn scans_at scans_at plant.old plant.new }
    ensures stops { IfErr result (CannotGoOn plant.new) }
    ensures told { TellsEach plant.old plant.new (O.told observer.old) (O.told observer.new)
        result }
{
    let order = match plant.take(alloc, WORKER) {
        Ok(order) => order,
        Err(CallError::Refused(CallRefusal::NothingReady)) => return Ok(false),
        Err(error) => return Err(Halt::from(error)),
    };
    let (place, task) = (order.number, order.task);
    let took = observer.note(
        place,
        Happened::Took {
            worker: WORKER,
            task,
        },
    );
    let made = scan_into(order.work);
    let steps = made.steps();
    let next = plant.len();
    let Ok(()) = plant.commit(WORKER, made) else {
        unreachable!()
    };
    tell_scan::<B, O>(observer, plant, took, next, task, steps)
}

/// Takes and commits all tasks that are ready, one after another. Whether there were any.
pub(crate) fn scan_all<B, O: Observer<B>>(
    alloc: Global,
    plant: &mut Plant,
    observer: &mut O,
) -> Result<bool, Halt>
    requires workers { 0 < plant.old.plant.workers }
    requires open { HasNothingOpen plant.old }
    ensures step { IsScanStep plant.old plant.new }
    ensures turn { Tells plant.old plant.new (HasNoScan plant.old) result }
    ensures goes_on { GoesOn scans_at scans_at plant.old plant.new }
    ensures none { OnOk result (HasNoScan plant.new) }
    ensures stops { IfErr result (CannotGoOn plant.new) }
    ensures told { TellsEach plant.old plant.new (O.told observer.old) (O.told observer.new)
        result }
{
    let mut any = false;
    for _ in 0..plant.limit() + 1 {
        if !scan_next::<B, O>(alloc, plant, observer)? {
            return Ok(any);
        }
        any = true;
    }

    // Each of these turns made the history longer, and it is no longer than its limit.
    let _within = plant.len();
    unreachable!()
}
