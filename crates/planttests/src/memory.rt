//! Out of memory: with each request for memory refused in turn (`benches/hostile --memory`), the
//! answer is that and no other, and the call succeeds once memory is left.

use crate::near_limits::{HALL, WIRES, plant_of, setup_of};
use ilcompile::Setup;
use plant::{CallError, CallRefusal, OpenFault, Plant};
use plantload::LoadFault;
use plantscript::{DriveFault, Driven, Step, StepReply, drive_text};
use std::alloc::{AllocError, Global};
use std::test::Fail;
use wordlines::Binding;

/// The task that is ready from the beginning.
const EACH_SECOND: usize = 1;

/// The setup of the hall, where an allocation may fail once as it is loaded.
fn load_twice(alloc: Global) -> Result<Setup, Fail> {
    match setup_of(alloc, HALL) {
        Ok(setup) => Ok(setup),
        Err(LoadFault::Memory) => setup_of(alloc, HALL).map_err(|_| "it is loaded".into()),
        Err(_) => Err("another fault".into()),
    }
}

/// A plant of it, where an allocation may fail once as it is opened.
fn open_twice(alloc: Global) -> Result<Plant, Fail> {
    match Plant::open(alloc, load_twice(alloc)?, 1, 100) {
        Ok(plant) => Ok(plant),
        Err(OpenFault::Memory) => plant_of(alloc, HALL, 1, 100),
        Err(_) => Err("another fault".into()),
    }
}

/// Whether the task is taken, now or once memory is left, and a call that failed changed nothing.
fn is_taken(plant: &mut Plant, alloc: Global) -> bool {
    match plant.take(alloc, 0) {
        Ok(order) => order.task == EACH_SECOND,
        Err(CallError::Refused(_)) => false,
        Err(CallError::Memory) => {
            plant.len() == 0
                && match plant.take(alloc, 0) {
                    Ok(order) => order.task == EACH_SECOND,
                    Err(_) => false,
                }
        }
    }
}

#[test]
fn a_failed_call_changes_nothing(rt: HostRuntime) -> Result<(), Fail> {
    let mut plant = open_twice(rt.alloc())?;
    assert!(rt; is_taken(&mut plant, rt.alloc()));
    assert_eq!(rt; plant.len(), 1);
    Ok(())
}

/// Each step twice: the second is refused where the first was answered.
fn steps_of(alloc: Global) -> Result<Vec<Step>, AllocError> {
    let mut steps = Vec::new(alloc);
    for _ in 0..2 {
        steps.push(Step::Take { worker: 0 })?;
    }
    for _ in 0..2 {
        steps.push(Step::Commit { worker: 0 })?;
    }
    for _ in 0..2 {
        steps.push(Step::Hand { bus: 0 })?;
    }
    Ok(steps)
}

/// The hall, driven.
fn driven(alloc: Global, wires: &Binding, steps: &[Step]) -> Result<Driven, DriveFault> {
    drive_text(alloc, HALL.as_bytes(), wires, 1, 100, steps)
}

/// The hall, driven, where memory may be refused once: before its first step that is the answer.
fn driven_twice(alloc: Global, wires: &Binding, steps: &[Step]) -> Result<Driven, Fail> {
    match driven(alloc, wires, steps) {
        Ok(driven) => Ok(driven),
        Err(DriveFault::Load(LoadFault::Memory) | DriveFault::Open(OpenFault::Memory)) => {
            driven(alloc, wires, steps).map_err(|_| "it is driven".into())
        }
        Err(_) => Err("another fault".into()),
    }
}

/// Whether the steps were answered, the take at its second step where the first got no memory.
fn are_answered(replies: &[StepReply]) -> bool {
    use CallRefusal::{Busy, Stranger};
    use StepReply::{Handed, Memory, Noted, Refused, Taken};
    match replies {
        [
            first,
            second,
            Noted,
            Refused(Stranger),
            Handed { .. },
            Refused(Busy),
        ] => {
            match (first, second) {
                (Taken { task, .. }, Refused(Busy)) | (Memory, Taken { task, .. }) => {
                    *task == EACH_SECOND
                }
                _ => false,
            }
        }
        _ => false,
    }
}

#[test]
fn a_drive_answers_a_step_again(rt: HostRuntime) -> Result<(), Fail> {
    let alloc = rt.alloc();
    let steps = match steps_of(alloc) {
        Ok(steps) => steps,
        Err(_) => steps_of(alloc)?,
    };
    let wires = match Binding::parse(alloc, WIRES.as_bytes()) {
        Ok(wires) => wires,
        Err(_) => Binding::parse(alloc, WIRES.as_bytes()).map_err(|_| "a binding")?,
    };
    let driven = driven_twice(alloc, &wires, &steps)?;
    assert!(rt; are_answered(&driven.replies));
    Ok(())
}
