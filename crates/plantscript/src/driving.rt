//! Steps one after another.

ghost use Rattle.std.specs.Prelude.{IfOk, IfErr};
ghost use Rattle.plantevents.specs.Legal.{AreLegal};
ghost use Rattle.plant.specs.Shown.{opened, IsOpenFault};
ghost use Rattle.plantscript.specs.Runs.{IsHistoryOf, Run};

use crate::step::{Step, StepReply};
use crate::stepped_plant::SteppedPlant;
use ilcompile::Setup;
use plant::{OpenFault, Plant};
use std::alloc::Global;

/// A plant that was driven, with the reply to each step.
#[derive(Drop)]
pub struct Driven {
    pub replies: Vec<StepReply>,
    pub plant: Plant,
}

/// Opens a plant and takes steps, one after another: a step that is refused changes nothing, and
/// the next follows. Room for the replies is made first.
///
/// # Errors
///
/// There are not 1 to 16 scan workers; else the limit is not 100 to 1,000,000, or below 500 with
/// more than 16 buses; else the allocator may be out of memory.
pub fn drive(
    alloc: Global,
    setup: Setup,
    workers: usize,
    limit: u64,
    steps: &[Step],
) -> Result<Driven, OpenFault>
    ensures run { IfOk result (λ driven. Run (opened setup workers limit) steps.now
        driven.replies.items driven.plant) }
    ensures history { IfOk result (λ driven. IsHistoryOf (opened setup workers limit) steps.now
        driven.replies.items driven.plant) }
    ensures legal { IfOk result (λ driven. AreLegal driven.plant.plant driven.plant.history) }
    ensures fault { IfErr result (IsOpenFault setup.plan.buses workers limit) }
{
    let mut stepped = SteppedPlant::open(alloc, setup, workers, limit)?;
    let Ok(mut replies) = Vec::with_capacity(alloc, steps.len()) else {
        return Err(OpenFault::Memory);
    };
    for step in steps {
        replies.push_reserved(stepped.serve(alloc, step));
    }
    let plant = stepped.into_plant();
    let _ = plant.len();
    Ok(Driven { replies, plant })
}
