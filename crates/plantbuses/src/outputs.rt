//! The global variables that are located at levels.

ghost use Rattle.std.specs.Prelude.{◌≡◌, ◌<◌, ℕ, length, slice_index_or, slice_set, IfOk, Some};
ghost use Rattle.std.specs.Prelude.{None};
ghost use Rattle.plantbuses.specs.OutputSteps.{planned, level_of, noted_at, output_for, output_in};
ghost use Rattle.plantbuses.specs.OutputSteps.{AreFree, AreAllFree, HaveLevels, OutputsFollow};

use crate::levels::level_of;
use crate::storing::storing_kinds;
use gearcmd::TaskKind;
use ilplan::Plan;
use std::alloc::{AllocError, Global};
use std::marker::Model;

/// The number of addresses that have a level: 0 to 63 short ones, 64 to 79 groups, 80 broadcast.
pub(crate) const LEVELS: u8 = 81;

/// A global variable that is located at a level.
#[derive(Clone, Copy)]
pub struct LevelOutput {
    /// Its number.
    pub global: usize,
    /// The kind of the task that stores to it.
    pub kind: TaskKind,
}

/// What is located at the levels of a bus.
#[derive(Drop)]
pub struct BusOutputs {
    /// For each address, 0 to 80.
    levels: Vec<Option<LevelOutput>>,
}

impl Model for BusOutputs {
    ghost use Rattle.std.specs.Prelude.{List, Option};
    ghost use Rattle.plantbuses.specs.declared.outputs.LevelOutput.{LevelOutput as Located};

    ghost Value = { List (Option Located) };

    ghost view = { λ outputs. outputs.levels.items };
}

impl BusOutputs {
    /// What is located at the level of an address.
    pub fn at(&self, address: u8) -> Option<LevelOutput>
        requires { address < length self.now }
        ensures { result ≡ slice_index_or self.now address None }
    {
        self.levels[usize::from(address)]
    }

    /// Notes what is located at the level of an address.
    fn put(&mut self, address: u8, output: LevelOutput)
        requires { address < length self.old }
        ensures { self.new ≡ slice_set self.old address (Some output) }
    {
        self.levels[usize::from(address)] = Some(output);
    }
}

/// The levels of a bus at which nothing is located.
fn no_levels(alloc: Global) -> Result<BusOutputs, AllocError>
    ensures { IfOk result AreFree }
{
    let levels = vec![in alloc; None; usize::from(LEVELS)]?;
    Ok(BusOutputs { levels })
}

/// The levels of the given number of buses at which nothing is located.
fn no_outputs(alloc: Global, buses: u8) -> Result<Vec<BusOutputs>, AllocError>
    ensures { IfOk result (λ outputs. AreAllFree buses outputs.items) }
{
    let mut outputs = Vec::new(alloc);
    for _ in 0..buses {
        outputs.push(no_levels(alloc)?)?;
    }
    Ok(outputs)
}

/// Notes, where a global variable is located at a level, that it is, and the kind of the task that
/// stores to it.
fn note_global(outputs: &mut Vec<BusOutputs>, plan: &Plan, global: usize, kind: TaskKind)
    requires global { global < length plan.now.globals }
    requires levels { HaveLevels plan.now.buses outputs.old.items }
    ensures levels { HaveLevels plan.now.buses outputs.new.items }
    ensures noted { (b a : ℕ) → output_in outputs.new.items b a
        ≡ noted_at (level_of plan.now global) (output_for global kind) b a
        (output_in outputs.old.items b a) }
{
    let Some((bus, address)) = level_of(plan, global) else {
        return;
    };
    outputs[usize::from(bus)].put(address, LevelOutput { global, kind });
}

/// What is located at the levels of each bus. It goes once over the global variables.
pub fn outputs_of(alloc: Global, plan: &Plan) -> Result<Vec<BusOutputs>, AllocError>
    ensures { IfOk result (λ outputs. OutputsFollow (planned plan.now) outputs.items) }
{
    let kinds = storing_kinds(alloc, plan)?;
    let mut outputs = no_outputs(alloc, plan.buses())?;
    // Backwards, so that the first of several variables at one level stays.
    for global in (0..plan.globals()).rev() {
        note_global(&mut outputs, plan, global, kinds[global]);
    }
    Ok(outputs)
}
