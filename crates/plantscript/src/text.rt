//! A text, driven.

ghost use Rattle.std.specs.Prelude.{IfOk, IfErr};
ghost use Rattle.plantscript.specs.Texts.{IsDriven, IsDriveFault};

use crate::driving::{Driven, drive};
use crate::step::Step;
use plant::OpenFault;
use plantload::{LoadFault, load, scans_are_as_meant};
use std::alloc::Global;
use wordlines::Binding;

/// Why a text was not driven: the first of these, in this order.
#[derive(Drop)]
pub enum DriveFault {
    /// It is not loaded.
    Load(LoadFault),
    /// The plant is not opened.
    Open(OpenFault),
}

impl From<LoadFault> for DriveFault {
    ghost use Rattle.std.specs.Prelude.{◌≡◌};
    ghost use Rattle.plantscript.specs.declared.text.DriveFault.TheVariants.{Load};

    ghost from_gives = { λ fault own. own ≡ Load fault };

    fn from(fault: LoadFault) -> Self {
        DriveFault::Load(fault)
    }
}

impl From<OpenFault> for DriveFault {
    ghost use Rattle.std.specs.Prelude.{◌≡◌};
    ghost use Rattle.plantscript.specs.declared.text.DriveFault.TheVariants.{Open};

    ghost from_gives = { λ fault own. own ≡ Open fault };

    fn from(fault: OpenFault) -> Self {
        DriveFault::Open(fault)
    }
}

/// Loads a text, opens a plant with it and takes steps, one after another, as `drive` does.
///
/// # Errors
///
/// What stands against loading the text; else what stands against opening the plant.
pub fn drive_text(
    alloc: Global,
    text: &[u8],
    binding: &Binding,
    workers: usize,
    limit: u64,
    steps: &[Step],
) -> Result<Driven, DriveFault>
    ensures driven { IfOk result (λ driven. IsDriven binding.now text.now workers limit steps.now
        driven.replies.items driven.plant) }
    ensures fault { IfErr result (IsDriveFault binding.now text.now workers limit) }
{
    let setup = load(alloc, text, binding)?;
    scans_are_as_meant();
    let driven = drive(alloc, setup, workers, limit, steps)?;
    Ok(driven)
}
