//! Loading a text that begins with kept values.

ghost use Rattle.std.specs.Prelude.{◌≡◌, ℕ, List, IfErr, IfOk, Result};
ghost use Rattle.wordlines.specs.Wirings.{Wiring};
ghost use Rattle.livekeep.specs.KeptPlans.{left_out_of};
ghost use Rattle.plantload.specs.Loading.{AreMeant, IsLoadFault, IsLoadFaultOrMemory, IsSetup};
ghost use Rattle.ilcompile.specs.Loaded.{Loaded};
ghost use Rattle.plantload.specs.KeptLoading.{AreLeftOut, IsKeptLoaded, IsKeptSetup};
ghost use Rattle.plantload.specs.declared.fault.LoadFault.{LoadFault};

use crate::fault::LoadFault;
use crate::loading::load;
use ilcompile::Setup;
use livekeep::{Kept, LeftOut, first_values_of, left_out_of};
use std::alloc::{AllocError, Global};
use wordlines::Binding;

/// The plan of a text that begins with kept values, with the verified code of each of its
/// tasks; and the kept values that are left out, in their order.
///
/// # Errors
///
/// The text's own fault, as [`crate::load`] reports it; or that the allocator is out of memory.
pub fn load_kept(
    alloc: Global,
    text: &[u8],
    binding: &Binding,
    kept: &Kept,
) -> Result<(Setup, Vec<LeftOut>), LoadFault>
    ensures setup { IfOk result (λ loaded.
        IsKeptSetup binding.now text.now kept.now.values loaded.0) }
    ensures left_out { IfOk result (λ loaded.
        AreLeftOut binding.now text.now kept.now.values loaded.1.items) }
    ensures fault { IfErr result (IsLoadFaultOrMemory (IsLoadFault binding.now text.now)) }
    // The runs of each task's code are the scans of the text's own source program, both ways.
    ensures meant { IfOk result (λ loaded.
        (is : IsKeptSetup binding.now text.now kept.now.values loaded.0)
        → AreMeant is.plan.tree binding.now.buses loaded.0.codes) }
    // A text has at most one answer, but for out of memory.
    ensures one { (a b : Result Loaded LoadFault)
        → IsKeptLoaded binding.now text.now kept.now.values a
        → IsKeptLoaded binding.now text.now kept.now.values b → a ≡ b }
{
    let setup = load(alloc, text, binding)?;
    Ok(begin_kept(alloc, setup, kept)?)
}

/// A setup that begins with kept values; and those of them that are left out, in their
/// order. The codes are the same.
///
/// # Errors
///
/// The allocator is out of memory.
pub fn begin_kept(
    alloc: Global,
    setup: Setup,
    kept: &Kept,
) -> Result<(Setup, Vec<LeftOut>), AllocError>
    ensures setup { IfOk result (λ begun. (wiring : Wiring) (bytes : List ℕ)
        → IsSetup wiring bytes setup
        → IsKeptSetup wiring bytes kept.now.values begun.0) }
    ensures left_out { IfOk result (λ begun.
        begun.1.items ≡ left_out_of kept.now.values setup.plan) }
{
    let mut begun = setup;
    let left_out = left_out_of(alloc, begun.plan(), kept)?;
    let values = first_values_of(alloc, begun.plan(), kept)?;
    begun.begin_with(&values.globals, &values.tasks);
    Ok((begun, left_out))
}
