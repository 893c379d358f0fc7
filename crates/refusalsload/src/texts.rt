//! Texts that are loaded, and how often they want the time.

ghost use Rattle.std.specs.Prelude.{◌≡◌, ◌≢◌, ◌≤◌, IfErr, IsSome, OnOk};
ghost use Rattle.plantload.specs.Loading.{IsBehindText, IsLoadFault};
ghost use Rattle.plantlive.specs.Periods.{HasInterval};

use ilcompile::Setup;
use ilplan::Plan;
use ilsource::Source;
use plantlive::period_of;
use plantload::{LoadFault, NotLoaded, load, load_with_source};
use std::alloc::Global;
use wordlines::Binding;

/// `first_task_named_for_a_later_one`, `refused_task_left_out`: of a text whose task is refused
/// another task was named, or none.
pub fn refused_task_is_named(
    alloc: Global,
    text: &[u8],
    binding: &Binding,
    fault: LoadFault,
) -> Result<Setup, LoadFault>
    requires { IsLoadFault binding.now text.now fault }
    ensures ok { OnOk result ⊥ }
    ensures err { IfErr result (λ reported. reported ≢ LoadFault.Memory → reported ≡ fault) }
{
    load(alloc, text, binding)
}

/// `another_fault_explained`, `fault_of_names_without_its_program`: what is explained was another
/// fault than the one that is reported, or came without the source program that it speaks of.
pub fn explained_fault_is_the_reported(
    alloc: Global,
    text: &[u8],
    binding: &Binding,
    fault: LoadFault,
) -> Result<(Setup, Source), NotLoaded>
    requires reported { IsLoadFault binding.now text.now fault }
    requires behind { IsBehindText fault }
    ensures ok { OnOk result ⊥ }
    ensures err { IfErr result (λ stop. stop.fault ≢ LoadFault.Memory → stop.fault ≡ fault) }
    ensures program { IfErr result (λ stop. stop.fault ≢ LoadFault.Memory → IsSome stop.source) }
{
    load_with_source(alloc, text, binding)
}

/// `the_greatest_interval`: the period was not the least interval.
pub fn period_is_no_longer_than_an_interval(plan: &Plan) -> u64
    requires { HasInterval plan.now 20 }
    ensures { result ≤ 20 }
{
    period_of(plan)
}
