//! Resolving the names of a source program.

ghost use Rattle.std.specs.Prelude.{◌≡◌, ℕ, IfErr, IfOk, OnOk};
ghost use Rattle.ildeclared.specs.declared.fault.NameFault.{NameFault};
ghost use Rattle.ilscope.specs.Reports.{IsMemoryOrReportsLeast, ReportsLeast};
ghost use Rattle.ilblocks.specs.Stores.{Store};
ghost use Rattle.ilplan.specs.PlanMeaning.{plan_scan};
ghost use Rattle.ilsyms.specs.Faults.{IsFault, IsWellNamed};
ghost use Rattle.ilsyms.specs.Meaning.{source_scan};
ghost use Rattle.ilsyms.specs.Resolved.{plan_of_tree, planned_functions, planned_task};
ghost use Rattle.ilsyms.specs.Tasks.{SourceTask};

use crate::faults::least_of;
use crate::needs::needs_of_functions;
use crate::plans::plan_of;
use crate::task_parts::parts_of_tasks;
use crate::tasks::instances_of_tasks;
use ilplan::Plan;
use ilscope::{NameFault, Scope, report_of};
use ilsource::Source;
use std::alloc::Global;
use wordlines::Binding;

/// The plan of a source program with a binding, or its least fault of names: the one at the least
/// place, and there with the least cause.
///
/// # Errors
///
/// The least fault, or the allocator is out of memory.
pub fn resolve(alloc: Global, source: &Source, binding: &Binding) -> Result<Plan, NameFault>
    ensures plan { IfOk result (λ plan. plan ≡ plan_of_tree source.now binding.now) }
    // A scan of a task leaves what a scan over names leaves, on any number of buses.
    ensures same_meaning { (buses : ℕ) (task : SourceTask) (store : Store)
        → plan_scan buses (planned_functions source.now) (planned_task source.now task) store
        ≡ source_scan source.now buses task store }
    ensures named { OnOk result (IsWellNamed source.now binding.now) }
    ensures fault { IfErr result (λ fault.
        IsMemoryOrReportsLeast source.now.text (IsFault source.now binding.now) fault) }
    // A source program has at most one fault to report.
    ensures one_fault { (a b : NameFault)
        → ReportsLeast source.now.text (IsFault source.now binding.now) a
        → ReportsLeast source.now.text (IsFault source.now binding.now) b → a ≡ b }
{
    resolved(alloc, source, binding)
}

/// The plan, or the least fault.
fn resolved<'a>(alloc: Global, source: &'a Source, binding: &'a Binding) -> Result<Plan, NameFault>
    ensures plan { IfOk result (λ plan. plan ≡ plan_of_tree source.now binding.now) }
    ensures named { OnOk result (IsWellNamed source.now binding.now) }
    ensures fault { IfErr result (λ fault.
        IsMemoryOrReportsLeast source.now.text (IsFault source.now binding.now) fault) }
{
    let scope = Scope::of(alloc, source, binding)?;
    plan_in_scope(alloc, &scope, binding)
}

/// The plan of what a scope is of, or its least fault.
fn plan_in_scope(alloc: Global, scope: &Scope<'_>, binding: &Binding) -> Result<Plan, NameFault>
    requires { binding.now ≡ scope.now.wiring }
    ensures plan { IfOk result (λ plan. plan ≡ plan_of_tree scope.now.tree scope.now.wiring) }
    ensures named { OnOk result (IsWellNamed scope.now.tree scope.now.wiring) }
    ensures fault { IfErr result (λ fault. IsMemoryOrReportsLeast scope.now.tree.text
        (IsFault scope.now.tree scope.now.wiring) fault) }
{
    let instances = instances_of_tasks(alloc, scope)?;
    let needs = needs_of_functions(alloc, scope)?;
    let tasks = parts_of_tasks(alloc, scope, &needs, &instances)?;
    if let Some(found) = least_of(alloc, scope, &instances, &needs, &tasks)? {
        return Err(report_of(scope.source().text(), found));
    }
    Ok(plan_of(alloc, scope, binding, tasks)?)
}
