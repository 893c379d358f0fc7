//! Texts whose names are at fault.

ghost use Rattle.std.specs.Prelude.{◌≡◌, ◌≢◌, IfErr, IfOk, OnOk, Some, slice_get};
ghost use Rattle.limits.specs.Limits.{most_words};
ghost use Rattle.ildeclared.specs.Faults.{Beyond, IsLeast, SomeOf};
ghost use Rattle.ilscope.specs.Declarations.{declared_functions};
ghost use Rattle.ilscope.specs.Reports.{ReportsLeast};
ghost use Rattle.ilsyms.specs.Faults.{AreTooDeep, IsFault, all_word_places, depths_of};
ghost use Rattle.ilsyms.specs.Tasks.{tasks_of};

use ilplan::Plan;
use ilscope::{Found, NameFault, Scope};
use ilsource::Source;
use ilsyms::{next_fault, resolve};
use std::alloc::{AllocError, Global};
use wordlines::Binding;

/// `a_function_that_another_calls_is_not_counted`, `words_of_starting_values_are_not_counted`: a
/// text was taken whose task has a word more than the limit, of those of its lines and of all
/// functions that it uses.
pub fn task_with_too_many_words_is_refused(
    alloc: Global,
    source: &Source,
    binding: &Binding,
    place: usize,
) -> Result<Plan, NameFault>
    requires { SomeOf (λ task.
        slice_get (all_word_places source.now task.instances) most_words ≡ Some place)
        (tasks_of source.now) }
    ensures { OnOk result ⊥ }
{
    resolve(alloc, source, binding)
}

/// `function_nine_deep_accepted`: a text was taken of which a function is nine deep.
pub fn function_too_deep_is_refused(
    alloc: Global,
    source: &Source,
    binding: &Binding,
    place: usize,
) -> Result<Plan, NameFault>
    requires { AreTooDeep (declared_functions source.now) (depths_of source.now) place }
    ensures { OnOk result ⊥ }
{
    resolve(alloc, source, binding)
}

/// `starting_values_count_after_the_lines`: of the constants of a task another one than the first
/// that exceeds the limit was reported.
pub fn first_fault_is_reported(
    alloc: Global,
    source: &Source,
    binding: &Binding,
    fault: NameFault,
) -> Result<Plan, NameFault>
    requires { ReportsLeast source.now.text (IsFault source.now binding.now) fault }
    ensures { IfErr result (λ reported. reported ≢ NameFault.Memory → reported ≡ fault) }
{
    resolve(alloc, source, binding)
}

/// `the_least_fault_found_again`: behind a fault one was found that does not come after it, or not
/// the first of those that do.
pub fn next_fault_is_found(
    alloc: Global,
    scope: &Scope<'_>,
    last: Found,
    next: Found,
) -> Result<Option<Found>, AllocError>
    requires { IsLeast (Beyond (Some last) (IsFault scope.now.tree scope.now.wiring))
        next.at next.cause }
    ensures { IfOk result (λ found. found ≡ Some next) }
{
    next_fault(alloc, scope, Some(last))
}
