//! Which functions a task uses, and how deep functions are.

ghost use Rattle.std.specs.Prelude.{◌≡◌, ◌+◌, ◌<◌, IfOk, All, false, length, map, replicate};
ghost use Rattle.std.specs.List.{list_any};
ghost use Rattle.ilplan.specs.Functions.{depth_in, greatest};
ghost use Rattle.ilplan.specs.UsageSteps.{AreAdded};
ghost use Rattle.ilscope.specs.Declarations.{declared_functions, declared_programs};
ghost use Rattle.ilsyms.specs.Faults.{depths_of};
ghost use Rattle.ilsyms.specs.FunctionSteps.{are_used, calls_at, calls_of_program};
ghost use Rattle.ilsyms.specs.FunctionSteps.{needs_of};
ghost use Rattle.ilsyms.specs.TaskSetSteps.{is_among};
ghost use Rattle.ilsyms.specs.TaskSteps.{AreThere, instances_of};

use crate::needs::{Needs, ProgramCalls};
use crate::tasks::TaskInstance;
use ilscope::Scope;
use std::alloc::{AllocError, Global};

/// For each function whether a task with these instances uses it: where its lines call it, or a
/// function that it uses does. `calls` are those of each program, and `needs` those of each
/// function. A call of a function that does not stand before counts for nothing.
pub(crate) fn used_functions(
    alloc: Global,
    scope: &Scope<'_>,
    calls: &[ProgramCalls],
    needs: &[Needs],
    instances: &[TaskInstance],
) -> Result<Vec<bool>, AllocError>
    requires there { AreThere scope.now.tree instances.now }
    requires calls { calls.now
        ≡ map (calls_of_program scope.now.tree) (declared_programs scope.now.tree) }
    requires needs { needs.now
        ≡ map (needs_of scope.now.tree) (declared_functions scope.now.tree) }
    ensures { IfOk result (λ v. v.items
        ≡ are_used scope.now.tree (instances_of scope.now.tree instances.now)) }
{
    let mut used = called_functions(alloc, needs.len(), calls, instances)?;
    for number in (0..needs.len()).rev() {
        if used[number] {
            mark(&mut used, number, needs[number].calls());
        }
    }
    Ok(used)
}

/// For each of the given number of functions whether the lines of the instances' programs call it.
fn called_functions(
    alloc: Global,
    count: usize,
    calls: &[ProgramCalls],
    instances: &[TaskInstance],
) -> Result<Vec<bool>, AllocError>
    requires { All (λ i. i.program < length calls.now) instances.now }
    ensures { IfOk result (λ v. AreAdded count (λ number. list_any
        (λ i. is_among number (calls_at calls.now i.program)) instances.now)
        (replicate count false) v.items) }
{
    let mut called = vec![in alloc; false; count]?;
    for instance in instances {
        mark(&mut called, count, calls[instance.program].as_slice());
    }
    Ok(called)
}

/// Marks the functions with these numbers, where they are there and stand below a number.
fn mark(used: &mut [bool], below: usize, numbers: &[usize])
    ensures { AreAdded below (λ number. is_among number numbers.now) used.old used.new }
{
    for number in numbers {
        if *number < below && *number < used.len() {
            used[*number] = true;
        }
    }
}

/// How deep each function is; one that calls none is 1 deep.
pub(crate) fn depths(
    alloc: Global,
    scope: &Scope<'_>,
    needs: &[Needs],
) -> Result<Vec<usize>, AllocError>
    requires { needs.now ≡ map (needs_of scope.now.tree) (declared_functions scope.now.tree) }
    ensures { IfOk result (λ v. v.items ≡ depths_of scope.now.tree) }
{
    let mut depths = Vec::new(alloc);
    for one in needs {
        let depth = depth_of(&depths, one.calls());
        depths.push(depth)?;
    }
    Ok(depths)
}

/// One more than the depth of the deepest of these functions, of which those before have these.
fn depth_of(depths: &[usize], calls: &[usize]) -> usize
    requires { All (λ depth. depth < usize.MAX) depths.now }
    ensures { result ≡ greatest (map (depth_in depths.now) calls.now) + 1 }
{
    let mut deepest = 0;
    for number in calls {
        if let Some(depth) = depths.get(*number) {
            deepest = deepest.max(*depth);
        }
    }
    deepest + 1
}
