//! What exceeds a limit: of tasks, program instances and functions, and in each task of variables,
//! block instances, words and different constants.

ghost use Rattle.std.specs.Prelude.{◌≡◌, ◌+◌, ◌<◌, ◌≤◌, ◌++◌, ℕ, All, IfOk, List, Some};
ghost use Rattle.std.specs.Prelude.{flat_map, length, map, slice_get};
ghost use Rattle.limits.specs.Limits.{most_blocks, most_functions, most_inputs, most_instances};
ghost use Rattle.limits.specs.Limits.{most_slots, most_tasks, most_words};
ghost use Rattle.ildeclared.specs.Faults.{IsNextOf, OfCause, SomeOf};
ghost use Rattle.ildeclared.specs.declared.fault.NameCause.TheVariants.{TooMany};
ghost use Rattle.ilscope.specs.Configured.{task_declarations};
ghost use Rattle.ilscope.specs.Declarations.{declared_functions, declared_programs};
ghost use Rattle.ilsyms.specs.Faults.{AreTooDeep, IsTooMany, IsTooManyIn};
ghost use Rattle.ilsyms.specs.Faults.{IsTooManyOfFunctions};
ghost use Rattle.ilsyms.specs.Faults.{instance_names, place_of_slot};
ghost use Rattle.ilsyms.specs.FunctionSteps.{IsPast, marked, needs_of};
ghost use Rattle.ilsyms.specs.TaskPartSteps.{AreParts, ArePartsOfTasks};
ghost use Rattle.ilsyms.specs.TaskSteps.{instances_of};
ghost use Rattle.ilsyms.specs.WordSteps.{places_at, places_of_program};
ghost use Rattle.ilsyms.specs.Tasks.{tasks_of};

use crate::needs::Needs;
use crate::past::{Past, slot_past_functions, word_past_functions};
use crate::task_parts::TaskParts;
use crate::tasks::TaskInstance;
use crate::usage::depths;
use crate::words::{WordPlaces, word_past, words_of_programs};
use ilplan::{FunctionBlock, Slot, SlotOwner};
use ilscope::{
    DeclaredVariable, Found, FunctionScope, NameCause, ProgramScope, Scope, found_where, lesser_of,
};
use ilsource::Configuration;
use limits::{
    MOST_BLOCKS, MOST_CALLS, MOST_FUNCTIONS, MOST_INPUTS, MOST_INSTANCES, MOST_SLOTS, MOST_TASKS,
};
use std::alloc::{AllocError, Global};

/// The next fault after `after` of what exceeds a limit. `needs` are those of each function, and
/// `tasks` the parts of each task.
pub(crate) fn too_many(
    alloc: Global,
    scope: &Scope<'_>,
    needs: &[Needs],
    tasks: &[TaskParts<'_>],
    after: Option<Found>,
) -> Result<Option<Found>, AllocError>
    requires needs { needs.now
        ≡ map (needs_of scope.now.tree) (declared_functions scope.now.tree) }
    requires tasks { ArePartsOfTasks scope.now.tree tasks.now }
    ensures { IfOk result (λ found.
        IsNextOf after (OfCause TooMany (IsTooMany scope.now.tree)) found) }
{
    let declared = lesser_of(
        exceeding(task_past(scope), after),
        exceeding(instance_past(scope), after),
    );
    let within = too_many_in_tasks(alloc, scope, needs, tasks, after)?;
    let functions = too_many_functions(alloc, scope, needs, after)?;
    Ok(lesser_of(declared, lesser_of(within, functions)))
}

/// The next fault after `after` of what exceeds a limit of a task. `needs` are those of each
/// function.
fn too_many_in_tasks(
    alloc: Global,
    scope: &Scope<'_>,
    needs: &[Needs],
    tasks: &[TaskParts<'_>],
    after: Option<Found>,
) -> Result<Option<Found>, AllocError>
    requires needs { needs.now
        ≡ map (needs_of scope.now.tree) (declared_functions scope.now.tree) }
    requires tasks { ArePartsOfTasks scope.now.tree tasks.now }
    ensures { IfOk result (λ found. IsNextOf after (OfCause TooMany (λ place. SomeOf
        (λ t. IsTooManyIn scope.now.tree place t.instances) (tasks_of scope.now.tree))) found) }
{
    let words = words_of_programs(alloc, scope)?;
    let mut least = None;
    for task in tasks {
        least = lesser_of(least, too_many_in(scope, &words, needs, task, after));
    }
    Ok(least)
}

/// The next such fault after `after` in a task with these parts. `words` are those of each program,
/// and `needs` those of each function.
fn too_many_in(
    scope: &Scope<'_>,
    words: &[WordPlaces],
    needs: &[Needs],
    task: &TaskParts<'_>,
    after: Option<Found>,
) -> Option<Found>
    requires words { words.now ≡ map places_of_program (declared_programs scope.now.tree) }
    requires needs { needs.now
        ≡ map (needs_of scope.now.tree) (declared_functions scope.now.tree) }
    requires task { AreParts scope.now.tree task.now }
    ensures { IsNextOf after (OfCause TooMany (λ place. IsTooManyIn scope.now.tree place
        (instances_of scope.now.tree task.now.instances.now))) result }
{
    let declared = lesser_of(
        exceeding(slot_past(scope, &task.slots, &task.used, needs), after),
        exceeding(block_past(&task.blocks), after),
    );
    let written = lesser_of(
        exceeding(
            all_words_past(words, task.instances, &task.used, needs),
            after,
        ),
        exceeding(task.counted.excess, after),
    );
    lesser_of(declared, written)
}

/// The place of the instruction with the word that exceeds the greatest number.
fn all_words_past(
    words: &[WordPlaces],
    instances: &[TaskInstance],
    used: &[bool],
    needs: &[Needs],
) -> Option<usize>
    requires { All (λ i. i.program < length words.now) instances.now }
    ensures { result ≡ slice_get (flat_map (λ i. places_at words.now i.program) instances.now
        ++ flat_map (λ one. one.words) (marked used.now needs.now)) most_words }
{
    match word_past(words, instances) {
        Past::At(place) => Some(place),
        Past::Left(left) => place_past(word_past_functions(left, used, needs)),
    }
}

/// The place of what exceeds a limit, where there is such.
fn place_past(past: Past) -> Option<usize>
    ensures { (places : List ℕ) (limit : ℕ) → IsPast places limit past
        → result ≡ slice_get places limit }
{
    match past {
        Past::At(place) => Some(place),
        Past::Left(_) => None,
    }
}

/// The place of the task that exceeds the greatest number.
fn task_past(scope: &Scope<'_>) -> Option<usize>
    ensures { result
        ≡ slice_get (map (λ t. t.name.from) (task_declarations scope.now.tree)) most_tasks }
{
    let configuration = scope.source().configuration()?;
    let task = configuration.tasks().get(MOST_TASKS)?;
    Some(task.name.from)
}

/// The place of the program instance that exceeds the greatest number; without a configuration of
/// the program.
fn instance_past(scope: &Scope<'_>) -> Option<usize>
    ensures { result
        ≡ slice_get (map (λ name. name.from) (instance_names scope.now.tree)) most_instances }
{
    match scope.source().configuration() {
        Some(configuration) => declared_past(configuration),
        None => program_past(scope.programs()),
    }
}

/// The place of the declared program instance that exceeds the greatest number.
fn declared_past(configuration: &Configuration) -> Option<usize>
    ensures { result
        ≡ slice_get (map (λ i. i.name.from) configuration.now.instances) most_instances }
{
    let instance = configuration.instances().get(MOST_INSTANCES)?;
    Some(instance.name.from)
}

/// The place of the program that exceeds the greatest number of instances.
fn program_past(programs: &[ProgramScope<'_>]) -> Option<usize>
    ensures { result ≡ slice_get (map (λ p. p.program.name.from) programs.now) most_instances }
{
    let program = programs.get(MOST_INSTANCES)?;
    Some(program.program().name().from)
}

/// The place of the declaration of the variable that exceeds the greatest number, of a task with
/// these slots that uses these functions; no more slots are given than one past that number.
fn slot_past(scope: &Scope<'_>, slots: &[Slot], used: &[bool], needs: &[Needs]) -> Option<usize>
    requires { length slots.now ≤ most_slots + 1 }
    ensures { result
        ≡ slice_get (map (λ s. place_of_slot scope.now.tree s.variable) slots.now
        ++ flat_map (λ one. one.slots) (marked used.now needs.now)) most_slots }
{
    match slots.get(MOST_SLOTS) {
        Some(slot) => Some(place_of(scope, slot.variable)),
        None => place_past(slot_past_functions(MOST_SLOTS - slots.len(), used, needs)),
    }
}

/// The place of the declaration of a variable.
fn place_of(scope: &Scope<'_>, variable: SlotOwner) -> usize
    ensures { result ≡ place_of_slot scope.now.tree variable }
{
    match variable {
        SlotOwner::Own { name, .. } => name.from,
        SlotOwner::Global(number) => match scope.globals().get(number) {
            Some(global) => global.name.from,
            None => 0,
        },
    }
}

/// The place of the block instance that exceeds the greatest number.
fn block_past(blocks: &[FunctionBlock]) -> Option<usize>
    ensures { result ≡ slice_get (map (λ b. b.name.from) blocks.now) most_blocks }
{
    let block = blocks.get(MOST_BLOCKS)?;
    Some(block.name.from)
}

/// The next fault after `after` of functions: of one too many, of an input too many, or of one that
/// is too deep. `needs` are those of each function.
fn too_many_functions(
    alloc: Global,
    scope: &Scope<'_>,
    needs: &[Needs],
    after: Option<Found>,
) -> Result<Option<Found>, AllocError>
    requires { needs.now ≡ map (needs_of scope.now.tree) (declared_functions scope.now.tree) }
    ensures { IfOk result (λ found.
        IsNextOf after (OfCause TooMany (IsTooManyOfFunctions scope.now.tree)) found) }
{
    let depths = depths(alloc, scope, needs)?;
    let number = exceeding(function_past(scope.functions()), after);
    let inputs = too_many_inputs(scope.functions(), after);
    Ok(lesser_of(
        number,
        lesser_of(inputs, too_deep(scope.functions(), &depths, after)),
    ))
}

/// The place of the function that exceeds the greatest number.
fn function_past(functions: &[FunctionScope<'_>]) -> Option<usize>
    ensures { result ≡ slice_get (map (λ f. f.function.name.from) functions.now) most_functions }
{
    let function = functions.get(MOST_FUNCTIONS)?;
    Some(function.function().name().from)
}

/// The next fault after `after` of an input that exceeds the greatest number of its function.
fn too_many_inputs(functions: &[FunctionScope<'_>], after: Option<Found>) -> Option<Found>
    ensures { IsNextOf after (OfCause TooMany (λ place. SomeOf (λ f.
        slice_get (map (λ v. v.name.from) f.inputs) most_inputs ≡ Some place) functions.now))
        result }
{
    let mut least = None;
    for function in functions {
        least = lesser_of(least, exceeding(input_past(function.inputs()), after));
    }
    least
}

/// The place of the input that exceeds the greatest number.
fn input_past(inputs: &[DeclaredVariable]) -> Option<usize>
    ensures { result ≡ slice_get (map (λ v. v.name.from) inputs.now) most_inputs }
{
    let input = inputs.get(MOST_INPUTS)?;
    Some(input.name.from)
}

/// The next fault after `after` of a function that is too deep, of functions with these depths.
fn too_deep(
    functions: &[FunctionScope<'_>],
    depths: &[usize],
    after: Option<Found>,
) -> Option<Found>
    ensures { IsNextOf after (OfCause TooMany (AreTooDeep functions.now depths.now)) result }
{
    let mut least = None;
    for (function, depth) in functions.iter().zip(depths) {
        let place = function.function().name().from;
        let fault = found_where(*depth > MOST_CALLS, place, NameCause::TooMany, after);
        least = lesser_of(least, fault);
    }
    least
}

/// The fault of what exceeds a limit at this place, where there is such.
fn exceeding(place: Option<usize>, after: Option<Found>) -> Option<Found>
    ensures { IsNextOf after (OfCause TooMany (λ at. place ≡ Some at)) result }
{
    let at = place?;
    found_where(true, at, NameCause::TooMany, after)
}
