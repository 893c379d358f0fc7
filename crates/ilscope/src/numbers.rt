//! Numbers of names, and names that are given again.

ghost use Rattle.std.specs.Prelude.{◌≡◌, ◌++◌, ℕ, List, IfOk, OnOk, IsSome, bytes_eq};
ghost use Rattle.std.specs.Prelude.{map};
ghost use Rattle.std.specs.Map.{lookup};
ghost use Rattle.ilsource.specs.Names.{text_of};
ghost use Rattle.ildeclared.specs.Declarations.{names_of};
ghost use Rattle.ildeclared.specs.Faults.{IsNextOf, OfCause};
ghost use Rattle.ildeclared.specs.Kept.{KeepsToo};
ghost use Rattle.ildeclared.specs.declared.fault.NameCause.TheVariants.{Twice};
ghost use Rattle.ilscope.specs.Configured.{task_declarations};
ghost use Rattle.ilscope.specs.Declarations.{name_of};
ghost use Rattle.ilscope.specs.Faults.{IsTwiceIn};
ghost use Rattle.ilscope.specs.Tables.{first_at};

use crate::configuration::{program_names, task_names, tasks_of};
use crate::function_scope::FunctionScope;
use crate::gathering::element_names;
use crate::program_scope::ProgramScope;
use ildeclared::{
    DeclaredBlock, DeclaredExternal, DeclaredGlobal, DeclaredVariable, Found, NameCause, Names,
    block_names, external_names, found_where, global_names, lesser_of, names_of, variable_names,
};
use ilsource::{Element, Name, Program, Source};
use std::alloc::{AllocError, Global};

/// Under each name the number of the first that is spelled alike, and the next fault after `after`
/// of a name that is given again. `lower` is the text in lower case.
pub(crate) fn numbers_of(
    alloc: Global,
    lower: &[u8],
    names: &[Name],
    after: Option<Found>,
) -> Result<(Names<usize>, Option<Found>), AllocError>
    ensures numbers { IfOk result (λ r. (key : List ℕ)
        → lookup (bytes_eq key) r.0 ≡ first_at (bytes_eq key) (map (text_of lower.now) names.now)) }
    ensures twice { IfOk result (λ r.
        IsNextOf after (OfCause Twice (IsTwiceIn (text_of lower.now) names.now)) r.1) }
{
    let mut numbers = Names::new(alloc);
    let mut least = None;
    for (number, name) in names.iter().enumerate() {
        let again = add_name(alloc, lower, &mut numbers, *name, number, after)?;
        least = lesser_of(least, again);
    }
    Ok((numbers, least))
}

/// Adds a name with its number where it is new, and else gives its fault.
fn add_name(
    alloc: Global,
    lower: &[u8],
    numbers: &mut Names<usize>,
    name: Name,
    number: usize,
    after: Option<Found>,
) -> Result<Option<Found>, AllocError>
    ensures numbers { OnOk result
        (KeepsToo (text_of lower.now name) number numbers.old numbers.new) }
    ensures twice { IfOk result (λ again. IsNextOf after (OfCause Twice (λ place.
        IsSome (lookup (bytes_eq (text_of lower.now name)) numbers.old) × (place ≡ name.from)))
        again) }
{
    let is_new = numbers.add(alloc, name.text(lower), number)?;
    Ok(found_where(!is_new, name.from, NameCause::Twice, after))
}

/// The next fault after `after` of a name of a type, a function or a program that is given again.
pub(crate) fn element_given_twice(
    alloc: Global,
    lower: &[u8],
    elements: &[Element],
    after: Option<Found>,
) -> Result<Option<Found>, AllocError>
    ensures { IfOk result
        (IsNextOf after
        (OfCause Twice (IsTwiceIn (text_of lower.now) (map name_of elements.now)))) }
{
    let names = element_names(alloc, elements)?;
    let (_, twice) = numbers_of(alloc, lower, &names, after)?;
    Ok(twice)
}

/// The numbers of global variables under their names, and the next fault after `after` of one that
/// is given again.
pub(crate) fn numbers_of_globals(
    alloc: Global,
    lower: &[u8],
    globals: &[DeclaredGlobal],
    after: Option<Found>,
) -> Result<(Names<usize>, Option<Found>), AllocError>
    ensures numbers { IfOk result (λ r. (key : List ℕ) → lookup (bytes_eq key) r.0
        ≡ first_at (bytes_eq key) (map (text_of lower.now) (map (λ g. g.name) globals.now))) }
    ensures twice { IfOk result (λ r. IsNextOf after
        (OfCause Twice (IsTwiceIn (text_of lower.now) (map (λ g. g.name) globals.now))) r.1) }
{
    let names = global_names(alloc, globals)?;
    numbers_of(alloc, lower, &names, after)
}

/// The numbers of tasks under their names, and the next fault after `after` of one that is given
/// again.
pub(crate) fn numbers_of_tasks(
    alloc: Global,
    lower: &[u8],
    source: &Source,
    after: Option<Found>,
) -> Result<(Names<usize>, Option<Found>), AllocError>
    ensures numbers { IfOk result (λ r. (key : List ℕ) → lookup (bytes_eq key) r.0
        ≡ first_at (bytes_eq key)
        (map (text_of lower.now) (map (λ t. t.name) (task_declarations source.now)))) }
    ensures twice { IfOk result (λ r. IsNextOf after (OfCause Twice
        (IsTwiceIn (text_of lower.now) (map (λ t. t.name) (task_declarations source.now)))) r.1) }
{
    let names = task_names(alloc, tasks_of(source))?;
    numbers_of(alloc, lower, &names, after)
}

/// The numbers of programs under their names.
pub(crate) fn numbers_of_programs(
    alloc: Global,
    lower: &[u8],
    programs: &[ProgramScope<'_>],
) -> Result<Names<usize>, AllocError>
    ensures { IfOk result (λ numbers. (key : List ℕ) → lookup (bytes_eq key) numbers
        ≡ first_at (bytes_eq key)
        (map (text_of lower.now) (map (λ p. p.program.name) programs.now))) }
{
    let names = program_names(alloc, programs)?;
    let (numbers, _) = numbers_of(alloc, lower, &names, None)?;
    Ok(numbers)
}

/// The numbers of a program's variables under their names.
pub(crate) fn numbers_of_variables(
    alloc: Global,
    lower: &[u8],
    variables: &[DeclaredVariable],
) -> Result<Names<usize>, AllocError>
    ensures { IfOk result (λ numbers. (key : List ℕ) → lookup (bytes_eq key) numbers
        ≡ first_at (bytes_eq key) (map (text_of lower.now) (map (λ v. v.name) variables.now))) }
{
    let names = variable_names(alloc, variables)?;
    let (numbers, _) = numbers_of(alloc, lower, &names, None)?;
    Ok(numbers)
}

/// The numbers of a function's inputs and, after them, of its other variables under their names.
pub(crate) fn numbers_of_own(
    alloc: Global,
    lower: &[u8],
    inputs: &[DeclaredVariable],
    variables: &[DeclaredVariable],
) -> Result<Names<usize>, AllocError>
    ensures { IfOk result (λ numbers. (key : List ℕ) → lookup (bytes_eq key) numbers
        ≡ first_at (bytes_eq key)
        (map (text_of lower.now) (map (λ v. v.name) (inputs.now ++ variables.now)))) }
{
    let mut names = variable_names(alloc, inputs)?;
    let others = variable_names(alloc, variables)?;
    names.extend_from_slice(&others)?;
    let (numbers, _) = numbers_of(alloc, lower, &names, None)?;
    Ok(numbers)
}

/// The numbers of functions under their names.
pub(crate) fn numbers_of_functions(
    alloc: Global,
    lower: &[u8],
    functions: &[FunctionScope<'_>],
) -> Result<Names<usize>, AllocError>
    ensures { IfOk result (λ numbers. (key : List ℕ) → lookup (bytes_eq key) numbers
        ≡ first_at (bytes_eq key)
        (map (text_of lower.now) (map (λ f. f.function.name) functions.now))) }
{
    let names = names_of_functions(alloc, functions)?;
    let (numbers, _) = numbers_of(alloc, lower, &names, None)?;
    Ok(numbers)
}

/// The names of functions.
fn names_of_functions(
    alloc: Global,
    functions: &[FunctionScope<'_>],
) -> Result<Vec<Name>, AllocError>
    ensures { IfOk result (λ v. v.items ≡ map (λ f. f.function.name) functions.now) }
{
    functions
        .iter()
        .map(|function| function.function().name())
        .collect(alloc)
}

/// The numbers of a program's block instances under their names.
pub(crate) fn numbers_of_blocks(
    alloc: Global,
    lower: &[u8],
    blocks: &[DeclaredBlock],
) -> Result<Names<usize>, AllocError>
    ensures { IfOk result (λ numbers. (key : List ℕ) → lookup (bytes_eq key) numbers
        ≡ first_at (bytes_eq key) (map (text_of lower.now) (map (λ b. b.name) blocks.now))) }
{
    let names = block_names(alloc, blocks)?;
    let (numbers, _) = numbers_of(alloc, lower, &names, None)?;
    Ok(numbers)
}

/// The numbers of a program's externals under their names.
pub(crate) fn numbers_of_externals(
    alloc: Global,
    lower: &[u8],
    externals: &[DeclaredExternal],
) -> Result<Names<usize>, AllocError>
    ensures { IfOk result (λ numbers. (key : List ℕ) → lookup (bytes_eq key) numbers
        ≡ first_at (bytes_eq key) (map (text_of lower.now) (map (λ e. e.name) externals.now))) }
{
    let names = external_names(alloc, externals)?;
    let (numbers, _) = numbers_of(alloc, lower, &names, None)?;
    Ok(numbers)
}

/// The next fault after `after` of a name that a program gives again.
pub(crate) fn name_given_twice(
    alloc: Global,
    lower: &[u8],
    program: &Program,
    after: Option<Found>,
) -> Result<Option<Found>, AllocError>
    ensures { IfOk result
        (IsNextOf after (OfCause Twice (IsTwiceIn (text_of lower.now) (names_of program.now)))) }
{
    let names = names_of(alloc, program)?;
    let (_, twice) = numbers_of(alloc, lower, &names, after)?;
    Ok(twice)
}
