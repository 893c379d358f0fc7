//! A program with what it declares, and tables in which its names are looked up.

ghost use Rattle.std.specs.Prelude.{◌≡◌, IfOk};
ghost use Rattle.ilsource.specs.Names.{text_of};
ghost use Rattle.ildeclared.specs.Kept.{types_in};
ghost use Rattle.ilscope.specs.Declarations.{with_declared};
ghost use Rattle.ilscope.specs.ScopeSteps.{AreNumbersOf, block_names, external_names};
ghost use Rattle.ilscope.specs.ScopeSteps.{variable_names};

use crate::numbers::{
    name_given_twice, numbers_of_blocks, numbers_of_externals, numbers_of_variables,
};
use crate::program_scope::ProgramScope;
use ildeclared::{DeclaredTypes, Found, Names, blocks_of, externals_of, variables_of};
use ilsource::Program;
use std::alloc::{AllocError, Global};

/// A program with what it declares, the numbers of its variables, block instances and externals,
/// and a fault of a name of these that is given again.
#[derive(Drop)]
pub(crate) struct ProgramTables<'a> {
    pub(crate) scope: ProgramScope<'a>,
    pub(crate) variable_numbers: Names<usize>,
    pub(crate) block_numbers: Names<usize>,
    pub(crate) external_numbers: Names<usize>,
    pub(crate) twice: Option<Found>,
}

impl<'a> ProgramTables<'a> {
    ghost use Rattle.ildeclared.specs.Declarations.{names_of};
    ghost use Rattle.ildeclared.specs.Faults.{IsNextOf, OfCause};
    ghost use Rattle.ildeclared.specs.declared.fault.NameCause.TheVariants.{Twice};
    ghost use Rattle.ilscope.specs.Faults.{IsTwiceIn};

    /// The tables of a program below these types and so many functions. `lower` is the text in
    /// lower case.
    pub(crate) fn of(
        alloc: Global,
        lower: &[u8],
        types: &DeclaredTypes,
        functions: usize,
        program: &'a Program,
        after: Option<Found>,
    ) -> Result<ProgramTables<'a>, AllocError>
        ensures scope { IfOk result (λ tables.
            tables.scope ≡ with_declared (types_in lower.now types.now) functions program.now) }
        ensures variables { IfOk result (λ tables. AreNumbersOf (text_of lower.now)
            (variable_names tables.scope) tables.variable_numbers) }
        ensures blocks { IfOk result (λ tables. AreNumbersOf (text_of lower.now)
            (block_names tables.scope) tables.block_numbers) }
        ensures externals { IfOk result (λ tables. AreNumbersOf (text_of lower.now)
            (external_names tables.scope) tables.external_numbers) }
        ensures twice { IfOk result (λ tables. IsNextOf after
            (OfCause Twice (IsTwiceIn (text_of lower.now) (names_of program.now))) tables.twice) }
    {
        let twice = name_given_twice(alloc, lower, program, after)?;
        let scope = scope_of(alloc, lower, types, functions, program)?;
        let (variable_numbers, block_numbers, external_numbers) = numbers_in(alloc, lower, &scope)?;
        Ok(ProgramTables {
            scope,
            variable_numbers,
            block_numbers,
            external_numbers,
            twice,
        })
    }
}

/// The numbers of a program's variables, block instances and externals. They are made apart from
/// the rest, so that few values are let go at each early return.
fn numbers_in(
    alloc: Global,
    lower: &[u8],
    scope: &ProgramScope<'_>,
) -> Result<(Names<usize>, Names<usize>, Names<usize>), AllocError>
    ensures variables { IfOk result (λ r.
        AreNumbersOf (text_of lower.now) (variable_names scope.now) r.0) }
    ensures blocks { IfOk result (λ r.
        AreNumbersOf (text_of lower.now) (block_names scope.now) r.1) }
    ensures externals { IfOk result (λ r.
        AreNumbersOf (text_of lower.now) (external_names scope.now) r.2) }
{
    let variables = numbers_of_variables(alloc, lower, scope.variables())?;
    let blocks = numbers_of_blocks(alloc, lower, scope.blocks())?;
    let externals = numbers_of_externals(alloc, lower, scope.externals())?;
    Ok((variables, blocks, externals))
}

/// A program with what it declares below these types and so many functions. `lower` is the text in
/// lower case.
fn scope_of<'a>(
    alloc: Global,
    lower: &[u8],
    types: &DeclaredTypes,
    functions: usize,
    program: &'a Program,
) -> Result<ProgramScope<'a>, AllocError>
    ensures { IfOk result (λ scope.
        scope ≡ with_declared (types_in lower.now types.now) functions program.now) }
{
    let variables = variables_of(alloc, lower, types, program)?;
    let blocks = blocks_of(alloc, program)?;
    let externals = externals_of(alloc, lower, types, program)?;
    Ok(ProgramScope::new(program, variables, blocks, externals, functions))
}
