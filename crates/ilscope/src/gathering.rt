//! What is gathered from the elements of a text, one after another.

ghost use Rattle.std.specs.Prelude.{◌≡◌, ◌++◌, [], ◌∷◌, List, IfOk, OnOk, map};
ghost use Rattle.ilsource.specs.declared.source.Element.{Element};
ghost use Rattle.ilsource.specs.declared.source.Element.TheVariants as elements;
ghost use Rattle.ildeclared.specs.Faults.{IsFaultIn, IsNextOf, SomeOf};
ghost use Rattle.ildeclared.specs.Kept.{types_in};
ghost use Rattle.ilscope.specs.Declarations.{declarations_in, name_of};
ghost use Rattle.ilscope.specs.ScopeSteps.{IsGathered};

use crate::function_scope::FunctionScope;
use crate::function_tables::FunctionTables;
use crate::program_scope::ProgramScope;
use crate::program_tables::ProgramTables;
use ildeclared::{
    DeclaredTypes, Found, Names, declared_type, fault_of, fault_of_all, fault_of_result, lesser_of,
};
use ilsource::{Declared, Element, Name, Program, SourceFunction, TypeDeclaration};
use std::alloc::{AllocError, Global};

/// What is gathered from the elements up to a place.
pub(crate) struct Gathering<'a> {
    pub(crate) types: DeclaredTypes,
    pub(crate) programs: Vec<ProgramScope<'a>>,
    pub(crate) variable_numbers: Vec<Names<usize>>,
    pub(crate) block_numbers: Vec<Names<usize>>,
    pub(crate) external_numbers: Vec<Names<usize>>,
    pub(crate) functions: Vec<FunctionScope<'a>>,
    pub(crate) own_numbers: Vec<Names<usize>>,
    pub(crate) least: Option<Found>,
}

/// Written out, so that it is proved here alone.
impl Drop for Gathering<'_> {
    fn drop(self) {
        let Self {
            types: _,
            programs: _,
            variable_numbers: _,
            block_numbers: _,
            external_numbers: _,
            functions: _,
            own_numbers: _,
            least: _,
        } = self;
    }
}

impl<'a> Gathering<'a> {
    /// What is gathered from all elements. `lower` is the text in lower case.
    pub(crate) fn of(
        alloc: Global,
        lower: &[u8],
        elements: &'a [Element],
        after: Option<Found>,
    ) -> Result<Gathering<'a>, AllocError>
        ensures { IfOk result (λ g. IsGathered after lower.now elements.now g.types g.programs.items
            g.variable_numbers.items g.block_numbers.items g.external_numbers.items
            g.functions.items g.own_numbers.items g.least) }
    {
        let mut gathering = Gathering {
            types: Names::new(alloc),
            programs: Vec::new(alloc),
            variable_numbers: Vec::new(alloc),
            block_numbers: Vec::new(alloc),
            external_numbers: Vec::new(alloc),
            functions: Vec::new(alloc),
            own_numbers: Vec::new(alloc),
            least: None,
        };
        for element in elements {
            gathering.add(alloc, lower, element, after)?;
        }
        Ok(gathering)
    }

    /// Its parts. Only a method may take it apart, since its `Drop` is written out.
    pub(crate) fn into_parts(
        self,
    ) -> (
        DeclaredTypes,
        Vec<ProgramScope<'a>>,
        Vec<Names<usize>>,
        Vec<Names<usize>>,
        Vec<Names<usize>>,
        Vec<FunctionScope<'a>>,
        Vec<Names<usize>>,
        Option<Found>,
    )
        ensures types { result.0 ≡ self.entry.types }
        ensures programs { result.1 ≡ self.entry.programs }
        ensures variable_numbers { result.2 ≡ self.entry.variable_numbers }
        ensures block_numbers { result.3 ≡ self.entry.block_numbers }
        ensures external_numbers { result.4 ≡ self.entry.external_numbers }
        ensures functions { result.5 ≡ self.entry.functions }
        ensures own_numbers { result.6 ≡ self.entry.own_numbers }
        ensures least { result.7 ≡ self.entry.least }
    {
        let Gathering {
            types,
            programs,
            variable_numbers,
            block_numbers,
            external_numbers,
            functions,
            own_numbers,
            least,
        } = self;
        (
            types,
            programs,
            variable_numbers,
            block_numbers,
            external_numbers,
            functions,
            own_numbers,
            least,
        )
    }

    /// Adds the next element.
    fn add(
        &mut self,
        alloc: Global,
        lower: &[u8],
        element: &'a Element,
        after: Option<Found>,
    ) -> Result<(), AllocError>
        ensures { OnOk result ((front : List Element)
            → IsGathered after lower.now front
            self.old.types self.old.programs.items
            self.old.variable_numbers.items self.old.block_numbers.items
            self.old.external_numbers.items self.old.functions.items
            self.old.own_numbers.items self.old.least
            → IsGathered after lower.now (front ++ element.now ∷ [])
            self.new.types self.new.programs.items
            self.new.variable_numbers.items self.new.block_numbers.items
            self.new.external_numbers.items self.new.functions.items
            self.new.own_numbers.items self.new.least) }
    {
        match element {
            Element::DerivedType(declared) => self.add_type(alloc, lower, *declared, after),
            Element::Function(function) => self.add_function(alloc, lower, function, after),
            Element::Program(program) => self.add_program(alloc, lower, program, after),
        }
    }

    /// Adds a type, the next element.
    fn add_type(
        &mut self,
        alloc: Global,
        lower: &[u8],
        declared: TypeDeclaration,
        after: Option<Found>,
    ) -> Result<(), AllocError>
        ensures { OnOk result ((front : List Element)
            → IsGathered after lower.now front
            self.old.types self.old.programs.items
            self.old.variable_numbers.items self.old.block_numbers.items
            self.old.external_numbers.items self.old.functions.items
            self.old.own_numbers.items self.old.least
            → IsGathered after lower.now (front ++ elements.DerivedType declared ∷ [])
            self.new.types self.new.programs.items
            self.new.variable_numbers.items self.new.block_numbers.items
            self.new.external_numbers.items self.new.functions.items
            self.new.own_numbers.items self.new.least) }
    {
        let TypeDeclaration {
            name,
            specification,
            initial,
        } = declared;
        let declared = Declared::Variables {
            specification,
            initial,
        };
        let fault = fault_of(lower, &self.types, &[name], declared, after);
        let meaning = declared_type(lower, &self.types, specification, initial);
        self.types.add(alloc, name.text(lower), meaning)?;
        self.least = lesser_of(self.least, fault);
        Ok(())
    }

    /// Adds a function, the next element.
    fn add_function(
        &mut self,
        alloc: Global,
        lower: &[u8],
        function: &'a SourceFunction,
        after: Option<Found>,
    ) -> Result<(), AllocError>
        ensures { OnOk result ((front : List Element)
            → IsGathered after lower.now front
            self.old.types self.old.programs.items
            self.old.variable_numbers.items self.old.block_numbers.items
            self.old.external_numbers.items self.old.functions.items
            self.old.own_numbers.items self.old.least
            → IsGathered after lower.now (front ++ elements.Function function.now ∷ [])
            self.new.types self.new.programs.items
            self.new.variable_numbers.items self.new.block_numbers.items
            self.new.external_numbers.items self.new.functions.items
            self.new.own_numbers.items self.new.least) }
    {
        let above = self.functions.len();
        let tables = FunctionTables::of(alloc, lower, &self.types, above, function, after)?;
        let fault = fault_of_function(lower, &self.types, function, after);
        let FunctionTables {
            scope,
            own_numbers,
            twice,
        } = tables;
        self.own_numbers.push(own_numbers)?;
        self.functions.push(scope)?;
        self.least = lesser_of(self.least, lesser_of(twice, fault));
        Ok(())
    }

    /// Adds a program, the next element.
    fn add_program(
        &mut self,
        alloc: Global,
        lower: &[u8],
        program: &'a Program,
        after: Option<Found>,
    ) -> Result<(), AllocError>
        ensures { OnOk result ((front : List Element)
            → IsGathered after lower.now front
            self.old.types self.old.programs.items
            self.old.variable_numbers.items self.old.block_numbers.items
            self.old.external_numbers.items self.old.functions.items
            self.old.own_numbers.items self.old.least
            → IsGathered after lower.now (front ++ elements.Program program.now ∷ [])
            self.new.types self.new.programs.items
            self.new.variable_numbers.items self.new.block_numbers.items
            self.new.external_numbers.items self.new.functions.items
            self.new.own_numbers.items self.new.least) }
    {
        let above = self.functions.len();
        let tables = ProgramTables::of(alloc, lower, &self.types, above, program, after)?;
        let fault = fault_of_all(lower, &self.types, program.declarations(), after);
        let ProgramTables {
            scope,
            variable_numbers,
            block_numbers,
            external_numbers,
            twice,
        } = tables;
        add_numbers(
            &mut self.variable_numbers,
            &mut self.block_numbers,
            &mut self.external_numbers,
            variable_numbers,
            block_numbers,
            external_numbers,
        )?;
        self.programs.push(scope)?;
        self.least = lesser_of(self.least, lesser_of(twice, fault));
        Ok(())
    }
}

/// The next fault after `after` of what a function declares below these types: of its result, its
/// inputs or its VAR. `lower` is the text in lower case.
fn fault_of_function(
    lower: &[u8],
    types: &DeclaredTypes,
    function: &SourceFunction,
    after: Option<Found>,
) -> Option<Found>
    ensures { IsNextOf after (λ place cause. SomeOf
        (λ d. IsFaultIn (types_in lower.now types.now) d place cause)
        (declarations_in (elements.Function function.now))) result }
{
    let inputs = fault_of_all(lower, types, function.inputs(), after);
    let variables = fault_of_all(lower, types, function.variables(), after);
    lesser_of(
        fault_of_result(lower, types, function, after),
        lesser_of(inputs, variables),
    )
}

/// Adds the numbers of one program's names to those of the programs before it. It is apart from
/// `add_program`, so that few values are let go at each early return.
fn add_numbers(
    variables: &mut Vec<Names<usize>>,
    blocks: &mut Vec<Names<usize>>,
    externals: &mut Vec<Names<usize>>,
    its_variables: Names<usize>,
    its_blocks: Names<usize>,
    its_externals: Names<usize>,
) -> Result<(), AllocError>
    ensures variables { OnOk result
        (variables.new.items ≡ variables.old.items ++ its_variables ∷ []) }
    ensures blocks { OnOk result (blocks.new.items ≡ blocks.old.items ++ its_blocks ∷ []) }
    ensures externals { OnOk result
        (externals.new.items ≡ externals.old.items ++ its_externals ∷ []) }
{
    variables.push(its_variables)?;
    blocks.push(its_blocks)?;
    externals.push(its_externals)?;
    Ok(())
}

/// The names of types, functions and programs.
pub(crate) fn element_names(alloc: Global, elements: &[Element]) -> Result<Vec<Name>, AllocError>
    ensures { IfOk result (λ v. v.items ≡ map name_of elements.now) }
{
    let mut names = Vec::new(alloc);
    for element in elements {
        names.push(match element {
            Element::DerivedType(declared) => declared.name,
            Element::Function(function) => function.name(),
            Element::Program(program) => program.name(),
        })?;
    }
    Ok(names)
}
