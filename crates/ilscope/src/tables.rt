//! Tables of what a text declares, in which names are looked up by hashing.

ghost use Rattle.std.specs.Prelude.{◌≡◌, IfOk};
ghost use Rattle.ilscope.specs.Tables.{lowered};

use crate::body_number::BodyNumber;
use crate::configuration_tables::ConfigurationTables;
use crate::element_tables::ElementTables;
use crate::function_scope::FunctionScope;
use crate::program_scope::ProgramScope;
use ilblocks::BlockKind;
use ildeclared::{DeclaredGlobal, DeclaredTypes, Found, Names, lesser_of};
use ilsource::{Name, Source};
use iltypes::IlType;
use std::alloc::{AllocError, Global};
use std::marker::Model;

/// What a source program declares: its types, programs, global variables, tasks and names.
pub(crate) struct Tables<'a> {
    pub(crate) source: &'a Source,
    pub(crate) lower: Vec<u8>,
    pub(crate) types: DeclaredTypes,
    pub(crate) programs: Vec<ProgramScope<'a>>,
    pub(crate) variable_numbers: Vec<Names<usize>>,
    pub(crate) block_numbers: Vec<Names<usize>>,
    pub(crate) external_numbers: Vec<Names<usize>>,
    pub(crate) functions: Vec<FunctionScope<'a>>,
    pub(crate) own_numbers: Vec<Names<usize>>,
    pub(crate) globals: Vec<DeclaredGlobal>,
    pub(crate) value_types: Vec<Option<IlType>>,
    pub(crate) global_numbers: Names<usize>,
    pub(crate) task_numbers: Names<usize>,
    pub(crate) program_numbers: Names<usize>,
    pub(crate) function_numbers: Names<usize>,
}

/// Written out, so that it is proved here alone.
impl Drop for Tables<'_> {
    fn drop(self) {
        let Self {
            source: _,
            lower: _,
            types: _,
            programs: _,
            variable_numbers: _,
            block_numbers: _,
            external_numbers: _,
            functions: _,
            own_numbers: _,
            globals: _,
            value_types: _,
            global_numbers: _,
            task_numbers: _,
            program_numbers: _,
            function_numbers: _,
        } = self;
    }
}

impl<'a> Model for Tables<'a> {
    ghost use Rattle.std.specs.Coded.{codes};
    ghost use Rattle.ilsource.specs.contracts.source.Element as element;
    ghost use Rattle.ilsource.specs.SourceTrees.{Tree};
    ghost use Rattle.ilscope.specs.ScopeSteps.{AreTablesOf};

    ghost Value = { Tree };

    ghost coded = { Prim.hlevel (codes, element.the_row.coded) };

    ghost view = { λ t. t.source.now };

    ghost invariant = { λ t. AreTablesOf t.source.now t.lower.items t.types t.programs.items
        t.variable_numbers.items t.block_numbers.items t.external_numbers.items t.functions.items
        t.own_numbers.items t.globals.items t.value_types.items t.global_numbers t.task_numbers
        t.program_numbers t.function_numbers };
}

impl<'a> Tables<'a> {
    ghost use Rattle.std.specs.Prelude.{◌≡◌, ◌<◌, ◌↔◌, All, IfOk, IfSome, IsNone, IsSome};
    ghost use Rattle.std.specs.Prelude.{Some, length, option_map, slice_get};
    ghost use Rattle.iltypes.specs.Values.{IsOf};
    ghost use Rattle.ilsource.specs.Names.{SameName, folded};
    ghost use Rattle.ildeclared.specs.Faults.{SomeOf, IsNextOf};
    ghost use Rattle.ilscope.specs.Configured.{function_number, global_number, globals_of};
    ghost use Rattle.ilscope.specs.Configured.{program_number};
    ghost use Rattle.ilscope.specs.Configured.{task_declarations, task_number};
    ghost use Rattle.ilscope.specs.Declarations.{DeclaredFunction, DeclaredProgram, as_program};
    ghost use Rattle.ilscope.specs.Declarations.{body_at, declared_functions, declared_programs};
    ghost use Rattle.ilscope.specs.ScopeSteps.{IsFaultInTables};
    ghost use Rattle.ilscope.specs.Tables.{block_number, external_number, variable_number};

    /// The tables of a source program, and the next after `after` of the faults that are found
    /// while they are filled.
    pub(crate) fn of(
        alloc: Global,
        source: &'a Source,
        after: Option<Found>,
    ) -> Result<(Tables<'a>, Option<Found>), AllocError>
        ensures tree { IfOk result (λ r. r.0 ≡ source.now) }
        ensures least { IfOk result (λ r. IsNextOf after (IsFaultInTables source.now) r.1) }
    {
        let lower = lower_case(alloc, source.text())?;
        let gathered = ElementTables::of(alloc, &lower, source.elements(), after)?;
        let configured = ConfigurationTables::of(
            alloc,
            &lower,
            &gathered.gathering.types,
            source,
            after,
        )?;
        let ElementTables {
            gathering,
            program_numbers,
            function_numbers,
            element_twice,
        } = gathered;
        let (
            types,
            programs,
            variable_numbers,
            block_numbers,
            external_numbers,
            functions,
            own_numbers,
            least,
        ) = gathering.into_parts();
        let ConfigurationTables {
            globals,
            value_types,
            global_numbers,
            task_numbers,
            configured_twice,
        } = configured;
        let found = lesser_of(least, lesser_of(element_twice, configured_twice));
        let tables = Tables {
            source,
            lower,
            types,
            programs,
            variable_numbers,
            block_numbers,
            external_numbers,
            functions,
            own_numbers,
            globals,
            value_types,
            global_numbers,
            task_numbers,
            program_numbers,
            function_numbers,
        };
        Ok((tables, found))
    }

    /// The source program.
    pub(crate) fn source(&self) -> &'a Source
        ensures value { result.now ≡ self.now }
    {
        self.source
    }

    /// The programs in order, each with its variables and block instances.
    pub(crate) fn programs(&self) -> &[ProgramScope<'a>]
        ensures value { result.now ≡ declared_programs self.now }
        // Each initial value is one of its variable's type.
        ensures typed { All (λ p. All (λ v. IsOf v.initial v.value_type) p.variables) result.now }
    {
        &self.programs
    }

    /// The functions in order, each with its variables.
    pub(crate) fn functions(&self) -> &[FunctionScope<'a>]
        ensures value { result.now ≡ declared_functions self.now }
        // Each initial value is one of its variable's type.
        ensures typed { All (λ f. All (λ v. IsOf v.initial v.value_type) f.variables) result.now }
    {
        &self.functions
    }

    /// A name's bytes with letters in lower case, as names are looked up.
    pub(crate) fn spelling(&self, name: Name) -> &[u8]
        ensures value { result.now ≡ folded self.now.text name }
    {
        name.text(&self.lower)
    }

    /// The number of the first variable with this name, in the program or the function with this
    /// number, which is there.
    pub(crate) fn variable_number(&self, body: BodyNumber, name: Name) -> Option<usize>
        requires { IsSome (body_at self.now body) }
        ensures value { (p : DeclaredProgram) → body_at self.now body ≡ Some p
            → result ≡ variable_number (folded self.now.text) p.variables name }
        ensures none { (p : DeclaredProgram) → body_at self.now body ≡ Some p
            → (IsNone result ↔ ¬ SomeOf (λ v. SameName self.now.text name v.name) p.variables) }
    {
        match body {
            BodyNumber::Program(number) => self.variable_of_program(number, name),
            BodyNumber::Function(number) => self.variable_of_function(number, name),
        }
    }

    /// The same in the program with this number, which is below the number of programs.
    fn variable_of_program(&self, program: usize, name: Name) -> Option<usize>
        requires { program < length (declared_programs self.now) }
        ensures value { (p : DeclaredProgram)
            → slice_get (declared_programs self.now) program ≡ Some p
            → result ≡ variable_number (folded self.now.text) p.variables name }
        ensures none { (p : DeclaredProgram)
            → slice_get (declared_programs self.now) program ≡ Some p
            → (IsNone result ↔ ¬ SomeOf (λ v. SameName self.now.text name v.name) p.variables) }
    {
        self.variable_numbers[program].get(name.text(&self.lower))
    }

    /// The same in the function with this number, which is below the number of functions.
    fn variable_of_function(&self, function: usize, name: Name) -> Option<usize>
        requires { function < length (declared_functions self.now) }
        ensures value { (f : DeclaredFunction)
            → slice_get (declared_functions self.now) function ≡ Some f
            → result ≡ variable_number (folded self.now.text) (as_program f).variables name }
        ensures none { (f : DeclaredFunction)
            → slice_get (declared_functions self.now) function ≡ Some f
            → (IsNone result
            ↔ ¬ SomeOf (λ v. SameName self.now.text name v.name) (as_program f).variables) }
    {
        self.own_numbers[function].get(name.text(&self.lower))
    }

    /// The number of the first external with this name, in the program or the function with this
    /// number, which is there.
    pub(crate) fn external_number(&self, body: BodyNumber, name: Name) -> Option<usize>
        requires { IsSome (body_at self.now body) }
        ensures value { (p : DeclaredProgram) → body_at self.now body ≡ Some p
            → result ≡ external_number (folded self.now.text) p.externals name }
        ensures none { (p : DeclaredProgram) → body_at self.now body ≡ Some p
            → (IsNone result ↔ ¬ SomeOf (λ e. SameName self.now.text name e.name) p.externals) }
    {
        match body {
            BodyNumber::Program(number) => self.external_of_program(number, name),
            BodyNumber::Function(_) => None,
        }
    }

    /// The same in the program with this number, which is below the number of programs.
    fn external_of_program(&self, program: usize, name: Name) -> Option<usize>
        requires { program < length (declared_programs self.now) }
        ensures value { (p : DeclaredProgram)
            → slice_get (declared_programs self.now) program ≡ Some p
            → result ≡ external_number (folded self.now.text) p.externals name }
        ensures none { (p : DeclaredProgram)
            → slice_get (declared_programs self.now) program ≡ Some p
            → (IsNone result ↔ ¬ SomeOf (λ e. SameName self.now.text name e.name) p.externals) }
    {
        self.external_numbers[program].get(name.text(&self.lower))
    }

    /// The number of the first block instance with this name, in the program or the function with
    /// this number, which is there; and its kind.
    pub(crate) fn block(&self, body: BodyNumber, name: Name) -> Option<(usize, BlockKind)>
        requires { IsSome (body_at self.now body) }
        ensures number { (p : DeclaredProgram) → body_at self.now body ≡ Some p
            → option_map (λ b. b.0) result ≡ block_number (folded self.now.text) p.blocks name }
        ensures kind { (p : DeclaredProgram) → body_at self.now body ≡ Some p
            → IfSome result (λ b. option_map (λ d. d.kind) (slice_get p.blocks b.0) ≡ Some b.1) }
        ensures none { (p : DeclaredProgram) → body_at self.now body ≡ Some p
            → (IsNone result ↔ ¬ SomeOf (λ b. SameName self.now.text name b.name) p.blocks) }
    {
        match body {
            BodyNumber::Program(number) => self.block_of_program(number, name),
            BodyNumber::Function(_) => None,
        }
    }

    /// The same in the program with this number, which is below the number of programs.
    fn block_of_program(&self, program: usize, name: Name) -> Option<(usize, BlockKind)>
        requires { program < length (declared_programs self.now) }
        ensures number { (p : DeclaredProgram)
            → slice_get (declared_programs self.now) program ≡ Some p
            → option_map (λ b. b.0) result ≡ block_number (folded self.now.text) p.blocks name }
        ensures kind { (p : DeclaredProgram)
            → slice_get (declared_programs self.now) program ≡ Some p
            → IfSome result (λ b. option_map (λ d. d.kind) (slice_get p.blocks b.0) ≡ Some b.1) }
        ensures none { (p : DeclaredProgram)
            → slice_get (declared_programs self.now) program ≡ Some p
            → (IsNone result ↔ ¬ SomeOf (λ b. SameName self.now.text name b.name) p.blocks) }
    {
        let number = self.block_number(program, name)?;
        let block = self.programs[program].blocks().get(number)?;
        Some((number, block.kind))
    }

    /// The number of the first block instance with this name, in the program with this number.
    fn block_number(&self, program: usize, name: Name) -> Option<usize>
        requires { program < length (declared_programs self.now) }
        ensures { (p : DeclaredProgram) → slice_get (declared_programs self.now) program ≡ Some p
            → result ≡ block_number (folded self.now.text) p.blocks name }
    {
        self.block_numbers[program].get(name.text(&self.lower))
    }

    /// The global variables, in declared order.
    pub(crate) fn globals(&self) -> &[DeclaredGlobal]
        ensures value { result.now ≡ globals_of self.now }
        // Each initial value is one of its variable's type.
        ensures typed { All (λ g. IsOf g.initial g.value_type) result.now }
    {
        &self.globals
    }

    /// The number of the first global variable with this name.
    pub(crate) fn global_number(&self, name: Name) -> Option<usize>
        ensures value { result ≡ global_number self.now name }
        ensures none { IsNone result
            ↔ ¬ SomeOf (λ g. SameName self.now.text name g.name) (globals_of self.now) }
    {
        self.global_numbers.get(name.text(&self.lower))
    }

    /// The number of the first task with this name.
    pub(crate) fn task_number(&self, name: Name) -> Option<usize>
        ensures value { result ≡ task_number self.now name }
        ensures none { IsNone result
            ↔ ¬ SomeOf (λ t. SameName self.now.text name t.name)
            (task_declarations self.now) }
    {
        self.task_numbers.get(name.text(&self.lower))
    }

    /// The number of the first program with this name.
    pub(crate) fn program_number(&self, name: Name) -> Option<usize>
        ensures value { result ≡ program_number self.now name }
        ensures none { IsNone result
            ↔ ¬ SomeOf (λ p. SameName self.now.text name p.program.name)
            (declared_programs self.now) }
    {
        self.program_numbers.get(name.text(&self.lower))
    }

    /// The number of the first function with this name.
    pub(crate) fn function_number(&self, name: Name) -> Option<usize>
        ensures value { result ≡ function_number self.now name }
        ensures none { IsNone result
            ↔ ¬ SomeOf (λ f. SameName self.now.text name f.function.name)
            (declared_functions self.now) }
    {
        self.function_numbers.get(name.text(&self.lower))
    }
}

/// The bytes with letters in lower case.
fn lower_case(alloc: Global, text: &[u8]) -> Result<Vec<u8>, AllocError>
    ensures { IfOk result (λ v. v.items ≡ lowered text.now) }
{
    text.iter()
        .map(|byte| byte.to_ascii_lowercase())
        .collect(alloc)
}
