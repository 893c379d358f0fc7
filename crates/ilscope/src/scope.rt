//! Scopes: what is declared, with the least fault of declarations.
//!
//! Neither limits nor names in instructions are looked at here: their faults are reported when
//! names are resolved.

ghost use Rattle.std.specs.Prelude.{◌≡◌, IfOk};
ghost use Rattle.ildeclared.specs.Faults.{IsNextOf};
ghost use Rattle.ilscope.specs.Faults.{IsFaultOfDeclarations};
ghost use Rattle.ilscope.specs.Reports.{IsReportOf, IsReportOfOption};

use crate::body_number::BodyNumber;
use crate::function_scope::FunctionScope;
use crate::program_scope::ProgramScope;
use crate::tables::Tables;
use ilblocks::BlockKind;
use ildeclared::{DeclaredGlobal, Found, NameFault, lesser_of};
use ilsource::{LineColumn, Name, Source};
use std::alloc::{AllocError, Global};
use std::marker::Model;
use wordlines::Binding;

/// What a source program declares, and the least fault of its declarations.
#[derive(Drop)]
pub struct Scope<'a> {
    tables: Tables<'a>,
    binding: &'a Binding,
    least: Option<Found>,
}

impl<'a> Model for Scope<'a> {
    ghost use Rattle.std.specs.Coded.{codes};
    ghost use Rattle.ilsource.specs.contracts.source.Element as element;
    ghost use Rattle.ildeclared.specs.Faults.{IsLeastOf};
    ghost use Rattle.ilscope.specs.Faults.{IsFaultOfDeclarations};
    ghost use Rattle.ilscope.specs.Scoped.{Scoped};

    ghost Value = { Scoped };

    ghost coded = { Prim.hlevel (codes, element.the_row.coded) };

    ghost view = { λ s. record { tree = s.tables; wiring = s.binding.now } };

    ghost invariant = { λ s. IsLeastOf (IsFaultOfDeclarations s.tables s.binding.now) s.least };
}

impl<'a> Scope<'a> {
    ghost use Rattle.std.specs.Prelude.{◌≡◌, ◌↔◌, ℕ, All, IfOk, IfSome, IsNone, IsSome};
    ghost use Rattle.std.specs.Prelude.{MatchOption, Some, option_map, slice_get};
    ghost use Rattle.iltypes.specs.Values.{IsOf};
    ghost use Rattle.ilsource.specs.Names.{SameName, folded};
    ghost use Rattle.ildeclared.specs.Faults.{SomeOf, IsLeastOf, IsNextOf};
    ghost use Rattle.ildeclared.specs.declared.fault.NameCause.{NameCause};
    ghost use Rattle.ildeclared.specs.declared.fault.NameFault.{NameFault};
    ghost use Rattle.ilscope.specs.Configured.{function_number, global_number, globals_of};
    ghost use Rattle.ilscope.specs.Configured.{program_number};
    ghost use Rattle.ilscope.specs.Configured.{task_declarations, task_number};
    ghost use Rattle.ilscope.specs.Declarations.{DeclaredProgram, body_at, declared_functions};
    ghost use Rattle.ilscope.specs.Declarations.{declared_programs};
    ghost use Rattle.ilscope.specs.Faults.{IsFaultOfDeclarations};
    ghost use Rattle.ilscope.specs.Reports.{ReportsLeast};
    ghost use Rattle.ilscope.specs.Tables.{block_number, external_number, variable_number};

    /// What `source` declares. The addresses of its located variables are looked up in `binding`.
    pub fn of(
        alloc: Global,
        source: &'a Source,
        binding: &'a Binding,
    ) -> Result<Scope<'a>, AllocError>
        ensures tree { IfOk result (λ scope. scope.tree ≡ source.now) }
        ensures wiring { IfOk result (λ scope. scope.wiring ≡ binding.now) }
    {
        let (tables, least) = tables_with_fault(alloc, source, binding, None)?;
        Ok(Scope {
            tables,
            binding,
            least,
        })
    }

    /// The least fault that stands in a declaration; limits and names in instructions are looked at
    /// when names are resolved.
    pub fn fault(&self) -> Option<NameFault>
        ensures fault { MatchOption result
            ((place : ℕ) (cause : NameCause)
            → ¬ IsFaultOfDeclarations self.now.tree self.now.wiring place cause)
            (λ fault. ReportsLeast self.now.tree.text
            (IsFaultOfDeclarations self.now.tree self.now.wiring) fault) }
        // It is one at most.
        ensures one { (a b : NameFault)
            → ReportsLeast self.now.tree.text
            (IsFaultOfDeclarations self.now.tree self.now.wiring) a
            → ReportsLeast self.now.tree.text
            (IsFaultOfDeclarations self.now.tree self.now.wiring) b → a ≡ b }
    {
        reported(self.tables.source().text(), self.least())
    }

    /// The least fault that stands in a declaration, at its place in the text.
    pub fn least(&self) -> Option<Found>
        ensures { IsLeastOf (IsFaultOfDeclarations self.now.tree self.now.wiring) result }
    {
        self.least
    }

    /// The least fault that stands in a declaration and comes after `after`; the least of all where
    /// that is `None`. Called again with what it found it gives one fault after the other.
    ///
    /// # Errors
    ///
    /// The allocator is out of memory.
    pub fn next_fault(
        &self,
        alloc: Global,
        after: Option<Found>,
    ) -> Result<Option<Found>, AllocError>
        ensures { IfOk result (λ found. IsNextOf after
            (IsFaultOfDeclarations self.now.tree self.now.wiring) found) }
    {
        let (_, found) = tables_with_fault(alloc, self.tables.source(), self.binding, after)?;
        Ok(found)
    }

    /// The source program.
    pub fn source(&self) -> &'a Source
        ensures value { result.now ≡ self.now.tree }
    {
        self.tables.source()
    }

    /// The programs in order, each with its variables and block instances.
    pub fn programs(&self) -> &[ProgramScope<'a>]
        ensures value { result.now ≡ declared_programs self.now.tree }
        // Each initial value is one of its variable's type.
        ensures typed { All (λ p. All (λ v. IsOf v.initial v.value_type) p.variables) result.now }
    {
        self.tables.programs()
    }

    /// The functions in order, each with its variables.
    pub fn functions(&self) -> &[FunctionScope<'a>]
        ensures value { result.now ≡ declared_functions self.now.tree }
        // Each initial value is one of its variable's type.
        ensures typed { All (λ f. All (λ v. IsOf v.initial v.value_type) f.variables) result.now }
    {
        self.tables.functions()
    }

    /// A name's bytes with letters in lower case, as names are looked up.
    pub fn spelling(&self, name: Name) -> &[u8]
        ensures value { result.now ≡ folded self.now.tree.text name }
    {
        self.tables.spelling(name)
    }

    /// The number of the first variable with this name, in the program or the function with this
    /// number, which is there.
    pub fn variable_number(&self, body: BodyNumber, name: Name) -> Option<usize>
        requires { IsSome (body_at self.now.tree body) }
        ensures value { (p : DeclaredProgram) → body_at self.now.tree body ≡ Some p
            → result ≡ variable_number (folded self.now.tree.text) p.variables name }
        ensures none { (p : DeclaredProgram) → body_at self.now.tree body ≡ Some p
            → (IsNone result
            ↔ ¬ SomeOf (λ v. SameName self.now.tree.text name v.name) p.variables) }
    {
        self.tables.variable_number(body, name)
    }

    /// The number of the first external with this name, in the program or the function with this
    /// number, which is there.
    pub fn external_number(&self, body: BodyNumber, name: Name) -> Option<usize>
        requires { IsSome (body_at self.now.tree body) }
        ensures value { (p : DeclaredProgram) → body_at self.now.tree body ≡ Some p
            → result ≡ external_number (folded self.now.tree.text) p.externals name }
        ensures none { (p : DeclaredProgram) → body_at self.now.tree body ≡ Some p
            → (IsNone result
            ↔ ¬ SomeOf (λ e. SameName self.now.tree.text name e.name) p.externals) }
    {
        self.tables.external_number(body, name)
    }

    /// The number of the first block instance with this name, in the program or the function with
    /// this number, which is there; and its kind.
    pub fn block(&self, body: BodyNumber, name: Name) -> Option<(usize, BlockKind)>
        requires { IsSome (body_at self.now.tree body) }
        ensures number { (p : DeclaredProgram) → body_at self.now.tree body ≡ Some p
            → option_map (λ b. b.0) result
            ≡ block_number (folded self.now.tree.text) p.blocks name }
        ensures kind { (p : DeclaredProgram) → body_at self.now.tree body ≡ Some p
            → IfSome result (λ b. option_map (λ d. d.kind) (slice_get p.blocks b.0) ≡ Some b.1) }
        ensures none { (p : DeclaredProgram) → body_at self.now.tree body ≡ Some p
            → (IsNone result ↔ ¬ SomeOf (λ b. SameName self.now.tree.text name b.name) p.blocks) }
    {
        self.tables.block(body, name)
    }

    /// The global variables, in declared order.
    pub fn globals(&self) -> &[DeclaredGlobal]
        ensures value { result.now ≡ globals_of self.now.tree }
        // Each initial value is one of its variable's type.
        ensures typed { All (λ g. IsOf g.initial g.value_type) result.now }
    {
        self.tables.globals()
    }

    /// The number of the first global variable with this name.
    pub fn global_number(&self, name: Name) -> Option<usize>
        ensures value { result ≡ global_number self.now.tree name }
        ensures none { IsNone result
            ↔ ¬ SomeOf (λ g. SameName self.now.tree.text name g.name) (globals_of self.now.tree) }
    {
        self.tables.global_number(name)
    }

    /// The number of the first task with this name.
    pub fn task_number(&self, name: Name) -> Option<usize>
        ensures value { result ≡ task_number self.now.tree name }
        ensures none { IsNone result
            ↔ ¬ SomeOf (λ t. SameName self.now.tree.text name t.name)
            (task_declarations self.now.tree) }
    {
        self.tables.task_number(name)
    }

    /// The number of the first program with this name.
    pub fn program_number(&self, name: Name) -> Option<usize>
        ensures value { result ≡ program_number self.now.tree name }
        ensures none { IsNone result
            ↔ ¬ SomeOf (λ p. SameName self.now.tree.text name p.program.name)
            (declared_programs self.now.tree) }
    {
        self.tables.program_number(name)
    }

    /// The number of the first function with this name.
    pub fn function_number(&self, name: Name) -> Option<usize>
        ensures value { result ≡ function_number self.now.tree name }
        ensures none { IsNone result
            ↔ ¬ SomeOf (λ f. SameName self.now.tree.text name f.function.name)
            (declared_functions self.now.tree) }
    {
        self.tables.function_number(name)
    }
}

/// The tables of a source program, and the least fault of its declarations that comes after
/// `after`.
fn tables_with_fault<'a>(
    alloc: Global,
    source: &'a Source,
    binding: &Binding,
    after: Option<Found>,
) -> Result<(Tables<'a>, Option<Found>), AllocError>
    ensures tree { IfOk result (λ r. r.0 ≡ source.now) }
    ensures fault { IfOk result (λ r. IsNextOf after
        (IsFaultOfDeclarations source.now binding.now) r.1) }
{
    let (tables, filled) = Tables::of(alloc, source, after)?;
    let configured = tables.fault_of_configuration(alloc, binding, after)?;
    Ok((tables, lesser_of(filled, configured)))
}

/// The fault with its line and column in `text`.
pub fn report_of(text: &[u8], found: Found) -> NameFault
    ensures { IsReportOf text.now found result }
{
    let LineColumn { line, col } = LineColumn::of(text, found.at);
    NameFault::At {
        line,
        col,
        cause: found.cause,
    }
}

/// What was found, with its line and column in `text`.
fn reported(text: &[u8], least: Option<Found>) -> Option<NameFault>
    ensures { IsReportOfOption text.now least result }
{
    match least {
        None => None,
        Some(found) => Some(report_of(text, found)),
    }
}
