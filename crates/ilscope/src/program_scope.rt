//! Programs with what they declare.

use ildeclared::{DeclaredBlock, DeclaredExternal, DeclaredVariable};
use ilsource::Program;
use std::marker::Model;

/// A program with its variables, block instances and externals.
pub struct ProgramScope<'a> {
    program: &'a Program,
    variables: Vec<DeclaredVariable>,
    blocks: Vec<DeclaredBlock>,
    externals: Vec<DeclaredExternal>,
    functions: usize,
}

/// Written out, so that it is proved here alone.
impl Drop for ProgramScope<'_> {
    fn drop(self) {
        let Self {
            program: _,
            variables: _,
            blocks: _,
            externals: _,
            functions: _,
        } = self;
    }
}

impl<'a> Model for ProgramScope<'a> {
    ghost use Rattle.std.specs.Coded.{codes};
    ghost use Rattle.ilsource.specs.contracts.program.Program as inner;
    ghost use Rattle.ilscope.specs.Declarations.{DeclaredProgram};

    ghost Value = { DeclaredProgram };

    ghost coded = { Prim.hlevel (codes, inner.the_row.coded) };

    ghost view = { λ p. record {
      program = p.program.now;
      variables = p.variables.items;
      blocks = p.blocks.items;
      externals = p.externals.items;
      functions = p.functions;
    } };
}

impl<'a> ProgramScope<'a> {
    ghost use Rattle.std.specs.Prelude.{◌≡◌};

    /// The program, its variables, block instances and externals in the order in which they are
    /// declared, and how many functions stand above it.
    pub(crate) fn new(
        program: &'a Program,
        variables: Vec<DeclaredVariable>,
        blocks: Vec<DeclaredBlock>,
        externals: Vec<DeclaredExternal>,
        functions: usize,
    ) -> ProgramScope<'a>
        ensures program { result.program ≡ program.now }
        ensures variables { result.variables ≡ variables.items }
        ensures blocks { result.blocks ≡ blocks.items }
        ensures externals { result.externals ≡ externals.items }
        ensures functions { result.functions ≡ functions }
    {
        ProgramScope {
            program,
            variables,
            blocks,
            externals,
            functions,
        }
    }

    /// The program.
    pub fn program(&self) -> &'a Program
        ensures value { result.now ≡ self.now.program }
    {
        self.program
    }

    /// Its variables, in the order in which they are declared.
    pub fn variables(&self) -> &[DeclaredVariable]
        ensures value { result.now ≡ self.now.variables }
    {
        &self.variables
    }

    /// Its block instances, in the order in which they are declared.
    pub fn blocks(&self) -> &[DeclaredBlock]
        ensures value { result.now ≡ self.now.blocks }
    {
        &self.blocks
    }

    /// The global variables that it names in VAR_EXTERNAL, in the order in which they are declared.
    pub fn externals(&self) -> &[DeclaredExternal]
        ensures value { result.now ≡ self.now.externals }
    {
        &self.externals
    }

    /// How many functions stand above it.
    pub fn functions(&self) -> usize
        ensures value { result ≡ self.now.functions }
    {
        self.functions
    }
}
