//! Functions with what they declare.

use ildeclared::DeclaredVariable;
use ilsource::SourceFunction;
use std::marker::Model;

/// A function with its variables.
pub struct FunctionScope<'a> {
    function: &'a SourceFunction,
    inputs: Vec<DeclaredVariable>,
    variables: Vec<DeclaredVariable>,
    functions: usize,
}

/// Written out, so that it is proved here alone.
impl Drop for FunctionScope<'_> {
    fn drop(self) {
        let Self {
            function: _,
            inputs: _,
            variables: _,
            functions: _,
        } = self;
    }
}

impl<'a> Model for FunctionScope<'a> {
    ghost use Rattle.std.specs.Coded.{codes};
    ghost use Rattle.ilsource.specs.contracts.function.SourceFunction as inner;
    ghost use Rattle.ilscope.specs.Declarations.{DeclaredFunction};

    ghost Value = { DeclaredFunction };

    ghost coded = { Prim.hlevel (codes, inner.the_row.coded) };

    ghost view = { λ f. record {
      function = f.function.now;
      inputs = f.inputs.items;
      variables = f.variables.items;
      functions = f.functions;
    } };
}

impl<'a> FunctionScope<'a> {
    ghost use Rattle.std.specs.Prelude.{◌≡◌};

    /// The function, its inputs in the order in which they are declared, its other variables, its
    /// result first, and how many functions stand above it.
    pub(crate) fn new(
        function: &'a SourceFunction,
        inputs: Vec<DeclaredVariable>,
        variables: Vec<DeclaredVariable>,
        functions: usize,
    ) -> FunctionScope<'a>
        ensures function { result.function ≡ function.now }
        ensures inputs { result.inputs ≡ inputs.items }
        ensures variables { result.variables ≡ variables.items }
        ensures functions { result.functions ≡ functions }
    {
        FunctionScope {
            function,
            inputs,
            variables,
            functions,
        }
    }

    /// The function.
    pub fn function(&self) -> &'a SourceFunction
        ensures value { result.now ≡ self.now.function }
    {
        self.function
    }

    /// Its inputs, in the order in which they are declared.
    pub fn inputs(&self) -> &[DeclaredVariable]
        ensures value { result.now ≡ self.now.inputs }
    {
        &self.inputs
    }

    /// Its other variables: the one with its name, which is its result, and then those of its VAR.
    pub fn variables(&self) -> &[DeclaredVariable]
        ensures value { result.now ≡ self.now.variables }
    {
        &self.variables
    }

    /// How many functions stand above it.
    pub fn functions(&self) -> usize
        ensures value { result ≡ self.now.functions }
    {
        self.functions
    }
}
