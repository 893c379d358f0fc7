//! Functions of the text.

use crate::Line;
use crate::declaration::{Declaration, Specification};
use crate::name::Name;
use crate::symbol::Symbol;
use std::marker::Model;

/// `FUNCTION name ":" specification VAR_INPUT .. END_VAR [VAR .. END_VAR] { line } END_FUNCTION`
/// (IEC 61131-3, 2.5.1). What a program's lines are known to be, a function's are too.
#[derive(Drop)]
pub struct SourceFunction {
    at: usize,
    name: Name,
    result_type: Specification,
    inputs: Vec<Declaration>,
    variables: Vec<Declaration>,
    lines: Vec<Line<Symbol, Name>>,
}

impl Model for SourceFunction {
    ghost use Rattle.std.specs.Prelude.{List};
    ghost use Rattle.std.specs.Coded.{codes, code_by};
    ghost use Rattle.ilsource.specs.declared.nested.Piece.{Piece};
    ghost use Rattle.ilsource.specs.Trees.{pieces_of};
    ghost use Rattle.ilsource.specs.TreeSteps.{tree_of, tree_again};
    ghost use Rattle.ilsource.specs.Words.{AreShallow};
    ghost use Rattle.ilsource.specs.declared.symbol.Symbol.{Symbol};
    ghost use Rattle.ilsource.specs.Programs.{WrittenFunction, AreInputs, AreInFunction, AreSorted};

    ghost Value = { WrittenFunction };

    ghost coded = { Prim.hlevel (
      codes,
      code_by (List (Piece Symbol)) (Prim.hlevel codes) pieces_of tree_of tree_again,
    ) };

    ghost view = { λ f. record {
      at = f.at;
      name = f.name;
      result_type = f.result_type;
      inputs = f.inputs.items;
      variables = f.variables.items;
      lines = f.lines.items;
    } };

    ghost invariant = { λ f.
        AreInputs f.inputs.items
        × AreInFunction f.variables.items
        × AreShallow f.lines.items
        × AreSorted f.lines.items };
}

impl SourceFunction {
    ghost use Rattle.std.specs.Prelude.{◌≡◌};
    ghost use Rattle.ilsource.specs.Words.{AreShallow};
    ghost use Rattle.ilsource.specs.Programs.{WrittenFunction, AreInputs, AreInFunction, AreSorted};

    /// The function of these parts, whose word FUNCTION is at this place.
    pub fn new(
        at: usize,
        name: Name,
        result_type: Specification,
        inputs: Vec<Declaration>,
        variables: Vec<Declaration>,
        lines: Vec<Line<Symbol, Name>>,
    ) -> SourceFunction
        requires inputs { AreInputs inputs.items }
        requires variables { AreInFunction variables.items }
        requires shallow { AreShallow lines.items }
        requires sorted { AreSorted lines.items }
        ensures at { result.at ≡ at }
        ensures name { result.name ≡ name }
        ensures result_type { result.result_type ≡ result_type }
        ensures inputs { result.inputs ≡ inputs.items }
        ensures variables { result.variables ≡ variables.items }
        ensures lines { result.lines ≡ lines.items }
    {
        SourceFunction {
            at,
            name,
            result_type,
            inputs,
            variables,
            lines,
        }
    }

    /// The place in the text of the first byte of the word FUNCTION.
    pub fn at(&self) -> usize
        ensures { result ≡ self.now.at }
    {
        self.at
    }

    /// The function's name, which its result has too.
    pub fn name(&self) -> Name
        ensures { result ≡ self.now.name }
    {
        self.name
    }

    /// The type of its result, as it is written.
    pub fn result_type(&self) -> Specification
        ensures { result ≡ self.now.result_type }
    {
        self.result_type
    }

    /// The declarations of VAR_INPUT, in the order in which they are written: variables with no
    /// initial value.
    pub fn inputs(&self) -> &[Declaration]
        ensures value { result.now ≡ self.now.inputs }
        ensures inputs { AreInputs self.now.inputs }
    {
        &self.inputs
    }

    /// The declarations of VAR, in the order in which they are written: no global variables.
    pub fn variables(&self) -> &[Declaration]
        ensures value { result.now ≡ self.now.variables }
        ensures own { AreInFunction self.now.variables }
    {
        &self.variables
    }

    /// Its lines that are not empty, in order: each has a label, an instruction or both.
    pub fn lines(&self) -> &[Line<Symbol, Name>]
        ensures value { result.now ≡ self.now.lines }
        ensures shallow { AreShallow self.now.lines }
        ensures sorted { AreSorted self.now.lines }
    {
        &self.lines
    }
}
