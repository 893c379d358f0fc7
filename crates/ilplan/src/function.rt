//! Functions that a text declares (IEC 61131-3, 2.5.1).

use crate::place::Place;
use ilsource::{Line, Name};
use iltypes::{IlType, Value};
use std::marker::Model;

/// An input of a function: a variable that a call gives an argument.
#[derive(Clone, Copy)]
pub struct FunctionInput {
    /// Its name in the text.
    pub name: Name,
    pub value_type: IlType,
}

/// Another variable of a function, which starts anew at each call.
#[derive(Clone, Copy)]
pub struct FunctionVariable {
    /// Its name in the text.
    pub name: Name,
    pub value_type: IlType,
    /// Its value at the start of each call.
    pub initial: Value,
}

/// A function that a text declares. Its lines have places in a store of its own for names: its
/// inputs, its result and its VAR are the slots from 0 on, in this order. A function that they call
/// stands before it in the plan.
#[derive(Drop)]
pub struct UserFunction {
    name: Name,
    /// The place of the word FUNCTION in the text.
    at: usize,
    inputs: Vec<FunctionInput>,
    /// The result, which has the function's name, and then the VAR.
    variables: Vec<FunctionVariable>,
    lines: Vec<Line<Place, usize>>,
}

impl Model for UserFunction {
    ghost use Rattle.std.specs.Prelude.{List};
    ghost use Rattle.std.specs.Coded.{codes, code_by};
    ghost use Rattle.ilsource.specs.declared.nested.Piece.{Piece};
    ghost use Rattle.ilsource.specs.Trees.{pieces_of};
    ghost use Rattle.ilsource.specs.TreeSteps.{tree_of, tree_again};
    ghost use Rattle.ilplan.specs.declared.place.Place.{Place};
    ghost use Rattle.ilplan.specs.Functions.{PlannedFunction, function_of};

    ghost Value = { PlannedFunction };

    ghost coded = { Prim.hlevel (
      codes,
      code_by (List (Piece Place)) (Prim.hlevel codes) pieces_of tree_of tree_again,
    ) };

    ghost view = { λ f. function_of f.name f.at f.inputs.items f.variables.items f.lines.items };
}

impl UserFunction {
    ghost use Rattle.std.specs.Prelude.{◌≡◌};
    ghost use Rattle.ilplan.specs.Functions.{PlannedFunction, function_of};

    /// The function of this name, whose declaration begins at `at`, with these inputs, these other
    /// variables, of which the first is its result, and these lines.
    pub fn new(
        name: Name,
        at: usize,
        inputs: Vec<FunctionInput>,
        variables: Vec<FunctionVariable>,
        lines: Vec<Line<Place, usize>>,
    ) -> UserFunction
        ensures { result ≡ function_of name at inputs.items variables.items lines.items }
    {
        UserFunction {
            name,
            at,
            inputs,
            variables,
            lines,
        }
    }

    /// The function's name in the text.
    pub fn name(&self) -> Name
        ensures value { result ≡ self.now.name }
    {
        self.name
    }

    /// The place of the word FUNCTION in the text.
    pub fn at(&self) -> usize
        ensures value { result ≡ self.now.at }
    {
        self.at
    }

    /// Its inputs, in declared order.
    pub fn inputs(&self) -> &[FunctionInput]
        ensures value { result.now ≡ self.now.inputs }
    {
        &self.inputs
    }

    /// Its result, and then its VAR in declared order.
    pub fn variables(&self) -> &[FunctionVariable]
        ensures value { result.now ≡ self.now.variables }
    {
        &self.variables
    }

    /// Its lines, in order.
    pub fn lines(&self) -> &[Line<Place, usize>]
        ensures value { result.now ≡ self.now.lines }
    {
        &self.lines
    }
}
