//! Instances of programs and of function blocks (IEC 61131-3, 2.5.2 and 2.7.2).

use crate::place::Place;
use ilblocks::BlockKind;
use ilsource::{Line, Name};
use std::marker::Model;

/// A function block instance of a program instance.
#[derive(Clone, Copy)]
pub struct FunctionBlock {
    /// The program instance's name in the text.
    pub instance: Name,
    /// The block instance's name in the text.
    pub name: Name,
    pub kind: BlockKind,
}

/// A program as it runs in a task. Its lines have places in a store for names; the places in the
/// text stay in them.
#[derive(Drop)]
pub struct ProgramInstance {
    name: Name,
    lines: Vec<Line<Place, usize>>,
}

impl Model for ProgramInstance {
    ghost use Rattle.std.specs.Prelude.{List};
    ghost use Rattle.std.specs.Coded.{codes, code_by};
    ghost use Rattle.ilsource.specs.declared.nested.Piece.{Piece};
    ghost use Rattle.ilsource.specs.Trees.{pieces_of};
    ghost use Rattle.ilsource.specs.TreeSteps.{tree_of, tree_again};
    ghost use Rattle.ilplan.specs.declared.place.Place.{Place};
    ghost use Rattle.ilplan.specs.Plans.{PlannedInstance};

    ghost Value = { PlannedInstance };

    ghost coded = { Prim.hlevel (
      codes,
      code_by (List (Piece Place)) (Prim.hlevel codes) pieces_of tree_of tree_again,
    ) };

    ghost view = { λ i. record { name = i.name; lines = i.lines.items } };
}

impl ProgramInstance {
    ghost use Rattle.std.specs.Prelude.{◌≡◌};
    ghost use Rattle.ilplan.specs.Plans.{PlannedInstance};

    /// The instance of this name with these lines.
    pub fn new(name: Name, lines: Vec<Line<Place, usize>>) -> ProgramInstance
        ensures { result ≡ record { name = name; lines = lines.items } }
    {
        ProgramInstance { name, lines }
    }

    /// The instance's name in the text.
    pub fn name(&self) -> Name
        ensures value { result ≡ self.now.name }
    {
        self.name
    }

    /// Its lines, in order.
    pub fn lines(&self) -> &[Line<Place, usize>]
        ensures value { result.now ≡ self.now.lines }
    {
        &self.lines
    }
}
