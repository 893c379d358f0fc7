//! Programs.

use crate::Line;
use crate::declaration::Declaration;
use crate::name::Name;
use crate::symbol::Symbol;
use std::marker::Model;

/// `PROGRAM name { VAR .. END_VAR } { line } END_PROGRAM`. No more parentheses are open at once
/// than [`limits::MOST_NESTING`], each after an operator that may be deferred, and what a line
/// names may stand there.
#[derive(Drop)]
pub struct Program {
    name: Name,
    declarations: Vec<Declaration>,
    lines: Vec<Line<Symbol, Name>>,
}

impl Model for Program {
    ghost use Rattle.std.specs.Prelude.{List};
    ghost use Rattle.std.specs.Coded.{codes, code_by};
    ghost use Rattle.ilsource.specs.declared.nested.Piece.{Piece};
    ghost use Rattle.ilsource.specs.Trees.{pieces_of};
    ghost use Rattle.ilsource.specs.TreeSteps.{tree_of, tree_again};
    ghost use Rattle.ilsource.specs.Words.{AreShallow};
    ghost use Rattle.ilsource.specs.declared.symbol.Symbol.{Symbol};
    ghost use Rattle.ilsource.specs.Programs.{Written, AreSorted};

    ghost Value = { Written };

    ghost coded = { Prim.hlevel (
      codes,
      code_by (List (Piece Symbol)) (Prim.hlevel codes) pieces_of tree_of tree_again,
    ) };

    ghost view = { λ p. record {
      name = p.name;
      declarations = p.declarations.items;
      lines = p.lines.items;
    } };

    ghost invariant = { λ p. AreShallow p.lines.items × AreSorted p.lines.items };
}

impl Program {
    ghost use Rattle.std.specs.Prelude.{◌≡◌};
    ghost use Rattle.ilsource.specs.Words.{AreShallow};
    ghost use Rattle.ilsource.specs.Programs.{Written, AreSorted};

    /// The program of these declarations and lines.
    pub fn new(
        name: Name,
        declarations: Vec<Declaration>,
        lines: Vec<Line<Symbol, Name>>,
    ) -> Program
        requires shallow { AreShallow lines.items }
        requires sorted { AreSorted lines.items }
        ensures name { result.name ≡ name }
        ensures declarations { result.declarations ≡ declarations.items }
        ensures lines { result.lines ≡ lines.items }
    {
        Program {
            name,
            declarations,
            lines,
        }
    }

    /// The program's name.
    pub fn name(&self) -> Name
        ensures { result ≡ self.now.name }
    {
        self.name
    }

    /// The declarations of all its VAR blocks, in the order in which they are written.
    pub fn declarations(&self) -> &[Declaration]
        ensures { result.now ≡ self.now.declarations }
    {
        &self.declarations
    }

    /// Its lines that are not empty, in order: each has a label, an instruction or both.
    pub fn lines(&self) -> &[Line<Symbol, Name>]
        ensures value { result.now ≡ self.now.lines }
        ensures shallow { AreShallow self.now.lines }
        ensures sorted { AreSorted self.now.lines }
    {
        &self.lines
    }
}
