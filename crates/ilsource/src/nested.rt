//! What stands in parentheses, as one tree.

ghost use Rattle.std.specs.Prelude.{◌≡◌, ◌++◌, OnOk};
ghost use Rattle.ilsource.specs.Trees.{give_pieces, call_pieces};

use crate::operand::Operand;
use crate::uses::{Purpose, Use, push_invoked, push_use};
use iltypes::{Function, Operator};
use std::alloc::{AllocError, Global};
use std::marker::Model;

/// What a piece does.
#[derive(Clone, Copy)]
pub enum Action<N> {
    /// LD, LDN.
    Load {
        negated: bool,
        operand: Operand<N>,
    },
    /// An operator and its operand.
    Apply(Operator, Operand<N>),
    /// NOT, ABS, a conversion.
    Transform(Function),
    /// An operator with `(`.
    Open(Operator),
    /// `)`.
    Close,
    /// The first of a call of a function: what stands before is handed to the first input.
    Hand(N),
    /// An operand of the call is given to the input of this number.
    Give {
        function: N,
        /// The operands' are 1, 2 and so on, since the first input, 0, has what stands before.
        number: usize,
        operand: Operand<N>,
    },
    /// The last of a call: the function is invoked.
    Invoke(N),
}

/// A piece of what stands in parentheses. Each is one word of code.
#[derive(Clone, Copy)]
pub struct Piece<N> {
    /// The place in the text of the first byte of the piece's instruction, or of `)`. The operator
    /// of `OP( x` and the LD that `x` is have the same, and so have all pieces of a call.
    pub at: usize,
    pub action: Action<N>,
}

/// The content of parentheses (IEC 61131-3, 3.2.2): flat in memory, a tree in contracts.
pub struct Nested<N: Drop> {
    pieces: Vec<Piece<N>>,
}

/// Written out, so that it is proved here alone.
impl<N: Drop> Drop for Nested<N> {
    fn drop(self) {
        let Self { pieces: _ } = self;
    }
}

impl<N: Drop> Model for Nested<N> {
    ghost use Rattle.std.specs.Prelude.{◌≡◌, List};
    ghost use Rattle.std.specs.Coded.{codes, code_by};
    ghost use Rattle.ilsource.specs.declared.nested.Piece.{Piece};
    ghost use Rattle.ilsource.specs.Trees.{Tree, pieces_of};
    ghost use Rattle.ilsource.specs.TreeSteps.{tree_of, tree_again};

    ghost Value = { Tree N };

    ghost coded = { code_by (List (Piece N)) (Prim.hlevel codes) pieces_of tree_of tree_again };

    ghost view = { λ n. tree_of n.pieces.items };

    ghost invariant = { λ n. pieces_of (tree_of n.pieces.items) ≡ n.pieces.items };
}

impl<N: Drop> Nested<N> {
    ghost use Rattle.std.specs.Prelude.{◌≡◌, ◌++◌, map, take, vec_len, IfOk};
    ghost use Rattle.std.specs.Prelude.{OnErr, OnOk};
    ghost use Rattle.ilsource.specs.Trees.{Tree, Load, Apply, pieces_of};
    ghost use Rattle.ilsource.specs.Words.{place_of};

    /// The content that these pieces spell.
    pub fn new(pieces: Vec<Piece<N>>) -> Nested<N>
        requires { (tree : Tree N) × (pieces.items ≡ pieces_of tree) }
        ensures { pieces.items ≡ pieces_of result }
    {
        Nested { pieces }
    }

    /// The LD or LDN with which the content begins.
    pub fn load(
        alloc: Global,
        at: usize,
        negated: bool,
        operand: Operand<N>,
    ) -> Result<Nested<N>, AllocError>
        ensures { IfOk result (λ tree. tree ≡ Load at negated operand) }
    {
        let mut pieces = Vec::new(alloc);
        let action = Action::Load { negated, operand };
        pieces.push(Piece { at, action })?;
        Ok(Nested { pieces })
    }

    /// With an operator on an operand.
    pub fn apply(
        self,
        at: usize,
        operator: Operator,
        operand: Operand<N>,
    ) -> Result<Nested<N>, AllocError>
        ensures { IfOk result (λ tree. tree ≡ Apply self at operator operand) }
    {
        let Self { mut pieces } = self;
        let action = Action::Apply(operator, operand);
        pieces.push(Piece { at, action })?;
        Ok(Nested { pieces })
    }

    /// The pieces that spell the tree, in the order in which they are written.
    pub fn pieces(&self) -> &[Piece<N>]
        ensures { result.now ≡ pieces_of self.now }
    {
        &self.pieces
    }

    /// Adds the place of each piece. Out of memory, some of them may have been added.
    pub(crate) fn push_places(&self, places: &mut Vec<usize>) -> Result<(), AllocError>
        ensures ok { OnOk result
            (places.new.items ≡ places.old.items ++ map place_of (pieces_of self.now)) }
        ensures first { OnErr result
            (take (vec_len places.old) places.new.items ≡ places.old.items) }
    {
        for piece in self.pieces() {
            places.push(piece.at)?;
        }
        Ok(())
    }
}

impl<N: Copy> Piece<N> {
    ghost use Rattle.std.specs.Prelude.{◌≡◌, ◌++◌, OnErr, OnOk};
    ghost use Rattle.ilsource.specs.Uses.{uses_of_piece};

    /// Adds what the piece uses.
    fn push_uses(&self, uses: &mut Vec<Use<N>>) -> Result<(), AllocError>
        ensures ok { OnOk result (uses.new.items ≡ uses.old.items ++ uses_of_piece self.now) }
        ensures err { OnErr result (uses.new.items ≡ uses.old.items) }
    {
        match self.action {
            Action::Load { operand, .. } => push_use(uses, self.at, Purpose::Read, operand),
            Action::Apply(_, operand) => push_use(uses, self.at, Purpose::Read, operand),
            Action::Hand(function) => push_invoked(uses, self.at, function),
            Action::Give { operand, .. } => push_use(uses, self.at, Purpose::Read, operand),
            Action::Transform(_) | Action::Open(_) | Action::Close | Action::Invoke(_) => Ok(()),
        }
    }
}

/// Adds the pieces of a call at this place. Out of memory, some of them may have been added.
pub fn push_call<N: Copy>(
    pieces: &mut Vec<Piece<N>>,
    at: usize,
    function: N,
    operands: &[Operand<N>],
) -> Result<(), AllocError>
    ensures { OnOk result
        (pieces.new.items ≡ pieces.old.items ++ call_pieces at function operands.now) }
{
    let action = Action::Hand(function);
    pieces.push(Piece { at, action })?;
    push_gives(pieces, at, function, operands)?;
    let action = Action::Invoke(function);
    pieces.push(Piece { at, action })?;
    Ok(())
}

/// Adds the pieces of the operands of a call at this place. Out of memory, some of them may have
/// been added.
fn push_gives<N: Copy>(
    pieces: &mut Vec<Piece<N>>,
    at: usize,
    function: N,
    operands: &[Operand<N>],
) -> Result<(), AllocError>
    ensures { OnOk result
        (pieces.new.items ≡ pieces.old.items ++ give_pieces at function 1 operands.now) }
{
    for index in 0..operands.len() {
        let number = index + 1;
        let operand = operands[index];
        let action = Action::Give {
            function,
            number,
            operand,
        };
        pieces.push(Piece { at, action })?;
    }
    Ok(())
}

impl<N: Copy> Nested<N> {
    ghost use Rattle.std.specs.Prelude.{◌≡◌, ◌++◌, flat_map, take, vec_len, IfOk, OnErr, OnOk};
    ghost use Rattle.ilsource.specs.Trees.{Call, pieces_of};
    ghost use Rattle.ilsource.specs.Uses.{uses_of_piece};

    /// With a call of a function on these operands, which has its first argument from what stands
    /// before it.
    pub fn call(
        self,
        at: usize,
        function: N,
        operands: &[Operand<N>],
    ) -> Result<Nested<N>, AllocError>
        ensures { IfOk result (λ tree. tree ≡ Call self at function operands.now) }
    {
        let Self { mut pieces } = self;
        push_call(&mut pieces, at, function, operands)?;
        Ok(Nested { pieces })
    }

    /// Adds what the pieces use. Out of memory, some of it may have been added.
    pub(crate) fn push_uses(&self, uses: &mut Vec<Use<N>>) -> Result<(), AllocError>
        ensures ok { OnOk result
            (uses.new.items ≡ uses.old.items ++ flat_map uses_of_piece (pieces_of self.now)) }
        ensures first { OnErr result (take (vec_len uses.old) uses.new.items ≡ uses.old.items) }
    {
        for piece in self.pieces() {
            piece.push_uses(uses)?;
        }
        Ok(())
    }
}
