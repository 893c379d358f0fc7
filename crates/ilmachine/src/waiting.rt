//! Operators that wait for their parenthesis to be closed.

use ilcells::Cell;
use iltypes::{Operator, Value};
use std::marker::Model;

/// An operator before an open parenthesis, with the result that it waits with.
#[derive(Clone, Copy)]
pub(crate) struct Waiting {
    operator: Operator,
    saved: Cell,
}

impl Model for Waiting {
    ghost use Rattle.ilcode.specs.declared.nesting.Opened as nesting;

    ghost Value = { nesting.Opened };

    ghost view = { λ w. record { operator = w.operator; saved = w.saved } };

    ghost inverse = { λ opened. record { operator = opened.operator; saved = opened.saved } };
}

/// What fills the unused places of a collection of fixed capacity.
impl Default for Waiting {
    fn default() -> Waiting {
        Waiting {
            operator: Operator::Add,
            saved: Cell::of(Value::Bool(false)),
        }
    }
}

impl Waiting {
    ghost use Rattle.std.specs.Prelude.{◌≡◌, IsSome, Some};
    ghost use Rattle.iltypes.specs.Operators.{value_of_operator};
    ghost use Rattle.ilcode.specs.Steps.{opened};

    /// The operator, which waits with this result.
    #[inline(always)]
    pub(crate) fn new(operator: Operator, saved: Cell) -> Waiting
        ensures { result ≡ opened operator saved }
    {
        Waiting { operator, saved }
    }

    /// What the operator gives once the parenthesis has this result.
    #[inline(always)]
    pub(crate) fn close(self, inner: Cell) -> Cell
        requires { IsSome (value_of_operator self.operator self.saved inner) }
        ensures { value_of_operator self.operator self.saved inner ≡ Some result }
    {
        self.saved.apply(self.operator, inner)
    }
}
