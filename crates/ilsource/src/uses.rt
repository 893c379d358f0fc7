//! What lines use.

ghost use Rattle.std.specs.Prelude.{◌≡◌, [], ◌∷◌, ◌++◌, OnErr, OnOk};
ghost use Rattle.ilsource.specs.Uses.{invoke_at, use_at};

use crate::operand::Operand;
use std::alloc::AllocError;

/// What an instruction does with what it names.
#[derive(Clone, Copy)]
pub enum Purpose {
    /// It is an operand.
    Read,
    /// It is stored to, set or reset.
    Write,
    /// It is called.
    Call,
    /// It is the port of an argument.
    Pass,
    /// It is a function that is invoked.
    Invoke,
}

/// An operand with the place of its instruction. What is stored to, set, reset, called or invoked
/// is a name.
#[derive(Clone, Copy)]
pub struct Use<N> {
    /// The place in the text of the first byte of the instruction that uses it, in or out of
    /// parentheses.
    pub at: usize,
    pub purpose: Purpose,
    pub operand: Operand<N>,
}

/// Adds that a function is invoked, by the call at this place.
pub(crate) fn push_invoked<N: Drop>(
    uses: &mut Vec<Use<N>>,
    at: usize,
    function: N,
) -> Result<(), AllocError>
    ensures ok { OnOk result (uses.new.items ≡ uses.old.items ++ invoke_at at function ∷ []) }
    ensures err { OnErr result (uses.new.items ≡ uses.old.items) }
{
    push_use(uses, at, Purpose::Invoke, Operand::Name(function))
}

/// Adds a use of an operand, by the instruction at this place.
pub(crate) fn push_use<N: Drop>(
    uses: &mut Vec<Use<N>>,
    at: usize,
    purpose: Purpose,
    operand: Operand<N>,
) -> Result<(), AllocError>
    ensures ok { OnOk result (uses.new.items ≡ uses.old.items ++ use_at at purpose operand ∷ []) }
    ensures err { OnErr result (uses.new.items ≡ uses.old.items) }
{
    uses.push(Use {
        at,
        purpose,
        operand,
    })?;
    Ok(())
}
