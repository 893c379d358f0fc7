//! What a call hands to a function.

use crate::operand::Operand;
use crate::uses::{Purpose, Use, push_use};
use std::alloc::AllocError;
use std::marker::Model;

/// The operands of a call of a function, in the order in which they are written: the arguments
/// after the first, which is the current result.
pub struct Operands<N: Drop> {
    operands: Vec<Operand<N>>,
}

/// Written out, so that it is proved here alone.
impl<N: Drop> Drop for Operands<N> {
    fn drop(self) {
        let Self { operands: _ } = self;
    }
}

impl<N: Drop> Model for Operands<N> {
    ghost use Rattle.std.specs.Prelude.{List};
    ghost use Rattle.ilsource.specs.declared.operand.Operand.{Operand};

    ghost Value = { List (Operand N) };

    ghost view = { λ o. o.operands.items };
}

impl<N: Drop> Operands<N> {
    ghost use Rattle.std.specs.Prelude.{◌≡◌};

    /// These operands.
    pub fn new(operands: Vec<Operand<N>>) -> Operands<N>
        ensures { result ≡ operands.items }
    {
        Operands { operands }
    }

    /// The operands, one after another.
    pub fn as_slice(&self) -> &[Operand<N>]
        ensures { result.now ≡ self.now }
    {
        &self.operands
    }
}

impl<N: Copy> Operands<N> {
    ghost use Rattle.std.specs.Prelude.{◌≡◌, ◌++◌, map, take, vec_len, OnErr, OnOk};
    ghost use Rattle.ilsource.specs.Uses.{read_at};

    /// Adds that each operand is read, by the call at this place. Out of memory, some of it may
    /// have been added.
    pub(crate) fn push_uses(&self, at: usize, uses: &mut Vec<Use<N>>) -> Result<(), AllocError>
        ensures ok { OnOk result (uses.new.items ≡ uses.old.items ++ map (read_at at) self.now) }
        ensures first { OnErr result (take (vec_len uses.old) uses.new.items ≡ uses.old.items) }
    {
        for operand in self.as_slice() {
            push_use(uses, at, Purpose::Read, *operand)?;
        }
        Ok(())
    }
}
