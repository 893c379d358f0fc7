//! What a call hands to a block.

use crate::operand::Operand;
use crate::uses::{Purpose, Use, push_use};
use std::alloc::AllocError;
use std::marker::Model;

/// `port := operand`.
#[derive(Clone, Copy)]
pub struct Argument<N> {
    /// The input port, by its whole name, as in a store to it.
    pub port: N,
    pub operand: Operand<N>,
}

/// The arguments of a call, in the order in which they are written.
pub struct Arguments<N: Drop> {
    arguments: Vec<Argument<N>>,
}

/// Written out, so that it is proved here alone.
impl<N: Drop> Drop for Arguments<N> {
    fn drop(self) {
        let Self { arguments: _ } = self;
    }
}

impl<N: Drop> Model for Arguments<N> {
    ghost use Rattle.std.specs.Prelude.{List};
    ghost use Rattle.ilsource.specs.declared.arguments.Argument.{Argument};

    ghost Value = { List (Argument N) };

    ghost view = { λ a. a.arguments.items };
}

impl<N: Drop> Arguments<N> {
    ghost use Rattle.std.specs.Prelude.{◌≡◌};

    /// These arguments.
    pub fn new(arguments: Vec<Argument<N>>) -> Arguments<N>
        ensures { result ≡ arguments.items }
    {
        Arguments { arguments }
    }

    /// The arguments, one after another.
    pub fn as_slice(&self) -> &[Argument<N>]
        ensures { result.now ≡ self.now }
    {
        &self.arguments
    }
}

impl<N: Copy> Arguments<N> {
    ghost use Rattle.std.specs.Prelude.{◌≡◌, ◌++◌, flat_map, take, vec_len, OnErr, OnOk};
    ghost use Rattle.ilsource.specs.Uses.{uses_of_argument};

    /// Adds what the arguments use, of a call at this place. Out of memory, some of it may have
    /// been added.
    pub(crate) fn push_uses(&self, at: usize, uses: &mut Vec<Use<N>>) -> Result<(), AllocError>
        ensures ok { OnOk result
            (uses.new.items ≡ uses.old.items ++ flat_map (uses_of_argument at) self.now) }
        ensures first { OnErr result (take (vec_len uses.old) uses.new.items ≡ uses.old.items) }
    {
        for argument in self.as_slice() {
            push_use(uses, at, Purpose::Pass, Operand::Name(argument.port))?;
            push_use(uses, at, Purpose::Read, argument.operand)?;
        }
        Ok(())
    }
}
