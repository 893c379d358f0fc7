//! How a task's code numbers what lines name.

ghost use Rattle.std.specs.Prelude.{◌≡◌};
ghost use Rattle.ilcompile.specs.Layout.{number_of, port_of};

use ilcode::{Target, WordOperand};
use ilplan::{Constants, Place};
use ilsource::Operand;
use std::marker::Model;

/// Where a function of the plan stands in a task's code.
#[derive(Clone, Copy)]
pub(crate) struct Placed {
    /// Its number in the code.
    pub number: u16,
    /// The number of its first slot.
    pub first: u16,
}

/// How a task's code numbers what lines name: the words have room for its numbers where they hold
/// what the lines name.
#[derive(Drop)]
pub(crate) struct CodeNumbers<'a> {
    constants: &'a Constants,
    /// The first slot of the variables that are the lines' own.
    own: u16,
    /// Where each function of the plan stands, where the task uses it.
    functions: &'a [Option<Placed>],
}

impl<'a> Model for CodeNumbers<'a> {
    ghost use Rattle.ilcompile.specs.Layout.{Numbers, numbers_of};

    ghost Value = { Numbers };

    ghost view = { λ n. numbers_of n.constants.now n.own n.functions.now };
}

impl<'a> CodeNumbers<'a> {
    ghost use Rattle.std.specs.Prelude.{◌≡◌, ◌<◌};
    ghost use Rattle.ilcode.specs.Words.{IsNear, IsNearTarget};
    ghost use Rattle.ilcompile.specs.Layout.{Numbers, numbers_of, operand_of, variable_of};
    ghost use Rattle.ilcompile.specs.Layout.{slot_of, place_in_code};

    /// With these constants, this first slot, and functions that stand here.
    pub fn new(
        constants: &'a Constants,
        own: u16,
        functions: &'a [Option<Placed>],
    ) -> CodeNumbers<'a>
        ensures { result ≡ numbers_of constants.now own functions.now }
    {
        CodeNumbers {
            constants,
            own,
            functions,
        }
    }

    /// An operand by its number.
    pub fn operand(&self, operand: Operand<Place>) -> WordOperand
        requires near { IsNear (operand_of self.now operand) }
        ensures { result ≡ operand_of self.now operand }
    {
        match operand {
            Operand::Name(Place::Port { block, port }) => WordOperand::Port { port, block },
            Operand::Name(place) => WordOperand::Slot(self.slot(place)),
            Operand::Constant(value) => {
                WordOperand::Constant(self.constants.number_of(value) as u16)
            }
        }
    }

    /// What is stored to.
    pub fn variable(&self, place: Place) -> Target
        requires near { IsNearTarget (variable_of self.now place) }
        ensures { result ≡ variable_of self.now place }
    {
        match place {
            Place::Port { block, port } => Target::Port { port, block },
            _ => Target::Slot(self.slot(place)),
        }
    }

    /// The slot of a variable.
    fn slot(&self, place: Place) -> u16
        requires near { slot_of self.now place < 4096 }
        ensures { result ≡ slot_of self.now place }
    {
        (usize::from(self.own) + number_of(place)) as u16
    }

    /// Where a function stands.
    pub fn function(&self, place: Place) -> Placed
        ensures { result ≡ place_in_code self.now place }
    {
        match self.functions.get(number_of(place)) {
            Some(Some(placed)) => *placed,
            _ => Placed {
                number: 0,
                first: 0,
            },
        }
    }
}

/// The number of a variable, of a block instance, which is called or has the port, or of a
/// function.
pub(crate) fn number_of(place: Place) -> usize
    ensures { result ≡ number_of place }
{
    match place {
        Place::Slot(number) => number,
        Place::Block(number) | Place::Port { block: number, .. } => usize::from(number),
        Place::Function(number) => usize::from(number),
    }
}

/// The number of a port.
pub(crate) fn port_of(place: Place) -> u8
    ensures { result ≡ port_of place }
{
    match place {
        Place::Port { port, .. } => port,
        Place::Slot(_) | Place::Block(_) | Place::Function(_) => 0,
    }
}
