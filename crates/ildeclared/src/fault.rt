//! Faults of names.

ghost use Rattle.std.specs.Prelude.{◌≡◌};
ghost use Rattle.ildeclared.specs.Causes.{name_fault_number, fault_number};

use std::alloc::{AllocError, AllocFailed};
use std::fmt;
use thiserror::Error;

/// What is wrong with a name or a declaration.
#[derive(Clone, Copy, PartialEq, Eq, Debug)]
pub enum NameCause {
    /// A name that is not declared, or a port that a block does not have; a type's name or a
    /// function's that is not declared above.
    Unknown,
    /// A name that is declared again, a label that an earlier line of the program or the function
    /// has too, or a port that is given again in one call.
    Twice,
    /// The label of a jump that no line of its program or function has.
    UnknownLabel,
    /// The label of a jump that its own line or one before it has.
    BackwardJump,
    /// An address of no bus, of no place there or of no source that is bound, or SINGLE on a
    /// variable that is no trigger.
    BadAddress,
    /// The type of a variable at an input that lacks values of the input.
    InputRangeTooSmall,
    /// A global variable that a second task stores to.
    WrittenTwice,
    /// A store or an initial value for an input, a store to a function's input, or one to an output
    /// port.
    WritesInput,
    /// A program instance without a task.
    NoTask,
    /// A declaration or an instruction that exceeds a limit, or a function that is too deep.
    TooMany,
    /// A subrange that is empty or has numbers outside its base, an initial value that the type
    /// does not have, an external of another type than the global variable, a type that does not
    /// fit the address, a task without one way to be started, or with a priority outside 0 to
    /// 65535, a function without an input or with a block instance, or a call with a wrong number
    /// of operands.
    BadDeclaration,
}

impl NameCause {
    /// The number that is printed.
    pub fn number(self) -> u8
        ensures { result ≡ name_fault_number self }
    {
        match self {
            NameCause::Unknown => 2,
            NameCause::Twice => 3,
            NameCause::UnknownLabel => 4,
            NameCause::BackwardJump => 5,
            NameCause::BadAddress => 6,
            NameCause::InputRangeTooSmall => 7,
            NameCause::WrittenTwice => 8,
            NameCause::WritesInput => 9,
            NameCause::NoTask => 10,
            NameCause::TooMany => 11,
            NameCause::BadDeclaration => 12,
        }
    }
}

/// Why a source program has no plan.
#[derive(Debug, Drop, Error)]
pub enum NameFault {
    /// Memory was refused.
    Memory,
    /// The least place at which a fault stands, and the least cause there.
    At {
        /// Counted from 1.
        line: usize,
        /// Counted from 1, in bytes.
        col: usize,
        cause: NameCause,
    },
}

impl fmt::Display for NameFault {
    ghost use Rattle.std.specs.Prelude.{Some};
    ghost use Rattle.ildeclared.specs.Printed.{printed_name_fault};

    ghost output = { λ fault. Some (printed_name_fault fault) };

    fn fmt<W: fmt::Write>(&self, f: &mut fmt::Formatter<W>) -> fmt::Result {
        match self {
            NameFault::Memory => write!(f, "no memory"),
            NameFault::At { line, col, cause } => {
                write!(f, "name fault {} at {line}:{col}", cause.number())
            }
        }
    }
}

impl From<AllocError> for NameFault {
    ghost use Rattle.std.specs.Prelude.{◌≡◌};
    ghost use Rattle.ildeclared.specs.declared.fault.NameFault.TheVariants.{Memory};

    ghost from_gives = { λ _ fault. fault ≡ Memory };

    fn from(_refused: AllocError) -> Self {
        NameFault::Memory
    }
}

impl<T: Drop> From<AllocFailed<T>> for NameFault {
    ghost use Rattle.std.specs.Prelude.{◌≡◌};
    ghost use Rattle.ildeclared.specs.declared.fault.NameFault.TheVariants.{Memory};

    ghost from_gives = { λ _ fault. fault ≡ Memory };

    fn from(_refused: AllocFailed<T>) -> Self {
        NameFault::Memory
    }
}

impl NameFault {
    /// The number that is printed: 1 out of memory, else that of the cause.
    pub fn number(&self) -> u8
        ensures { result ≡ fault_number self.now }
    {
        match self {
            NameFault::Memory => 1,
            NameFault::At { cause, .. } => cause.number(),
        }
    }
}
