//! Why a code is not verified.

ghost use Rattle.std.specs.Prelude.{◌≡◌, Some};
ghost use Rattle.ilverify.specs.Certificates.{number_of_error};

use crate::cause::Cause;
use std::alloc::AllocError;
use std::fmt;
use thiserror::Error;

/// The least word that is refused, with the least cause that arises at it.
#[derive(Clone, Copy, PartialEq, Eq, Debug)]
pub struct Refusal {
    /// The place of the word, counted from 0.
    pub word: usize,
    /// The line of the text that the word stands on.
    pub line: usize,
    /// Why it is refused.
    pub cause: Cause,
}

impl fmt::Display for Refusal {
    ghost use Rattle.ilverify.specs.Printed.{printed};

    ghost output = { λ refusal. Some (printed refusal) };

    fn fmt<W: fmt::Write>(&self, f: &mut fmt::Formatter<W>) -> fmt::Result {
        write!(
            f,
            "refused {} at word {} line {}",
            self.cause.number(),
            self.word,
            self.line
        )?;
        if let Cause::OutOfRange { found, allowed } = self.cause {
            write!(
                f,
                " found {}..{} allowed {}..{}",
                found.lo, found.hi, allowed.lo, allowed.hi
            )?;
        }
        Ok(())
    }
}

/// Why a code is not verified.
#[derive(Debug, Drop, Error)]
pub enum VerifyError {
    /// Out of memory.
    #[error("no memory")]
    Memory(AllocError),
    /// A word is refused.
    #[error("{0}")]
    Refused(Refusal),
}

impl VerifyError {
    /// The number under which the error is reported: 1 where memory is out, or that of the cause.
    pub fn number(&self) -> u8
        ensures { result ≡ number_of_error self.now }
    {
        match self {
            VerifyError::Memory(_) => 1,
            VerifyError::Refused(refusal) => refusal.cause.number(),
        }
    }
}
