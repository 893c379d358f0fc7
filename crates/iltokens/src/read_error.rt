//! Why an item of a grammar was not read.

ghost use Rattle.std.specs.Prelude.{◌≡◌};
ghost use Rattle.iltokens.specs.declared.read_error.ReadError.TheVariants.{Memory};

use std::alloc::{AllocError, AllocFailed};

/// Why an item was not read.
#[derive(Drop)]
pub enum ReadError<'a, T> {
    /// Out of memory.
    Memory,
    /// The first of these tokens goes on as nothing; where none is left, more were wanted.
    Fault(&'a [T]),
}

impl<T> From<AllocError> for ReadError<'_, T> {
    ghost from_gives = { λ _ e. e ≡ Memory };

    fn from(_error: AllocError) -> Self {
        ReadError::Memory
    }
}

impl<T, V: Drop> From<AllocFailed<V>> for ReadError<'_, T> {
    ghost from_gives = { λ _ e. e ≡ Memory };

    fn from(_error: AllocFailed<V>) -> Self {
        ReadError::Memory
    }
}
