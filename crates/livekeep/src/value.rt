//! Kept values.

use ilplan::DeclaredName;
use iltypes::Value;
use std::alloc::{AllocError, Global};
use std::fmt;
use std::marker::Model;

/// The value that a global variable had, by the variable's name.
#[derive(Drop)]
pub struct KeptValue {
    name: Vec<u8>,
    value: Value,
}

impl Model for KeptValue {
    ghost use Rattle.livekeep.specs.KeptFiles.{KeptEntry, entry_of};

    ghost Value = { KeptEntry };

    ghost view = { λ kept. entry_of kept.name.items kept.value };
}

impl KeptValue {
    ghost use Rattle.std.specs.Prelude.{◌≡◌, IfOk};
    ghost use Rattle.livekeep.specs.KeptFiles.{entry_of};

    /// This value of the variable of this name.
    ///
    /// # Errors
    ///
    /// The allocator is out of memory.
    pub fn new(alloc: Global, name: &[u8], value: Value) -> Result<KeptValue, AllocError>
        ensures { IfOk result (λ kept. kept ≡ entry_of name.now value) }
    {
        let name = Vec::from_slice(alloc, name)?;
        Ok(KeptValue { name, value })
    }

    /// The bytes of the variable's name, as declared.
    pub fn name(&self) -> &[u8]
        ensures value { result.now ≡ self.now.name }
    {
        &self.name
    }

    /// The value.
    pub fn value(&self) -> Value
        ensures value { result ≡ self.now.value }
    {
        self.value
    }
}

/// `lamp = 200`
impl fmt::Display for KeptValue {
    ghost use Rattle.std.specs.Prelude.{Some};
    ghost use Rattle.livekeep.specs.Printed.{printed_entry};

    ghost output = { λ kept. Some (printed_entry kept) };

    fn fmt<W: fmt::Write>(&self, f: &mut fmt::Formatter<W>) -> fmt::Result {
        let name = DeclaredName { bytes: &self.name };
        write!(f, "{name} = {}", self.value)
    }
}

impl fmt::Debug for KeptValue {
    fn fmt<W: fmt::Write>(&self, f: &mut fmt::Formatter<W>) -> fmt::Result {
        write!(f, "{self}")
    }
}
