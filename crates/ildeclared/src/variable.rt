//! Declared variables.

use ilsource::Name;
use iltypes::{IlType, Value};

/// A variable of a program, as it is declared (IEC 61131-3, 2.4.3).
#[derive(Clone, Copy)]
pub struct DeclaredVariable {
    pub name: Name,
    pub value_type: IlType,
    /// The value that it has at first, which is one of its type.
    pub initial: Value,
}
