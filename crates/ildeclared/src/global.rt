//! Declared global variables.

use ilsource::{DirectAddress, Name};
use iltypes::{IlType, Value};

/// A global variable of a configuration, as it is declared (IEC 61131-3, 2.4.3).
#[derive(Clone, Copy)]
pub struct DeclaredGlobal {
    pub name: Name,
    /// Where it is located, if it is.
    pub address: Option<DirectAddress>,
    pub value_type: IlType,
    /// The value that it has at first, which is one of its type.
    pub initial: Value,
}
