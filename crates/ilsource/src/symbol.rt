//! What instructions name.

use crate::name::Name;

/// What an instruction names (IEC 61131-3, 2.4.1.1), by words of the text.
#[derive(Clone, Copy, PartialEq, Eq)]
pub enum Symbol {
    /// A variable: an operand, or what is stored to.
    Variable(Name),
    /// `block.port`: an operand, or what is stored to; or the port of an argument in a call of the
    /// block instance.
    Port { block: Name, port: Name },
    /// The block instance of a call.
    Block(Name),
    /// The function that is invoked.
    Function(Name),
}
