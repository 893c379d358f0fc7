//! Operands.

use iltypes::Value;

/// What an instruction takes its value from (IEC 61131-3, 3.2.1).
#[derive(Clone, Copy)]
pub enum Operand<N> {
    /// A variable or a port of a block, by its name.
    Name(N),
    Constant(Value),
}
