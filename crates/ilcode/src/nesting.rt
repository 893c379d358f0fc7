//! Parentheses that are open.

use iltypes::{Operator, Value};

/// An open parenthesis (IEC 61131-3, 3.2.2): the operator before it, and the result that the
/// operator waits with.
#[derive(Clone, Copy)]
pub struct Opened {
    pub operator: Operator,
    pub saved: Value,
}

impl Default for Opened {
    fn default() -> Opened {
        Opened {
            operator: Operator::Add,
            saved: Value::Bool(false),
        }
    }
}
