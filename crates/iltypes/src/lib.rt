//! Values, types and operators of Instruction List, and ranges of integers (IEC 61131-3, 2.5.1.5
//! and 3.2.2).
//!
//! What crosses the boundary: [`Value`], [`IlType`] and [`Range`], which every crate of the
//! language speaks of; [`opposite_if`], which is the modifier N; [`Operator`], which makes a result
//! of the current result and an operand, [`Function`], which makes one of the current result alone,
//! and [`Condition`], under which a jump is carried out. A value lies in a type by `IsOf`
//! (specs/Values.antt, to be read first), and a sum of ranges is the least range of all sums:
//! `IsLeast` (specs/Arithmetic.antt). Each operator has one partial meaning, `value_of_operator`
//! (specs/Operators.antt), as functions and conditions have, which source, plan, code and machine
//! cite alike. `apply` computes where there is a value, with no test; `has_value` is the test, and
//! `try_apply` both. The crate stands on nothing.
//!
//! ```text
//! let dimmed = level.sub(steps)?.max(least);
//! let sum = Operator::Add.try_apply(left, right)?; // none where it leaves 64 bits
//! ```
#![tactic(auto)]

mod comparison;
mod condition;
mod function;
mod modifier;
mod operator;
mod range;
mod value;
mod wide;

pub use comparison::turning_takes_the_opposite;
pub use condition::Condition;
pub use function::{Function, IntegerType, modify};
pub use modifier::opposite_if;
pub use operator::Operator;
pub use range::Range;
pub use value::{IlType, Value};
