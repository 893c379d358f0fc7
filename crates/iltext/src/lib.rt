//! The grammar of Instruction List: from a text's bytes to its source program, or its first fault.
//!
//! What crosses the boundary: [`parse`], which gives a [`Source`] exactly where the bytes spell it,
//! or a [`TextFault`] with line, column and cause. Read specs/Parsing.antt first: the grammar is a
//! set of items over the tokens of `iltokens`, whose reading is exact; a fault stands at the first
//! token that goes on as no text. Causes 6 and 7 count parentheses, of which the grammar does not
//! speak: [`count_is_depth`] and [`causes_of_depth_hold`] tie that count to it.
//!
//! ```text
//! let source = parse(alloc, text)?; // or: text fault 3 at 12:8
//! ```
#![tactic(auto)]

mod block_kinds;
mod calls;
mod configurations;
mod cutting;
mod declarations;
mod fault;
mod functions;
mod globals;
mod instructions;
mod invocations;
mod nesting;
mod operands;
mod parentheses;
mod parser;
mod programs;
mod reading;
mod roles;
mod tasks;
mod token;

pub use fault::{TextCause, TextFault};
pub use ilsource::Source;
pub use instructions::lines;
pub use nesting::{causes_of_depth_hold, count_is_depth};
pub use parser::parse;
pub use reading::end;
pub use roles::{OperatorRole, role_of};
pub use token::{Token, TokenKind};
