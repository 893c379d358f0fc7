//! Source programs: what a text spells, as a tree with the places of its words; and lines of
//! Instruction List as trees over any kind of name, with what they mean.
//!
//! What crosses the boundary: [`Source`], which the parser makes and names are resolved on, with
//! its types, functions and programs, their declarations, and their lines over the [`Symbol`]s of a
//! text. A [`Name`] is a word of the text, and [`LineColumn`] gives line and column of a byte.
//! Contracts see a `Source` as a record of specs/SourceTrees.antt, to be read first;
//! specs/Names.antt says when two names are the same.
//!
//! A [`Line`] with its [`Instruction`], [`Operand`] and [`Nested`] (what stands in parentheses) is
//! what source and plan share: the one with the words of the text for names and labels, the other
//! with numbers. specs/Meaning.antt has the value of a tree and what an instruction does,
//! specs/Passes.antt what a program's lines leave, and specs/Functions.antt what functions give.
//! The laws `renaming_keeps_the_meaning` and `renaming_keeps_what_functions_give` say all that
//! resolving names has to show.
//!
//! ```text
//! let LineColumn { line, col } = LineColumn::of(source.text(), name.from);
//! for line in program.lines() {
//!     words = words.saturating_add(line.words());
//! }
//! ```
#![tactic(auto)]

mod address;
mod arguments;
mod computed_rows;
mod configuration;
mod declaration;
mod function;
mod instruction;
mod line_column;
mod line_counter;
mod name;
mod nested;
mod operand;
mod operands;
mod program;
mod renaming;
mod source;
mod symbol;
mod uses;

pub use address::DirectAddress;
pub use arguments::{Argument, Arguments};
pub use configuration::{Configuration, GlobalDeclaration, InstanceDeclaration, TaskDeclaration};
pub use declaration::{Constant, Declaration, Declared, Specification, TypeDeclaration};
pub use function::SourceFunction;
pub use instruction::{Instruction, Line};
pub use line_column::LineColumn;
pub use line_counter::LineCounter;
pub use name::Name;
pub use nested::{Action, Nested, Piece, push_call};
pub use operand::Operand;
pub use operands::Operands;
pub use program::Program;
pub use renaming::{renaming_keeps_the_meaning, renaming_keeps_what_functions_give};
pub use source::{Element, Source};
pub use symbol::Symbol;
pub use uses::{Purpose, Use};
