//! What a source program declares, what its lines use, and what stands against either.
//!
//! What crosses the boundary: [`Scope`], made of an [`ilsource::Source`] and a
//! [`wordlines::Binding`], with each program's, function's and configuration's declarations and
//! their least [`NameFault`]; and the next fault at what lines use ([`fault_at_uses`]) and of lines
//! as such ([`fault_of_lines`]), with the numbers of labels, ports and triggers. What one
//! declaration says stands in `ildeclared`. Read `declared_programs` (specs/Declarations.antt),
//! `IsFaultOfDeclarations` (specs/Faults.antt) and `IsFaultAtUses` (specs/UseFaults.antt) first.
//!
//! ```text
//! let scope = Scope::of(alloc, &source, &binding)?;
//! if let Some(fault) = scope.fault() { /* name fault 3 at 4:9 */ }
//! let used = fault_at_uses(alloc, &scope, None)?; // or None
//! ```
#![tactic(auto)]

mod arguments;
mod body_number;
mod calls;
mod configuration;
mod configuration_faults;
mod configuration_tables;
mod element_tables;
mod function_scope;
mod function_tables;
mod functions;
mod gathering;
mod jumps;
mod labels;
mod lines;
mod numbers;
mod other_types;
mod ports;
mod program_scope;
mod program_tables;
mod scope;
mod stored;
mod tables;
mod tasks;
mod triggers;
mod unknown;
mod unknown_uses;
mod uses;

pub use body_number::BodyNumber;
pub use calls::{FunctionCall, function_called};
pub use function_scope::FunctionScope;
pub use ildeclared::{
    DeclaredBlock, DeclaredExternal, DeclaredGlobal, DeclaredVariable, Found, NameCause, NameFault,
    Names, found_where, lesser_of,
};
pub use labels::number_labels;
pub use lines::fault_of_lines;
pub use ports::port_of;
pub use program_scope::ProgramScope;
pub use scope::{Scope, report_of};
pub use stored::stored_globals;
pub use triggers::trigger_number;
pub use uses::{fault_at_uses, uses_of};
