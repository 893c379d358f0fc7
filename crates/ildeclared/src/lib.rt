//! What one declaration says, below the types that are declared above it, and what stands against
//! it.
//!
//! What crosses the boundary: the [`DeclaredVariable`]s, [`DeclaredBlock`]s and
//! [`DeclaredExternal`]s of a program, the variables of a function, and the [`DeclaredGlobal`]s of
//! a configuration, as their declarations say them, below the [`DeclaredTypes`], which are a table
//! of [`Names`]; and the least fault, [`Found`] at its place in the text, with its [`NameCause`].
//! `after`, where a function has it, is the last fault that was found: the next one after it is
//! found (`IsNextOf`, specs/Faults.antt), and the least of all where it is `None`.
//! The definition to read first is `data_type` (specs/DataTypes.antt), what a type means.
//!
//! ```text
//! let variables = variables_of(alloc, lower, &types, program)?;
//! let fault = fault_of_all(lower, &types, program.declarations(), None);
//! ```
#![tactic(auto)]

mod addresses;
mod block;
mod blocks;
mod data_type;
mod declarations;
mod external;
mod externals;
mod fault;
mod found;
mod functions;
mod global;
mod globals;
mod located;
mod names;
mod types;
mod variable;
mod variables;

pub use addresses::twice_addresses;
pub use block::DeclaredBlock;
pub use blocks::{block_names, blocks_of};
pub use data_type::DataType;
pub use declarations::{fault_of, fault_of_all};
pub use external::DeclaredExternal;
pub use externals::{external_names, externals_of};
pub use fault::{NameCause, NameFault};
pub use found::{Found, found_where, lesser_of};
pub use functions::{
    fault_of_blocks, fault_of_result, function_names, inputs_of, own_variables_of,
};
pub use global::DeclaredGlobal;
pub use globals::{addresses_of, fault_of_globals, global_names, globals_of, value_types_of};
pub use located::{bad_addresses, badly_located, inputs_given, inputs_too_small};
pub use names::Names;
pub use types::{DeclaredTypes, declared_type};
pub use variable::DeclaredVariable;
pub use variables::{names_of, variable_names, variables_of};
