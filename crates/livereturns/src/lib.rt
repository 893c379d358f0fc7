//! What a house that is stopped has when it is started again: just what it had.
//!
//! What crosses the boundary: nothing that a program calls. The law is a statement, of what is kept
//! of a plant after a history and of the plan that begins with it. The definitions to read first are
//! `AreKept` (specs/Keeping.antt) and `MayGoOn` (specs/GoingOn.antt), which has what the law asks of
//! plan and history.
//!
//! ```text
//! a_house_goes_on() // its ensures is the law
//! ```
#![tactic(auto)]

mod laws;

pub use laws::a_house_goes_on;
