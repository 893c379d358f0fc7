//! Tests of the language with code: what neither a proof nor a row of the command line can see.
//!
//! Nothing crosses the boundary. The tests stand on public items of the crates alone: codes that no
//! text compiles to (`foreign_codes`). `rt test` runs them.
#![tactic(auto)]

#[cfg(test)]
mod foreign_codes;
