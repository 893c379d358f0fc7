//! Tests of the plant with code: what neither a proof nor a row of the command line can see.
//!
//! Nothing crosses the boundary. The tests stand on public items of the crates alone: steps of a
//! text's plant with several workers (`drives`), calls near their limits (`near_limits`), and each
//! request for memory refused (`memory`). `rt test` runs them.
#![tactic(auto)]

#[cfg(test)]
mod drives;
#[cfg(test)]
mod memory;
#[cfg(test)]
mod near_limits;
