//! Tests of the bus side with code: what neither a proof nor a row of the command line can see.
//!
//! Nothing crosses the boundary. The tests stand on public items of the crates alone: worked frames
//! of the standard (`frames`), transactions on a fake bus and in a box (`links`), simulated gear
//! that no scenario shows (`gear`), buses behind a line over memory (`lines`), writers that take
//! their time (`writers`), and the clock of a building over a fake timer (`timers`). `rt test` runs
//! them.
#![tactic(auto)]

#[cfg(test)]
mod frames;
#[cfg(test)]
mod gear;
#[cfg(test)]
mod lines;
#[cfg(test)]
mod links;
#[cfg(test)]
mod timers;
#[cfg(test)]
mod writers;
