//! Tests of runs in threads: that threads work at once, and before the clock comes to its end. No
//! contract says that a thread gets on, and no row can hold a worker back.
//!
//! Nothing crosses the boundary. The tests (`at_once`) stand on public items of the crates alone,
//! over texts that `house` writes. The buses and the clock are in `links`; what holds scans, frames
//! and the clock back, and how long at most, is in `watch`. Runs that go on once there is memory
//! are in `memory`, what is written beside a run in `observed`, how often that is tried where a
//! disk is away in `tried`, and the files of the machine to which it goes in `storage`. `rt test`
//! runs them.
#![tactic(auto)]

#[cfg(test)]
mod at_once;
#[cfg(test)]
mod house;
#[cfg(test)]
mod links;
#[cfg(test)]
mod memory;
#[cfg(test)]
mod observed;
#[cfg(test)]
mod storage;
#[cfg(test)]
mod tried;
#[cfg(test)]
mod watch;
