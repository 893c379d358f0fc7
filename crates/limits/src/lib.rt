//! The limits of this project's profile, each once for all crates.
//!
//! What crosses the boundary: constants for code, and [`is_too_long`] for the bytes of a file. The
//! numbers that contracts cite stand in specs/Limits.antt as literals, apart from the constants, so
//! that a constant that is changed is refused wherever a contract speaks of its limit:
//! `is_too_long(text)` is the question that texts, bindings and scenarios ask first.
//!
//! ```text
//! if is_too_long(text) { /* text fault 9 */ }
//! ```
#![tactic(auto)]

ghost use Rattle.std.specs.Prelude.{◌↔◌, ◌<◌, length, IsTrue};
ghost use Rattle.limits.specs.Limits.{most_bytes};

/// The greatest number of bytes of a text, a binding or a scenario.
pub const MOST_BYTES: usize = 1_048_576;

/// The greatest number of buses.
pub const MOST_BUSES: u8 = 64;

/// The greatest number of buses that are few: more need a code file of version 2, and a history
/// of at least [`LEAST_EVENTS_OF_MANY`] events.
pub const FEW_BUSES: u8 = 16;

/// The greatest number of attempts that a bus may be given for a transaction.
pub const MOST_TRIES: u8 = 5;

/// The number of attempts for a transaction on a bus of which the binding says nothing.
pub const USUAL_TRIES: u8 = 3;

/// The greatest number of event sources of a bus.
pub const MOST_SOURCES: u8 = 64;

/// The greatest number of tasks.
pub const MOST_TASKS: usize = 16;

/// The greatest number of program instances, which is also that of starts in a task's code.
pub const MOST_INSTANCES: usize = 64;

/// The greatest number of slots of a task.
pub const MOST_SLOTS: usize = 4096;

/// The greatest number of different constants of a task.
pub const MOST_CONSTANTS: usize = 4096;

/// The greatest number of block instances of a task.
pub const MOST_BLOCKS: usize = 256;

/// The greatest number of words of a task.
pub const MOST_WORDS: usize = 65_536;

/// The greatest number of functions of a task.
pub const MOST_FUNCTIONS: usize = 64;

/// The greatest number of inputs of a function.
pub const MOST_INPUTS: usize = 16;

/// The greatest number of calls that are open at one place.
pub const MOST_CALLS: usize = 8;

/// The greatest number of words on a path of a task's code.
pub const MOST_STEPS: u32 = 16_777_216;

/// The greatest number of parentheses that are open at one place.
pub const MOST_NESTING: usize = 32;

/// The greatest number of requests of a scan.
pub const MOST_REQUESTS: usize = 16;

/// The greatest number of requests of one class that wait for a bus.
pub const MOST_WAITING: usize = 64;

/// The greatest number of events that are pending for a task.
pub const MOST_PENDING: usize = 32;

/// The greatest number of scan workers of a plant.
pub const MOST_WORKERS: usize = 16;

/// The seats of a plant: one for each scan worker, one for each bus and one for the clock, as many
/// as there are at most.
pub const MOST_SEATS: usize = 81;

/// The least number of events that the history of a plant may be limited to.
pub const LEAST_EVENTS: u64 = 100;

/// The least number of events that the history of a plant of over [`FEW_BUSES`] buses may be
/// limited to.
pub const LEAST_EVENTS_OF_MANY: u64 = 500;

/// The greatest number of events that the history of a plant may be limited to in one run.
pub const MOST_EVENTS: u64 = 1_000_000;

/// The greatest number of events that the history of a plant comes to over all its runs, 2^59: at
/// 180 events a second, 100 million years.
pub const MOST_TOTAL: u64 = 576_460_752_303_423_488;

/// Whether a file has more bytes than the limit.
pub fn is_too_long(bytes: &[u8]) -> bool
    ensures { IsTrue result ↔ (most_bytes < length bytes.now) }
{
    bytes.len() > MOST_BYTES
}
