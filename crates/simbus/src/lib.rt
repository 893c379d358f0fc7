//! Simulated DALI-2 buses under a scenario. What the scenario says of one bus goes in: control
//! gear, memory banks, instances of control devices, scripted replies and what comes to be heard. A
//! bus comes out that never waits: it answers each frame as the gear and devices do after all
//! frames that were sent before. What they answer is a function of the list of those frames:
//! `specs/Histories.antt`, with `specs/Gears.antt`, `specs/Answers.antt` and `specs/Instances.antt`
//! (IEC 62386-102, clauses 9 to 11, and profile for control devices and scripts).
//! `specs/Simulated.antt` says what a bus is to its callers, and `specs/Setups.antt` what a
//! scenario says of one.
//!
//! ```text
//! let mut bus = SimBus::new(alloc, BusSetup::of(alloc, &scenario, number)?)?;
//! bus.room(MOST_SENT)?;
//! let report = perform(&mut bus, &transaction, 3);
//! ```
#![tactic(auto)]

mod answers;
mod buses;
mod clocks;
mod commands;
mod equipment;
mod gears;
mod instances;
mod scripts;
mod setups;
mod staged;

pub use buses::SimBus;
pub use buslink::Arrival;
pub use clocks::ScriptedClock;
pub use gears::{Gear, GearVariables, MemoryByte};
pub use instances::{InputInstance, InstanceVariables};
pub use scripts::ScriptedReply;
pub use setups::BusSetup;
pub use staged::{Scene, Staged};
pub use wordlines::{FrameFate, GearStart, Scenario, ScenarioFault, Statement, parse};
