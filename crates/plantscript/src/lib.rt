//! Steps of a plant as data, and `drive`, which plays them: what tests and observers use.
//!
//! What crosses the boundary: [`drive`] opens a plant and takes a list of [`Step`]s, one after
//! another, with a [`StepReply`] to each; [`drive_text`] does the same from the bytes of a text. A
//! [`SteppedPlant`] takes them as they come. What a step does is `Answered`, and what steps do one
//! after another is `Run` (specs/Runs.antt), the definition to read first. What is known of a text
//! that is driven is `IsDriven` (specs/Texts.antt).
//!
//! ```text
//! let driven = drive(alloc, setup, 1, 1_000, &[Step::Tick { moment: 0 }])?;
//! ```
#![tactic(auto)]

mod driving;
mod places;
mod step;
mod stepped_plant;
mod text;

pub use driving::{Driven, drive};
pub use step::{Step, StepReply};
pub use stepped_plant::SteppedPlant;
pub use text::{DriveFault, drive_text};
