//! The process image, and the machine that scans verified codes.
//!
//! What crosses the boundary: [`Image::take`] gives the [`Snapshot`] of a task, with [`Override`]s
//! where an event activated it; [`scan`] runs its verified code, and [`scan_into`] does so without
//! taking memory, in room that [`Work`] made before; [`Image::commit`] writes what the
//! [`ScanResult`] left. Read `IsScan` (specs/Scans.antt), then `variable_in` and `written_in`
//! (specs/Images.antt). The machine makes no tests, since no step of a
//! [`Verified`](ilverify::Verified) is undefined.
//!
//! ```text
//! let made = scan(image.take(task, moment)?)?;
//! image.commit(task, &row, blocks);
//! ```
#![tactic(auto)]

mod code_rows;
mod computed_rows;
mod external;
mod image;
mod index;
mod law;
mod left;
mod loaded;
mod machine;
mod nesting;
mod open_function;
mod other_words;
mod outbox;
mod overriding;
mod prepared;
mod ready;
mod row_writes;
mod scan_writes;
mod scans;
mod slot_words;
mod slots;
mod snapshot;
mod state;
mod task;
mod task_row;
mod waiting;
mod whole_row;
mod word;

pub use external::External;
pub use ilcells::{Choice, ReadyWord};
pub use ilverify::Verified;
pub use image::Image;
pub use law::variables_and_blocks_are_the_image;
pub use overriding::Override;
pub use prepared::PreparedCode;
pub use scans::{ScanResult, Work, scan, scan_into};
pub use slots::StoredSlot;
pub use snapshot::Snapshot;
pub use task::TaskImage;
