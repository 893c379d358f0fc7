//! Function blocks (IEC 61131-3, 2.5.2.3; request blocks by the profile): their ports, and what a
//! call of an instance does.
//!
//! What crosses the boundary: [`BlockKind`] with its [`Port`]s, [`BlockState`], which is what an
//! instance keeps from call to call, and [`step`], which is one call. What a call leaves on the
//! ports is `after_call`, and the request that it makes `requested` (specs/Calls.antt, to be read
//! first). What a scan works on, variables and instances, is `Store` (specs/Stores.antt).
//!
//! ```text
//! let request = step(BlockKind::GearDo, &mut block, moment);
//! ```
#![tactic(auto)]

mod call;
mod kind;
mod port;
mod request;
mod state;

pub use call::step;
pub use gearcmd::TaskKind;
pub use kind::BlockKind;
pub use port::{Direction, MOST_PORTS, Port, PortName, PortValues};
pub use state::BlockState;
