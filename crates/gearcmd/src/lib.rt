//! Requests of programs to control gear and control devices. A request's parts are the port values
//! of the block that makes it, each within its port's range by its type. Out of it come its class,
//! the frames that it spells, and whose answer it brings; beside them stands the status byte of
//! control gear. The definition to read first is `frames_of` in `specs/Requests.antt`, over the
//! tables of `specs/Commands.antt`; `specs/FrameLists.antt` has the lists of frames that are legal
//! (IEC 62386-102; profile for control devices and classes).
//!
//! ```text
//! let frames = request.frames(); // of SET FADE TIME: DTR0 with the time, then the command twice
//! ```
#![tactic(auto)]

mod blocks;
mod commands;
mod lines;
mod requests;
mod spelling;
mod statuses;

pub use blocks::{DevAsk, DevDo, GearAsk, GearDo, GearPair, GearSet};
pub use commands::{
    DevAskCommand, DevDoCommand, GearAskCommand, GearDoCommand, GearPairCommand, GearSetCommand,
    dev_ask_opcode, dev_do_opcode, gear_ask_opcode, gear_do_opcode, gear_pair_opcode,
    gear_set_opcode,
};
pub use daliframe::{Address, EventScheme, Number};
pub use lines::RequestLine;
pub use requests::{Answerer, Command, Request, TaskKind};
pub use spelling::MOST_FRAMES;
pub use statuses::Status;
