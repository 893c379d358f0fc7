//! Frames, event messages, requests, outcomes and status bytes in words, for a person to read. A
//! value of ../daliframe, ../gearcmd or ../buslink goes in, and comes out as a type that is
//! printed. What an installer writes on a command line, a block's name and the numbers of its
//! ports, goes in too, and the command that they ask for comes out: `IsWritten` in
//! `specs/Written.antt` says which.
//!
//! ```text
//! println!(rt; "{}", FrameWords(frame))?; // `short 5 level 200`
//! ```
#![tactic(auto)]

mod addresses;
mod blocks;
mod events;
mod frames;
mod heard;
mod names;
mod outcomes;
mod reading;
mod requests;
mod specials;
mod statuses;
mod targets;

pub use addresses::AddressWords;
pub use blocks::Block;
pub use events::frame_of_event;
pub use frames::{FrameWords, FramesWords};
pub use heard::{HeardWords, SchemeWords};
pub use outcomes::OutcomeWords;
pub use reading::request_of;
pub use requests::RequestWords;
pub use statuses::StatusWords;
