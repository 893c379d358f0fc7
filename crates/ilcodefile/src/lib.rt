//! Code files: codes as bytes, for other makers and other machines.
//!
//! What crosses the boundary: [`encode`], which gives the one file of a code, and [`decode`], which
//! gives the code of a file, or the first fault of bytes that are none. The definition to read
//! first is `file` (specs/Files.antt), a printer: the bytes of a code, field after field.
//!
//! ```text
//! let bytes = encode(alloc, &code)?;
//! let again = decode(alloc, &bytes)?;
//! ```
#![tactic(auto)]

mod bodies;
mod decoding;
mod encoding;
mod fault;
mod fields;
mod laws;
mod reading;
mod shape;
mod tables;
mod version;

pub use decoding::decode;
pub use encoding::encode;
pub use fault::{FileCause, FileFault};
