//! What is said of words that are not taken.

use clap::Error;
use std::alloc::{AllocError, Global};

/// What stands before a range in what `clap` says of a number.
const BEFORE_RANGE: &str = " is not in ";

/// What `clap` says of a word that is no number.
const NO_NUMBER: &str = ": invalid digit found in string";

/// What is said of words that are not taken, with a range as the help writes it, `0..63`, and of a
/// time with what it is to be a number of.
///
/// # Errors
///
/// The allocator is out of memory.
pub fn said(alloc: Global, error: &Error) -> Result<String, AllocError> {
    let text = format!(in alloc; "{error}")?;
    match text.as_str().split_once(BEFORE_RANGE) {
        Some((before, range)) => {
            let range = range.replace(alloc, "..=", "..")?;
            format!(in alloc; "{before}{BEFORE_RANGE}{range}")
        }
        None => timed(alloc, text),
    }
}

/// What is said of words that are not taken, of a time with what it is to be a number of.
fn timed(alloc: Global, text: String) -> Result<String, AllocError> {
    let Some((before, behind)) = text.as_str().split_once(NO_NUMBER) else {
        return Ok(text);
    };
    let unit = if before.ends_with("<MS>'") {
        "milliseconds"
    } else if before.ends_with("<SECONDS>'") {
        "seconds"
    } else {
        return Ok(text);
    };
    format!(in alloc; "{before}: not a whole number of {unit}{behind}")
}
