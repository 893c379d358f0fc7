//! What bytes say of their length, before any field of a table is read.

ghost use Rattle.std.specs.Prelude.{◌≡◌, ◌+◌, ◌≤◌, ◌↔◌, length, IfErr, IfOk, IsTrue};
ghost use Rattle.ilcodefile.specs.Faults.{AreBuses, AreFew, BeginsAs, BeginsWell, HasHead, IsFirst};
ghost use Rattle.ilcodefile.specs.Faults.{IsShaped, counts_in, functions_in, head_size, number_at};
ghost use Rattle.ilcodefile.specs.Faults.{size, version_in};
ghost use Rattle.ilcodefile.specs.FaultSteps.{counted};

use crate::fault::FileCause;
use crate::fields::number_at;
use crate::version::{FileVersion, version_in};
use limits::{MOST_BLOCKS, MOST_CONSTANTS, MOST_FUNCTIONS, MOST_INSTANCES, MOST_SLOTS, MOST_WORDS};

/// The version, and how many there are of each: constants, slots, block instances, starts, words,
/// and functions.
#[derive(Clone, Copy)]
pub(crate) struct FileCounts {
    pub(crate) version: FileVersion,
    pub(crate) constants: usize,
    pub(crate) slots: usize,
    pub(crate) blocks: usize,
    pub(crate) starts: usize,
    pub(crate) words: usize,
    pub(crate) functions: usize,
}

/// The counts of bytes that are as long as these ask for, or the first fault.
pub(crate) fn shape(bytes: &[u8]) -> Result<FileCounts, FileCause>
    ensures counts { IfOk result (λ counts. counted counts ≡ counts_in bytes.now) }
    ensures shaped { IfOk result (λ counts. IsShaped bytes.now) }
    ensures err { IfErr result (IsFirst bytes.now) }
{
    if !begins_well(bytes) {
        return Err(FileCause::Magic);
    }
    if bytes.len() < version_in(bytes).head_size() {
        return Err(FileCause::Cut);
    }
    if !are_buses(bytes) {
        return Err(FileCause::BadField);
    }
    let counts = counts_in(bytes);
    if !are_few(counts) {
        return Err(FileCause::TooMany);
    }
    let size = size(counts);
    if bytes.len() < size {
        return Err(FileCause::Cut);
    }
    if bytes.len() > size {
        return Err(FileCause::Trailing);
    }
    Ok(counts)
}

/// Whether bytes begin as a code file of either version, as far as they go.
fn begins_well(bytes: &[u8]) -> bool
    ensures { IsTrue result ↔ BeginsWell bytes.now }
{
    begins_as(bytes, FileVersion::One) || begins_as(bytes, FileVersion::Two)
}

/// Whether bytes begin as a code file of the version, as far as they go.
fn begins_as(bytes: &[u8], version: FileVersion) -> bool
    ensures { IsTrue result ↔ BeginsAs version bytes.now }
{
    let magic = version.magic();
    if bytes.len() < 5 {
        let (wanted, _) = magic.split_at(bytes.len());
        bytes == wanted
    } else {
        let (front, _) = bytes.split_at(5);
        front == magic.as_slice()
    }
}

/// Whether the buses are as many as a file of the version may have, and the two bytes after them 0.
fn are_buses(bytes: &[u8]) -> bool
    requires { 28 ≤ length bytes.now }
    ensures { IsTrue result ↔ AreBuses bytes.now }
{
    let most = version_in(bytes).most_buses();
    1 <= bytes[5] && bytes[5] <= most && bytes[6] == 0 && bytes[7] == 0
}

/// The version and the counts.
fn counts_in(bytes: &[u8]) -> FileCounts
    requires least { 28 ≤ length bytes.now }
    requires head { head_size (version_in bytes.now) ≤ length bytes.now }
    ensures { counted result ≡ counts_in bytes.now }
{
    let version = version_in(bytes);
    FileCounts {
        version,
        constants: count_at(bytes, 8),
        slots: count_at(bytes, 12),
        blocks: count_at(bytes, 16),
        starts: count_at(bytes, 20),
        words: count_at(bytes, 24),
        functions: functions_in(version, bytes),
    }
}

/// The number of functions, of which version 1 has none.
fn functions_in(version: FileVersion, bytes: &[u8]) -> usize
    requires { head_size version ≤ length bytes.now }
    ensures { result ≡ functions_in version bytes.now }
{
    match version {
        FileVersion::One => 0,
        FileVersion::Two => count_at(bytes, 28),
    }
}

/// The count at a place.
fn count_at(bytes: &[u8], place: usize) -> usize
    requires { place + 4 ≤ length bytes.now }
    ensures { result ≡ number_at bytes.now place }
{
    let (_, rest) = bytes.split_at(place);
    let (count, _) = number_at(rest);
    count as usize
}

/// Whether no count is beyond its limit.
fn are_few(counts: FileCounts) -> bool
    ensures { IsTrue result ↔ AreFew (counted counts) }
{
    counts.constants <= MOST_CONSTANTS
        && counts.slots <= MOST_SLOTS
        && counts.blocks <= MOST_BLOCKS
        && counts.starts <= MOST_INSTANCES
        && counts.words <= MOST_WORDS
        && counts.functions <= MOST_FUNCTIONS
}

/// The length that the counts ask for.
fn size(counts: FileCounts) -> usize
    requires { AreFew (counted counts) }
    ensures { result ≡ size (counted counts) }
{
    counts.version.head_size()
        + 16 * counts.constants
        + 24 * counts.slots
        + counts.blocks
        + 4 * counts.starts
        + 16 * counts.functions
        + 8 * counts.words
}
