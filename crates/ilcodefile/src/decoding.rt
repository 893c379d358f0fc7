//! Bytes as codes.

ghost use Rattle.std.specs.Prelude.{◌≡◌, ◌↔◌, IfErr, IfOk, IsTrue};
ghost use Rattle.ilcode.specs.Listings.{Listing};
ghost use Rattle.ilcodefile.specs.Faults.{IsFault, IsReadAs, IsShaped, counts_in};
ghost use Rattle.ilcodefile.specs.FaultSteps.{counted};
ghost use Rattle.ilcodefile.specs.Files.{HasFile, IsFileOf};

use crate::encoding::encode;
use crate::fault::{FileCause, FileFault};
use crate::reading::parse;
use crate::shape::{FileCounts, shape};
use ilcode::Code;
use std::alloc::Global;

/// The code of a file. Its fields are read as if each were good, and what is read is printed again:
/// where that gives other bytes, some field was not.
///
/// # Errors
///
/// The first fault of bytes that are no file, or the allocator is out of memory.
pub fn decode(alloc: Global, bytes: &[u8]) -> Result<Code, FileFault>
    // What is read has these bytes.
    ensures found { IfOk result (λ code. IsFileOf bytes.now code) }
    // The code of which they are is read, unless memory runs out.
    ensures only { (code : Listing) → IsFileOf bytes.now code → IsReadAs code result }
    // A fault is the first.
    ensures fault { IfErr result (IsFault bytes.now) }
{
    match shape(bytes) {
        Ok(counts) => read(alloc, bytes, counts),
        Err(cause) => Err(FileFault::Of(cause)),
    }
}

/// The code of bytes that are as long as their counts ask for.
fn read(alloc: Global, bytes: &[u8], counts: FileCounts) -> Result<Code, FileFault>
    requires counts { counted counts ≡ counts_in bytes.now }
    requires shaped { IsShaped bytes.now }
    ensures found { IfOk result (λ code. IsFileOf bytes.now code) }
    ensures only { (code : Listing) → IsFileOf bytes.now code → IsReadAs code result }
    ensures fault { IfErr result (IsFault bytes.now) }
{
    match parse(alloc, bytes, counts) {
        Ok(Some(code)) => compare(alloc, bytes, code),
        Ok(None) => Err(FileFault::Of(FileCause::BadField)),
        Err(_) => Err(FileFault::Memory),
    }
}

/// The code, where it has these bytes. It is the only one that may have them.
fn compare(alloc: Global, bytes: &[u8], code: Code) -> Result<Code, FileFault>
    requires shaped { IsShaped bytes.now }
    requires good { HasFile code }
    requires only { (other : Listing) → IsFileOf bytes.now other → code ≡ other }
    ensures found { IfOk result (λ code. IsFileOf bytes.now code) }
    ensures only { (code : Listing) → IsFileOf bytes.now code → IsReadAs code result }
    ensures fault { IfErr result (IsFault bytes.now) }
{
    match encode(alloc, &code) {
        Ok(printed) => {
            if are_same(&printed, bytes) {
                Ok(code)
            } else {
                Err(FileFault::Of(FileCause::BadField))
            }
        }
        Err(_) => Err(FileFault::Memory),
    }
}

/// Whether these are the same bytes.
fn are_same(printed: &[u8], bytes: &[u8]) -> bool
    ensures { IsTrue result ↔ (printed.now ≡ bytes.now) }
{
    printed == bytes
}
