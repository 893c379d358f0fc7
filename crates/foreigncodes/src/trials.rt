//! What becomes of bytes that may be a code file.

ghost use Rattle.std.specs.Prelude.{◌≡◌, IfOk};
ghost use Rattle.ilcode.specs.Listings.{lasting_types};

use crate::tally::Ending;
use crate::values::{Choice, are_of, is_row_of, values_of};
use ilcode::Code;
use ilcodefile::{FileFault, decode, encode};
use ilmachine::{ScanResult, Snapshot, scan};
use iltypes::IlType;
use ilverify::{Verified, VerifyError, verify};
use std::alloc::{AllocError, Global};
use std::sync::Arc;

/// The moments of a scan and of the next, in milliseconds.
const MOMENTS: (u64, u64) = (0, 250);

/// What becomes of the bytes. A code that is accepted is scanned from the least values, the
/// greatest, and some between.
pub(crate) fn tried(alloc: Global, bytes: &[u8], between: u32) -> Result<Ending, AllocError> {
    let code = match decode(alloc, bytes) {
        Ok(code) => code,
        Err(FileFault::Of(cause)) => return Ok(Ending::Faulty(cause)),
        Err(FileFault::Memory) => return Err(AllocError),
    };
    if encode(alloc, &code)?.as_slice() != bytes {
        return Ok(Ending::Wrong);
    }
    judged(alloc, code, between)
}

/// What becomes of the code.
fn judged(alloc: Global, code: Code, between: u32) -> Result<Ending, AllocError> {
    match verify(alloc, code) {
        Ok(verified) => scanned(alloc, Arc::new(alloc, verified)?, between),
        Err(VerifyError::Refused(_)) => Ok(Ending::Refused),
        Err(VerifyError::Memory(error)) => Err(error),
    }
}

/// What becomes of its scans.
fn scanned(alloc: Global, code: Arc<Verified, Global>, between: u32) -> Result<Ending, AllocError> {
    for choice in [Choice::Least, Choice::Greatest, Choice::Above(between)] {
        if !are_good(alloc, code.clone()?, choice)? {
            return Ok(Ending::Wrong);
        }
    }
    Ok(Ending::Scanned)
}

/// Whether a scan from these values, and the next, stay within the bound of the code and leave each
/// slot a value of its type.
fn are_good(
    alloc: Global,
    code: Arc<Verified, Global>,
    choice: Choice,
) -> Result<bool, AllocError> {
    let types = lasting(alloc, code.code())?;
    let values = values_of(alloc, &types, choice)?;
    if !are_of(&values, &types) {
        return Ok(false);
    }
    let first = scan(Snapshot::new(alloc, code, &values, MOMENTS.0)?)?;
    if !is_good(&first) {
        return Ok(false);
    }
    let next = scan(first.into_next(MOMENTS.1))?;
    Ok(is_good(&next))
}

/// The types of the slots of a code's programs.
fn lasting(alloc: Global, code: &Code) -> Result<Vec<IlType>, AllocError>
    ensures { IfOk result (λ types. types.items ≡ lasting_types code.now) }
{
    let mut types = Vec::from_slice(alloc, code.slots())?;
    types.truncate(code.slots_end(0));
    Ok(types)
}

/// Whether the scan stayed within the bound of its code and left each slot of its programs a value
/// of its type.
fn is_good(scan: &ScanResult) -> bool {
    let code = scan.snapshot().verified_code();
    scan.steps() <= code.bound()
        && scan.row().len() == code.code().slots_end(0)
        && is_row_of(scan.row(), code.code().slots())
}
