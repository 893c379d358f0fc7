//! What may be left out of a text: a sign that stands for nothing, with nothing behind it.

ghost use Rattle.std.specs.Prelude.{◌≡◌, MatchOption, IfOk, drop};
ghost use Rattle.explaincures.specs.LeavingOut.{is_idle, after_idle, begins_idle, is_at_end, IsIdleAt};
ghost use Rattle.explaincures.specs.LeavingOut.{LeavesOut, sign_len, ReplacesSign};

use crate::edits::Edit;
use crate::spots::Spot;
use std::alloc::{AllocError, Global};

/// The change that leaves out the sign at a place: a sign that stands for nothing, where behind it
/// up to the line's end, or up to a comment, there are such signs and blanks alone. There is none
/// where something else stands.
///
/// # Errors
///
/// The allocator is out of memory.
pub fn left_out(alloc: Global, spot: &Spot) -> Result<Option<Edit>, AllocError>
    ensures { IfOk result (λ found. MatchOption found (¬ IsIdleAt spot.now.text.now spot.now.at)
        (λ edit. LeavesOut spot.now.text.now spot.now.at edit)) }
{
    let rest = behind(spot.text, spot.at);
    if !begins_idle(rest) || !is_at_end(after_idle(rest)) {
        return Ok(None);
    }
    let edit = Edit::new(alloc, spot.at, spot.at.saturating_add(1), b"")?;
    Ok(Some(edit))
}

/// The change that puts a sign in place of what was found, where that is a sign too.
///
/// # Errors
///
/// The allocator is out of memory.
pub fn in_place_of_sign(alloc: Global, spot: &Spot, sign: &str) -> Result<Option<Edit>, AllocError>
    ensures { let rest = drop spot.now.at spot.now.text.now in
        IfOk result (λ found. MatchOption found (sign_len rest ≡ 0)
        (λ edit. ReplacesSign spot.now.text.now spot.now.at sign.now edit)) }
{
    let len = sign_len(behind(spot.text, spot.at));
    if len == 0 {
        return Ok(None);
    }
    let to = spot.at.saturating_add(len);
    let edit = Edit::new(alloc, spot.at, to, sign.as_bytes())?;
    Ok(Some(edit))
}

/// The bytes from a place on; none where it is behind the end.
fn behind(text: &[u8], at: usize) -> &[u8]
    ensures { result.now ≡ drop at text.now }
{
    let (_, rest) = text.split_at(at.min(text.len()));
    rest
}

/// What stands behind the blanks, and the signs that stand for nothing, at the front.
fn after_idle(bytes: &[u8]) -> &[u8]
    ensures { result.now ≡ after_idle bytes.now }
{
    let mut rest = bytes;
    'front: loop {
        match rest {
            [byte, after @ ..] if is_idle(*byte) => rest = after,
            _ => return rest,
        }
    }
}

/// Whether such a byte stands first.
fn begins_idle(bytes: &[u8]) -> bool
    ensures { result ≡ begins_idle bytes.now }
{
    match bytes {
        [byte, ..] => is_idle(*byte),
        [] => false,
    }
}

/// Whether the line ends here, or the text, or a comment begins.
fn is_at_end(bytes: &[u8]) -> bool
    ensures { result ≡ is_at_end bytes.now }
{
    matches!(bytes, [] | [b'\n' | b'\r', ..] | [b'(', b'*', ..])
}

/// Whether a byte is a blank, or a sign that stands for nothing.
fn is_idle(byte: u8) -> bool
    ensures { result ≡ is_idle byte }
{
    matches!(byte, b' ' | b'\t' | b',' | b':' | b';' | b'.' | b')' | b'?')
}

/// How many bytes the sign has that stands first; 0 where something else does.
fn sign_len(bytes: &[u8]) -> usize
    ensures { result ≡ sign_len bytes.now }
{
    match bytes {
        [b':', b'=', ..] | [b'.', b'.', ..] => 2,
        [b',' | b':' | b';' | b'.' | b'=' | b'(' | b')', ..] => 1,
        _ => 0,
    }
}
