//! The two ends of a line: what goes out, and what comes in.

ghost use Rattle.std.specs.Prelude.{◌≡◌, ◌≢◌, ◌∷◌, [], ◌++◌, OnOk, IfOk};
ghost use Rattle.std.specs.Io.KnownBytes.{Appends, Consumes};
ghost use Rattle.std.specs.declared.io.ErrorKind.TheVariants.{TimedOut};
ghost use Rattle.liveline.specs.Exchanges.{IsAtMost, IsWrittenBut};
ghost use Rattle.liveline.specs.Lines.{hear_line, line_end, send_line};
ghost use Rattle.liveline.specs.declared.troubles.Trouble.TheVariants.{Closed, Silent};

use crate::troubles::{LineBytes, MOST_LINE, Trouble};
use daliframe::Frame;
use std::io::{ErrorKind, Read, Write};

/// Asks for a frame to be sent.
#[tactic(auto, using(crate::proofs::Writing::not_begun))]
pub(crate) fn ask_to_send<W: Write>(to: &mut W, frame: &Frame, priority: u8) -> Result<(), Trouble>
    ensures whole { OnOk result (Appends (W.contents to.old) (W.contents to.new)
        (send_line frame.now priority ++ line_end)) }
    ensures at_most { IsAtMost (send_line frame.now priority ++ line_end)
        (W.contents to.old) (W.contents to.new) }
{
    let line = send_request(frame, priority)?;
    say(to, line.as_slice())
}

/// The line that asks for a frame to be sent, with its end.
fn send_request(frame: &Frame, priority: u8) -> Result<LineBytes, Trouble>
    ensures { IfOk result (λ line. line.items ≡ send_line frame.now priority ++ line_end) }
{
    let mut line = LineBytes::new();
    match writeln!(line, "send {priority} {frame}") {
        Ok(()) => Ok(line),
        Err(_) => Err(Trouble::Absent),
    }
}

/// Asks for what has come.
pub(crate) fn ask_to_hear<W: Write>(to: &mut W) -> Result<(), Trouble>
    ensures whole { OnOk result (Appends (W.contents to.old) (W.contents to.new)
        (hear_line ++ line_end)) }
    ensures at_most { IsAtMost (hear_line ++ line_end) (W.contents to.old) (W.contents to.new) }
{
    say(to, b"hear\n")
}

/// Says a line. Where that fails, a first part of it was written at most.
pub(crate) fn say<W: Write>(to: &mut W, line: &[u8]) -> Result<(), Trouble>
    ensures whole { OnOk result (Appends (W.contents to.old) (W.contents to.new) line.now) }
    ensures at_most { IsAtMost line.now (W.contents to.old) (W.contents to.new) }
{
    match put(to, line) {
        Ok(()) => Ok(()),
        Err(kind) => Err(trouble_of(kind)),
    }
}

/// Writes bytes, and flushes the writer. Where that fails, a first part of them was written at
/// most. A writer that takes bytes in time says by its flush that it did not.
#[tactic(auto, using(crate::proofs::Writing::all_written, crate::proofs::Writing::at_most))]
pub(crate) fn put<W: Write>(to: &mut W, bytes: &[u8]) -> Result<(), ErrorKind>
    ensures whole { OnOk result (Appends (W.contents to.old) (W.contents to.new) bytes.now) }
    ensures at_most { IsAtMost bytes.now (W.contents to.old) (W.contents to.new) }
{
    let rest = write_front(to, bytes);
    match to.flush() {
        Ok(()) if rest.is_empty() => Ok(()),
        Ok(()) => Err(ErrorKind::WriteZero),
        Err(error) => Err(error.kind()),
    }
}

/// Writes a line, up to its end or to where the writer fails, and gives what is left of it.
#[tactic(auto, using(crate::proofs::Writing::nothing_written, crate::proofs::Writing::more_written))]
fn write_front<'a, W: Write>(to: &mut W, line: &'a [u8]) -> &'a [u8]
    ensures { IsWrittenBut line.now result.now (W.contents to.old) (W.contents to.new) }
{
    let mut rest = line;
    for _ in 0..u64::MAX {
        let (after, goes_on) = write_some(to, rest);
        rest = after;
        if rest.is_empty() || !goes_on {
            return rest;
        }
    }
    rest
}

/// Writes what the writer takes of a line at once, and gives what is left of it, and whether the
/// writer may take more.
#[tactic(auto, using(crate::proofs::Writing::nothing_taken, crate::proofs::Writing::front_taken))]
fn write_some<'a, W: Write>(to: &mut W, line: &'a [u8]) -> (&'a [u8], bool)
    ensures { IsWrittenBut line.now result.0.now (W.contents to.old) (W.contents to.new) }
{
    match to.write(line) {
        Ok(count) => (&line[count..], count > 0),
        Err(error) => (line, error.kind() == ErrorKind::Interrupted),
    }
}

/// Why a read or a write failed, by the kind of its error.
pub(crate) fn trouble_of(kind: ErrorKind) -> Trouble
    ensures late { kind ≡ TimedOut → result ≡ Silent }
    ensures other { kind ≢ TimedOut → result ≡ Closed }
{
    match kind {
        ErrorKind::TimedOut => Trouble::Silent,
        _ => Trouble::Closed,
    }
}

/// The next byte.
fn read_byte<R: Read>(from: &mut R) -> Result<u8, Trouble>
    ensures { IfOk result
        (λ byte. Consumes (R.remaining from.old) (R.remaining from.new) (byte ∷ [])) }
{
    let mut one = [0u8; 1];
    match from.read_exact(&mut one) {
        Ok(()) => Ok(one[0]),
        Err(error) => Err(trouble_of(error.kind())),
    }
}

/// The next line. There is none where it is too long, where nothing more comes, or where the reader
/// fails.
pub(crate) fn read_line<R: Read>(from: &mut R) -> Result<LineBytes, Trouble>
    ensures { IfOk result (λ line. Consumes (R.remaining from.old) (R.remaining from.new)
        (line.items ++ line_end)) }
{
    let mut line = LineBytes::new();
    for _ in 0..MOST_LINE {
        let byte = read_byte(from)?;
        if byte == b'\n' {
            return Ok(line);
        }
        line.push(byte);
    }
    Err(Trouble::of(line))
}
