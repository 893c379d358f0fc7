//! The lines of a file.

ghost use Rattle.std.specs.Prelude.{◌≡◌, ◌<◌, ◌∷◌, ◌↔◌, IsTrue, length};
ghost use Rattle.std.specs.Str.Lines.{lines, strip_carriage_return};
ghost use Rattle.wordlines.specs.WordLines.{IsSkipped};

use crate::cuts::cut_at;

/// The first line of bytes without its LF or CR LF, and what stands after it.
pub fn first_line(bytes: &[u8]) -> (&[u8], &[u8])
    requires { 0 < length bytes.now }
    ensures line { lines bytes.now ≡ result.0.now ∷ lines result.1.now }
    ensures shorter { length result.1.now < length bytes.now }
{
    let (line, after) = cut_at(bytes, b'\n');
    match after {
        None => (line, &[]),
        Some(after) => (without_return(line), after),
    }
}

/// The line without the CR at its end.
fn without_return(line: &[u8]) -> &[u8]
    ensures { result.now ≡ strip_carriage_return line.now }
{
    match line {
        [content @ .., b'\r'] => content,
        _ => line,
    }
}

/// Whether a line says nothing: it is empty, or begins with `#`.
pub fn is_skipped(line: &[u8]) -> bool
    ensures { IsTrue result ↔ IsSkipped line.now }
{
    match line {
        [] | [b'#', ..] => true,
        _ => false,
    }
}
