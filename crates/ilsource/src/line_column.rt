//! Lines and columns.

ghost use Rattle.std.specs.Prelude.{◌≡◌, ◌==◌, count_by, length, not, reverse, take_while};

/// Where something stands in a text, for a reader: both numbers count from 1.
#[derive(Clone, Copy, PartialEq, Eq)]
pub struct LineColumn {
    /// One more than the line feeds before it.
    pub line: usize,
    /// One more than the bytes of its line before it.
    pub col: usize,
}

impl LineColumn {
    ghost use Rattle.std.specs.Prelude.{◌≡◌};
    ghost use Rattle.ilsource.specs.Places.{line_at, col_at};

    /// The place of the byte `at` of `text`; what is past the end stands at the end.
    pub fn of(text: &[u8], at: usize) -> LineColumn
        ensures line { result.line ≡ line_at text.now at }
        ensures col { result.col ≡ col_at text.now at }
    {
        let (before, _) = text.split_at(at.min(text.len()));
        LineColumn {
            line: 1 + line_feeds(before),
            col: 1 + bytes_of_last_line(before),
        }
    }
}

/// How many line feeds stand in `text`.
pub(crate) fn line_feeds(text: &[u8]) -> usize
    ensures { result ≡ count_by (λ byte. byte == 10) text.now }
{
    text.iter().filter(|byte| **byte == b'\n').count()
}

/// How many bytes stand after the last line feed.
fn bytes_of_last_line(text: &[u8]) -> usize
    ensures { result ≡ length (take_while (λ byte. not (byte == 10)) (reverse text.now)) }
{
    text.iter().rev().take_while(|byte| **byte != b'\n').count()
}
