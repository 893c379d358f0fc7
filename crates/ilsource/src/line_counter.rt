//! Line numbers along a text.

ghost use Rattle.std.specs.Prelude.{◌≡◌, ◌-◌, ◌≤◌, drop, take};
ghost use Rattle.ilsource.specs.Places.{line_at};

use crate::line_column::line_feeds;

/// Gives the lines of places in a text, in one pass over it where the places rise.
#[derive(Drop)]
pub struct LineCounter<'a> {
    text: &'a [u8],
    at: usize,
    line: usize,
    ghost counted: { line ≡ line_at text.now at },
}

impl<'a> LineCounter<'a> {
    ghost use Rattle.std.specs.Prelude.{◌≡◌};
    ghost use Rattle.ilsource.specs.Places.{line_at};

    /// A counter at the front of `text`.
    pub fn new(text: &'a [u8]) -> LineCounter<'a>
        ensures { result.text.now ≡ text.now }
    {
        LineCounter {
            text,
            at: 0,
            line: 1,
        }
    }

    /// The line of the byte `at`, counted from 1; what is past the end stands at the end.
    pub fn line_of(&mut self, at: usize) -> usize
        ensures line { result ≡ line_at self.old.text.now at }
        ensures text { self.new.text.now ≡ self.old.text.now }
    {
        let line = if self.at <= at {
            line_further(self.text, self.at, self.line, at)
        } else {
            line_further(self.text, 0, 1, at)
        };
        self.at = at;
        self.line = line;
        line
    }
}

/// The line of the byte `to`, from that of a byte that is not behind it.
fn line_further(text: &[u8], from: usize, line: usize, to: usize) -> usize
    requires forward { from ≤ to }
    requires known { line ≡ line_at text.now from }
    ensures { result ≡ line_at text.now to }
{
    line + line_feeds(between(text, from, to))
}

/// The bytes of `text` from `from` up to `to`.
fn between(text: &[u8], from: usize, to: usize) -> &[u8]
    requires { from ≤ to }
    ensures { result.now ≡ take (to - from) (drop from text.now) }
{
    let (_, rest) = text.split_at(from.min(text.len()));
    let (passed, _) = rest.split_at((to - from).min(rest.len()));
    passed
}
