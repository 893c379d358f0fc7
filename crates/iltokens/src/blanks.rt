//! Blanks: spaces, tabs and comments.

ghost use Rattle.std.specs.Prelude.{◌≡◌, ◌≤◌, length, MatchResult};
ghost use Rattle.iltokens.specs.BlankSteps.{after_comment, blank_at, blanks};
ghost use Rattle.iltokens.specs.Views.{seen, blank_view, both_views};

/// One blank at the front.
enum Blank<'a> {
    /// None stands there.
    Here,
    /// What stands after it.
    Past(&'a [u8]),
    /// A comment begins and does not end.
    OpenComment,
}

/// What stands after the next `*)`.
fn after_comment(bytes: &[u8]) -> Option<&[u8]>
    ensures { seen result ≡ after_comment bytes.now }
{
    let mut rest = bytes;
    'inside: loop {
        match rest {
            [] => return None,
            [_] => return None,
            [b'*', b')', after @ ..] => return Some(after),
            [_, after @ ..] => rest = after,
        }
    }
}

fn blank_at(bytes: &[u8]) -> Blank<'_>
    ensures { blank_view result ≡ blank_at bytes.now }
{
    match bytes {
        [b' ' | b'\t', after @ ..] => Blank::Past(after),
        [b'(', b'*', inside @ ..] => match after_comment(inside) {
            Some(after) => Blank::Past(after),
            None => Blank::OpenComment,
        },
        _ => Blank::Here,
    }
}

/// What stands after the blanks at the front; an `Err` has what stands from the `(*` on of a
/// comment without end.
pub(crate) fn blanks(bytes: &[u8]) -> Result<&[u8], &[u8]>
    ensures exact { both_views result ≡ blanks bytes.now }
    ensures within { MatchResult result
        (λ rest. length rest.now ≤ length bytes.now)
        (λ rest. length rest.now ≤ length bytes.now) }
{
    let mut rest = bytes;
    'blanks: loop {
        match blank_at(rest) {
            Blank::Here => return Ok(rest),
            Blank::Past(after) => rest = after,
            Blank::OpenComment => return Err(rest),
        }
    }
}
