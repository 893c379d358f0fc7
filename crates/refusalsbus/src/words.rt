//! Lines, words and numbers.

ghost use Rattle.std.specs.Prelude.{◌≡◌, false, true, Some};

use wordlines::{first_line, is_skipped, number_of};

/// `two_returns_stripped`: of two CR before the LF both were taken off.
pub fn one_return_ends_a_line() -> usize
    ensures { result ≡ 2 }
{
    let (line, _) = first_line(b"x\r\r\n");
    line.len()
}

/// `indented_comment_skipped`: a line that begins with a space and `#` was a comment.
pub fn indented_comment_is_read() -> bool
    ensures { result ≡ false }
{
    is_skipped(b" #")
}

/// `number_at_its_limit_refused`: a number that is at its limit was refused.
pub fn number_at_its_limit_is_read() -> Option<u64>
    ensures { result ≡ Some 63 }
{
    number_of(b"63", 63)
}
