//! Tokens, reserved words and errors of reading.

ghost use Rattle.std.specs.Prelude.{◌≡◌, None, Some};

use iltokens::{Keyword, Lexed, ReadError, What, keyword_of, token};
use std::alloc::{AllocError, AllocFailed};

/// `dev_ask_read_as_dev_do`: DEV_ASK was the word DEV_DO.
pub fn dev_ask_is_a_word() -> Option<Keyword>
    ensures { result ≡ Some Keyword.DevAsk }
{
    keyword_of(b"DEV_ASK")
}

/// `keyword_by_its_beginning`: a word was the reserved one with which it begins.
pub fn longer_word_is_not_reserved() -> Option<Keyword>
    ensures { result ≡ None }
{
    keyword_of(b"LDX")
}

/// `minute_before_second`: `5m` of `T#5ms` was a token.
pub fn milliseconds_are_one_token() -> Lexed
    ensures { result ≡ Lexed.Token (What.Time 5) 0 5 }
{
    token(b"T#5ms", 0)
}

/// `comment_ends_at_first_parenthesis`: a comment ended at a parenthesis without `*`.
pub fn comment_ends_at_its_mark() -> Lexed
    ensures { result ≡ Lexed.End }
{
    token(b"(*a)*)", 0)
}

/// `out_of_memory_reported_as_a_fault`: an allocation that failed was a fault of the text.
pub fn failed_allocation_is_out_of_memory(error: AllocError) -> ReadError<'static, u8>
    ensures { result ≡ ReadError.Memory }
{
    ReadError::from(error)
}

/// `refused_value_reported_as_a_fault`: a value for which there was no memory was a fault of the
/// text.
pub fn refused_value_is_out_of_memory(error: AllocFailed<u8>) -> ReadError<'static, u8>
    ensures { result ≡ ReadError.Memory }
{
    ReadError::from(error)
}
