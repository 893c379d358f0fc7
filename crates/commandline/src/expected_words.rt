//! What is expected of values at a play's end, as words of the command line name it.

ghost use Rattle.std.specs.Prelude.{MatchOption, MatchResult, map};
ghost use Rattle.commandline.specs.ExpectedWords.{AreExpected, IsExpectedWord, IsFirstUnexpected};
ghost use Rattle.commandoptions.specs.declared.expected_word.ExpectedWord.{ExpectedWord};

use arrayvec::ArrayVec;
use commandoptions::ExpectedWord;

/// How many values may be expected at most.
pub const MOST_EXPECTED: usize = 16;

/// What is expected of values, in the order of the words.
pub type ExpectedWords<'a> = ArrayVec<ExpectedWord<'a>, MOST_EXPECTED>;

/// The first word that is not taken as what is expected.
#[derive(Clone, Copy)]
pub enum ExpectedFault<'a> {
    /// This word is not `NAME=VALUE`.
    NoPair(&'a str),
    /// This word is `NAME=VALUE`, and 16 stand before it.
    TooMany(&'a str),
}

/// What the words say is expected.
///
/// # Errors
///
/// A word is not `NAME=VALUE`, or 16 stand before it.
pub(crate) fn expected_of<'a>(words: &[&'a str]) -> Result<ExpectedWords<'a>, ExpectedFault<'a>>
    ensures { MatchResult result
        (λ expected. AreExpected (map (λ word. word.now) words.now) expected.items)
        (IsFirstUnexpected (map (λ word. word.now) words.now)) }
{
    let mut expected = ArrayVec::new();
    for word in words {
        let Some(pair) = pair_of(word) else {
            return Err(ExpectedFault::NoPair(word));
        };
        if expected.is_full() {
            return Err(ExpectedFault::TooMany(word));
        }
        expected.push(pair);
    }
    Ok(expected)
}

/// What a word says is expected, where it is `NAME=VALUE`.
fn pair_of<'a>(word: &'a str) -> Option<ExpectedWord<'a>>
    ensures { MatchOption result ((expected : ExpectedWord) → ¬ IsExpectedWord word.now expected)
        (IsExpectedWord word.now) }
{
    match word.split_once('=') {
        Some((name, value)) if !name.is_empty() && !value.is_empty() => {
            Some(ExpectedWord { name, value })
        }
        _ => None,
    }
}
