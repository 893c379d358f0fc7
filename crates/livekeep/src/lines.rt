//! The lines of a file of kept values.

ghost use Rattle.std.specs.Prelude.{◌≡◌};
ghost use Rattle.wordlines.specs.WordLines.{words};
ghost use Rattle.livekeep.specs.KeptFiles.{entry_in, head_in, is_head, kept_at_in, pair_in, said};
ghost use Rattle.livekeep.specs.KeptFiles.{dated_head_in, value_of, whole_number};
ghost use Rattle.livekeep.specs.KeptLines.{view};

use crate::kept_at::KeptAt;
use iltypes::Value;
use wordlines::{Words, number_of};

/// What a line of a file of kept values says.
#[derive(Clone, Copy)]
pub(crate) enum KeptLine<'a> {
    /// `kept by dalictl live at 1795889471 moment 3600000`; in version 1 it does not say when.
    Head(Option<KeptAt>),
    /// `text 1A2B3C4D`: the digest of a text, in version 1.
    Digest,
    /// `lamp = 200`
    Entry { name: &'a [u8], value: Value },
    /// `end 1`: how many values there are.
    End(u64),
    /// `sum 3237561715`: the check sum of all lines before it.
    Sum(u64),
}

/// The greatest number of a line, without its sign.
const MOST_NUMBER: u64 = 9_223_372_036_854_775_807;

/// What a line says that is not skipped.
pub(crate) fn line_of(line: &[u8]) -> Option<KeptLine<'_>>
    ensures { view result ≡ said (words line.now) }
{
    let mut words = Words::of(line);
    let first = words.next()?;
    let second = words.next()?;
    let Some(third) = words.next() else {
        return pair_in(first, second);
    };
    let Some(fourth) = words.next() else {
        return entry_in(first, second, third);
    };
    let Some(fifth) = words.next() else {
        return head_in(first, second, third, fourth);
    };
    let sixth = words.next()?;
    let seventh = words.next()?;
    let eighth = words.next()?;
    if !words.is_empty() {
        return None;
    }
    let head = head_in(first, second, third, fourth);
    dated_head_in(head, kept_at_in(fifth, sixth, seventh, eighth))
}

/// `kept by dalictl live`
fn head_in<'a>(kept: &[u8], by: &[u8], program: &[u8], command: &[u8]) -> Option<KeptLine<'a>>
    ensures { view result ≡ head_in kept.now by.now program.now command.now }
{
    if is_head(kept, by, program, command) {
        Some(KeptLine::Head(None))
    } else {
        None
    }
}

/// Whether these are the words with which each head begins.
fn is_head(kept: &[u8], by: &[u8], program: &[u8], command: &[u8]) -> bool
    ensures { result ≡ is_head kept.now by.now program.now command.now }
{
    let is_kept = kept == b"kept".as_slice() && by == b"by".as_slice();
    let is_live = program == b"dalictl".as_slice() && command == b"live".as_slice();
    is_kept && is_live
}

/// `at 1795889471 moment 3600000`
fn kept_at_in(at: &[u8], date: &[u8], word: &[u8], moment: &[u8]) -> Option<KeptAt>
    ensures { result ≡ kept_at_in at.now date.now word.now moment.now }
{
    if at != b"at".as_slice() || word != b"moment".as_slice() {
        return None;
    }
    let date = number_of(date, MOST_NUMBER)?;
    let moment = number_of(moment, MOST_NUMBER)?;
    Some(KeptAt { date, moment })
}

/// A head that says when the values were kept.
fn dated_head_in<'a>(head: Option<KeptLine<'a>>, at: Option<KeptAt>) -> Option<KeptLine<'a>>
    ensures { view result ≡ dated_head_in (view head.entry) at }
{
    match (head, at) {
        (Some(_), Some(at)) => Some(KeptLine::Head(Some(at))),
        _ => None,
    }
}

/// `text 1A2B3C4D`, `end 1`, `sum 3237561715`
fn pair_in<'a>(keyword: &[u8], word: &[u8]) -> Option<KeptLine<'a>>
    ensures { view result ≡ pair_in keyword.now word.now }
{
    if keyword == b"text".as_slice() {
        Some(KeptLine::Digest)
    } else if keyword == b"end".as_slice() {
        Some(KeptLine::End(number_of(word, MOST_NUMBER)?))
    } else if keyword == b"sum".as_slice() {
        Some(KeptLine::Sum(number_of(word, MOST_NUMBER)?))
    } else {
        None
    }
}

/// `lamp = 200`
fn entry_in<'a>(name: &'a [u8], sign: &[u8], word: &[u8]) -> Option<KeptLine<'a>>
    ensures { view result ≡ entry_in name.now sign.now word.now }
{
    if sign != b"=".as_slice() {
        return None;
    }
    let value = value_of(word)?;
    Some(KeptLine::Entry { name, value })
}

/// A value, as it is printed.
fn value_of(word: &[u8]) -> Option<Value>
    ensures { result ≡ value_of word.now }
{
    if word == b"TRUE".as_slice() {
        Some(Value::Bool(true))
    } else if word == b"FALSE".as_slice() {
        Some(Value::Bool(false))
    } else {
        Some(Value::Int(whole_number(word)?))
    }
}

/// A whole number: digits, with `-` before them below 0.
fn whole_number(word: &[u8]) -> Option<i64>
    ensures { result ≡ whole_number word.now }
{
    match word {
        [b'-', digits @ ..] => {
            let number = number_of(digits, MOST_NUMBER)? as i64;
            Some(-number)
        }
        _ => {
            let number = number_of(word, MOST_NUMBER)? as i64;
            Some(number)
        }
    }
}
