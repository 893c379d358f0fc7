//! The token at the front of some bytes.

ghost use Rattle.std.specs.Prelude.{◌≡◌, ◌<◌, length};
ghost use Rattle.iltokens.specs.FrontSteps.{number_at, word_kind, word_at, address_at};
ghost use Rattle.iltokens.specs.FrontSteps.{delimiter_at, front_at};
ghost use Rattle.iltokens.specs.Views.{front_view, IsShorter};

use crate::address::direct_address;
use crate::digits::is_digit;
use crate::keyword::keyword_of;
use crate::lexed::{Delimiter, LexicalCause, What};
use crate::number::{signed, unsigned};
use crate::spelling::{after_name, is_letter};
use crate::time::time;

/// What stands at the front.
pub(crate) enum Front<'a> {
    End,
    /// A token, and what stands after it.
    Token(What, &'a [u8]),
    Fault(LexicalCause),
}

#[tactic(auto, unfolding(crate::specs::FrontSteps::number_at))]
fn number_at(negative: bool, magnitude: &[u8]) -> Front<'_>
    ensures exact { front_view result ≡ number_at negative magnitude.now }
    ensures within { IsShorter result (length magnitude.now) }
{
    match unsigned(magnitude) {
        Some((value, rest)) => match signed(negative, value) {
            Some(number) => Front::Token(What::Number(number), rest),
            None => Front::Fault(LexicalCause::BadNumber),
        },
        None => Front::Fault(LexicalCause::BadToken),
    }
}

/// What a word is: reserved, or a name.
fn word_kind(word: &[u8]) -> What
    ensures { result ≡ word_kind word.now }
{
    match keyword_of(word) {
        Some(keyword) => What::Keyword(keyword),
        None => What::Name,
    }
}

/// A duration, or else a word.
#[tactic(auto, unfolding(crate::specs::FrontSteps::word_at))]
fn word_at(bytes: &[u8]) -> Front<'_>
    requires { 0 < length bytes.now }
    ensures exact { front_view result ≡ word_at bytes.now }
    ensures within { IsShorter result (length bytes.now) }
{
    match time(bytes) {
        Some((milliseconds, rest)) => {
            if milliseconds <= 0xffff_ffff {
                Front::Token(What::Time(milliseconds as u32), rest)
            } else {
                Front::Fault(LexicalCause::BadNumber)
            }
        }
        None => {
            let (_, others) = bytes.split_at(1);
            let rest = after_name(others);
            let (word, _) = bytes.split_at(bytes.len() - rest.len());
            Front::Token(word_kind(word), rest)
        }
    }
}

#[tactic(auto, unfolding(crate::specs::FrontSteps::address_at))]
fn address_at(bytes: &[u8]) -> Front<'_>
    ensures exact { front_view result ≡ address_at bytes.now }
    ensures within { IsShorter result (length bytes.now) }
{
    match direct_address(bytes) {
        Some(found) => {
            if found.bus < 1 << 63 && found.place < 1 << 63 {
                let what = What::Address {
                    kind: found.kind,
                    bus: found.bus,
                    place: found.place,
                };
                Front::Token(what, found.rest)
            } else {
                Front::Fault(LexicalCause::BadNumber)
            }
        }
        None => Front::Fault(LexicalCause::BadToken),
    }
}

/// A delimiter, a line end or what begins no token.
#[tactic(auto, unfolding(crate::specs::FrontSteps::delimiter_at))]
fn delimiter_at(bytes: &[u8]) -> Front<'_>
    ensures exact { front_view result ≡ delimiter_at bytes.now }
    ensures within { IsShorter result (length bytes.now) }
{
    match bytes {
        [] => Front::End,
        [b',', rest @ ..] => Front::Token(What::Delimiter(Delimiter::Comma), rest),
        [b';', rest @ ..] => Front::Token(What::Delimiter(Delimiter::Semicolon), rest),
        [b'(', rest @ ..] => Front::Token(What::Delimiter(Delimiter::Open), rest),
        [b')', rest @ ..] => Front::Token(What::Delimiter(Delimiter::Close), rest),
        [b':', b'=', rest @ ..] => Front::Token(What::Delimiter(Delimiter::Assign), rest),
        [b':', rest @ ..] => Front::Token(What::Delimiter(Delimiter::Colon), rest),
        [b'.', b'.', rest @ ..] => Front::Token(What::Delimiter(Delimiter::Range), rest),
        [b'.', rest @ ..] => Front::Token(What::Delimiter(Delimiter::Dot), rest),
        [b'&', b'N' | b'n', rest @ ..] => Front::Token(
            What::Delimiter(Delimiter::AmpersandNot),
            rest,
        ),
        [b'&', rest @ ..] => Front::Token(What::Delimiter(Delimiter::Ampersand), rest),
        [b'\n', rest @ ..] => Front::Token(What::Delimiter(Delimiter::LineEnd), rest),
        [b'\r', b'\n', rest @ ..] => Front::Token(What::Delimiter(Delimiter::LineEnd), rest),
        [byte, ..] => {
            if *byte >= 0x80 {
                Front::Fault(LexicalCause::NotAscii)
            } else {
                Front::Fault(LexicalCause::BadToken)
            }
        }
    }
}

/// The token at the front, where no blank stands.
#[tactic(auto, unfolding(crate::specs::FrontSteps::front_at))]
pub(crate) fn front_at(bytes: &[u8]) -> Front<'_>
    ensures exact { front_view result ≡ front_at bytes.now }
    ensures within { IsShorter result (length bytes.now) }
{
    match bytes {
        [] => Front::End,
        [b'+', magnitude @ ..] => number_at(false, magnitude),
        [b'-', magnitude @ ..] => number_at(true, magnitude),
        [b'%', ..] => address_at(bytes),
        [byte, ..] => {
            if is_letter(*byte) {
                word_at(bytes)
            } else if is_digit(10, *byte) {
                number_at(false, bytes)
            } else {
                delimiter_at(bytes)
            }
        }
    }
}
