//! Digits of numbers, with their value. A value past 64 bits is kept at the greatest of them.

ghost use Rattle.std.specs.Prelude.{◌≡◌, ◌<◌, ◌≤◌, length, IfSome};
ghost use Rattle.iltokens.specs.Digits.{digit_of, is_digit};
ghost use Rattle.iltokens.specs.DigitSteps.{add_digit, next_digit};
ghost use Rattle.iltokens.specs.DigitSteps.{digits_from, digits, plain_from, plain};
ghost use Rattle.iltokens.specs.Views.{valued, value_view};

/// The value of a digit of any base up to 16, in either letter case; 16 for another byte.
pub(crate) fn digit_of(byte: u8) -> u8
    ensures { result ≡ digit_of byte }
{
    if b'0' <= byte && byte <= b'9' {
        byte - b'0'
    } else if b'A' <= byte && byte <= b'F' {
        byte - b'A' + 10
    } else if b'a' <= byte && byte <= b'f' {
        byte - b'a' + 10
    } else {
        16
    }
}

/// Whether `byte` is a digit of this base.
#[tactic(auto, unfolding(crate::specs::Digits::is_digit))]
pub(crate) fn is_digit(base: u8, byte: u8) -> bool
    ensures { result ≡ is_digit base byte }
{
    digit_of(byte) < base
}

/// The value with one more digit.
#[tactic(auto, unfolding(crate::specs::DigitSteps::add_digit))]
pub(crate) fn add_digit(base: u8, value: u64, byte: u8) -> u64
    ensures { result ≡ add_digit base value byte }
{
    value
        .saturating_mul(u64::from(base))
        .saturating_add(u64::from(digit_of(byte)))
}

/// The next digit, which may have one underscore before it, and what stands after it.
#[tactic(auto, unfolding(crate::specs::DigitSteps::next_digit))]
fn next_digit(base: u8, bytes: &[u8]) -> Option<(u8, &[u8])>
    ensures exact { valued result ≡ next_digit base bytes.now }
    ensures within { IfSome result (λ x. length x.1.now < length bytes.now) }
{
    match bytes {
        [] => None,
        [first, after @ ..] => {
            if is_digit(base, *first) {
                Some((*first, after))
            } else {
                match bytes {
                    [b'_', digit, after @ ..] => {
                        if is_digit(base, *digit) {
                            Some((*digit, after))
                        } else {
                            None
                        }
                    }
                    _ => None,
                }
            }
        }
    }
}

/// Goes on over digits with single underscores between them.
fn digits_from(base: u8, value: u64, bytes: &[u8]) -> (u64, &[u8])
    ensures exact { value_view result ≡ digits_from base value bytes.now }
    ensures within { length result.1.now ≤ length bytes.now }
{
    let mut value = value;
    let mut rest = bytes;
    'digits: loop {
        match next_digit(base, rest) {
            None => return (value, rest),
            Some((digit, after)) => {
                value = add_digit(base, value, digit);
                rest = after;
            }
        }
    }
}

/// The value of the digits at the front, with single underscores between them, and what stands
/// after them.
pub(crate) fn digits(base: u8, bytes: &[u8]) -> Option<(u64, &[u8])>
    ensures exact { valued result ≡ digits base bytes.now }
    ensures within { IfSome result (λ x. length x.1.now < length bytes.now) }
{
    match bytes {
        [digit, after @ ..] if is_digit(base, *digit) => {
            Some(digits_from(base, u64::from(digit_of(*digit)), after))
        }
        _ => None,
    }
}

/// Goes on over decimal digits.
#[tactic(auto, unfolding(crate::specs::DigitSteps::plain_from))]
fn plain_from(value: u64, bytes: &[u8]) -> (u64, &[u8])
    ensures exact { value_view result ≡ plain_from value bytes.now }
    ensures within { length result.1.now ≤ length bytes.now }
{
    let mut value = value;
    let mut rest = bytes;
    'digits: loop {
        match rest {
            [digit, after @ ..] if is_digit(10, *digit) => {
                value = add_digit(10, value, *digit);
                rest = after;
            }
            _ => return (value, rest),
        }
    }
}

/// The value of the decimal digits at the front, without underscores, and what stands after them.
pub(crate) fn plain(bytes: &[u8]) -> Option<(u64, &[u8])>
    ensures exact { valued result ≡ plain bytes.now }
    ensures within { IfSome result (λ x. length x.1.now < length bytes.now) }
{
    match bytes {
        [digit, after @ ..] if is_digit(10, *digit) => {
            Some(plain_from(u64::from(digit_of(*digit)), after))
        }
        _ => None,
    }
}
