//! Numbers that words spell.

ghost use Rattle.std.specs.Prelude.{◌≡◌, ◌≤◌, ◌<◌, ◌^◌, length, IfSome};
ghost use Rattle.std.specs.Option.{SomeIff};
ghost use Rattle.std.specs.Str.Parse.{IsNumeral, digits_value};
ghost use Rattle.wordlines.specs.WordLines.{number_upto, hex_number};

/// The number that decimal digits alone spell, where it is at most `most`. Leading zeros are
/// allowed.
pub fn number_of(digits: &[u8], most: u64) -> Option<u64>
    ensures exact { SomeIff result (IsNumeral 10 digits.now × (digits_value 10 digits.now ≤ most))
        (digits_value 10 digits.now) }
    ensures value { result ≡ number_upto most digits.now }
{
    let number = value_of(digits, 10)?;
    if number <= most { Some(number) } else { None }
}

/// The number that exactly six hexadecimal digits spell, whose letters are of either case: 24 bits.
pub fn hex_of(digits: &[u8]) -> Option<u32>
    ensures value { result ≡ hex_number digits.now }
    ensures bits { IfSome result (λ bits. bits < 2 ^ 24) }
{
    if digits.len() != 6 {
        return None;
    }
    let number = value_of(digits, 16)?;
    let bits = number as u32;
    Some(bits)
}

/// The number that digits in this radix spell, where it has at most 64 bits.
fn value_of(digits: &[u8], radix: u32) -> Option<u64>
    requires least { 2 ≤ radix }
    requires most { radix ≤ 36 }
    ensures { SomeIff result (IsNumeral radix digits.now × (digits_value radix digits.now < 2 ^ 64))
        (digits_value radix digits.now) }
{
    if digits.is_empty() {
        return None;
    }
    let base = u64::from(radix);
    let mut number: u64 = 0;
    for digit in digits {
        let letter = char::from(*digit);
        let worth = letter.to_digit(radix)?;
        number = number.checked_mul(base)?.checked_add(u64::from(worth))?;
    }
    Some(number)
}
