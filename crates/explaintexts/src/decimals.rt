//! Numbers with a fraction or an exponent, in whole numbers.

use crate::habit_rows::FRACTION;
use crate::said::{Row, Said, advice};
use explaincures::{Spot, content_len, part};
use explainpatterns::{Extent, count_of_digits, place_of_any};

const WHOLE: Row = advice!("a whole number with a dot or an exponent";
    "write it in digits alone: there are no fractions and no exponents";
    "LD 1000");

/// A number as a quotient of two whole ones, of which the second is a power of ten.
#[derive(Clone, Copy)]
pub(crate) struct Decimal {
    number: u64,
    divisor: u64,
}

impl Decimal {
    /// What is written with a dot or a comma, an exponent, or both; nothing where it is no such
    /// number, or a very long one.
    pub(crate) fn of(written: &[u8]) -> Option<Decimal> {
        let (digits, exponent) = parted(written, b"eE");
        let (front, behind) = parted(digits, b".,");
        let number = with_digits(with_digits(0, front)?, part(behind, 1, behind.len()))?;
        let places = count_of_digits(behind);
        let (is_small, power) = match exponent {
            [] if !behind.is_empty() => (false, exponent),
            [_, b'-', power @ ..] => (true, power),
            [_, b'+', power @ ..] => (false, power),
            [_, power @ ..] if !power.is_empty() => (false, power),
            _ => return None,
        };
        let power = i64::try_from(with_digits(0, power)?).ok()?;
        let power = if is_small {
            0_i64.saturating_sub(power)
        } else {
            power
        };
        let scale = power.saturating_sub(i64::try_from(places).ok()?);
        let ten = 10_u64.checked_pow(u32::try_from(scale.unsigned_abs()).ok()?)?;
        Some(Decimal {
            number: number.checked_mul(if scale > 0 { ten } else { 1 })?,
            divisor: if scale > 0 { 1 } else { ten },
        })
    }

    /// This number in whole numbers where it stands, if it is one, or if MUL or DIV stands before
    /// it.
    pub(crate) fn said(self, spot: &Spot, place: Extent) -> Said {
        let Decimal { number, divisor } = self;
        let whole = quotient(number, divisor);
        let said = Said::of(if whole.is_some() { WHOLE } else { FRACTION }, place);
        let (first, behind) = spot.first_place();
        let is_operand = content_len(spot.part(behind, place.0)) == 0;
        let is_division = is_operand && spot.first_word().eq_ignore_ascii_case(b"DIV");
        let is_product = is_operand && spot.first_word().eq_ignore_ascii_case(b"MUL");
        match whole {
            _ if is_division && number == 0 => said,
            Some(whole) => said.put(place, "{n}").with_numbers((whole, 0)),
            None if is_product => product(said, (first, place.1), number, divisor),
            None if is_division => product(said, (first, place.1), divisor, number),
            None => said,
        }
    }
}

/// What stands before the first of two bytes, and the rest.
fn parted<'a>(bytes: &'a [u8], ends: &[u8; 2]) -> (&'a [u8], &'a [u8]) {
    let end = place_of_any(bytes, ends);
    bytes.split_at(end.unwrap_or(bytes.len()).min(bytes.len()))
}

/// A number with more digits, between which `_` may stand.
fn with_digits(number: u64, digits: &[u8]) -> Option<u64> {
    let mut number = number;
    for byte in digits {
        match *byte {
            b'_' => {}
            b'0'..=b'9' => {
                let digit = u64::from(byte.saturating_sub(b'0'));
                number = number.checked_mul(10)?.checked_add(digit)?;
            }
            _ => return None,
        }
    }
    Some(number)
}

/// A number divided by another one, where it is a multiple of that.
fn quotient(number: u64, of: u64) -> Option<u64> {
    let whole = number.checked_div(of)?;
    (number.checked_rem(of)? == 0).then_some(whole)
}

/// A multiplication and a division behind it, or one of them where that is enough.
fn product(said: Said, line: Extent, number: u64, divisor: u64) -> Said {
    match (quotient(divisor, number), quotient(number, divisor)) {
        (Some(part), _) => said.put(line, "DIV {n}").with_numbers((part, 0)),
        (None, Some(times)) => said.put(line, "MUL {n}").with_numbers((times, 0)),
        (None, None) => {
            let lines = said.put(line, "MUL {n}\n{i}DIV {d}");
            lines.with_numbers((number, divisor))
        }
    }
}
