//! Numbers (IEC 61131-3, 2.2.1).

ghost use Rattle.std.specs.Prelude.{◌≡◌, ◌<◌, length, IfSome};
ghost use Rattle.iltokens.specs.NumberSteps.{based, unsigned, signed};
ghost use Rattle.iltokens.specs.Views.{valued};

use crate::digits::digits;

/// A number of base 2, 8 or 16.
#[tactic(auto, unfolding(crate::specs::NumberSteps::based))]
fn based(bytes: &[u8]) -> Option<(u64, &[u8])>
    ensures exact { valued result ≡ based bytes.now }
    ensures within { IfSome result (λ x. length x.1.now < length bytes.now) }
{
    match bytes {
        [b'2', b'#', after @ ..] => digits(2, after),
        [b'8', b'#', after @ ..] => digits(8, after),
        [b'1', b'6', b'#', after @ ..] => digits(16, after),
        _ => None,
    }
}

/// The number at the front, without a sign, and what stands after it.
#[tactic(auto, unfolding(crate::specs::NumberSteps::unsigned))]
pub(crate) fn unsigned(bytes: &[u8]) -> Option<(u64, &[u8])>
    ensures exact { valued result ≡ unsigned bytes.now }
    ensures within { IfSome result (λ x. length x.1.now < length bytes.now) }
{
    match based(bytes) {
        Some(read) => Some(read),
        None => digits(10, bytes),
    }
}

/// The number with this sign, where it fits 64 signed bits.
#[tactic(auto, unfolding(crate::specs::NumberSteps::signed))]
pub(crate) fn signed(negative: bool, magnitude: u64) -> Option<i64>
    ensures { result ≡ signed negative magnitude }
{
    if magnitude < 1 << 63 {
        let number = magnitude as i64;
        Some(if negative { -number } else { number })
    } else if negative && magnitude == 1 << 63 {
        Some(i64::MIN)
    } else {
        None
    }
}
