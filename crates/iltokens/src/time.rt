//! Durations (IEC 61131-3, 2.2.3.1).

ghost use Rattle.std.specs.Prelude.{◌≡◌, ◌≤◌, ◌<◌, length, IfSome};
ghost use Rattle.iltokens.specs.Times.{milliseconds};
ghost use Rattle.iltokens.specs.TimeSteps.{after_unit, part, with_part, parts_begin};
ghost use Rattle.iltokens.specs.TimeSteps.{parts, after_prefix, time};
ghost use Rattle.iltokens.specs.Views.{seen, valued, parts_view};

use crate::digits::digits;
use crate::spelling::after_word;

/// The units, each of which stands at most once, in falling order.
#[derive(Clone, Copy, PartialEq, Eq)]
pub(crate) enum Unit {
    Day,
    Hour,
    Minute,
    Second,
    Millisecond,
}

pub(crate) fn milliseconds(unit: Unit) -> u64
    ensures { result ≡ milliseconds unit }
{
    match unit {
        Unit::Day => 86_400_000,
        Unit::Hour => 3_600_000,
        Unit::Minute => 60_000,
        Unit::Second => 1000,
        Unit::Millisecond => 1,
    }
}

/// What stands after the unit's letters; `m` before `s` is not a minute.
#[tactic(auto, unfolding(crate::specs::TimeSteps::after_unit))]
fn after_unit(unit: Unit, bytes: &[u8]) -> Option<&[u8]>
    ensures exact { seen result ≡ after_unit unit bytes.now }
    ensures within { IfSome result (λ rest. length rest.now ≤ length bytes.now) }
{
    match unit {
        Unit::Day => after_word(b"d", bytes),
        Unit::Hour => after_word(b"h", bytes),
        Unit::Minute => match after_word(b"ms", bytes) {
            Some(_) => None,
            None => after_word(b"m", bytes),
        },
        Unit::Second => after_word(b"s", bytes),
        Unit::Millisecond => after_word(b"ms", bytes),
    }
}

/// A number with this unit, in milliseconds, and what stands after it.
#[tactic(auto, unfolding(crate::specs::TimeSteps::part))]
fn part(unit: Unit, bytes: &[u8]) -> Option<(u64, &[u8])>
    ensures exact { valued result ≡ part unit bytes.now }
    ensures within { IfSome result (λ x. length x.1.now < length bytes.now) }
{
    match digits(10, bytes) {
        Some((count, letters)) => match after_unit(unit, letters) {
            Some(after) => Some((count.saturating_mul(milliseconds(unit)), after)),
            None => None,
        },
        None => None,
    }
}

/// The parts of a duration so far.
#[derive(Clone, Copy)]
struct Parts<'a> {
    total: u64,
    /// Whether there is one.
    some: bool,
    rest: &'a [u8],
}

/// Where the next part begins: an underscore may stand between two parts.
#[tactic(auto, unfolding(crate::specs::TimeSteps::parts_begin))]
fn part_begin<'a>(parts: Parts<'a>) -> &'a [u8]
    ensures exact { result.now ≡ parts_begin (parts_view parts.entry) }
    ensures within { length result.now ≤ length parts.entry.rest.now }
{
    match parts.rest {
        [b'_', after @ ..] if parts.some => after,
        rest => rest,
    }
}

/// The parts with that of this unit, where it stands next.
#[tactic(auto, unfolding(crate::specs::TimeSteps::with_part))]
fn with_part<'a>(unit: Unit, parts: Parts<'a>) -> Parts<'a>
    ensures exact { parts_view result ≡ with_part unit (parts_view parts.entry) }
    ensures within { length result.rest.now ≤ length parts.entry.rest.now }
{
    match part(unit, part_begin(parts)) {
        Some((value, rest)) => Parts {
            total: parts.total.saturating_add(value),
            some: true,
            rest,
        },
        None => parts,
    }
}

/// The parts at the front.
#[tactic(auto, unfolding(crate::specs::TimeSteps::parts))]
fn all_parts(bytes: &[u8]) -> Parts<'_>
    ensures exact { parts_view result ≡ parts bytes.now }
    ensures within { length result.rest.now ≤ length bytes.now }
{
    let parts = Parts {
        total: 0,
        some: false,
        rest: bytes,
    };
    let parts = with_part(Unit::Day, parts);
    let parts = with_part(Unit::Hour, parts);
    let parts = with_part(Unit::Minute, parts);
    let parts = with_part(Unit::Second, parts);
    with_part(Unit::Millisecond, parts)
}

/// What stands after `T#` or `TIME#`.
#[tactic(auto, unfolding(crate::specs::TimeSteps::after_prefix))]
fn after_prefix(bytes: &[u8]) -> Option<&[u8]>
    ensures exact { seen result ≡ after_prefix bytes.now }
    ensures within { IfSome result (λ rest. length rest.now < length bytes.now) }
{
    match after_word(b"t#", bytes) {
        Some(after) => Some(after),
        None => after_word(b"time#", bytes),
    }
}

/// The duration at the front in milliseconds, and what stands after it.
#[tactic(auto, unfolding(crate::specs::TimeSteps::time))]
pub(crate) fn time(bytes: &[u8]) -> Option<(u64, &[u8])>
    ensures exact { valued result ≡ time bytes.now }
    ensures within { IfSome result (λ x. length x.1.now < length bytes.now) }
{
    match after_prefix(bytes) {
        Some(after) => {
            let parts = all_parts(after);
            if parts.some {
                Some((parts.total, parts.rest))
            } else {
                None
            }
        }
        None => None,
    }
}
