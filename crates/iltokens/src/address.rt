//! Direct addresses (IEC 61131-3, 2.4.1.1; which there are is this project's profile).

ghost use Rattle.std.specs.Prelude.{◌≡◌, ◌<◌, length, IfSome};
ghost use Rattle.iltokens.specs.AddressSteps.{kind_at, address};
ghost use Rattle.iltokens.specs.Views.{kind_view, address_view};

use crate::digits::plain;
use crate::lexed::AddressKind;
use crate::spelling::after_word;

/// The kind at the front, and what stands after it.
#[tactic(auto, unfolding(crate::specs::AddressSteps::kind_at))]
fn kind_at(bytes: &[u8]) -> Option<(AddressKind, &[u8])>
    ensures exact { kind_view result ≡ kind_at bytes.now }
    ensures within { IfSome result (λ x. length x.1.now < length bytes.now) }
{
    if let Some(after) = after_word(b"%qb", bytes) {
        Some((AddressKind::OutputByte, after))
    } else if let Some(after) = after_word(b"%iw", bytes) {
        Some((AddressKind::InputWord, after))
    } else if let Some(after) = after_word(b"%ix", bytes) {
        Some((AddressKind::InputBit, after))
    } else {
        None
    }
}

/// An address at the front: its kind, bus and place, and what stands after it.
#[derive(Clone, Copy)]
pub(crate) struct LeadingAddress<'a> {
    pub kind: AddressKind,
    pub bus: u64,
    pub place: u64,
    pub rest: &'a [u8],
}

/// The address at the front.
#[tactic(auto, unfolding(crate::specs::AddressSteps::address))]
pub(crate) fn direct_address(bytes: &[u8]) -> Option<LeadingAddress<'_>>
    ensures exact { address_view result ≡ address bytes.now }
    ensures within { IfSome result (λ x. length x.rest.now < length bytes.now) }
{
    let (kind, numbers) = kind_at(bytes)?;
    let (bus, dot) = plain(numbers)?;
    match dot {
        [b'.', after @ ..] => {
            let (place, rest) = plain(after)?;
            Some(LeadingAddress {
                kind,
                bus,
                place,
                rest,
            })
        }
        _ => None,
    }
}
