//! Addresses that are given again.

ghost use Rattle.std.specs.Prelude.{◌≡◌, IfOk};
ghost use Rattle.ildeclared.specs.AddressSteps.{key_of};
ghost use Rattle.ildeclared.specs.Faults.{IsNextOf, IsAddressTwice, OfCause};
ghost use Rattle.ildeclared.specs.declared.fault.NameCause.TheVariants.{Twice};

use crate::fault::NameCause;
use crate::found::{Found, found_where, lesser_of};
use ilsource::DirectAddress;
use iltokens::AddressKind;
use std::alloc::{AllocError, Global};
use std::collections::HashSet;

/// The next fault after `after` of an address that is given again.
pub fn twice_addresses(
    alloc: Global,
    addresses: &[DirectAddress],
    after: Option<Found>,
) -> Result<Option<Found>, AllocError>
    ensures { IfOk result (λ found.
        IsNextOf after (OfCause Twice (IsAddressTwice addresses.now)) found) }
{
    let mut seen = HashSet::new(alloc);
    let mut least = None;
    for address in addresses {
        let is_new = seen.insert(key_of(address))?;
        least = lesser_of(
            least,
            found_where(!is_new, address.at, NameCause::Twice, after),
        );
    }
    Ok(least)
}

/// What equal addresses have alike: the letter of the kind, the bus and the place.
fn key_of(address: &DirectAddress) -> (u8, u64, u64)
    ensures { result ≡ key_of address.now }
{
    let letter = match address.kind {
        AddressKind::OutputByte => b'Q',
        AddressKind::InputWord => b'W',
        AddressKind::InputBit => b'X',
    };
    (letter, address.bus, address.place)
}
