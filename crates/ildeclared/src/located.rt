//! Faults of located global variables.

ghost use Rattle.std.specs.Prelude.{◌≡◌, ◌↔◌, ◌<◌, IsTrue};
ghost use Rattle.wordlines.specs.Wirings.{IsAt};
ghost use Rattle.iltypes.specs.declared.value.IlType.TheVariants.{Int};
ghost use Rattle.ildeclared.specs.Faults.{IsNextOf, OfCause, SomeOf, IsBound, IsThere};
ghost use Rattle.ildeclared.specs.Faults.{IsBadAddressAt, IsBadlyLocatedIn, IsOtherArea};
ghost use Rattle.ildeclared.specs.Faults.{IsInputTooSmallIn, LacksInput, LacksWord, IsInput};
ghost use Rattle.ildeclared.specs.Faults.{IsInputGivenIn, greatest_at};
ghost use Rattle.ildeclared.specs.Kept.{types_in};
ghost use Rattle.ildeclared.specs.declared.fault.NameCause.TheVariants.{BadAddress, WritesInput};
ghost use Rattle.ildeclared.specs.declared.fault.NameCause.TheVariants.{InputRangeTooSmall};
ghost use Rattle.ildeclared.specs.declared.fault.NameCause.TheVariants.{BadDeclaration};

use crate::externals::values_of;
use crate::fault::NameCause;
use crate::found::{Found, found_where, lesser_of};
use crate::types::DeclaredTypes;
use ilsource::{DirectAddress, GlobalDeclaration};
use iltokens::AddressKind;
use iltypes::{IlType, Range};
use wordlines::{Binding, BoundSource};

/// The next fault after `after` of an address of a bus, or of a place on it, that is not there.
pub fn bad_addresses(
    wiring: &Binding,
    addresses: &[DirectAddress],
    after: Option<Found>,
) -> Option<Found>
    ensures { IsNextOf after (OfCause BadAddress (λ place.
        SomeOf (IsBadAddressAt wiring.now place) addresses.now)) result }
{
    let mut least = None;
    for address in addresses {
        least = lesser_of(least, bad_address(wiring, address, after));
    }
    least
}

/// The fault of one such address.
fn bad_address(wiring: &Binding, address: &DirectAddress, after: Option<Found>) -> Option<Found>
    ensures { IsNextOf after (OfCause BadAddress (λ place.
        IsBadAddressAt wiring.now place address.now)) result }
{
    let bad = !is_connected(wiring, address);
    found_where(bad, address.at, NameCause::BadAddress, after)
}

/// Whether an address is one of a bus and of a place on it that are there.
fn is_connected(wiring: &Binding, address: &DirectAddress) -> bool
    ensures { IsTrue result ↔ (address.now.bus < wiring.now.buses)
        × IsThere wiring.now address.now.kind address.now.bus address.now.place }
{
    address.bus < u64::from(wiring.buses())
        && is_there(wiring, address.kind, address.bus, address.place)
}

/// Whether there is such a place on the bus.
fn is_there(wiring: &Binding, kind: AddressKind, bus: u64, place: u64) -> bool
    ensures { IsTrue result ↔ IsThere wiring.now kind bus place }
{
    match kind {
        AddressKind::OutputByte => place <= 80,
        AddressKind::InputWord if place < 128 => true,
        AddressKind::InputWord if place < 192 => is_bound(wiring, bus, place - 128),
        AddressKind::InputWord if place < 256 => is_bound(wiring, bus, place - 192),
        AddressKind::InputWord => false,
        AddressKind::InputBit => is_bound(wiring, bus, place),
    }
}

/// Whether a source of events is bound at this place of this bus.
fn is_bound(wiring: &Binding, bus: u64, number: u64) -> bool
    ensures { IsTrue result ↔ IsBound wiring.now bus number }
{
    let mut bound = false;
    for source in wiring.sources() {
        if is_at(source, bus, number) {
            bound = true;
        }
    }
    bound
}

/// Whether a source is bound at this place of this bus.
fn is_at(source: &BoundSource, bus: u64, number: u64) -> bool
    ensures { IsTrue result ↔ IsAt bus number source.now }
{
    u64::from(source.bus) == bus && u64::from(source.number) == number
}

/// The next fault after `after` of a located variable of a type that does not fit its address.
/// `lower` is the text in lower case.
pub fn badly_located(
    lower: &[u8],
    types: &DeclaredTypes,
    globals: &[GlobalDeclaration],
    after: Option<Found>,
) -> Option<Found>
    ensures { IsNextOf after (OfCause BadDeclaration (λ place.
        SomeOf (IsBadlyLocatedIn (types_in lower.now types.now) place) globals.now)) result }
{
    let mut least = None;
    for global in globals {
        least = lesser_of(least, badly_located_one(lower, types, global, after));
    }
    least
}

/// The fault of one such declaration.
fn badly_located_one(
    lower: &[u8],
    types: &DeclaredTypes,
    global: &GlobalDeclaration,
    after: Option<Found>,
) -> Option<Found>
    ensures { IsNextOf after (OfCause BadDeclaration (λ place.
        IsBadlyLocatedIn (types_in lower.now types.now) place global.now)) result }
{
    let address = global.address()?;
    let its = values_of(lower, types, global.specification())?;
    let name = global.names().first()?;
    let other = is_other_area(address.kind, its);
    found_where(other, name.from, NameCause::BadDeclaration, after)
}

/// Whether variables of this type have not the values of what is located there.
fn is_other_area(kind: AddressKind, its: IlType) -> bool
    ensures { IsTrue result ↔ IsOtherArea kind its }
{
    match (kind, its) {
        (AddressKind::OutputByte, IlType::Int(range)) => range.lo < 0 || range.hi > 255,
        (AddressKind::OutputByte, IlType::Bool) => true,
        (AddressKind::InputWord, its) => its == IlType::Bool,
        (AddressKind::InputBit, its) => its != IlType::Bool,
    }
}

/// The next fault after `after` of a variable that lacks values of the input that it is located at.
/// `lower` is the text in lower case.
pub fn inputs_too_small(
    lower: &[u8],
    types: &DeclaredTypes,
    globals: &[GlobalDeclaration],
    after: Option<Found>,
) -> Option<Found>
    ensures { IsNextOf after (OfCause InputRangeTooSmall (λ place.
        SomeOf (IsInputTooSmallIn (types_in lower.now types.now) place) globals.now)) result }
{
    let mut least = None;
    for global in globals {
        least = lesser_of(least, input_too_small(lower, types, global, after));
    }
    least
}

/// The fault of one such declaration.
fn input_too_small(
    lower: &[u8],
    types: &DeclaredTypes,
    global: &GlobalDeclaration,
    after: Option<Found>,
) -> Option<Found>
    ensures { IsNextOf after (OfCause InputRangeTooSmall (λ place.
        IsInputTooSmallIn (types_in lower.now types.now) place global.now)) result }
{
    let address = global.address()?;
    let its = values_of(lower, types, global.specification())?;
    let lacks = lacks_input(&address, its);
    found_where(lacks, address.at, NameCause::InputRangeTooSmall, after)
}

/// Whether a variable of this type lacks values of the input at the address.
fn lacks_input(address: &DirectAddress, its: IlType) -> bool
    ensures { IsTrue result ↔ LacksInput address.now its }
{
    match (address.kind, its) {
        (AddressKind::InputWord, IlType::Int(range)) => lacks_word(address.place, range),
        _ => false,
    }
}

/// Whether a range lacks values of the word at this place.
fn lacks_word(place: u64, range: Range) -> bool
    ensures { IsTrue result ↔ LacksWord place (Int range) }
{
    range.lo > 0 || range.hi < greatest_at(place)
}

/// The greatest value that stands at the word with this place.
fn greatest_at(place: u64) -> i64
    ensures { result ≡ greatest_at place }
{
    if place < 128 {
        258
    } else if place < 192 {
        1023
    } else {
        65535
    }
}

/// The next fault after `after` of an input that is given an initial value.
pub fn inputs_given(globals: &[GlobalDeclaration], after: Option<Found>) -> Option<Found>
    ensures { IsNextOf after (OfCause WritesInput (λ place.
        SomeOf (IsInputGivenIn place) globals.now)) result }
{
    let mut least = None;
    for global in globals {
        least = lesser_of(least, input_given(global, after));
    }
    least
}

/// The fault of one such declaration.
fn input_given(global: &GlobalDeclaration, after: Option<Found>) -> Option<Found>
    ensures { IsNextOf after
        (OfCause WritesInput (λ place. IsInputGivenIn place global.now)) result }
{
    let address = global.address()?;
    let name = global.names().first()?;
    let given = is_input(&address) && global.initial().is_some();
    found_where(given, name.from, NameCause::WritesInput, after)
}

/// Whether what is located there is an input.
fn is_input(address: &DirectAddress) -> bool
    ensures { IsTrue result ↔ IsInput address.now }
{
    !matches!(address.kind, AddressKind::OutputByte)
}
