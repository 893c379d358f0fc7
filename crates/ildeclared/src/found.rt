//! The least of the faults that were found, and the next after another.

ghost use Rattle.std.specs.Prelude.{◌≡◌, ◌↔◌, IsTrue};
ghost use Rattle.ildeclared.specs.Faults.{IsAfter, IsNextOf, OfCause};
ghost use Rattle.ildeclared.specs.Order.{lesser_of_two};

use crate::fault::NameCause;

/// A fault that stands at a byte of the text.
#[derive(Clone, Copy)]
pub struct Found {
    pub at: usize,
    pub cause: NameCause,
}

impl Found {
    ghost use Rattle.std.specs.Prelude.{◌≡◌};
    ghost use Rattle.ildeclared.specs.Order.{comes_before};

    /// Whether this one is reported before `other`: it stands at a lesser place, or there with a
    /// lesser cause.
    fn comes_before(self, other: Found) -> bool
        ensures { result ≡ comes_before self other }
    {
        self.at < other.at || (self.at == other.at && self.cause.number() < other.cause.number())
    }
}

/// The one that is reported of what was found in two parts.
pub fn lesser_of(one: Option<Found>, other: Option<Found>) -> Option<Found>
    ensures { result ≡ lesser_of_two one other }
{
    match (one, other) {
        (one, None) => one,
        (None, other) => other,
        (Some(one), Some(other)) => Some(if other.comes_before(one) { other } else { one }),
    }
}

/// The fault with this cause at this place, where there is one that comes after `after`.
pub fn found_where(
    is_fault: bool,
    at: usize,
    cause: NameCause,
    after: Option<Found>,
) -> Option<Found>
    ensures { IsNextOf after (OfCause cause (λ place. IsTrue is_fault × (place ≡ at))) result }
{
    let found = Found { at, cause };
    if is_fault && comes_after(found, after) {
        Some(found)
    } else {
        None
    }
}

/// Whether a fault comes after the last one that was found, if one was.
fn comes_after(found: Found, last: Option<Found>) -> bool
    ensures { IsTrue result ↔ IsAfter last found.at found.cause }
{
    match last {
        None => true,
        Some(last) => last.comes_before(found),
    }
}
