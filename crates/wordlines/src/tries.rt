//! How often a bus tries a transaction.

ghost use Rattle.std.specs.Prelude.{◌≡◌, ◌↔◌, All, IsTrue};
ghost use Rattle.wordlines.specs.Wirings.{IsSaidOf, tries_in};

use limits::USUAL_TRIES;

/// The number of attempts that a line gives a bus for a transaction.
#[derive(Clone, Copy)]
pub struct BusTries {
    /// The bus, counted from 0, below the number of buses of its binding.
    pub bus: u8,
    /// The number of attempts, 1 to [`limits::MOST_TRIES`].
    pub tries: u8,
}

/// The number of attempts that a bus has for a transaction where lines say this:
/// [`limits::USUAL_TRIES`] where none speaks of the bus.
pub fn tries_in(said: &[BusTries], bus: u8) -> u8
    ensures value { result ≡ tries_in said.now bus }
{
    for one in said {
        if one.bus == bus {
            return one.tries;
        }
    }
    USUAL_TRIES
}

/// Whether no line speaks of the bus.
pub(crate) fn is_unsaid(said: &[BusTries], bus: u8) -> bool
    ensures { IsTrue result ↔ All (λ one. ¬ IsSaidOf bus one) said.now }
{
    said.iter().all(|one| one.bus != bus)
}
