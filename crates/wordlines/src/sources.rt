//! Sources of events, each with its place.

ghost use Rattle.std.specs.Prelude.{◌↔◌, IsTrue};
ghost use Rattle.wordlines.specs.Wirings.{IsAt};

use dalievent::EventSource;

/// A source of events that is bound at a place of a bus.
#[derive(Clone, Copy)]
pub struct BoundSource {
    /// The bus, counted from 0, below the number of buses of its binding.
    pub bus: u8,
    /// The number of the place there, 0 to 63.
    pub number: u8,
    /// Where the events come from.
    pub source: EventSource,
}

impl BoundSource {
    /// Whether it is bound at this place.
    pub(crate) fn is_at(&self, bus: u8, number: u8) -> bool
        ensures { IsTrue result ↔ IsAt bus number self.now }
    {
        self.bus == bus && self.number == number
    }
}
