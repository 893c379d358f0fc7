//! The places of a bus that sources of events are bound to, or could be.

ghost use Rattle.std.specs.Prelude.{◌≡◌, ◌↔◌, IsSomeAnd, IsTrue, is_none, position};
ghost use Rattle.commissioning.specs.Places.{HasSource, with_source};

use dalievent::EventSource;
use wordlines::Binding;

/// The number of places of a bus.
const PLACES: usize = 64;

/// A source of events at a place of a bus.
#[derive(Clone, Copy)]
pub(crate) struct Place {
    pub source: EventSource,
    /// Whether the binding has it there.
    pub is_bound: bool,
}

/// The places of a bus: those that the binding has, and those that a binding could have for what
/// was heard.
#[derive(Clone, Copy)]
pub(crate) struct Places {
    bus: u8,
    places: [Option<Place>; PLACES],
}

impl Places {
    /// The places of a bus that the binding has.
    pub(crate) fn of(binding: Option<&Binding>, bus: u8) -> Places {
        let mut places = [None; PLACES];
        if let Some(binding) = binding {
            for number in 0..PLACES {
                if let Some(source) = binding.source(bus, number as u8) {
                    places[number] = Some(Place {
                        source,
                        is_bound: true,
                    });
                }
            }
        }
        Places { bus, places }
    }

    /// The number of the bus.
    pub(crate) fn bus(&self) -> u8 {
        self.bus
    }

    /// The place of this number.
    pub(crate) fn at(&self, number: usize) -> Option<Place> {
        self.places.get(number).copied().flatten()
    }

    /// The number of the first place that is free.
    fn first_free(&self) -> Option<usize>
        ensures { result ≡ position is_none self.now.places }
    {
        self.places.iter().position(|place| place.is_none())
    }

    /// Whether a place has this source.
    fn has(&self, source: EventSource) -> bool
        ensures { IsTrue result ↔ HasSource source self.now.places }
    {
        self.places.iter().any(|place| has_source(place, source))
    }

    /// Gives a source that no place has the first place that is free, where there is one.
    pub(crate) fn note(&mut self, source: EventSource)
        ensures bus { self.new.bus ≡ self.old.bus }
        ensures known { HasSource source self.old.places → self.new.places ≡ self.old.places }
        ensures noted { ¬ HasSource source self.old.places
            → self.new.places ≡ with_source source self.old.places }
    {
        if self.has(source) {
            return;
        }
        if let Some(number) = self.first_free() {
            self.places[number] = Some(Place {
                source,
                is_bound: false,
            });
        }
    }
}

/// Whether a place has this source.
fn has_source(place: &Option<Place>, source: EventSource) -> bool
    ensures { IsTrue result ↔ IsSomeAnd place.now (λ p. p.source ≡ source) }
{
    match place {
        Some(place) => place.source == source,
        None => false,
    }
}
