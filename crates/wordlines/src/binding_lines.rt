//! The lines of a binding.

ghost use Rattle.std.specs.Prelude.{◌≡◌, ◌≢◌, ◌-◌, ◌∷◌, ℕ, codes, MatchOption};
ghost use Rattle.dalievent.specs.declared.messages.EventSource.{EventSource};
ghost use Rattle.dalievent.specs.EventSchemes.{a_limit};
ghost use Rattle.daliframe.specs.declared.schemes.EventScheme.{EventScheme};
ghost use Rattle.wordlines.specs.WordLines.{words, number_upto};
ghost use Rattle.wordlines.specs.declared.binding_lines.BindingLine.{BindingLine};
ghost use Rattle.wordlines.specs.declared.sources.BoundSource.{BoundSource};
ghost use Rattle.wordlines.specs.declared.tries.BusTries.{BusTries};
ghost use Rattle.wordlines.specs.Bindings.{Says};
ghost use Rattle.wordlines.specs.Spelling.{scheme_word, SpellsBound, SpellsBuses, SpellsPlace};
ghost use Rattle.wordlines.specs.Spelling.{SpellsSource, SpellsTries};

use crate::sources::BoundSource;
use crate::tries::BusTries;
use crate::{Words, number_of, parts_around_dot};
use dalievent::EventSource;
use daliframe::EventScheme;
use limits::{MOST_BUSES, MOST_SOURCES, MOST_TRIES};

/// What a line of a binding says.
#[derive(Clone, Copy)]
pub(crate) enum BindingLine {
    /// The number of buses.
    Buses(u8),
    /// A source of events has a place.
    Bound(BoundSource),
    /// A bus has a number of attempts.
    Tries(BusTries),
}

/// What a line says that is not skipped.
pub(crate) fn line_of(line: &[u8]) -> Option<BindingLine>
    ensures { MatchOption result
        ((said : BindingLine) → ¬ Says (words line.now) said) (Says (words line.now)) }
{
    let mut words = Words::of(line);
    let keyword = words.next()?;
    if keyword == b"buses".as_slice() {
        Some(BindingLine::Buses(buses_in(words)?))
    } else if keyword == b"source".as_slice() {
        Some(BindingLine::Bound(bound_in(words)?))
    } else if keyword == b"tries".as_slice() {
        Some(BindingLine::Tries(bus_tries_in(words)?))
    } else {
        None
    }
}

/// The number of `buses N`.
fn buses_in(mut words: Words<'_>) -> Option<u8>
    ensures { MatchOption result
        ((number : ℕ) → ¬ SpellsBuses (codes "buses" ∷ words.entry) number)
        (SpellsBuses (codes "buses" ∷ words.entry)) }
{
    let number = words.byte(MOST_BUSES)?;
    if number == 0 || !words.is_empty() {
        None
    } else {
        Some(number)
    }
}

/// The place and the source of `source b.k ..`.
fn bound_in(mut words: Words<'_>) -> Option<BoundSource>
    ensures { MatchOption result
        ((bound : BoundSource) → ¬ SpellsBound (codes "source" ∷ words.entry) bound)
        (SpellsBound (codes "source" ∷ words.entry)) }
{
    let (bus, number) = place_of(words.next()?)?;
    let source = source_in(words)?;
    Some(BoundSource {
        bus,
        number,
        source,
    })
}

/// The bus and the number of `tries b n`.
fn bus_tries_in(mut words: Words<'_>) -> Option<BusTries>
    ensures { MatchOption result
        ((said : BusTries) → ¬ SpellsTries (codes "tries" ∷ words.entry) said)
        (SpellsTries (codes "tries" ∷ words.entry)) }
{
    let bus = words.byte(MOST_BUSES - 1)?;
    let tries = words.byte(MOST_TRIES)?;
    if tries == 0 || !words.is_empty() {
        None
    } else {
        Some(BusTries { bus, tries })
    }
}

/// The bus and the number of the place `b.k`.
fn place_of(word: &[u8]) -> Option<(u8, u8)>
    ensures { MatchOption result
        ((bus number : ℕ) → ¬ SpellsPlace word.now bus number)
        (λ place. SpellsPlace word.now place.0 place.1) }
{
    let (front, back) = parts_around_dot(word)?;
    let bus = byte_of(front, MOST_BUSES - 1)?;
    let number = byte_of(back, MOST_SOURCES - 1)?;
    Some((bus, number))
}

/// The number that decimal digits spell, where it is at most `most`.
fn byte_of(digits: &[u8], most: u8) -> Option<u8>
    ensures { result ≡ number_upto most digits.now }
{
    let number = number_of(digits, u64::from(most))?;
    Some(number as u8)
}

/// The source of events that a scheme's keyword and two parts spell.
fn source_in(mut words: Words<'_>) -> Option<EventSource>
    ensures { MatchOption result
        ((source : EventSource) → ¬ SpellsSource words.entry source) (SpellsSource words.entry) }
{
    let scheme = scheme_of(words.next()?)?;
    let a = words.byte(greatest_a(scheme))?;
    let b = words.byte(GREATEST_B)?;
    if words.is_empty() {
        Some(EventSource { scheme, a, b })
    } else {
        None
    }
}

/// The event scheme of a keyword.
fn scheme_of(word: &[u8]) -> Option<EventScheme>
    ensures { MatchOption result
        ((scheme : EventScheme) → word.now ≢ scheme_word scheme)
        (λ scheme. word.now ≡ scheme_word scheme) }
{
    if word == b"instance".as_slice() {
        Some(EventScheme::Instance)
    } else if word == b"device".as_slice() {
        Some(EventScheme::Device)
    } else if word == b"device-instance".as_slice() {
        Some(EventScheme::DeviceInstance)
    } else if word == b"device-group".as_slice() {
        Some(EventScheme::DeviceGroup)
    } else if word == b"instance-group".as_slice() {
        Some(EventScheme::InstanceGroup)
    } else {
        None
    }
}

/// The greatest first part of a source: that of a short address, or of five bits.
fn greatest_a(scheme: EventScheme) -> u8
    ensures { result ≡ a_limit scheme - 1 }
{
    match scheme {
        EventScheme::Device | EventScheme::DeviceInstance => 63,
        EventScheme::Instance | EventScheme::DeviceGroup | EventScheme::InstanceGroup => 31,
    }
}

/// The greatest second part of a source, which has five bits.
const GREATEST_B: u8 = 31;
