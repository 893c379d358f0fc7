//! Bindings, and how they are read.

ghost use Rattle.std.specs.Prelude.{◌≡◌, ◌↔◌, ℕ, All, Contains, Option, Some, MatchOption, Err};
ghost use Rattle.std.specs.Prelude.{IfErr, IfOk};
ghost use Rattle.limits.specs.Limits.{AreTries};
ghost use Rattle.wordlines.specs.WordLines.{IsSkipped};
ghost use Rattle.wordlines.specs.LineFiles.{AddsKept};
ghost use Rattle.wordlines.specs.LineRules.{Leads};
ghost use Rattle.wordlines.specs.Bindings.{binding_rules, IsBound, IsJudged, IsTooLong};
ghost use Rattle.wordlines.specs.Wirings.{Wiring, IsAt};

use crate::bind_fault::BindFault;
use crate::binding_lines::{BindingLine, line_of};
use crate::sources::BoundSource;
use crate::tries::{BusTries, is_unsaid};
use crate::{LineCause, LineFault, LineState, read_lines};
use dalievent::EventSource;
use std::alloc::Global;
use std::marker::Model;

/// What a controller is connected to: its buses, the sources of events that it listens to, and how
/// often its buses try a transaction.
#[derive(Drop)]
pub struct Binding {
    buses: u8,
    sources: Vec<BoundSource>,
    tries: Vec<BusTries>,
}

impl Model for Binding {
    ghost use Rattle.wordlines.specs.Wirings.{Wiring, IsWithinLimits};

    ghost Value = { Wiring };

    ghost view = { λ b. record {
      buses = b.buses;
      sources = b.sources.items;
      tries = b.tries.items;
    } };

    ghost invariant = { λ b. IsWithinLimits
        (record { buses = b.buses; sources = b.sources.items; tries = b.tries.items }) };
}

impl Binding {
    ghost use Rattle.std.specs.Prelude.{◌≡◌, ◌↔◌, ℕ};
    ghost use Rattle.std.specs.Str.Lines.{lines};
    ghost use Rattle.dalievent.specs.declared.messages.EventSource.{EventSource};
    ghost use Rattle.wordlines.specs.Wirings.{Wiring, one_bus, IsBoundAt, IsInRange, IsWithinLimits};
    ghost use Rattle.wordlines.specs.Bindings.{BindsSome, GivesIfRoom, HasNoTries, HasPlaceFor};
    ghost use Rattle.wordlines.specs.Bindings.{IsBadBinding, IsBinding, IsTooLong, with_source};
    ghost use Rattle.wordlines.specs.Bindings.{with_tries};

    /// One bus, of which nothing else is said. No memory is taken.
    pub fn one_bus(alloc: Global) -> Binding
        ensures { result ≡ one_bus }
    {
        Binding {
            buses: 1,
            sources: Vec::new(alloc),
            tries: Vec::new(alloc),
        }
    }

    /// The number of buses, 1 to [`limits::MOST_BUSES`].
    pub fn buses(&self) -> u8
        ensures buses { result ≡ self.now.buses }
        ensures limits { IsWithinLimits self.now }
    {
        self.buses
    }

    /// The sources that are bound, in the order of their lines: each on a bus below the number of
    /// buses, and none at the place of another.
    pub fn sources(&self) -> &[BoundSource]
        ensures value { result.now ≡ self.now.sources }
    {
        self.sources.as_slice()
    }

    /// What lines say of the attempts of buses, in their order: each of a bus below the number of
    /// buses, and none of the bus of another. [`crate::tries_in`] gives those of a bus.
    pub fn tries(&self) -> &[BusTries]
        ensures value { result.now ≡ self.now.tries }
    {
        self.tries.as_slice()
    }

    /// The source that is bound at this place of a bus.
    pub fn source(&self, bus: u8, number: u8) -> Option<EventSource>
        ensures { (source : EventSource) → (result ≡ Some source)
            ↔ IsBoundAt self.now bus number source }
    {
        match bound_at(&self.sources, bus, number) {
            Some(bound) => Some(bound.source),
            None => None,
        }
    }

    /// The binding that a file spells: lines of words between single spaces. `buses N` stands there
    /// once, and first, and then `source b.k` with a source of events, each at a place of its own,
    /// and `tries b n`, each of a bus of its own. Empty lines and lines that begin with `#` are
    /// skipped; a line ends with LF or CR LF, and the last needs no end.
    ///
    /// # Errors
    ///
    /// The first bad line; line 1 where none is bad and none says the number of buses, or where
    /// there are more than [`limits::MOST_BYTES`] bytes. Memory is refused only where a line is to
    /// be kept that gives a source or a number of attempts.
    pub fn parse(alloc: Global, bytes: &[u8]) -> Result<Binding, BindFault>
        ensures binding { (wiring : Wiring) → result ≡ Ok wiring → IsBinding bytes.now wiring }
        ensures is_given { (wiring : Wiring) → IsBinding bytes.now wiring
            → GivesIfRoom result (Ok wiring) }
        ensures bad_line { (line : ℕ) → result ≡ Err (LineFault.At line LineCause.BadLine)
            → IsBadBinding bytes.now line }
        ensures bad_is_reported { (line : ℕ) → IsBadBinding bytes.now line
            → GivesIfRoom result (Err (LineFault.At line LineCause.BadLine)) }
        ensures too_long { (line : ℕ) → (result ≡ Err (LineFault.At line LineCause.TooLong))
            ↔ IsTooLong bytes.now line }
        ensures memory { result ≡ Err LineFault.Memory → BindsSome (lines bytes.now) }
    {
        binding_of(alloc, bytes)
    }

    /// The binding with one source more, where its bus is there and its place is free.
    fn with(self, bound: BoundSource) -> Result<Option<Binding>, BindFault>
        requires { IsInRange bound }
        ensures more { IfOk result (λ more. MatchOption more (¬ HasPlaceFor bound self)
            (λ wiring. HasPlaceFor bound self × (wiring ≡ with_source bound self))) }
        ensures memory { IfErr result (λ fault. (fault ≡ LineFault.Memory)
            × HasPlaceFor bound self) }
    {
        if bound.bus >= self.buses || bound_at(&self.sources, bound.bus, bound.number).is_some() {
            return Ok(None);
        }
        let Binding {
            buses,
            mut sources,
            tries,
        } = self;
        sources.push(bound)?;
        Ok(Some(Binding {
            buses,
            sources,
            tries,
        }))
    }

    /// The binding with the attempts of one bus more, where the bus is there and nothing is said of
    /// its attempts.
    fn with_tries(self, said: BusTries) -> Result<Option<Binding>, BindFault>
        requires { AreTries said.tries }
        ensures more { IfOk result (λ more. MatchOption more (¬ HasNoTries said self)
            (λ wiring. HasNoTries said self × (wiring ≡ with_tries said self))) }
        ensures memory { IfErr result (λ fault. (fault ≡ LineFault.Memory)
            × HasNoTries said self) }
    {
        if said.bus >= self.buses || !is_unsaid(&self.tries, said.bus) {
            return Ok(None);
        }
        let Binding {
            buses,
            sources,
            mut tries,
        } = self;
        tries.push(said)?;
        Ok(Some(Binding {
            buses,
            sources,
            tries,
        }))
    }
}

/// What is bound at this place of a bus.
fn bound_at(sources: &[BoundSource], bus: u8, number: u8) -> Option<&BoundSource>
    ensures { MatchOption result (All (λ bound. ¬ IsAt bus number bound) sources.now)
        (λ bound. Contains sources.now bound.now × IsAt bus number bound.now) }
{
    sources.iter().find(|bound| bound.is_at(bus, number))
}

/// What the lines of a binding that were read say.
#[derive(Drop)]
struct Said {
    alloc: Global,
    /// None until a line says the number of buses.
    binding: Option<Binding>,
}

impl Model for Said {
    ghost use Rattle.std.specs.Prelude.{Option};
    ghost use Rattle.wordlines.specs.Wirings.{Wiring};

    ghost Value = { Option Wiring };

    ghost view = { λ said. said.binding };
}

impl LineState<Binding> for Said {
    ghost use Rattle.wordlines.specs.declared.binding_lines.BindingLine.{BindingLine};
    ghost use Rattle.wordlines.specs.Bindings.{binding_rules, IsBound};

    ghost Entry = { BindingLine };

    ghost rules = { binding_rules };

    ghost IsKept = { IsBound };

    fn after(self, line: &[u8]) -> Result<Option<Self>, BindFault> {
        let Said { alloc, binding } = self;
        match binding_after(alloc, binding, line)? {
            Some(next) => Ok(Some(Said {
                alloc,
                binding: Some(next),
            })),
            None => Ok(None),
        }
    }
}

/// The binding that lines say, or the line at fault.
fn binding_of(alloc: Global, bytes: &[u8]) -> Result<Binding, BindFault>
    ensures judged { IsJudged bytes.now result }
    ensures too_long { (line : ℕ) → (result ≡ Err (LineFault.At line LineCause.TooLong))
        ↔ IsTooLong bytes.now line }
{
    let start = Said {
        alloc,
        binding: None,
    };
    let said = read_lines(start, bytes)?;
    said.binding.ok_or(LineFault::bad_line(1))
}

/// The binding that a line and those before it say, where it may stand after them.
fn binding_after(
    alloc: Global,
    before: Option<Binding>,
    line: &[u8],
) -> Result<Option<Binding>, BindFault>
    requires { ¬ IsSkipped line.now }
    ensures leads { IfOk result (λ after. MatchOption after
        ((next : Option Wiring) → ¬ Leads binding_rules before line.now next)
        (λ wiring. Leads binding_rules before line.now (Some wiring))) }
    ensures memory { IfErr result (λ fault. (fault ≡ LineFault.Memory)
        × AddsKept binding_rules IsBound before line.now) }
{
    match (line_of(line), before) {
        (Some(BindingLine::Buses(buses)), None) => Ok(Some(Binding {
            buses,
            sources: Vec::new(alloc),
            tries: Vec::new(alloc),
        })),
        (Some(BindingLine::Bound(bound)), Some(binding)) => binding.with(bound),
        (Some(BindingLine::Tries(said)), Some(binding)) => binding.with_tries(said),
        _ => Ok(None),
    }
}
