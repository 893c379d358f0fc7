//! What a run leaves.

ghost use Rattle.std.specs.Prelude.{◌≡◌};
ghost use Rattle.workers.specs.Closings.{IsLeft};

use crate::closed_plant::ClosedPlant;
use crate::ended::Ended;
use buslink::{Bus, Clock};
use plant::{OpenFault, Plant};
use std::marker::Model;

/// What a run left, in its parts.
#[derive(Drop)]
pub struct ClosedParts<B: Bus, C: Clock> {
    /// The plant with its history, in which nothing is open.
    pub plant: ClosedPlant,
    /// The buses, by their numbers.
    pub buses: Vec<B>,
    pub clock: C,
    /// Why the run ended.
    pub ended: Ended,
}

/// What a run left, from which another one may go on: the history is legal, nothing is open, and
/// since some logs the buses and the clock gave and took what it says. Only a run makes one.
#[derive(Drop)]
pub struct Closed<B: Bus, C: Clock> {
    pub(crate) parts: ClosedParts<B, C>,
}

impl<B: Bus, C: Clock> Model for Closed<B, C> {
    ghost use Rattle.std.specs.Coded.{codes};
    ghost use Rattle.ilplan.specs.contracts.plan.Plan as inner;
    ghost use Rattle.workers.specs.declared.closed.ClosedParts.{ClosedParts};
    ghost use Rattle.workers.specs.Closings.{IsLeft};

    ghost Value = { ClosedParts B C };

    ghost coded = { Prim.hlevel (codes, inner.the_row.coded) };

    ghost view = { λ c. c.parts };

    ghost invariant = { λ c. IsLeft B.log C.log c.parts };
}

impl<B: Bus, C: Clock> Closed<B, C> {
    /// The plant with its history, in which nothing is open.
    pub fn plant(&self) -> &Plant
        ensures value { result.now ≡ self.now.plant }
        ensures left { IsLeft B.log C.log self.now }
    {
        self.parts.plant.as_plant()
    }

    /// The buses, by their numbers.
    pub fn buses(&self) -> &[B]
        ensures value { result.now ≡ self.now.buses.items }
    {
        self.parts.buses.as_slice()
    }

    /// The clock.
    pub fn clock(&self) -> &C
        ensures value { result.now ≡ self.now.clock }
    {
        &self.parts.clock
    }

    /// Why the run ended.
    pub fn ending(&self) -> Ended
        ensures value { result ≡ self.now.ended }
    {
        self.parts.ended
    }

    /// Its parts, to do something else with them.
    pub(crate) fn into_parts(self) -> ClosedParts<B, C>
        ensures value { result ≡ self }
        ensures left { IsLeft B.log C.log self }
    {
        self.parts
    }
}

/// Why a run did not go on, and what was left before, unchanged. Nothing was sent, heard or asked.
#[derive(Drop)]
pub struct NotGoneOn<B: Bus, C: Clock> {
    pub fault: OpenFault,
    pub closed: Closed<B, C>,
}

/// Why a run did not start. Nothing was sent, heard or asked.
#[derive(Drop)]
pub struct NotStarted<B: Bus, C: Clock> {
    pub fault: OpenFault,
    pub buses: Vec<B>,
    pub clock: C,
}
