//! What a run left, while its buses are elsewhere.

ghost use Rattle.std.specs.Prelude.{◌≡◌, map};

use crate::closed::{Closed, ClosedParts};
use crate::closed_plant::ClosedPlant;
use crate::ended::Ended;
use buslink::{Bus, Clock};
use ghosts::Memo;
use std::marker::Model;

/// What a run left, without its buses. Contracts see them still.
#[derive(Drop)]
pub struct Rest<B: Bus, C: Clock> {
    plant: ClosedPlant,
    buses: Memo<Vec<B>>,
    clock: C,
    ended: Ended,
}

impl<B: Bus, C: Clock> Model for Rest<B, C> {
    ghost use Rattle.std.specs.Coded.{codes};
    ghost use Rattle.ilplan.specs.contracts.plan.Plan as inner;
    ghost use Rattle.workers.specs.declared.closed.ClosedParts.{ClosedParts};
    ghost use Rattle.workers.specs.Closings.{IsLeft};

    ghost Value = { ClosedParts B C };

    ghost coded = { Prim.hlevel (codes, inner.the_row.coded) };

    ghost view = { λ r. record {
      plant = r.plant;
      buses = r.buses.value;
      clock = r.clock;
      ended = r.ended;
    } };

    ghost invariant = { λ r. IsLeft B.log C.log (record {
      plant = r.plant;
      buses = r.buses.value;
      clock = r.clock;
      ended = r.ended;
    }) };
}

impl<B: Bus, C: Clock> Closed<B, C> {
    /// Its buses, and the rest, to take each bus out of what is round it.
    pub fn into_rest(self) -> (Vec<B>, Rest<B, C>)
        ensures buses { result.0 ≡ self.buses }
        ensures rest { result.1 ≡ self }
    {
        let ClosedParts {
            plant,
            buses,
            clock,
            ended,
        } = self.parts;
        let rest = Rest {
            plant,
            buses: Memo::of(&buses),
            clock,
            ended,
        };
        (buses, rest)
    }
}

impl<B: Bus, C: Clock> Rest<B, C> {
    /// The clock.
    pub fn clock(&self) -> &C
        ensures value { result.now ≡ self.now.clock }
    {
        &self.clock
    }

    /// What the run left, with these buses in place of its own: what went over them is the same.
    pub fn with_buses<D: Bus>(self, buses: Vec<D>) -> Closed<D, C>
        requires logs { map D.log buses.items ≡ map B.log self.buses.items }
        ensures plant { result.plant ≡ self.plant }
        ensures buses { result.buses ≡ buses }
        ensures clock { result.clock ≡ self.clock }
        ensures ended { result.ended ≡ self.ended }
    {
        let Rest {
            plant,
            buses: _,
            clock,
            ended,
        } = self;
        let parts = ClosedParts {
            plant,
            buses,
            clock,
            ended,
        };
        Closed { parts }
    }
}
