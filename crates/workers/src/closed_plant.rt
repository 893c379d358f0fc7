//! A plant that a run left.

ghost use Rattle.std.specs.Prelude.{◌≡◌};
ghost use Rattle.plantturns.specs.Open.{HasNothingOpen};

use plant::Plant;
use std::marker::Model;

/// A plant in which no scan worker has a scan open, and no bus a transaction.
#[derive(Drop)]
pub struct ClosedPlant {
    pub(crate) plant: Plant,
}

impl Model for ClosedPlant {
    ghost use Rattle.std.specs.Coded.{codes};
    ghost use Rattle.ilplan.specs.contracts.plan.Plan as inner;
    ghost use Rattle.plant.specs.Shown.{Shown};
    ghost use Rattle.plantturns.specs.Open.{HasNothingOpen};

    ghost Value = { Shown };

    ghost coded = { Prim.hlevel (codes, inner.the_row.coded) };

    ghost view = { λ c. c.plant };

    ghost invariant = { λ c. HasNothingOpen c.plant };
}

impl ClosedPlant {
    /// The plant, to read it.
    pub(crate) fn as_plant(&self) -> &Plant
        ensures plant { result.now ≡ self.now }
        ensures idle { HasNothingOpen self.now }
    {
        &self.plant
    }

    /// The plant, to go on with it.
    pub(crate) fn into_plant(self) -> Plant
        ensures plant { result ≡ self }
        ensures idle { HasNothingOpen self }
    {
        self.plant
    }
}
