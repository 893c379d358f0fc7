//! A plant with its buses.

ghost use Rattle.std.specs.Prelude.{◌≡◌, ◌<◌, vec_len};

use plant::Plant;
use plantdriving::{IdlePlant, has_down};

/// A plant on the interfaces of its buses, with a scan worker at least. Nothing is open in it.
#[derive(Drop)]
pub struct Installation<B> {
    pub(crate) plant: IdlePlant,
    /// In the order of their numbers.
    pub(crate) lines: Vec<B>,
    ghost workers: { 0 < plant.plant.workers },
    ghost count: { vec_len lines ≡ plant.plant.plan.buses },
}

impl<B> Installation<B> {
    ghost use Rattle.plantdriving.specs.Downs.{has_down};

    /// The plant.
    pub fn plant(&self) -> &Plant
        ensures value { result.now ≡ self.now.plant }
    {
        self.plant.as_plant()
    }

    /// Whether a bus went down.
    pub fn has_down(&self) -> bool
        ensures { result ≡ has_down self.now.plant.plant.plan.buses self.now.plant.history }
    {
        has_down(self.plant.as_plant())
    }
}
