//! Buses that are down.

ghost use Rattle.std.specs.Prelude.{◌≡◌};
ghost use Rattle.plantdriving.specs.Downs.{has_down};

use plant::Plant;

/// Whether a bus of a plant is down.
pub fn has_down(plant: &Plant) -> bool
    ensures { result ≡ has_down plant.now.plant.plan.buses plant.now.history }
{
    let mut any = false;
    for bus in 0..plant.setup().plan().buses() {
        if plant.is_down(bus) {
            any = true;
        }
    }
    any
}
