//! The levels that tasks store.

ghost use Rattle.std.specs.Prelude.{◌≡◌, ℕ, ◌<◌, List, length, map, true, false};
ghost use Rattle.std.specs.Int.{bit_at};
ghost use Rattle.busqueue.specs.declared.class.Class.{Class as RequestClass};
ghost use Rattle.ilmachine.specs.Images.{layout_of};
ghost use Rattle.plantevents.specs.declared.event.Event.{Event};
ghost use Rattle.plantevents.specs.Plants.{Plant as Made};
ghost use Rattle.plantbuses.specs.KeptSteps.{BusesFollow, ImageFollows};
ghost use Rattle.plantbuses.specs.OutputSteps.{is_at, level_of};
ghost use Rattle.plantbuses.specs.OwedSteps.{OwedFollow, OwesAt, addresses_of, owed_on};
ghost use Rattle.plantbuses.specs.StoreSteps.{AreTables, OwedBeside, externals_at};

use crate::bus::BusState;
use crate::levels::level_of;
use crate::outputs::BusOutputs;
use crate::owed::{OwedLevels, note_level};
use ilmachine::Image;
use ilplan::Plan;

/// Notes whether the level is owed at which a global variable is located.
fn note_store(
    owed: &mut Vec<OwedLevels>,
    plan: &Plan,
    outputs: &[BusOutputs],
    buses: &[BusState],
    image: &Image,
    global: usize,
)
    requires global { global < length plan.now.globals }
    requires count { length owed.old.items ≡ plan.now.buses }
    requires tables { AreTables plan.now outputs.now buses.now }
    ensures count { length owed.new.items ≡ length owed.old.items }
    ensures here { (p : Made) (h : List Event) (b : ℕ) (class : RequestClass) (a : ℕ)
        → p.plan ≡ plan.now → BusesFollow p h buses.now → ImageFollows p h image.now
        → is_at b a (level_of plan.now global) ≡ true
        → OwesAt p b h (owed_on owed.new.items b) class a }
    ensures others { (b : ℕ) (class : RequestClass) (a : ℕ) → a < 81
        → is_at b a (level_of plan.now global) ≡ false
        → bit_at (addresses_of class (owed_on owed.new.items b)) a
        ≡ bit_at (addresses_of class (owed_on owed.old.items b)) a }
{
    let Some((bus, address)) = level_of(plan, global) else {
        return;
    };
    let number = usize::from(bus);
    note_level(
        &mut owed[number],
        &outputs[number],
        &buses[number],
        image,
        address,
    );
}

/// Notes, of the levels that a task stores, which are owed: it goes over what the task stores
/// alone. It takes no memory.
pub fn note_stores(
    owed: &mut Vec<OwedLevels>,
    plan: &Plan,
    outputs: &[BusOutputs],
    buses: &[BusState],
    image: &Image,
    task: usize,
)
    requires task { task < length image.now.tasks }
    requires types { image.now.types ≡ map (λ g. g.value_type) plan.now.globals }
    requires count { length owed.old.items ≡ plan.now.buses }
    requires tables { AreTables plan.now outputs.now buses.now }
    ensures { (p : Made) (h : List Event) → p.plan ≡ plan.now → BusesFollow p h buses.now
        → ImageFollows p h image.now
        → OwedBeside p h (externals_at (layout_of image.now) task) owed.old.items
        → OwedFollow p h owed.new.items }
{
    let stores = image.stores(task);
    for stored in stores {
        note_store(owed, plan, outputs, buses, image, stored.global);
    }
}
