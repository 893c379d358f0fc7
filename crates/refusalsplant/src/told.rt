//! What observers are told.

ghost use Rattle.std.specs.Prelude.{◌≡◌, ◌+◌, ◌<◌, List, OnOk, Some, [], ◌∷◌, length, vec_len};
ghost use Rattle.plantdriving.specs.Open.{HasNothingOpen};
ghost use Rattle.plantdriving.specs.declared.happened.Told.{Told};

use buslink::Bus;
use gushewa::Controller;
use plant::Plant;
use plantdriving::{Halt, IdlePlant, Observer, send_next, settle};
use std::alloc::Global;

/// `a_frame_is_not_told` and `a_commit_is_told_twice`: an observer was told of fewer or more events
/// than came.
pub fn as_many_are_told_as_came<B: Bus, O: Observer<B>>(
    alloc: Global,
    plant: &mut Plant,
    lines: &mut Vec<B>,
    observer: &mut O,
) -> Result<(), Halt>
    requires workers { 0 < plant.old.plant.workers }
    requires count { vec_len lines.old ≡ plant.old.plant.plan.buses }
    requires open { HasNothingOpen plant.old }
    requires told { O.told observer.old ≡ Some [] }
    ensures { OnOk result ((told : List Told) × (O.told observer.new ≡ Some told)
        × (length told + length plant.old.history ≡ length plant.new.history)) }
{
    settle(alloc, plant, lines, observer)
}

/// `a_down_is_not_told`: a transaction was sent, and its bus's Down was not told.
pub fn as_many_are_told_as_a_bus_did<B: Bus, O: Observer<B>>(
    plant: &mut Plant,
    line: &mut B,
    observer: &mut O,
) -> Result<(), Halt>
    requires { O.told observer.old ≡ Some [] }
    ensures { OnOk result ((told : List Told) × (O.told observer.new ≡ Some told)
        × (length told + length plant.old.history ≡ length plant.new.history)) }
{
    send_next(plant, 0, line, observer)
}

/// `a_tick_is_told_at_the_next_place`: a tick was told with another place than its own.
pub fn tick_is_told_at_its_place<B, O: Observer<B>>(
    plant: &mut IdlePlant,
    observer: &mut O,
) -> Result<(), Halt>
    requires { O.told observer.old ≡ Some [] }
    ensures { OnOk result ((told : Told) × (O.told observer.new ≡ Some (told ∷ []))
        × (told.place ≡ length plant.old.history)) }
{
    plant.tick::<B, O>(7, observer)
}

/// `a_controller_keeps_its_tick_to_itself`: the observer of a controller was told nothing of a tick.
pub fn controllers_tick_is_told_at_its_place<B: Bus, O: Observer<B>>(
    controller: &mut Controller<B>,
    observer: &mut O,
) -> Result<(), Halt>
    requires { O.told observer.old ≡ Some [] }
    ensures { OnOk result ((told : Told) × (O.told observer.new ≡ Some (told ∷ []))
        × (told.place ≡ length controller.old.plant.history)) }
{
    controller.tick(7, observer)
}

/// `a_controller_tells_ticks_alone`: the observer of a controller was told fewer or more events than
/// came while it settled.
pub fn as_many_are_told_as_came_to_a_controller<B: Bus, O: Observer<B>>(
    alloc: Global,
    controller: &mut Controller<B>,
    observer: &mut O,
) -> Result<(), Halt>
    requires { O.told observer.old ≡ Some [] }
    ensures { OnOk result ((told : List Told) × (O.told observer.new ≡ Some told)
        × (length told + length controller.old.plant.history
        ≡ length controller.new.plant.history)) }
{
    controller.settle(alloc, observer)
}
