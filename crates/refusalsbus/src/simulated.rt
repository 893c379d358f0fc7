//! Simulated buses.

ghost use Rattle.std.specs.Prelude.{◌≡◌, [], ◌∷◌, IfSome, Some, false, true};
ghost use Rattle.refusalsbus.specs.Sendings.{disabling};
ghost use Rattle.buslink.specs.declared.marks.Mark.TheVariants as marks;

use daliframe::{InstanceNumber, ShortAddress};
use simbus::{Gear, GearVariables, InputInstance, InstanceVariables, SimBus};

/// `disabled_instance_stays_enabled`: an instance that DISABLE INSTANCE reached twice was enabled.
pub fn disabled_instance_is_not_enabled(
    bus: &SimBus,
    instance: InputInstance,
    address: ShortAddress,
    number: InstanceNumber,
) -> Option<InstanceVariables>
    requires instances { bus.now.setup.instances ≡ instance ∷ [] }
    requires address { (instance.address ≡ 0) × (address ≡ 0) }
    requires number { (instance.number ≡ 0) × (number ≡ 0) }
    requires sent { bus.now.log.sent ≡ disabling marks.Quiet ∷ disabling marks.Quiet ∷ [] }
    ensures { result ≡ Some (record { scheme = instance.scheme; is_enabled = false }) }
{
    bus.instance(address, number)
}

/// `lost_frame_begins_a_pair`: of two frames that act as a pair the first was lost, and they acted.
pub fn lost_frame_begins_no_pair(
    bus: &SimBus,
    instance: InputInstance,
    address: ShortAddress,
    number: InstanceNumber,
) -> Option<InstanceVariables>
    requires instances { bus.now.setup.instances ≡ instance ∷ [] }
    requires address { (instance.address ≡ 0) × (address ≡ 0) }
    requires number { (instance.number ≡ 0) × (number ≡ 0) }
    requires sent { bus.now.log.sent ≡ disabling marks.Lost ∷ disabling marks.Quiet ∷ [] }
    ensures { result ≡ Some (record { scheme = instance.scheme; is_enabled = true }) }
{
    bus.instance(address, number)
}

/// `gear_begins_at_the_level_of_another`: each gear began at the level of the first one of its bus.
pub fn gear_begins_at_its_own_level(
    bus: &SimBus,
    first: Gear,
    second: Gear,
    address: ShortAddress,
) -> Option<GearVariables>
    requires gears { bus.now.setup.gears ≡ first ∷ second ∷ [] }
    requires first { first.address ≡ 0 }
    requires second { (second.address ≡ 1) × (address ≡ 1) }
    requires levels { second.start.level ≡ 100 }
    requires sent { bus.now.log.sent ≡ [] }
    ensures { IfSome result (λ variables. variables.level ≡ 100) }
{
    bus.gear(address)
}

/// `gear_that_begins_off_was_never_on`: GO TO LAST ACTIVE LEVEL left gear off that had begun off.
pub fn gear_that_begins_off_was_at_its_greatest_level(
    bus: &SimBus,
    gear: Gear,
    address: ShortAddress,
) -> Option<GearVariables>
    requires gears { bus.now.setup.gears ≡ gear ∷ [] }
    requires address { (gear.address ≡ 0) × (address ≡ 0) }
    requires off { gear.start.level ≡ 0 }
    requires sent { bus.now.log.sent ≡ [] }
    ensures { IfSome result (λ variables. variables.last_active ≡ 254) }
{
    bus.gear(address)
}
