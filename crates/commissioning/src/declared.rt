//! What a text and its binding declare on a bus.

ghost use Rattle.std.specs.Prelude.{◌≡◌, ◌<◌};
ghost use Rattle.ilplan.specs.declared.global.Location.TheVariants.{Level};
ghost use Rattle.commissioning.specs.Differences.{declares_device, declares_gear, declares_group};
ghost use Rattle.commissioning.specs.Differences.{declares_instance, first_level, is_at};
ghost use Rattle.commissioning.specs.Differences.{is_located, is_of_device, is_of_instance};
ghost use Rattle.commissioning.specs.Differences.{level_at, level_of, names_device};
ghost use Rattle.commissioning.specs.Differences.{names_instance, same_place};
ghost use Rattle.std.specs.List.{list_any};

use daliframe::EventScheme;
use ilplan::{Global, Location, Plan};
use iltypes::Value;
use wordlines::BoundSource;

/// The address at which a level is that of a group, for group 0.
const GROUP_0: u8 = 64;

/// A bus of the plan of a text.
#[derive(Clone, Copy)]
pub struct DeclaredBus<'a> {
    pub plan: &'a Plan,
    /// The number of the bus.
    pub bus: u8,
}

impl DeclaredBus<'_> {
    /// Whether a variable is located at the level or the answer of this gear.
    pub(crate) fn has_gear(self, address: u8) -> bool
        ensures { result ≡ declares_gear self.entry.plan.now self.entry.bus address }
    {
        let bus = self.bus;
        let short = address;
        is_located(self.plan, Location::Level { bus, address })
            || is_located(self.plan, Location::GearAnswer { bus, short })
    }

    /// Whether a variable is located at the level of this group.
    pub(crate) fn has_group(self, group: u8) -> bool
        requires { group < 16 }
        ensures { result ≡ declares_group self.entry.plan.now self.entry.bus group }
    {
        let bus = self.bus;
        let address = GROUP_0 + group;
        is_located(self.plan, Location::Level { bus, address })
    }

    /// The level that the text sends first to this gear, where it sends one.
    pub(crate) fn first_level(self, address: u8) -> Option<u8>
        ensures { result ≡ first_level self.entry.plan.now self.entry.bus address }
    {
        let bus = self.bus;
        first_level_at(self.plan, bus, address)
    }

    /// Whether a variable is located at the answer of this device, or the binding listens to it.
    pub(crate) fn has_device(self, address: u8) -> bool
        ensures { result ≡ declares_device self.entry.plan.now self.entry.bus address }
    {
        let bus = self.bus;
        let short = address;
        is_located(self.plan, Location::DeviceAnswer { bus, short })
            || is_device_bound(self.plan.sources(), bus, address)
    }

    /// Whether the binding listens to this instance of a device.
    pub(crate) fn has_instance(self, address: u8, instance: u8) -> bool
        ensures { result ≡ declares_instance self.entry.plan.now self.entry.bus address instance }
    {
        is_instance_bound(self.plan.sources(), self.bus, address, instance)
    }
}

/// Whether a variable is located at this place.
fn is_located(plan: &Plan, place: Location) -> bool
    ensures { result ≡ is_located plan.now place }
{
    for number in 0..plan.globals() {
        if is_at(place, plan.global(number)) {
            return true;
        }
    }
    false
}

/// The first level that a variable sends at this address of a bus.
fn first_level_at(plan: &Plan, bus: u8, address: u8) -> Option<u8>
    ensures { result ≡ first_level plan.now bus address }
{
    for number in 0..plan.globals() {
        if let Some(level) = level_at(Location::Level { bus, address }, plan.global(number)) {
            return Some(level);
        }
    }
    None
}

/// The level that a variable sends first at this place, where it is located there and sends one.
fn level_at(place: Location, variable: &Global) -> Option<u8>
    ensures { result ≡ level_at place variable.now }
{
    if is_at(place, variable) {
        level_of(variable.initial)
    } else {
        None
    }
}

/// The value as a level that is sent: 255 is none.
fn level_of(value: Value) -> Option<u8>
    ensures { result ≡ level_of value }
{
    match value {
        Value::Int(level) if level >= 0 && level < 255 => Some(level as u8),
        _ => None,
    }
}

/// Whether a variable is located at this place.
fn is_at(place: Location, variable: &Global) -> bool
    ensures { result ≡ is_at place variable.now }
{
    match variable.location {
        Some(location) => is_same_place(place, location),
        None => false,
    }
}

/// Whether both are the same level, or the same answer.
fn is_same_place(place: Location, other: Location) -> bool
    ensures { result ≡ same_place place other }
{
    match (place, other) {
        (
            Location::Level { bus, address },
            Location::Level {
                bus: of,
                address: at,
            },
        ) => bus == of && address == at,
        (Location::GearAnswer { bus, short }, Location::GearAnswer { bus: of, short: at }) => {
            bus == of && short == at
        }
        (Location::DeviceAnswer { bus, short }, Location::DeviceAnswer { bus: of, short: at }) => {
            bus == of && short == at
        }
        _ => false,
    }
}

/// Whether a source is bound that names this device.
fn is_device_bound(sources: &[BoundSource], bus: u8, device: u8) -> bool
    ensures { result ≡ list_any (is_of_device bus device) sources.now }
{
    sources.iter().any(|bound| is_of_device(bus, device, bound))
}

/// Whether a source is bound that names this instance of a device.
fn is_instance_bound(sources: &[BoundSource], bus: u8, device: u8, instance: u8) -> bool
    ensures { result ≡ list_any (is_of_instance bus device instance) sources.now }
{
    sources
        .iter()
        .any(|bound| is_of_instance(bus, device, instance, bound))
}

/// Whether a source names this device.
fn is_of_device(bus: u8, device: u8, bound: &BoundSource) -> bool
    ensures { result ≡ is_of_device bus device bound.now }
{
    bound.bus == bus && bound.source.a == device && names_device(bound.source.scheme)
}

/// Whether a source names this instance of a device.
fn is_of_instance(bus: u8, device: u8, instance: u8, bound: &BoundSource) -> bool
    ensures { result ≡ is_of_instance bus device instance bound.now }
{
    bound.bus == bus
        && bound.source.a == device
        && bound.source.b == instance
        && names_instance(bound.source.scheme)
}

/// Whether a source of this scheme names the short address of a device.
fn names_device(scheme: EventScheme) -> bool
    ensures { result ≡ names_device scheme }
{
    matches!(scheme, EventScheme::Device | EventScheme::DeviceInstance)
}

/// Whether a source of this scheme names an instance of a device.
fn names_instance(scheme: EventScheme) -> bool
    ensures { result ≡ names_instance scheme }
{
    matches!(scheme, EventScheme::DeviceInstance)
}
