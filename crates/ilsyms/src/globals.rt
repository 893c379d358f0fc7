//! The global variables of a plan.

ghost use Rattle.std.specs.Prelude.{◌≡◌, ◌<◌, IfOk, IfSome, map, option_map};
ghost use Rattle.wordlines.specs.Wirings.{IsWithinLimits};
ghost use Rattle.iltokens.specs.declared.lexed.AddressKind.TheVariants as address_kinds;
ghost use Rattle.ilscope.specs.Configured.{globals_of};
ghost use Rattle.ilsyms.specs.Faults.{IsWellNamed};
ghost use Rattle.ilsyms.specs.Resolved.{location, planned_global};

use ilplan::{Global as PlannedGlobal, Location};
use ilscope::{DeclaredGlobal, Scope};
use ilsource::DirectAddress;
use iltokens::AddressKind;
use std::alloc::{AllocError, Global};

/// The global variables of a text without fault, in declared order, with their locations.
pub(crate) fn plan_globals(
    alloc: Global,
    scope: &Scope<'_>,
) -> Result<Vec<PlannedGlobal>, AllocError>
    requires wiring { IsWithinLimits scope.now.wiring }
    requires named { IsWellNamed scope.now.tree scope.now.wiring }
    ensures { IfOk result (λ v. v.items ≡ map planned_global (globals_of scope.now.tree)) }
{
    let mut globals = Vec::new(alloc);
    for global in scope.globals() {
        globals.push(planned_global(*global))?;
    }
    Ok(globals)
}

/// The global variable, whose address is there.
fn planned_global(global: DeclaredGlobal) -> PlannedGlobal
    requires { IfSome global.address (λ a. (a.bus < 256) × (a.place < 256)) }
    ensures { result ≡ planned_global global }
{
    PlannedGlobal {
        name: global.name,
        location: planned_location(global.address),
        value_type: global.value_type,
        initial: global.initial,
    }
}

/// Where the address lies, if there is one.
fn planned_location(address: Option<DirectAddress>) -> Option<Location>
    requires { IfSome address (λ a. (a.bus < 256) × (a.place < 256)) }
    ensures { result ≡ option_map (λ a. location a.kind a.bus a.place) address }
{
    let address = address?;
    Some(location(address.kind, address.bus as u8, address.place as u8))
}

/// Where a place of a bus lies, by the kind of its address.
fn location(kind: AddressKind, bus: u8, place: u8) -> Location
    ensures { result ≡ location kind bus place }
{
    match kind {
        AddressKind::OutputByte => Location::Level {
            bus,
            address: place,
        },
        AddressKind::InputWord => word_location(bus, place),
        AddressKind::InputBit => Location::Trigger { bus, source: place },
    }
}

/// Where a word lies: answers of control gear, of control devices, information of sources and
/// counts have 64 places each, in this order.
fn word_location(bus: u8, place: u8) -> Location
    ensures { result ≡ location address_kinds.InputWord bus place }
{
    if place < 64 {
        Location::GearAnswer { bus, short: place }
    } else if place < 128 {
        Location::DeviceAnswer {
            bus,
            short: place - 64,
        }
    } else if place < 192 {
        Location::Information {
            bus,
            source: place - 128,
        }
    } else {
        Location::Count {
            bus,
            source: place - 192,
        }
    }
}
