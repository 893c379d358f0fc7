//! What a scenario says of one bus.
ghost use Rattle.std.specs.Prelude.{◌≡◌, IfOk};
ghost use Rattle.std.specs.List.{filter_map, list_any};
ghost use Rattle.simbus.specs.Setups.{gear_on, memory_on, instance_on, reply_on, arrival_on};
ghost use Rattle.simbus.specs.Setups.{has_lamp_failure, gear_with_lamp};

use crate::{Arrival, Gear, InputInstance, MemoryByte, ScriptedReply};
use daliframe::{BusNumber, ShortAddress};
use std::alloc::{AllocError, Global};
use wordlines::{GearStart, Scenario, Statement};

/// What a scenario says of one bus.
#[derive(Drop)]
pub struct BusSetup {
    pub number: BusNumber,
    pub gears: Vec<Gear>,
    pub memory: Vec<MemoryByte>,
    pub instances: Vec<InputInstance>,
    pub script: Vec<ScriptedReply>,
    /// What comes to be heard, in order.
    pub arrivals: Vec<Arrival>,
}

impl BusSetup {
    /// What a scenario says of this bus.
    ///
    /// # Errors
    ///
    /// Memory was refused.
    pub fn of(alloc: Global, scenario: &Scenario, bus: BusNumber) -> Result<Self, AllocError>
        ensures number { IfOk result (λ s. s.number ≡ bus) }
        ensures gears { IfOk result (λ s. s.gears.items ≡ filter_map
            (gear_on bus scenario.now) scenario.now) }
        ensures memory { IfOk result (λ s. s.memory.items ≡ filter_map
            (memory_on bus) scenario.now) }
        ensures instances { IfOk result (λ s. s.instances.items ≡ filter_map
            (instance_on bus) scenario.now) }
        ensures script { IfOk result (λ s. s.script.items ≡ filter_map
            (reply_on bus) scenario.now) }
        ensures arrivals { IfOk result (λ s. s.arrivals.items ≡ filter_map
            (arrival_on bus) scenario.now) }
    {
        let statements = scenario.lines();
        Ok(BusSetup {
            number: bus,
            gears: gears_on(alloc, statements, bus)?,
            memory: all_memory_on(alloc, statements, bus)?,
            instances: instances_on(alloc, statements, bus)?,
            script: replies_on(alloc, statements, bus)?,
            arrivals: arrivals_on(alloc, statements, bus)?,
        })
    }
}

/// A byte of memory that a statement says of gear on a bus.
fn memory_on(statement: &Statement, bus: BusNumber) -> Option<MemoryByte>
    ensures { result ≡ memory_on bus statement.now }
{
    match statement {
        Statement::Memory {
            bus: on,
            short,
            bank,
            offset,
            value,
        } if on.number() == bus.number() => Some(MemoryByte {
            address: *short,
            bank: *bank,
            offset: *offset,
            value: *value,
        }),
        _ => None,
    }
}

/// The instance that a statement declares on a bus.
fn instance_on(statement: &Statement, bus: BusNumber) -> Option<InputInstance>
    ensures { result ≡ instance_on bus statement.now }
{
    match statement {
        Statement::InputInstance {
            bus: on,
            short,
            number,
            kind,
            scheme,
            value,
        } if on.number() == bus.number() => Some(InputInstance {
            address: *short,
            number: *number,
            instance_type: *kind,
            scheme: *scheme,
            value: *value,
        }),
        _ => None,
    }
}

/// What a statement says that becomes of a frame on a bus.
fn reply_on(statement: &Statement, bus: BusNumber) -> Option<ScriptedReply>
    ensures { result ≡ reply_on bus statement.now }
{
    match statement {
        Statement::Reply {
            bus: on,
            place,
            fate,
        } if on.number() == bus.number() => Some(ScriptedReply {
            place: *place,
            fate: *fate,
        }),
        _ => None,
    }
}

/// What a statement says that comes to be heard on a bus.
fn arrival_on(statement: &Statement, bus: BusNumber) -> Option<Arrival>
    ensures { result ≡ arrival_on bus statement.now }
{
    match statement {
        Statement::Event { bus: on, frame } if on.number() == bus.number() => Some(Arrival::Frame(
            *frame,
        )),
        Statement::HearFault { bus: on } if on.number() == bus.number() => Some(Arrival::Fault),
        _ => None,
    }
}

/// Whether a statement says that the lamp of this gear failed.
fn has_lamp_failure(statement: &Statement, bus: BusNumber, gear: ShortAddress) -> bool
    ensures { result ≡ has_lamp_failure bus gear statement.now }
{
    match statement {
        Statement::LampFailure { bus: on, short } => on.number() == bus.number()
            && short.number() == gear.number(),
        _ => false,
    }
}

/// Whether one of these statements says that the lamp of this gear failed.
fn has_failed_lamp(statements: &[Statement], bus: BusNumber, address: ShortAddress) -> bool
    ensures { result ≡ list_any (has_lamp_failure bus address) statements.now }
{
    statements
        .iter()
        .any(|statement| has_lamp_failure(statement, bus, address))
}

/// Gear at a short address that begins so, with its lamp as these statements say.
fn gear_with_lamp(
    statements: &[Statement],
    bus: BusNumber,
    address: ShortAddress,
    start: GearStart,
) -> Gear
    ensures { result ≡ gear_with_lamp bus statements.now address start }
{
    Gear {
        address,
        lamp_failure: has_failed_lamp(statements, bus, address),
        start,
    }
}

/// The gear that a statement, one of these, declares on a bus, with its lamp and how it begins.
fn gear_on(statement: &Statement, statements: &[Statement], bus: BusNumber) -> Option<Gear>
    ensures { result ≡ gear_on bus statements.now statement.now }
{
    match statement {
        Statement::Gear {
            bus: on,
            short,
            start,
        } if on.number() == bus.number() => Some(gear_with_lamp(statements, bus, *short, *start)),
        _ => None,
    }
}

/// The gear on a bus, in the order of their lines.
fn gears_on(
    alloc: Global,
    statements: &[Statement],
    bus: BusNumber,
) -> Result<Vec<Gear>, AllocError>
    ensures { IfOk result (λ v. v.items ≡ filter_map (gear_on bus statements.now) statements.now) }
{
    statements
        .iter()
        .filter_map(|statement| gear_on(statement, statements, bus))
        .collect(alloc)
}

/// The memory of the gear on a bus, in the order of the lines.
fn all_memory_on(
    alloc: Global,
    statements: &[Statement],
    bus: BusNumber,
) -> Result<Vec<MemoryByte>, AllocError>
    ensures { IfOk result (λ v. v.items ≡ filter_map (memory_on bus) statements.now) }
{
    statements
        .iter()
        .filter_map(|statement| memory_on(statement, bus))
        .collect(alloc)
}

/// The instances on a bus, in the order of their lines.
fn instances_on(
    alloc: Global,
    statements: &[Statement],
    bus: BusNumber,
) -> Result<Vec<InputInstance>, AllocError>
    ensures { IfOk result (λ v. v.items ≡ filter_map (instance_on bus) statements.now) }
{
    statements
        .iter()
        .filter_map(|statement| instance_on(statement, bus))
        .collect(alloc)
}

/// What becomes of frames on a bus, in the order of the lines.
fn replies_on(
    alloc: Global,
    statements: &[Statement],
    bus: BusNumber,
) -> Result<Vec<ScriptedReply>, AllocError>
    ensures { IfOk result (λ v. v.items ≡ filter_map (reply_on bus) statements.now) }
{
    statements
        .iter()
        .filter_map(|statement| reply_on(statement, bus))
        .collect(alloc)
}

/// What comes to be heard on a bus, in the order of the lines.
fn arrivals_on(
    alloc: Global,
    statements: &[Statement],
    bus: BusNumber,
) -> Result<Vec<Arrival>, AllocError>
    ensures { IfOk result (λ v. v.items ≡ filter_map (arrival_on bus) statements.now) }
{
    statements
        .iter()
        .filter_map(|statement| arrival_on(statement, bus))
        .collect(alloc)
}
