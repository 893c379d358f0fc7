//! The global variables that are located at inputs, and the sources, by bus.

ghost use Rattle.std.specs.Prelude.{◌≡◌, ◌<◌, length, IfOk};
ghost use Rattle.plant.specs.IndexSteps.{AreInputsOf, IsFromBus, InputsFollow, comes_from};
ghost use Rattle.plant.specs.IndexSteps.{numbers_on, place_of};

use ilplan::{Location, Plan};
use std::alloc::{AllocError, Global};
use std::marker::Model;
use wordlines::BoundSource;

/// The numbers of the global variables that are located at inputs of a bus, and of the sources that
/// are bound on it, so that what comes from a bus goes over those of no other.
#[derive(Drop)]
pub(crate) struct BusInputs {
    numbers: Vec<usize>,
    sources: Vec<usize>,
}

impl Model for BusInputs {
    ghost use Rattle.plant.specs.IndexSteps.{FromBus};

    ghost Value = { FromBus };

    ghost view = { λ inputs. record {
      numbers = inputs.numbers.items;
      sources = inputs.sources.items;
    } };
}

impl BusInputs {
    /// The numbers of the global variables.
    pub(crate) fn numbers(&self) -> &[usize]
        ensures { result.now ≡ self.now.numbers }
    {
        &self.numbers
    }

    /// The numbers of the sources.
    pub(crate) fn sources(&self) -> &[usize]
        ensures { result.now ≡ self.now.sources }
    {
        &self.sources
    }
}

/// Whether what is located there comes from this bus: an answer on it, or the events of a source.
fn comes_from(bus: u8, location: Option<Location>) -> bool
    ensures { result ≡ comes_from bus location }
{
    match location {
        Some(
            Location::GearAnswer { bus: own, .. }
            | Location::DeviceAnswer { bus: own, .. }
            | Location::Information { bus: own, .. }
            | Location::Count { bus: own, .. }
            | Location::Trigger { bus: own, .. },
        ) => own == bus,
        _ => false,
    }
}

/// Whether the global variable of this number is located at an input of this bus.
fn is_input_of(plan: &Plan, bus: u8, global: usize) -> bool
    requires { global < length plan.now.globals }
    ensures { result ≡ comes_from bus (place_of plan.now global) }
{
    comes_from(bus, plan.global(global).location)
}

/// The numbers of the global variables that are located at inputs of a bus.
fn bus_inputs(alloc: Global, plan: &Plan, bus: u8) -> Result<Vec<usize>, AllocError>
    ensures { IfOk result (λ numbers. AreInputsOf plan.now bus numbers.items) }
{
    let mut numbers = Vec::new(alloc);
    for global in 0..plan.globals() {
        if is_input_of(plan, bus, global) {
            numbers.push(global)?;
        }
    }
    Ok(numbers)
}

/// The numbers of the sources that are bound on a bus.
fn bus_sources(alloc: Global, sources: &[BoundSource], bus: u8) -> Result<Vec<usize>, AllocError>
    ensures { IfOk result (λ numbers. numbers.items ≡ numbers_on bus 0 sources.now) }
{
    let mut numbers = Vec::new(alloc);
    for (number, bound) in sources.iter().enumerate() {
        if bound.bus == bus {
            numbers.push(number)?;
        }
    }
    Ok(numbers)
}

/// What comes from a bus.
fn from_bus(alloc: Global, plan: &Plan, bus: u8) -> Result<BusInputs, AllocError>
    ensures { IfOk result (IsFromBus plan.now bus) }
{
    let numbers = bus_inputs(alloc, plan, bus)?;
    let sources = bus_sources(alloc, plan.sources(), bus)?;
    Ok(BusInputs { numbers, sources })
}

/// What comes from each bus.
pub(crate) fn inputs_of(alloc: Global, plan: &Plan) -> Result<Vec<BusInputs>, AllocError>
    ensures { IfOk result (λ inputs. InputsFollow plan.now inputs.items) }
{
    let mut inputs = Vec::new(alloc);
    for bus in 0..plan.buses() {
        inputs.push(from_bus(alloc, plan, bus)?)?;
    }
    Ok(inputs)
}
