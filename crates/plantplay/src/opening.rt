//! Installations of simulated buses.

ghost use Rattle.std.specs.Prelude.{◌≡◌, ◌≤◌, IfErr, IfOk};
ghost use Rattle.limits.specs.Limits.{most_buses};
ghost use Rattle.plantplay.specs.Installations.{IsInstallation, IsStartFault, bus_of, buses_of};

use crate::installation::Installation;
use daliframe::BusNumber;
use ilcompile::Setup;
use plant::{Plant, StartFault};
use plantdriving::IdlePlant;
use simbus::{BusSetup, Scenario, SimBus};
use std::alloc::{AllocError, Global};

/// One scan worker plays.
const WORKERS: usize = 1;

/// A plant of this setup and limit to which nothing has happened, with one scan worker, on the
/// simulated buses of a scenario.
///
/// # Errors
///
/// The allocator is out of memory, or the limit is not 100 to 1,000,000, or below 500 with more
/// than 16 buses.
pub fn open(
    alloc: Global,
    setup: Setup,
    scenario: &Scenario,
    limit: u64,
) -> Result<Installation<SimBus>, StartFault>
    ensures installation { IfOk result (IsInstallation setup scenario.now limit) }
    ensures fault { IfErr result (IsStartFault setup.plan.buses 1 limit) }
{
    let lines = buses_of(alloc, setup.plan().buses(), scenario)?;
    match Plant::open(alloc, setup, WORKERS, limit) {
        Ok(plant) => Ok(Installation {
            plant: IdlePlant::new(plant),
            lines,
        }),
        Err(fault) => Err(StartFault::Plant(fault)),
    }
}

/// The first simulated buses of a scenario, of the given number.
fn buses_of(alloc: Global, buses: u8, scenario: &Scenario) -> Result<Vec<SimBus>, AllocError>
    requires { buses ≤ most_buses }
    ensures { IfOk result (λ made. made.items ≡ buses_of scenario.now buses) }
{
    let mut made = Vec::new(alloc);
    for bus in 0..buses {
        if let Some(number) = BusNumber::new(bus) {
            made.push(bus_of(alloc, scenario, number)?)?;
        }
    }
    Ok(made)
}

/// The simulated bus of a scenario with this number, on which nothing happened.
///
/// # Errors
///
/// The allocator is out of memory.
pub fn bus_of(alloc: Global, scenario: &Scenario, bus: BusNumber) -> Result<SimBus, AllocError>
    ensures { IfOk result (λ made. made ≡ bus_of scenario.now bus) }
{
    let setup = BusSetup::of(alloc, scenario, bus)?;
    SimBus::new(alloc, setup)
}
