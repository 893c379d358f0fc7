//! The buses of a scenario, before a run and after it.

ghost use Rattle.std.specs.Prelude.{◌≡◌, ◌≤◌, [], All, IfOk, vec_capacity, vec_len};
ghost use Rattle.limits.specs.Limits.{most_buses};
ghost use Rattle.simbus.specs.ScriptedTicks.{IsByScript};
ghost use Rattle.simbus.specs.Simulated.{IsAsSetUp, all_arrived};
ghost use Rattle.simbus.specs.Staged.{IsOnStage};
ghost use Rattle.plantplay.specs.Installations.{bus_of};
ghost use Rattle.plantrun.specs.Runs.{buses_of};

use daliframe::BusNumber;
use plantplay::bus_of;
use simbus::{Scenario, Scene, ScriptedClock, SimBus, Staged};
use std::alloc::{AllocError, Global};
use workers::Closed;

/// The buses of a scenario, and room for them when they come back.
#[derive(Drop)]
pub(crate) struct Cast<S: Scene> {
    pub buses: Vec<Staged<S>>,
    pub room: Vec<SimBus>,
}

/// The first simulated buses of a scenario, of the given number, to which all has come.
///
/// # Errors
///
/// The allocator is out of memory.
pub(crate) fn cast_of<S: Scene>(
    alloc: Global,
    buses: u8,
    scenario: &Scenario,
) -> Result<Cast<S>, AllocError>
    requires buses { buses ≤ most_buses }
    requires scene { scenario.now ≡ S.statements }
    ensures buses { IfOk result (λ made. made.buses.items ≡ buses_of scenario.now buses) }
    ensures empty { IfOk result (λ made. made.room.items ≡ []) }
    ensures room { IfOk result (λ made. buses ≤ vec_capacity made.room) }
{
    Ok(Cast {
        buses: buses_of(alloc, buses, scenario)?,
        room: Vec::with_capacity(alloc, usize::from(buses))?,
    })
}

/// The first simulated buses of a scenario, of the given number, to which all has come.
fn buses_of<S: Scene>(
    alloc: Global,
    buses: u8,
    scenario: &Scenario,
) -> Result<Vec<Staged<S>>, AllocError>
    requires buses { buses ≤ most_buses }
    requires scene { scenario.now ≡ S.statements }
    ensures { IfOk result (λ made. made.items ≡ buses_of scenario.now buses) }
{
    let mut made = Vec::new(alloc);
    for bus in 0..buses {
        if let Some(number) = BusNumber::new(bus) {
            made.push(ready_bus(alloc, scenario, number)?)?;
        }
    }
    Ok(made)
}

/// The simulated bus of a scenario with this number, to which all has come that is to be heard.
fn ready_bus<S: Scene>(
    alloc: Global,
    scenario: &Scenario,
    bus: BusNumber,
) -> Result<Staged<S>, AllocError>
    requires scene { scenario.now ≡ S.statements }
    ensures { IfOk result (λ made. made ≡ all_arrived (bus_of scenario.now bus)) }
{
    let mut made = bus_of(alloc, scenario, bus)?;
    made.arrive_all();
    Ok(Staged::new(made))
}

/// What a run left, with the buses off the stage: each is equipped as its scenario says it.
pub(crate) fn off_stage<S: Scene>(
    left: Closed<Staged<S>, ScriptedClock>,
    room: Vec<SimBus>,
) -> Closed<SimBus, ScriptedClock>
    requires empty { room.items ≡ [] }
    requires room { vec_len left.buses ≤ vec_capacity room }
    ensures plant { result.plant ≡ left.plant }
    ensures buses { result.buses.items ≡ left.buses.items }
    ensures clock { result.clock ≡ left.clock }
    ensures ended { result.ended ≡ left.ended }
    ensures stage { All (IsOnStage S.statements) result.buses.items }
    ensures happened { All IsAsSetUp result.buses.items }
    ensures script { IsByScript result.clock }
{
    left.clock().is_by_script();
    let (buses, rest) = left.into_rest();
    rest.with_buses(buses_off_stage(buses, room))
}

/// The buses, each equipped as its scenario says it.
fn buses_off_stage<S: Scene>(staged: Vec<Staged<S>>, room: Vec<SimBus>) -> Vec<SimBus>
    requires empty { room.items ≡ [] }
    requires room { vec_len staged ≤ vec_capacity room }
    ensures same { result.items ≡ staged.items }
    ensures stage { All (IsOnStage S.statements) result.items }
    ensures happened { All IsAsSetUp result.items }
{
    let mut staged = staged;
    let mut buses = room;
    for _bus in 0..staged.len() {
        let bus = staged.remove(0).into_bus();
        bus.is_as_set_up();
        buses.push_reserved(bus);
    }
    buses
}
