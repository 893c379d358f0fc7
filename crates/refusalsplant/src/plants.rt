//! What a plant takes, refuses and keeps.

ghost use Rattle.std.specs.Prelude.{◌≡◌, ◌<◌, Err, IfErr, IfOk, Some, slice_get, true};
ghost use Rattle.ilmachine.specs.Images.{Global as GlobalVariable, variable_in};
ghost use Rattle.plantevents.specs.Plants.{activator, layout, location, tries_of, trigger_of};
ghost use Rattle.plantevents.specs.Readiness.{pending};
ghost use Rattle.plantevents.specs.Variables.{value, whole};
ghost use Rattle.plantevents.specs.Waiting.{waiting};
ghost use Rattle.plant.specs.Matches.{IsOwnScan};

use buslink::Report;
use gearcmd::Request;
use ilcompile::Setup;
use ilmachine::ScanResult;
use ilplan::Location;
use plant::{CallError, CallRefusal, Handed, OpenFault, Order, Plant};
use plantevents::{Origin, PendingEvent};
use std::alloc::Global;

/// The newest event's information: a task took the information of the newest message of its source,
/// which the image has, and not that of its own event.
pub fn task_takes_the_information_of_its_event(
    plant: &mut Plant,
    alloc: Global,
    event: PendingEvent,
) -> Result<Order, CallError>
    requires trigger { trigger_of plant.old.plant 2 ≡ Some (Location.Trigger 0 0) }
    requires located { location plant.old.plant 3 ≡ Some (Location.Information 0 0) }
    requires slot { variable_in (layout plant.old.plant) 2 1 ≡ Some (GlobalVariable 3) }
    requires oldest { slice_get (pending (activator plant.old.plant 2) 2 plant.old.history) 0
        ≡ Some event }
    requires information { event.information ≡ 7 }
    requires newest { value plant.old.plant (GlobalVariable 3) plant.old.history
        ≡ Some (whole 9) }
    ensures { IfOk result (λ order. order.task ≡ 2
        → slice_get order.work.snapshot.lasting.slots 1 ≡ Some (whole 7)) }
{
    plant.take(alloc, 0)
}

/// `a_second_commit_accepted`: a worker committed a scan, and then another one.
pub fn second_commit_is_refused(plant: &mut Plant, scan: ScanResult, again: ScanResult) -> bool
    requires { IsOwnScan plant.old 0 scan }
    ensures { result ≡ true }
{
    match plant.commit(0, scan) {
        Ok(()) => match plant.commit(0, again) {
            Ok(()) => false,
            Err(_) => true,
        },
        Err(_) => true,
    }
}

/// `report_of_other_attempts_taken`: a report made for two attempts was taken on a bus of three.
pub fn report_of_other_attempts_is_refused(plant: &mut Plant, number: u64, report: Report) -> bool
    requires made { report.tries ≡ 2 }
    requires bus { tries_of plant.old.plant 0 ≡ 3 }
    ensures { result ≡ true }
{
    match plant.note_report(0, number, report) {
        Ok(()) => false,
        Err(_) => true,
    }
}

/// `attempts_of_the_next_bus`: a bus had the attempts of the bus behind it.
pub fn bus_has_its_own_attempts(plant: &Plant) -> u8
    requires known { 1 < plant.now.plant.plan.buses }
    requires own { tries_of plant.now.plant 0 ≡ 5 }
    requires next { tries_of plant.now.plant 1 ≡ 3 }
    ensures { result ≡ 5 }
{
    plant.tries(0)
}

/// `handed_with_the_attempts_of_the_next_bus`: what a bus was handed was to be tried as often as on
/// the bus behind it.
pub fn what_is_handed_has_its_bus_attempts(plant: &mut Plant) -> Result<Handed, CallRefusal>
    requires own { tries_of plant.old.plant 0 ≡ 5 }
    requires next { tries_of plant.old.plant 1 ≡ 3 }
    ensures { IfOk result (λ handed. handed.tries ≡ 5) }
{
    plant.hand(0)
}

/// `many_buses_with_a_short_history_opened`: a plant of 17 buses was opened with a history of 100
/// events.
pub fn many_buses_want_a_longer_history(alloc: Global, setup: Setup) -> Result<Plant, OpenFault>
    requires { setup.plan.buses ≡ 17 }
    ensures { result ≡ Err OpenFault.Limit }
{
    Plant::open(alloc, setup, 2, 100)
}

/// `sixteen_buses_want_500_events`: a plant of 16 buses was not opened with a history of 100
/// events.
pub fn sixteen_buses_have_a_short_history(alloc: Global, setup: Setup) -> Result<Plant, OpenFault>
    requires { setup.plan.buses ≡ 16 }
    ensures { IfErr result (λ fault. fault ≡ OpenFault.Memory) }
{
    Plant::open(alloc, setup, 2, 100)
}

/// `levels_before_requests`: by what is handed out a level went before a request of its class.
pub fn request_is_handed_before_levels(
    plant: &mut Plant,
    request: Request,
) -> Result<Handed, CallRefusal>
    requires { slice_get (waiting plant.old.plant 0 2 plant.old.history) 0 ≡ Some request }
    ensures { IfOk result (λ handed. handed.origin ≡ Origin.Queued request) }
{
    plant.hand(0)
}
