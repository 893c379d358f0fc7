//! What is kept of buses and of scans that are open.

ghost use Rattle.std.specs.Prelude.{◌≡◌, ◌≢◌, ◌<◌, IfOk, None, Some, false, true, length, map};
ghost use Rattle.std.specs.Prelude.{slice_get};
ghost use Rattle.std.specs.Int.{bit_at};
ghost use Rattle.busqueue.specs.declared.class.Class.{Class as RequestClass};
ghost use Rattle.gearcmd.specs.declared.requests.Answerer.TheVariants.{Gear};
ghost use Rattle.ilmachine.specs.Images.{Global as GlobalVariable, layout_of};
ghost use Rattle.plantbuses.specs.HandingSteps.{IsOfClass};
ghost use Rattle.plantbuses.specs.KeptSteps.{BusesFollow, ImageFollows};
ghost use Rattle.plantbuses.specs.OutputSteps.{output_for, output_in, planned};
ghost use Rattle.plantbuses.specs.OwedSteps.{OwedFollow, addresses_of, owed_on, owes};
ghost use Rattle.plantbuses.specs.StoreSteps.{AreTables, OwedBeside, externals_at};
ghost use Rattle.plantevents.specs.Plants.{location, output_at, storing_kind};
ghost use Rattle.plantevents.specs.Variables.{answerer_by, value, whole};
ghost use Rattle.plantevents.specs.Waiting.{handouts};

use buslink::{Outcome, Transaction};
use busqueue::Class;
use gearcmd::{Request, TaskKind};
use ilmachine::Image;
use ilplan::{Location, Plan};
use iltypes::Value;
use plant::Plant;
use plantbuses::{
    BusOutputs, BusState, Next, OwedLevels, RunningScan, answer_to, first_of, note_handed,
    note_stores, note_up, outputs_of,
};
use plantevents::Origin;
use std::alloc::{AllocError, Global};

/// `answer_filed_under_another_gear`: the answer of gear 63 was written to the input of gear 5.
pub fn answer_goes_to_its_gear(plan: &Plan, origin: &Origin, outcome: Outcome) -> Option<Value>
    requires known { 4 < length plan.now.globals }
    requires located { location (planned plan.now) 4 ≡ Some (Location.GearAnswer 0 5) }
    requires asked { answerer_by origin.now ≡ Some (Gear 63) }
    ensures { result ≡ None }
{
    answer_to(plan, 4, 0, origin, outcome)
}

/// `a_scan_of_another_number_committed`: the scan that a worker has open had the number of a later
/// one too.
pub fn scan_has_its_own_number(scan: &RunningScan) -> bool
    requires { scan.now.place ≡ 3 }
    ensures { result ≡ false }
{
    scan.has_number(7)
}

/// `an_owed_level_goes_before_a_request`: of one class a level was sent before a request.
pub fn request_goes_before_a_level(
    class: Class,
    request: Request,
    level: Option<Next>,
) -> Option<Next>
    ensures { result ≡ Some (record { class = class; origin = Origin.Queued request }) }
{
    first_of(class, Some(request), level)
}

/// `bus_63_has_no_outputs`: what is located at the levels of the last of 64 buses was left out.
pub fn last_bus_has_outputs(alloc: Global, plan: &Plan) -> Result<Vec<BusOutputs>, AllocError>
    requires { plan.now.buses ≡ 64 }
    ensures { IfOk result (λ outputs. length outputs.items ≡ 64) }
{
    outputs_of(alloc, plan)
}

/// `the_level_of_an_event_task_filed_as_a_cyclic_one`: a level that an event task stores was sent
/// as one of a cyclic task.
pub fn level_has_the_kind_of_its_task(
    alloc: Global,
    plan: &Plan,
) -> Result<Vec<BusOutputs>, AllocError>
    requires known { 0 < plan.now.buses }
    requires located { output_at (planned plan.now) 0 5 ≡ Some 3 }
    requires kind { storing_kind (planned plan.now) 3 ≡ TaskKind.Event }
    ensures { IfOk result (λ outputs.
        output_in outputs.items 0 5 ≡ Some (output_for 3 TaskKind.Event)) }
{
    outputs_of(alloc, plan)
}

/// `a_level_stays_owed_after_its_hand`: a level that was handed out was owed still, and so it was
/// sent without end.
pub fn handed_level_is_owed_no_more(
    owed: &mut Vec<OwedLevels>,
    next: Next,
    class: Class,
    plant: &Plant,
    sent: &Transaction,
) -> Option<u8>
    requires known { 0 < plant.now.plant.plan.buses }
    requires follows { OwedFollow plant.now.plant plant.now.history owed.old.items }
    requires class { IsOfClass next.class next.origin }
    requires level { next.origin ≡ Origin.Output 5 200 }
    requires first { slice_get (handouts plant.now.plant 0 plant.now.history) 0
        ≡ Some (record { origin = next.origin; transaction = sent.now }) }
    requires located { output_at plant.now.plant 0 5 ≡ Some 3 }
    requires lit { value plant.now.plant (GlobalVariable 3) plant.now.history ≡ Some (whole 200) }
    ensures { result ≢ Some 5 }
{
    note_handed(owed, 0, next);
    owed[0].least(class)
}

/// `a_commit_skips_a_level_that_its_task_stores`: a level that a scan had stored was not owed.
pub fn stored_level_is_owed(
    owed: &mut Vec<OwedLevels>,
    plan: &Plan,
    outputs: &[BusOutputs],
    buses: &[BusState],
    image: &Image,
    plant: &Plant,
)
    requires known { 0 < plan.now.buses }
    requires task { 0 < length image.now.tasks }
    requires types { image.now.types ≡ map (λ g. g.value_type) plan.now.globals }
    requires count { length owed.old.items ≡ plan.now.buses }
    requires tables { AreTables plan.now outputs.now buses.now }
    requires plan { plant.now.plant.plan ≡ plan.now }
    requires buses { BusesFollow plant.now.plant plant.now.history buses.now }
    requires image { ImageFollows plant.now.plant plant.now.history image.now }
    requires beside { OwedBeside plant.now.plant plant.now.history
        (externals_at (layout_of image.now) 0) owed.old.items }
    ensures { (class : RequestClass) → owes plant.now.plant 0 plant.now.history class 5 ≡ true
        → bit_at (addresses_of class (owed_on owed.new.items 0)) 5 ≡ 1 }
{
    note_stores(owed, plan, outputs, buses, image, 0);
}

/// `a_bus_that_comes_up_stays_down`: a bus that came up again was down still.
pub fn bus_that_comes_up_is_down_no_more(buses: &mut Vec<BusState>, plant: &Plant) -> bool
    requires known { 0 < plant.now.plant.plan.buses }
    requires follows { BusesFollow plant.now.plant plant.now.history buses.old.items }
    ensures { result ≡ false }
{
    note_up(buses, 0);
    buses[0].is_down()
}
