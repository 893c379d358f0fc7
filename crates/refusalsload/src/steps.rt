//! Steps of a plant.

ghost use Rattle.std.specs.Prelude.{◌≡◌};
ghost use Rattle.plantscript.specs.Runs.{HasNoReport};

use buslink::Mark;
use plant::CallRefusal;
use plantscript::{Step, StepReply, SteppedPlant};
use std::alloc::Global;

/// `report_under_another_number`, `a_report_is_taken_twice`: a report was taken of a transaction
/// that is not open.
pub fn report_of_nothing_open_is_refused(
    alloc: Global,
    desk: &mut SteppedPlant,
    bus: u8,
    number: u64,
    marks: Vec<Mark>,
) -> StepReply
    requires { HasNoReport desk.old bus number marks.items }
    ensures { result ≡ StepReply.Refused CallRefusal.Stranger }
{
    let step = Step::Done { bus, number, marks };
    desk.serve(alloc, &step)
}
