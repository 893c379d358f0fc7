//! What is so of every house that is stopped and started again.

ghost use Rattle.std.specs.Prelude.{◌≡◌, List};
ghost use Rattle.ilblocks.specs.Stores.{Lasting};
ghost use Rattle.ilplan.specs.Beginnings.{plan_with};
ghost use Rattle.livereturns.specs.GoingOn.{MayGoOn};
ghost use Rattle.livereturns.specs.Keeping.{AreKept};
ghost use Rattle.livekeep.specs.KeptFiles.{KeptEntry};
ghost use Rattle.livekeep.specs.KeptPlans.{begun_plan};
ghost use Rattle.plantevents.specs.Plants.{Plant};
ghost use Rattle.plantevents.specs.declared.event.Event.{Event};

use livekeep::entries_come_back;

/// A house that is stopped and started again begins with just the state that was written: the plan
/// that begins with what was kept after a history begins with the values that the variables had
/// then, and with what lasted of the tasks.
pub fn a_house_goes_on()
    ensures { (p : Plant) (h : List Event) (tasks : List Lasting) (kept : List KeptEntry)
        (written : AreKept p h tasks kept) → MayGoOn p h written.globals tasks
        → begun_plan kept p.plan ≡ plan_with p.plan written.globals tasks }
{
    entries_come_back();
}
