//! Which events do not concern tasks.
ghost use Rattle.std.specs.Prelude.{ℕ, ◌∷◌, List};
ghost use Rattle.gearcmd.specs.FrameLists.{FrameList};
ghost use Rattle.buslink.specs.Attempts.{ReportParts};
ghost use Rattle.plantevents.specs.declared.event.Origin.{Origin};
ghost use Rattle.plantevents.specs.declared.event.Event.{Event};
ghost use Rattle.plantevents.specs.declared.event.Event.TheVariants.{Hand, Done, Down, Up};
ghost use Rattle.plantevents.specs.Plants.{Plant};
ghost use Rattle.readytasks.specs.TaskSets.{TaskSet, Follows};

/// What is kept of the tasks stays so at the events of transactions and of buses that go down or
/// come up.
pub fn other_events_leave_tasks()
    ensures hand { (p : Plant) (b : ℕ) (origin : Origin) (x : FrameList) (h : List Event)
        (set : TaskSet) → Follows p h set → Follows p (Hand b origin x ∷ h) set }
    ensures done { (p : Plant) (b n : ℕ) (r : ReportParts) (h : List Event)
        (set : TaskSet) → Follows p h set → Follows p (Done b n r ∷ h) set }
    ensures down { (p : Plant) (b : ℕ) (h : List Event)
        (set : TaskSet) → Follows p h set → Follows p (Down b ∷ h) set }
    ensures up { (p : Plant) (b : ℕ) (h : List Event)
        (set : TaskSet) → Follows p h set → Follows p (Up b ∷ h) set }
{}
