//! What is so of every setup of a text, and of every plant of one.

ghost use Rattle.std.specs.Prelude.{◌≡◌, ℕ, List};
ghost use Rattle.wordlines.specs.Wirings.{Wiring};
ghost use Rattle.ilcompile.specs.Loaded.{Loaded};
ghost use Rattle.plantevents.specs.declared.event.Event.{Event};
ghost use Rattle.plantevents.specs.Plants.{Plant};
ghost use Rattle.plantevents.specs.Legal.{AreLegal};
ghost use Rattle.livekeep.specs.KeptFiles.{KeptEntry};
ghost use Rattle.plantload.specs.KeptLoading.{IsKeptSetup};
ghost use Rattle.plantload.specs.Loading.{AreMeant, IsSetup};
ghost use Rattle.plantload.specs.MeantScans.{AreAsMeant};

/// The runs of each task's code are the scans of its source program, both ways.
pub fn runs_are_as_meant()
    ensures { (wiring : Wiring) (bytes : List ℕ) (setup : Loaded) (is : IsSetup wiring bytes setup)
        → AreMeant is.plan.tree wiring.buses setup.codes }
{}

/// In a legal history of a plant that was opened with the plan of a text, each scan came to what
/// the source program means of the snapshot that it took.
pub fn scans_are_as_meant()
    ensures { (wiring : Wiring) (bytes : List ℕ) (setup : Loaded) (loaded : IsSetup wiring bytes setup)
        (p : Plant) (h : List Event) → p.plan ≡ setup.plan → AreLegal p h
        → AreAsMeant loaded.plan.tree wiring.buses h }
{}

/// The same of a setup whose variables begin with kept values: the runs of each task's code are the
/// scans of the text's own source program, both ways.
pub fn kept_runs_are_as_meant()
    ensures { (wiring : Wiring) (bytes : List ℕ) (kept : List KeptEntry) (setup : Loaded)
        (is : IsKeptSetup wiring bytes kept setup)
        → AreMeant is.plan.tree wiring.buses setup.codes }
{}

/// The same of a plant that was opened with the plan of such a setup: each scan came to what the
/// text's own source program means of the snapshot that it took.
pub fn kept_scans_are_as_meant()
    ensures { (wiring : Wiring) (bytes : List ℕ) (kept : List KeptEntry) (setup : Loaded)
        (loaded : IsKeptSetup wiring bytes kept setup) (p : Plant) (h : List Event)
        → p.plan ≡ setup.plan → AreLegal p h → AreAsMeant loaded.plan.tree wiring.buses h }
{}
