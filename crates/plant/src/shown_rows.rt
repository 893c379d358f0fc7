//! Worked plants: each clause is proved by computing it.

ghost use Rattle.std.specs.Prelude.{◌≡◌, true, false, Some, None};
ghost use Rattle.plantevents.specs.declared.event.Event.TheVariants.{Tick, Down, Up};
ghost use Rattle.plantevents.specs.declared.role.Role.TheVariants.{Clock, Bus};
ghost use Rattle.plant.specs.declared.refusal.CallRefusal.TheVariants.{ClockBack, BusDown, Full};
ghost use Rattle.plant.specs.declared.refusal.CallRefusal.TheVariants.{NothingReady, Stranger};
ghost use Rattle.plant.specs.Refusals.{first_refusal, tick_cases, may_tick_cases, down_cases};
ghost use Rattle.plant.specs.Refusals.{heard_cases, up_cases};
ghost use Rattle.plant.specs.Shown.{grown, reserving, kept, is_full};
ghost use Rattle.plant.specs.Rows.{quiet, ticked, handed, back};

/// With a limit of 100 and one bus 98 ticks are accepted, and then the bus may still go down.
fn hundred_places()
    ensures last { first_refusal (tick_cases (ticked 97) 98) ≡ None }
    ensures full { first_refusal (tick_cases (ticked 98) 99) ≡ Some Full }
    ensures still_full { first_refusal (tick_cases (ticked 98) 100) ≡ Some Full }
    ensures down { first_refusal (down_cases (ticked 98) 0) ≡ None }
    ensures no_more { first_refusal (tick_cases (grown (ticked 98) (Down 0)) 99) ≡ Some Full }
    ensures once { first_refusal (down_cases (grown (ticked 98) (Down 0)) 0) ≡ Some BusDown }
{}

/// The moment is not below the last one.
fn clock_back()
    ensures back { first_refusal (tick_cases (grown quiet (Tick 9)) 5) ≡ Some ClockBack }
    ensures again { first_refusal (tick_cases (grown quiet (Tick 9)) 9) ≡ None }
{}

/// A bus that is down may come up, which keeps a place for its next Down. The place of a report
/// that never comes stays kept beside that of the next transaction.
fn bus_comes_back()
    ensures up { first_refusal (up_cases (grown quiet (Down 0)) 0) ≡ None }
    ensures not_down { first_refusal (up_cases quiet 0) ≡ Some NothingReady }
    ensures stranger { first_refusal (up_cases quiet 1) ≡ Some Stranger }
    ensures full { first_refusal (up_cases (grown (ticked 98) (Down 0)) 0) ≡ Some Full }
    ensures once { kept (back quiet) ≡ 1 }
    ensures unreported { kept (handed (back (handed quiet))) ≡ 3 }
{}

/// A place that is kept back is used where no other is left.
fn place_kept_back()
    ensures first { first_refusal (may_tick_cases (ticked 97)) ≡ None }
    ensures fills { is_full (reserving Clock (ticked 97)) ≡ true }
    ensures tick { first_refusal (tick_cases (reserving Clock (ticked 97)) 98) ≡ None }
    ensures heard { first_refusal (heard_cases (reserving Clock (ticked 97)) 0) ≡ Some Full }
    ensures used { kept (grown (reserving Clock (ticked 97)) (Tick 98)) ≡ 1 }
    ensures bus { first_refusal (heard_cases (reserving (Bus 0) (ticked 97)) 0) ≡ None }
{}
