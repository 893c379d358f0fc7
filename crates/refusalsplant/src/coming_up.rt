//! Buses that come up again.

ghost use Rattle.std.specs.Prelude.{◌≡◌, ◌≢◌, ◌+◌, ◌<◌, [], Err, IfOk, Some, false, length, true};
ghost use Rattle.ilmachine.specs.Images.{Global as GlobalVariable};
ghost use Rattle.plantevents.specs.Histories.{hand, is_down};
ghost use Rattle.plantevents.specs.Plants.{output_at};
ghost use Rattle.plantevents.specs.Variables.{value, whole};
ghost use Rattle.plantevents.specs.Waiting.{handouts, level_class, waiting};
ghost use Rattle.plant.specs.Shown.{is_full, used};

use busqueue::Class;
use plant::{CallRefusal, Plant};
use plantevents::{what_coming_up_changes, what_is_handed_out};

/// `a_bus_that_is_up_comes_up`: a bus came up that was not down.
pub fn bus_that_is_up_does_not_come_up(plant: &mut Plant) -> Result<(), CallRefusal>
    requires known { 0 < plant.old.plant.plan.buses }
    requires up { is_down 0 plant.old.history ≡ false }
    ensures { result ≡ Err CallRefusal.NothingReady }
{
    plant.up(0)
}

/// `a_full_history_takes_an_up`: a bus came up where the history had no place for that and for its
/// next Down.
pub fn full_history_takes_no_up(plant: &mut Plant) -> bool
    requires { is_full plant.old ≡ true }
    ensures { result ≡ true }
{
    match plant.up(0) {
        Ok(()) => false,
        Err(_) => true,
    }
}

/// `no_place_is_kept_for_the_next_down`: of the two places that a bus wants that comes up, the one
/// for its next Down was not kept.
pub fn place_is_kept_for_the_next_down(plant: &mut Plant) -> Result<u64, CallRefusal>
    requires known { 0 < plant.old.plant.plan.buses }
    requires down { is_down 0 plant.old.history ≡ true }
    ensures { IfOk result (λ places. places ≡ used plant.old + 2) }
{
    plant.up(0)?;
    Ok(plant.used_places())
}

/// `coming_up_forgets_what_waits`: the requests that had waited for a bus were lost as it came up.
pub fn requests_wait_while_a_bus_is_down(plant: &mut Plant) -> Result<usize, CallRefusal>
    requires known { 0 < plant.old.plant.plan.buses }
    requires waits { length (waiting plant.old.plant 0 2 plant.old.history) ≡ 3 }
    ensures { IfOk result (λ waits. waits ≡ 3) }
{
    plant.up(0)?;
    Ok(plant.waiting(0, Class::UserAction))
}

/// `all_buses_owe_anew_where_one_comes_up`: as bus 0 came up the levels of bus 1 were owed again.
pub fn other_bus_owes_nothing_anew(plant: &mut Plant) -> Result<(), CallRefusal>
    requires known { 1 < plant.old.plant.plan.buses }
    requires up { is_down 1 plant.old.history ≡ false }
    requires idle { hand 1 plant.old.history ≡ None }
    requires nothing { handouts plant.old.plant 1 plant.old.history ≡ [] }
    ensures { result ≡ Err CallRefusal.NothingReady }
{
    match plant.up(0) {
        Ok(()) => plant.allows_hand(1),
        Err(_) => Err(CallRefusal::NothingReady),
    }
}

/// `a_bus_that_came_up_owes_nothing_anew`, `a_bus_that_comes_up_owes_what_it_owed`,
/// `a_bus_that_comes_up_owes_no_level_of_254`: a level was not owed again once its bus came up.
pub fn level_is_owed_again(plant: &mut Plant) -> Result<(), CallRefusal>
    requires located { output_at plant.old.plant 0 5 ≡ Some 3 }
    requires class { level_class plant.old.plant 3 ≡ 2 }
    requires lit { value plant.old.plant (GlobalVariable 3) plant.old.history
        ≡ Some (whole 254) }
    ensures { result ≢ Err CallRefusal.NothingReady }
{
    what_coming_up_changes();
    what_is_handed_out();
    match plant.up(0) {
        Ok(()) => plant.allows_hand(0),
        Err(_) => Ok(()),
    }
}
