//! Calls under the lock.

ghost use Rattle.std.specs.Prelude.{◌≡◌, IfOk, IfSome, OnOk, Some, false, slice_get};
ghost use Rattle.plantevents.specs.declared.event.Event.TheVariants as event;
ghost use Rattle.plantevents.specs.declared.role.Role.TheVariants as roles;
ghost use Rattle.plantevents.specs.Histories.{moment as last_moment};
ghost use Rattle.plantevents.specs.Members.{IsInPart};
ghost use Rattle.plantevents.specs.Parts.{part, placed, shown_down, shown_moment};
ghost use Rattle.plantevents.specs.Plants.{tries_of};
ghost use Rattle.plantreceipts.specs.Receipts.{whole};

use plant::{CallRefusal, Handed};
use plantevents::{each_event_is_in_one_part, what_a_part_shows};
use plantlock::{Final, LockStart, Share, Shared, Shares};
use planttallies::{Tallies, Tally};
use std::sync::Wait;

/// A locked call that files a receipt and leaves the plant: a tick had its receipt, and the plant
/// stayed at its moment.
pub fn filed_tick_is_in_the_plant<'a, J: LockStart, T: Tally, K: Tallies<T>, R: Wait>(
    rt: &R,
    shared: Shared<'a, J, T, K>,
    shares: Shares<'a, J, T>,
    moment: u64,
) -> Option<Final<'a, J, T>>
    requires { shares.clock.role ≡ roles.Clock }
    ensures { IfSome result (λ last. last_moment last.plant.history ≡ moment) }
{
    what_a_part_shows();
    let mut shares = shares;
    match shared.tick(rt, &mut shares.clock, moment) {
        Ok(()) => Some(shared.close(shares)),
        Err(_) => None,
    }
}

/// `an_event_is_filed_under_the_place_before_it`: the receipt of a tick had another place than the
/// tick has in the history.
pub fn receipt_has_the_place_in_the_history<'a, J: LockStart, T: Tally, K: Tallies<T>, R: Wait>(
    rt: &R,
    shared: Shared<'a, J, T, K>,
    shares: Shares<'a, J, T>,
    moment: u64,
) -> Option<(u64, Final<'a, J, T>)>
    requires { shares.clock.role ≡ roles.Clock }
    ensures { IfSome result (λ made. IsInPart roles.Clock made.1.plant.history
        (placed made.0 (event.Tick moment))) }
{
    each_event_is_in_one_part();
    let mut shares = shares;
    match shared.tick(rt, &mut shares.clock, moment) {
        Ok(()) => {
            let place = shares.clock.last_place();
            Some((place, shared.close(shares)))
        }
        Err(_) => None,
    }
}

/// `a_tick_of_the_first_moment_is_filed`: the receipt of a tick had another moment.
pub fn receipt_has_the_moment<'a, J: LockStart, T: Tally, K: Tallies<T>, R: Wait>(
    rt: &R,
    shared: &Shared<'a, J, T, K>,
    share: &mut Share<'a, J, T>,
    moment: u64,
) -> Result<(), CallRefusal>
    requires { share.old.role ≡ roles.Clock }
    ensures { OnOk result (shown_moment (whole share.new) ≡ moment) }
{
    shared.tick(rt, share, moment)
}

/// `a_bus_that_comes_up_is_filed_as_down`: the receipts of a bus that came up showed it down.
pub fn receipts_show_the_bus_up<'a, J: LockStart, T: Tally, K: Tallies<T>, R: Wait>(
    rt: &R,
    shared: &Shared<'a, J, T, K>,
    share: &mut Share<'a, J, T>,
) -> Result<(), CallRefusal>
    requires { share.old.role ≡ roles.Bus 0 }
    ensures { OnOk result (shown_down (whole share.new) ≡ false) }
{
    shared.up(rt, share, 0)
}

/// `attempts_of_the_bus_before`: a bus had the attempts of the bus before it.
pub fn locked_bus_has_its_own_attempts<'a, J: LockStart, T: Tally, K: Tallies<T>, R: Wait>(
    rt: &R,
    shared: &Shared<'a, J, T, K>,
    share: &mut Share<'a, J, T>,
) -> Result<Handed, CallRefusal>
    requires role { share.old.role ≡ roles.Bus 1 }
    requires own { tries_of J.start.plant 1 ≡ 5 }
    requires before { tries_of J.start.plant 0 ≡ 3 }
    ensures { IfOk result (λ handed. handed.tries ≡ 5) }
{
    shared.hand(rt, share, 1)
}

/// `bus_63_is_not_met_at_the_close`: the receipts of the last bus were not its events.
pub fn receipts_of_the_last_bus_are_its_events<'a, J: LockStart, T: Tally, K: Tallies<T>>(
    shared: Shared<'a, J, T, K>,
    shares: Shares<'a, J, T>,
    last: &Share<'a, J, T>,
) -> Final<'a, J, T>
    requires { slice_get shares.buses.items 63 ≡ Some last.now }
    ensures { whole last.now ≡ part last.now.role result.plant.history }
{
    shared.close(shares)
}
