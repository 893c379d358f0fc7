//! Receipts.

ghost use Rattle.std.specs.Prelude.{◌≡◌, ◌+◌, ◌*◌, ◌<◌, ◌≤◌, IfSome, Some, false, length};
ghost use Rattle.std.specs.Prelude.{slice_get};
ghost use Rattle.limits.specs.Limits.{most_total};
ghost use Rattle.plantevents.specs.Parts.{placed};
ghost use Rattle.plantreceipts.specs.Receipts.{seat_of};
ghost use Rattle.plantreceipts.specs.Tokens.{id_at};

use plantevents::Event;
use plantreceipts::{LockStart, NotedPart, Share};
use planttallies::{Tallies, Tally};
use std::sync::{OnceLock, OnceToken, Wait};

/// `a_place_stays_kept_back_after_its_tick`: the place that is kept back for a tick was kept on.
/// `an_event_is_filed_and_the_number_left_as_it_was`: the number that the lock keeps did not count
/// the event. `a_receipt_has_the_next_place`: the receipt had the place of the event after it.
pub fn tick_is_filed_at_its_place<'a, J: LockStart, T: Tally, K: Tallies<T>, R: Wait>(
    rt: &R,
    share: &mut Share<'a, J, T>,
    cells: &'a [OnceLock<NotedPart>],
    numbers: &mut K,
    index: u64,
    moment: u64,
) -> u64
    requires cells { cells.now ≡ J.cells }
    requires from { length J.start.history ≤ index }
    requires index { index < length J.start.history + length cells.now }
    requires small { index < most_total }
    requires order { K.number numbers.old (seat_of share.old.role) ≤ 2 * index + 1 }
    ensures reserved { share.new.reserved ≡ false }
    ensures number { K.number numbers.new (seat_of share.old.role) ≡ 2 * (index + 1) }
    ensures place { result ≡ index }
{
    let _ = share.note(rt, cells, numbers, index, Event::Tick { moment });
    share.last_place()
}

/// `the_place_before_the_newest_receipt`: the newest receipt had the place of the event before it.
pub fn newest_receipt_has_its_own_place<J: LockStart, T: Tally>(
    share: &Share<'_, J, T>,
    event: &Event,
) -> u64
    requires { slice_get share.now.receipts 0 ≡ Some (placed 7 event.now) }
    ensures { result ≡ 7 }
{
    share.last_place()
}

/// `cells_from_the_first_event_of_all`: where five events were before the start, the first one
/// after them was filed in the sixth cell.
pub fn first_event_is_filed_in_the_first_cell<'a, J: LockStart, T: Tally, K: Tallies<T>, R: Wait>(
    rt: &R,
    share: &mut Share<'a, J, T>,
    cells: &'a [OnceLock<NotedPart>],
    numbers: &mut K,
    moment: u64,
) -> Option<OnceToken<'a, NotedPart>>
    requires cells { cells.now ≡ J.cells }
    requires start { length J.start.history ≡ 5 }
    requires some { 0 < length cells.now }
    requires order { K.number numbers.old (seat_of share.old.role) ≤ 11 }
    ensures { IfSome result (λ token. token.of ≡ id_at J.cells 0) }
{
    share.note(rt, cells, numbers, 5, Event::Tick { moment })
}
