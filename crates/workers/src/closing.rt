//! The end of a run: the lock is opened for good.

ghost use Rattle.std.specs.Prelude.{◌≡◌, ◌≤◌, [], length, vec_len, vec_capacity};
ghost use Rattle.plant.specs.Shown.{is_full};
ghost use Rattle.plantturns.specs.Tied.{IsFront};
ghost use Rattle.workers.specs.Closings.{IsClosed};
ghost use Rattle.workers.specs.Endings.{ended_as_told};
ghost use Rattle.workers.specs.LinkedShares.{AreLinkedShares};

use crate::closed::ClosedParts;
use crate::closed_plant::ClosedPlant;
use crate::ended::Ended;
use crate::linked_shares::LinkedShares;
use crate::pairing::take_apart;
use buslink::{Bus, Clock};
use plant::Plant;
use plantevents::{what_a_part_shows, what_a_part_shows_of_links};
use planttallies::{Tallies, Tally};
use plantturns::{ClockWithShare, Final, Links, LockStart, Share, Shared, Shares};

/// Empty lists with room for the buses and their Shares.
#[derive(Drop)]
pub(crate) struct BusLists<'a, B: Bus, J: LockStart, T: Tally> {
    pub lines: Vec<B>,
    pub shares: Vec<Share<'a, J, T>>,
}

/// Why a run ended, where this was told. That the history is full is looked up, since the cell in
/// which the end is told proves nothing: it is, since a worker was refused a place and fullness
/// never stops, so the other answer never comes.
fn as_shown(plant: &Plant, told: Ended) -> Ended
    ensures shown { result ≡ ended_as_told (is_full plant.now) told }
{
    if matches!(told, Ended::Limit) && !plant.is_full() {
        return Ended::NoMemory;
    }
    told
}

/// Opens the lock for good. What went over each link is what the plant's history says.
pub(crate) fn close<'a, B: Bus, C: Clock, J: LockStart + Links, T: Tally, K: Tallies<T>>(
    shared: Shared<'a, J, T, K>,
    linked: LinkedShares<'a, B, C, J, T>,
    bus_lists: BusLists<'a, B, J, T>,
    ended: Ended,
) -> ClosedParts<B, C>
    requires none { (bus_lists.lines.items ≡ []) × (bus_lists.shares.items ≡ []) }
    requires room { (vec_len linked.buses ≤ vec_capacity bus_lists.lines)
        × (vec_len linked.buses ≤ vec_capacity bus_lists.shares) }
    requires workers { length linked.workers.items ≡ J.start.plant.workers }
    requires buses { length linked.buses.items ≡ J.start.plant.plan.buses }
    requires linked { AreLinkedShares J.buses J.clock B.log C.log linked }
    ensures closed { IsClosed J.start.plant J.buses J.clock B.log C.log result }
    ensures count { length result.buses.items ≡ length linked.entry.buses.items }
    ensures clock { result.clock ≡ linked.entry.timed.clock }
    ensures front { IsFront J.start.history result.plant.history }
    ensures limit { result.plant.limit ≡ J.start.limit }
    ensures ended { result.ended ≡ ended_as_told (is_full result.plant) ended }
{
    what_a_part_shows();
    what_a_part_shows_of_links();
    let LinkedShares {
        buses,
        workers,
        timed,
    } = linked;
    let BusLists {
        mut lines,
        mut shares,
    } = bus_lists;
    take_apart(buses, &mut lines, &mut shares);
    let ClockWithShare { clock, share } = timed;
    let Final { plant, shares: _ } = shared.close(Shares {
        workers,
        buses: shares,
        clock: share,
    });
    let ended = as_shown(&plant, ended);
    ClosedParts {
        plant: ClosedPlant { plant },
        buses: lines,
        clock,
        ended,
    }
}
