//! What callers of a plant have open: a place for each worker, and one for each bus.

ghost use Rattle.std.specs.Prelude.{◌≡◌, ◌<◌, ◌∷◌, ℕ, List, None, Some, length, IfOk, IfSome, slice_index_or};
ghost use Rattle.buslink.specs.Attempts.{ReportParts};
ghost use Rattle.ilmachine.specs.Snapshots.{ScanStart};
ghost use Rattle.ilmachine.specs.Scans.{Scan, task_of};
ghost use Rattle.plantevents.specs.declared.event.Event.{Event};
ghost use Rattle.plantevents.specs.declared.event.Event.TheVariants as event;
ghost use Rattle.plantevents.specs.declared.event.Origin.{Origin};
ghost use Rattle.plantevents.specs.Plants.{Plant as Made};
ghost use Rattle.plantscript.specs.DeskSteps.{AreEmpty, OrdersFollow, SendingsFollow};

use buslink::Transaction;
use ilmachine::Work;
use std::alloc::{AllocError, Global};
use std::marker::Model;

/// A transaction of which there is no report yet.
#[derive(Drop)]
pub(crate) struct Unreported {
    /// The place of its Hand in the history.
    pub number: u64,
    pub transaction: Transaction,
}

impl Model for Unreported {
    ghost use Rattle.plantscript.specs.DeskSteps.{Sending};

    ghost Value = { Sending };

    ghost view = { λ u. record { number = u.number; transaction = u.transaction } };
}

/// So many places, of which none holds anything.
pub(crate) fn empty_places<T: Drop>(
    alloc: Global,
    count: usize,
) -> Result<Vec<Option<T>>, AllocError>
    ensures { IfOk result (λ places. AreEmpty count places.items) }
{
    let mut places = Vec::new(alloc);
    for _ in 0..count {
        places.push(None)?;
    }
    Ok(places)
}

/// Notes the order of a worker that has taken a task.
pub(crate) fn note_order(orders: &mut Vec<Option<Work>>, worker: usize, work: Work)
    requires { worker < length orders.old.items }
    ensures { (p : Made) (t : ℕ) (s : ScanStart) (h : List Event)
        → OrdersFollow p h orders.old.items → work ≡ task_of (length h) s
        → OrdersFollow p (event.Take worker t s ∷ h) orders.new.items }
{
    orders[worker] = Some(work);
}

/// Takes the order of a worker, if it has one. It has none then.
pub(crate) fn take_order(orders: &mut Vec<Option<Work>>, worker: usize) -> Option<Work>
    ensures order { result ≡ slice_index_or orders.old.items worker None }
    ensures none { result ≡ None → orders.new.items ≡ orders.old.items }
    ensures follow { (p : Made) (n : ℕ) (made : Scan) (h : List Event)
        → OrdersFollow p h orders.old.items
        → OrdersFollow p (event.Commit worker n made ∷ h) orders.new.items }
{
    if worker < orders.len() && orders[worker].is_some() {
        orders[worker].take()
    } else {
        None
    }
}

/// Notes the transaction that a bus was handed.
pub(crate) fn note_sending(sendings: &mut Vec<Option<Unreported>>, bus: u8, sending: Unreported)
    requires { bus < length sendings.old.items }
    ensures { (p : Made) (s : Origin) (h : List Event)
        → SendingsFollow p h sendings.old.items → sending.number ≡ length h
        → SendingsFollow p (event.Hand bus s sending.transaction ∷ h) sendings.new.items }
{
    sendings[usize::from(bus)] = Some(sending);
}

/// The transaction that a bus sends, if it sends one.
pub(crate) fn sending_at(sendings: &Vec<Option<Unreported>>, bus: u8) -> Option<&Unreported>
    ensures none { result ≡ None → slice_index_or sendings.now.items bus None ≡ None }
    ensures some { IfSome result (λ sending.
        slice_index_or sendings.now.items bus None ≡ Some sending.now) }
{
    let place = usize::from(bus);
    if place < sendings.len() {
        sendings[place].as_ref()
    } else {
        None
    }
}

/// Notes that a bus has no transaction open any more.
pub(crate) fn note_sent(sendings: &mut Vec<Option<Unreported>>, bus: u8)
    ensures done { (p : Made) (n : ℕ) (report : ReportParts) (h : List Event)
        → SendingsFollow p h sendings.old.items
        → SendingsFollow p (event.Done bus n report ∷ h) sendings.new.items }
    ensures down { (p : Made) (h : List Event) → SendingsFollow p h sendings.old.items
        → SendingsFollow p (event.Down bus ∷ h) sendings.new.items }
{
    if let Some(place) = sendings.get_mut(usize::from(bus)) {
        *place = None;
    }
}
