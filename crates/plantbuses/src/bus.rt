//! What is kept of a bus.

ghost use Rattle.std.specs.Prelude.{◌≡◌, ◌+◌, ◌<◌, ◌^◌, [], ◌∷◌, ℕ, List, length, drop, IfOk};
ghost use Rattle.std.specs.Prelude.{if◌then◌else◌, slice_index_or};
ghost use Rattle.busqueue.specs.declared.class.Class.{Class as RequestClass};
ghost use Rattle.plantevents.specs.declared.event.Event.{Event};
ghost use Rattle.plantevents.specs.declared.event.Event.TheVariants.{Heard, Hand, Done, Down, Up};
ghost use Rattle.plantevents.specs.Plants.{Plant as Made};
ghost use Rattle.plantbuses.specs.KeptSteps.{AreFresh, BusFollows, BusesFollow, bus_at};
ghost use Rattle.plantbuses.specs.HandingSteps.{IsOfClass, IsAfterHand, is_taken, levels_after};
ghost use Rattle.plantbuses.specs.HandingSteps.{transaction_by};
ghost use Rattle.plantbuses.specs.OfferSteps.{waiting_in, dropped_in};

use crate::next::{Next, transaction_of};
use crate::outputs::LEVELS;
use buslink::{Report, Transaction};
use busqueue::Queues;
use plantevents::Origin;
use std::alloc::{AllocError, Global};
use std::marker::Model;

/// A transaction that a bus has open.
#[derive(Drop)]
pub struct OpenTransaction {
    place: u64,
    origin: Origin,
    transaction: Transaction,
}

impl Model for OpenTransaction {
    ghost use Rattle.plantevents.specs.Histories.{OpenHand};

    ghost Value = { OpenHand };

    ghost view = { λ t. record {
      place = t.place;
      origin = t.origin;
      transaction = t.transaction;
    } };
}

impl OpenTransaction {
    /// The place of its Hand in the history, which is its number.
    pub fn place(&self) -> u64
        ensures value { result ≡ self.now.place }
    {
        self.place
    }

    /// What it was made of.
    pub fn origin(&self) -> Origin
        ensures value { result ≡ self.now.origin }
    {
        self.origin
    }

    /// What is to be sent.
    pub fn transaction(&self) -> &Transaction
        ensures value { result.now ≡ self.now.transaction }
    {
        &self.transaction
    }
}

/// What is kept of a bus.
#[derive(Drop)]
pub struct BusState {
    is_down: bool,
    hand: Option<OpenTransaction>,
    pub(crate) queues: Queues,
    /// The level that was handed out last for each address, 0 to 80, since it came up; 255 before
    /// the first.
    pub(crate) levels: Vec<u8>,
    frames: u64,
    heards: u64,
}

impl Model for BusState {
    ghost use Rattle.plantbuses.specs.KeptSteps.{KeptBus};

    ghost Value = { KeptBus };

    ghost view = { λ s. record {
      is_down = s.is_down;
      hand = s.hand;
      queues = s.queues;
      levels = s.levels.items;
      frames = s.frames;
      heards = s.heards;
    } };
}

impl BusState {
    /// A bus to which nothing has happened, with the memory of all that may wait for it.
    fn new(alloc: Global) -> Result<BusState, AllocError>
        ensures { IfOk result (λ bus. (p : Made) (b : ℕ) → BusFollows p b [] bus) }
    {
        Ok(BusState {
            is_down: false,
            hand: None,
            queues: Queues::new(alloc)?,
            levels: vec![in alloc; 255u8; usize::from(LEVELS)]?,
            frames: 0,
            heards: 0,
        })
    }

    /// Whether it is down.
    pub fn is_down(&self) -> bool
        ensures value { result ≡ self.now.is_down }
    {
        self.is_down
    }

    /// The transaction that it has open.
    pub fn hand(&self) -> &Option<OpenTransaction>
        ensures value { result.now ≡ self.now.hand }
    {
        &self.hand
    }

    /// The requests that wait for it.
    pub fn queues(&self) -> &Queues
        ensures value { result.now ≡ self.now.queues }
    {
        &self.queues
    }

    /// How many frames are in its reports.
    pub fn frames(&self) -> u64
        ensures value { result ≡ self.now.frames }
    {
        self.frames
    }

    /// How many frames were heard on it.
    pub fn heards(&self) -> u64
        ensures value { result ≡ self.now.heards }
    {
        self.heards
    }

    /// Notes what is handed out: a request waits no more, and a level is the last of its address.
    fn note_origin(&mut self, next: Next)
        requires addresses { length self.old.levels ≡ 81 }
        requires class { IsOfClass next.class next.origin }
        ensures waits { (c : RequestClass) → waiting_in self.new c
            ≡ (if is_taken next c then drop 1 (waiting_in self.old c)
            else waiting_in self.old c) }
        ensures drops { (c : RequestClass) → dropped_in self.new c ≡ dropped_in self.old c }
        ensures levels { self.new.levels ≡ levels_after next.origin self.old.levels }
        ensures same { self.new ≡ record self.old {
          queues = self.new.queues;
          levels = self.new.levels;
        } }
    {
        match next.origin {
            Origin::Queued(_) => {
                let _ = self.queues.take(next.class);
            }
            Origin::Output { address, level } => {
                self.levels[usize::from(address)] = level;
            }
        }
    }

    /// Notes that what is next was handed out, at this place of the history.
    fn note_hand(&mut self, place: u64, next: Next)
        requires addresses { length self.old.levels ≡ 81 }
        requires class { IsOfClass next.class next.origin }
        ensures { IsAfterHand place next self.old self.new }
    {
        self.note_origin(next);
        self.hand = Some(OpenTransaction {
            place,
            origin: next.origin(),
            transaction: transaction_of(next),
        });
    }
}

/// So many buses to which nothing has happened.
pub fn fresh_buses(alloc: Global, buses: u8) -> Result<Vec<BusState>, AllocError>
    ensures { IfOk result (λ states. AreFresh buses states.items) }
{
    let mut states = Vec::new(alloc);
    for _ in 0..buses {
        states.push(BusState::new(alloc)?)?;
    }
    Ok(states)
}

/// Notes that a frame was heard on a bus.
pub fn note_heard(buses: &mut Vec<BusState>, bus: u8)
    requires known { bus < length buses.old.items }
    requires few { (bus_at buses.old.items bus).heards + 1 < 2 ^ 64 }
    ensures { (p : Made) (frame : ℕ) (h : List Event) → BusesFollow p h buses.old.items
        → BusesFollow p (Heard bus frame ∷ h) buses.new.items }
{
    buses[usize::from(bus)].heards += 1;
}

/// Notes that a bus went down, which closes its transaction.
pub fn note_down(buses: &mut Vec<BusState>, bus: u8)
    requires known { bus < length buses.old.items }
    ensures { (p : Made) (h : List Event) → BusesFollow p h buses.old.items
        → BusesFollow p (Down bus ∷ h) buses.new.items }
{
    let state = &mut buses[usize::from(bus)];
    state.is_down = true;
    state.hand = None;
}

/// Notes for each address that no level was handed out.
fn forget_levels(levels: &mut Vec<u8>)
    ensures many { length levels.new.items ≡ length levels.old.items }
    ensures none { (a : ℕ) → slice_index_or levels.new.items a 255 ≡ 255 }
{
    for a in 0..levels.len() {
        levels[a] = 255;
    }
}

/// Notes that a bus is up again: no level was handed out to it since. It takes no memory.
pub fn note_up(buses: &mut Vec<BusState>, bus: u8)
    requires known { bus < length buses.old.items }
    ensures { (p : Made) (h : List Event) → BusesFollow p h buses.old.items
        → BusesFollow p (Up bus ∷ h) buses.new.items }
{
    let state = &mut buses[usize::from(bus)];
    state.is_down = false;
    forget_levels(&mut state.levels);
}

/// Notes that a bus was handed what is next, at this place of the history.
pub fn note_hand(buses: &mut Vec<BusState>, bus: u8, place: u64, next: Next)
    requires known { bus < length buses.old.items }
    requires addresses { length (bus_at buses.old.items bus).levels ≡ 81 }
    requires class { IsOfClass next.class next.origin }
    ensures { (p : Made) (h : List Event) → BusesFollow p h buses.old.items → place ≡ length h
        → BusesFollow p (Hand bus next.origin (transaction_by next.class next.origin) ∷ h)
        buses.new.items }
{
    buses[usize::from(bus)].note_hand(place, next);
}

/// Notes the report of the transaction that a bus has open, which closes it.
pub fn note_report(buses: &mut Vec<BusState>, bus: u8, report: &Report)
    requires known { bus < length buses.old.items }
    requires few { (bus_at buses.old.items bus).frames + length report.now.attempts < 2 ^ 64 }
    ensures { (p : Made) (n : ℕ) (h : List Event) → BusesFollow p h buses.old.items
        → BusesFollow p (Done bus n report.now ∷ h) buses.new.items }
{
    let state = &mut buses[usize::from(bus)];
    state.hand = None;
    state.frames += report.attempts().len() as u64;
}
