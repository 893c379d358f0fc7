//! What is kept of one task.
ghost use Rattle.std.specs.Prelude.{◌≡◌, ℕ, ◌+◌, ◌<◌, ◌^◌, [], ◌∷◌, List, length};
ghost use Rattle.std.specs.Prelude.{◌||◌, true, false, IfOk, Some, slice_get};
ghost use Rattle.plantevents.specs.Snapshots.{ScanStart};
ghost use Rattle.plantevents.specs.Scans.{Scan};
ghost use Rattle.plantevents.specs.declared.event.Event.{Event};
ghost use Rattle.plantevents.specs.declared.event.Event.TheVariants.{Tick, Heard, Take, Commit};
ghost use Rattle.plantevents.specs.Histories.{OpenScan, moment, scan};
ghost use Rattle.readytasks.specs.declared.setup.TaskSetup.{TaskSetup as Setup};
ghost use Rattle.readytasks.specs.TaskSets.{HasInterval, TaskFollows};
ghost use Rattle.readytasks.specs.TaskSetSteps.{is_ready};

use crate::activation::{activation_by, first_count};
use crate::setup::TaskSetup;
use circular_buffer::HeapCircularBuffer;
use daliframe::Frame24;
use limits::MOST_PENDING;
use plantevents::{Activator, PendingEvent};
use std::alloc::{AllocError, Global};
use std::marker::Model;

/// What is kept of one task.
#[derive(Drop)]
pub(crate) struct TaskState {
    setup: TaskSetup,
    /// The moment of its last Take.
    last_take: Option<u64>,
    pending: HeapCircularBuffer<PendingEvent>,
    /// The count of its source.
    count: u16,
    /// How many activations were given up.
    lost: u64,
    /// Where it is ready, the length of the history from which on it was.
    since: u64,
    /// Whether a scan of it is open.
    is_scanned: bool,
}

impl Model for TaskState {
    ghost use Rattle.std.specs.Prelude.{◌≡◌};
    ghost use Rattle.limits.specs.Limits.{most_pending};
    ghost use Rattle.readytasks.specs.TaskSets.{KeptTask, HasInterval};

    ghost Value = { KeptTask };

    ghost view = { λ s. record {
      setup = s.setup;
      last_take = s.last_take;
      pending = s.pending.items;
      count = s.count;
      lost = s.lost;
      since = s.since;
      is_scanned = s.is_scanned;
    } };

    ghost invariant = { λ s.
        (s.pending.capacity ≡ most_pending) × HasInterval s.setup.activator };
}

impl TaskState {
    /// A task to which nothing has happened.
    pub(crate) fn new(alloc: Global, setup: TaskSetup) -> Result<TaskState, AllocError>
        requires interval { HasInterval setup.activator }
        ensures { IfOk result (λ s. (t : ℕ) → TaskFollows setup t [] s) }
    {
        Ok(TaskState {
            setup,
            last_take: None,
            pending: HeapCircularBuffer::with_capacity(alloc, MOST_PENDING)?,
            count: first_count(setup.activator),
            lost: 0,
            since: 0,
            is_scanned: false,
        })
    }

    /// Whether the task is ready at this moment.
    pub(crate) fn is_ready(&self, now: u64) -> bool
        ensures value { result ≡ is_ready self.now now }
    {
        match self.setup.activator {
            Some(Activator::Interval { milliseconds }) => match self.last_take {
                None => true,
                Some(before) => before / u64::from(milliseconds) < now / u64::from(milliseconds),
            },
            Some(Activator::Messages { .. }) => self.pending.len() > 0,
            None => false,
        }
    }

    /// Notes a tick, at a place of the history: whether the task was ready before, and is after.
    pub(crate) fn tick(&mut self, place: u64, was: bool, is: bool)
        requires small { place + 1 < 2 ^ 64 }
        ensures same { self.new ≡ record self.old { since = self.new.since } }
        ensures stays { was ≡ true → self.new.since ≡ self.old.since }
        ensures follows { (setup : Setup) (t m : ℕ) (h : List Event)
            → TaskFollows setup t h self.old → was ≡ is_ready self.old (moment h)
            → is ≡ is_ready self.old m → place ≡ length h
            → TaskFollows setup t (Tick m ∷ h) self.new }
    {
        if is && !was {
            self.since = place + 1;
        }
    }

    /// Notes a frame that was heard on a bus. The answer is whether the task was not ready, and is.
    pub(crate) fn heard(&mut self, place: u64, bus: u8, frame: Frame24) -> bool
        requires small { place + 1 < 2 ^ 64 }
        ensures setup { self.new.setup ≡ self.old.setup }
        ensures stays { result ≡ false → self.new.since ≡ self.old.since }
        ensures begins { (m : ℕ) → result ≡ true → is_ready self.old m ≡ false }
        ensures ready { (m : ℕ) → is_ready self.new m ≡ (is_ready self.old m || result) }
        ensures follows { (setup : Setup) (t : ℕ) (h : List Event)
            → TaskFollows setup t h self.old → place ≡ length h
            → TaskFollows setup t (Heard bus frame ∷ h) self.new }
    {
        let Some(information) = activation_by(self.setup.activator, bus, frame) else {
            return false;
        };
        let begins = self.pending.len() == 0;
        if begins {
            self.since = place + 1;
        }
        self.count = self.count.wrapping_add(1);
        let count = self.count;
        let event = PendingEvent {
            place,
            information,
            count,
        };
        // Each lost event is one of the history, so the count is never at its greatest.
        if self.pending.len() >= MOST_PENDING {
            self.lost = self.lost.saturating_add(1);
        }
        let _ = self.pending.push_back(event);
        begins
    }

    /// Notes that it was taken. The answer is the pending event that this uses up.
    pub(crate) fn took(&mut self, place: u64, now: u64) -> Option<PendingEvent>
        requires small { place + 1 < 2 ^ 64 }
        ensures first { result ≡ slice_get self.old.pending 0 }
        ensures follows { (setup : Setup) (t w : ℕ) (s : ScanStart) (h : List Event)
            → TaskFollows setup t h self.old → now ≡ moment h → place ≡ length h
            → TaskFollows setup t (Take w t s ∷ h) self.new }
    {
        self.last_take = Some(now);
        self.since = place + 1;
        self.is_scanned = true;
        self.pending.pop_front()
    }

    /// Notes that its scan was written.
    pub(crate) fn ended(&mut self)
        ensures same { self.new ≡ record self.old { is_scanned = false } }
        ensures follows { (setup : Setup) (t w n : ℕ) (result : Scan) (running : OpenScan) (h : List Event)
            → TaskFollows setup t h self.old → scan w h ≡ Some running → running.task ≡ t
            → TaskFollows setup t (Commit w n result ∷ h) self.new }
    {
        self.is_scanned = false;
    }

    /// Whether a scan of it is open.
    pub(crate) fn is_scanned(&self) -> bool
        ensures value { result ≡ self.now.is_scanned }
    {
        self.is_scanned
    }

    /// Its priority, of which 0 is the first.
    pub(crate) fn priority(&self) -> u16
        ensures value { result ≡ self.now.setup.priority }
    {
        self.setup.priority
    }

    /// Where it is ready, the length of the history from which on it was.
    pub(crate) fn since(&self) -> u64
        ensures value { result ≡ self.now.since }
    {
        self.since
    }

    /// The oldest event that is pending.
    pub(crate) fn first_pending(&self) -> Option<PendingEvent>
        ensures value { result ≡ slice_get self.now.pending 0 }
    {
        self.pending.front().copied()
    }

    /// How many activations were given up.
    pub(crate) fn loss_count(&self) -> u64
        ensures value { result ≡ self.now.lost }
    {
        self.lost
    }
}
