//! The requests of one class.
ghost use Rattle.std.specs.Prelude.{◌≡◌, ◌<◌, ◌+◌, ◌^◌, ◌↔◌, [], ◌∷◌, ◌++◌, length};
ghost use Rattle.std.specs.Prelude.{IfOk, IsTrue, slice_get, if◌then◌else◌};
ghost use Rattle.circular_buffer.specs.Buffer.{buffer};
ghost use Rattle.limits.specs.Limits.{most_waiting};
ghost use Rattle.busqueue.specs.Queues.{queue, after_offer, after_next};

use circular_buffer::HeapCircularBuffer;
use gearcmd::Request;
use limits::MOST_WAITING;
use std::alloc::{AllocError, Global};
use std::marker::Model;

/// The requests of one class that wait for a bus, and how many were dropped.
#[derive(Drop)]
pub(crate) struct ClassQueue {
    requests: HeapCircularBuffer<Request>,
    dropped: u64,
}

impl Model for ClassQueue {
    ghost use Rattle.std.specs.Prelude.{◌≡◌};
    ghost use Rattle.limits.specs.Limits.{most_waiting};
    ghost use Rattle.busqueue.specs.Queues.{Queue, queue};

    ghost Value = { Queue };

    ghost view = { λ q. queue q.requests.items q.dropped };

    ghost invariant = { λ q. q.requests.capacity ≡ most_waiting };
}

impl ClassQueue {
    /// A queue with all places free.
    pub(crate) fn new(alloc: Global) -> Result<ClassQueue, AllocError>
        ensures { IfOk result (λ q. q ≡ queue [] 0) }
    {
        Ok(ClassQueue {
            requests: HeapCircularBuffer::with_capacity(alloc, MOST_WAITING)?,
            dropped: 0,
        })
    }

    /// Whether nothing waits.
    pub(crate) fn is_empty(&self) -> bool
        ensures { IsTrue result ↔ (self.now.waiting ≡ []) }
    {
        self.requests.is_empty()
    }

    /// How many wait.
    pub(crate) fn waiting(&self) -> usize
        ensures value { result ≡ length self.now.waiting }
    {
        self.requests.len()
    }

    /// How many were dropped.
    pub(crate) fn drop_count(&self) -> u64
        ensures value { result ≡ self.now.dropped }
    {
        self.dropped
    }

    /// Takes a request in where a place is free, or drops and counts it. Whether it was taken in.
    pub(crate) fn offer(&mut self, request: Request) -> bool
        requires countable { self.old.dropped + 1 < 2 ^ 64 }
        ensures accepted { IsTrue result ↔ (length self.old.waiting < most_waiting) }
        ensures queue { self.new ≡ after_offer self.old request }
    {
        let accepted = accept(&mut self.requests, &request);
        if !accepted {
            self.dropped += 1;
        }
        accepted
    }

    /// The oldest request.
    pub(crate) fn first(&self) -> Option<Request>
        ensures oldest { result ≡ slice_get self.now.waiting 0 }
    {
        match self.requests.front() {
            Some(request) => Some(*request),
            None => None,
        }
    }

    /// Hands out the oldest request.
    pub(crate) fn next(&mut self) -> Option<Request>
        ensures oldest { result ≡ slice_get self.old.waiting 0 }
        ensures queue { self.new ≡ after_next self.old }
    {
        self.requests.pop_front()
    }
}

/// Takes an item in behind the others where a place is free. Whether it was taken in.
///
/// It is generic, and takes the item by reference, since the toolchain finds no proof where a
/// request itself is moved into a call of a generic function.
fn accept<T: Copy>(places: &mut HeapCircularBuffer<T>, item: &T) -> bool
    ensures accepted { IsTrue result ↔ (length places.old.items < places.old.capacity) }
    ensures items { places.new ≡ (if result
        then buffer (places.old.items ++ item.now ∷ []) places.old.capacity
        else places.old) }
{
    places.try_push_back(*item).is_ok()
}
