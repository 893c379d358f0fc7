//! The requests of all classes.
ghost use Rattle.std.specs.Prelude.{◌≡◌, ◌<◌, ◌+◌, ◌^◌, ◌↔◌, [], length};
ghost use Rattle.std.specs.Prelude.{IfOk, IsTrue, slice_get, if◌then◌else◌};
ghost use Rattle.busqueue.specs.declared.class.Class.{Class as RequestClass};
ghost use Rattle.limits.specs.Limits.{most_waiting};
ghost use Rattle.busqueue.specs.Queues.{queue, queue_of, is_class, after_offer};
ghost use Rattle.busqueue.specs.Queues.{after_next, IsLeastClass, IsNext, left_of};

use crate::class::Class;
use crate::class_queue::ClassQueue;
use gearcmd::Request;
use std::alloc::{AllocError, Global};
use std::marker::Model;

/// The requests that wait for one bus, by class: 64 at most of each, the oldest first. For each
/// class it counts what was dropped.
#[derive(Drop)]
pub struct Queues {
    user_action: ClassQueue,
    configuration: ClassQueue,
    automatic_action: ClassQueue,
    query: ClassQueue,
}

impl Model for Queues {
    ghost use Rattle.busqueue.specs.Queues.{BusQueues};

    ghost Value = { BusQueues };

    ghost view = { λ q. record {
      user_action = q.user_action;
      configuration = q.configuration;
      automatic_action = q.automatic_action;
      query = q.query;
    } };
}

impl Queues {
    /// Queues in which nothing waits, with the memory of all their places.
    pub fn new(alloc: Global) -> Result<Queues, AllocError>
        ensures { IfOk result (λ queues. (c : RequestClass) → queue_of queues c ≡ queue [] 0) }
    {
        Ok(Queues {
            user_action: ClassQueue::new(alloc)?,
            configuration: ClassQueue::new(alloc)?,
            automatic_action: ClassQueue::new(alloc)?,
            query: ClassQueue::new(alloc)?,
        })
    }

    /// Takes a request of a class in behind those that wait, where fewer than 64 of its class do;
    /// else drops and counts it. Whether it was taken in. It takes no memory.
    ///
    /// The count has 64 bits, so the caller knows that fewer than 2^64 - 1 of the class were
    /// dropped, as from the number of its offers.
    pub fn offer(&mut self, class: Class, request: Request) -> bool
        requires countable { (queue_of self.old class).dropped + 1 < 2 ^ 64 }
        ensures accepted { IsTrue result
            ↔ (length (queue_of self.old class).waiting < most_waiting) }
        ensures queues { (c : RequestClass) → queue_of self.new c
            ≡ (if is_class c class then after_offer (queue_of self.old c) request
            else queue_of self.old c) }
    {
        match class {
            Class::UserAction => self.user_action.offer(request),
            Class::Configuration => self.configuration.offer(request),
            Class::AutomaticAction => self.automatic_action.offer(request),
            Class::Query => self.query.offer(request),
        }
    }

    /// The least class of which a request waits.
    pub(crate) fn least_class(&self) -> Option<Class>
        ensures { IsLeastClass self.now result }
    {
        if !self.user_action.is_empty() {
            Some(Class::UserAction)
        } else if !self.configuration.is_empty() {
            Some(Class::Configuration)
        } else if !self.automatic_action.is_empty() {
            Some(Class::AutomaticAction)
        } else if !self.query.is_empty() {
            Some(Class::Query)
        } else {
            None
        }
    }

    /// Hands out the oldest request of the least class, with its class. It takes no memory.
    pub fn next(&mut self) -> Option<(Class, Request)>
        ensures next { IsNext self.old result }
        ensures queues { (c : RequestClass) →
            queue_of self.new c ≡ left_of result c (queue_of self.old c) }
    {
        let class = self.least_class()?;
        let request = self.take(class)?;
        Some((class, request))
    }

    /// The oldest request of a class.
    pub fn first(&self, class: Class) -> Option<Request>
        ensures oldest { result ≡ slice_get (queue_of self.now class).waiting 0 }
    {
        match class {
            Class::UserAction => self.user_action.first(),
            Class::Configuration => self.configuration.first(),
            Class::AutomaticAction => self.automatic_action.first(),
            Class::Query => self.query.first(),
        }
    }

    /// Hands out the oldest request of a class. It takes no memory.
    pub fn take(&mut self, class: Class) -> Option<Request>
        ensures oldest { result ≡ slice_get (queue_of self.old class).waiting 0 }
        ensures queues { (c : RequestClass) → queue_of self.new c
            ≡ (if is_class c class then after_next (queue_of self.old c)
            else queue_of self.old c) }
    {
        match class {
            Class::UserAction => self.user_action.next(),
            Class::Configuration => self.configuration.next(),
            Class::AutomaticAction => self.automatic_action.next(),
            Class::Query => self.query.next(),
        }
    }

    /// How many requests of a class wait, at most 64.
    pub fn waiting(&self, class: Class) -> usize
        ensures value { result ≡ length (queue_of self.now class).waiting }
    {
        match class {
            Class::UserAction => self.user_action.waiting(),
            Class::Configuration => self.configuration.waiting(),
            Class::AutomaticAction => self.automatic_action.waiting(),
            Class::Query => self.query.waiting(),
        }
    }

    /// How many requests of a class were dropped.
    pub fn drop_count(&self, class: Class) -> u64
        ensures value { result ≡ (queue_of self.now class).dropped }
    {
        match class {
            Class::UserAction => self.user_action.drop_count(),
            Class::Configuration => self.configuration.drop_count(),
            Class::AutomaticAction => self.automatic_action.drop_count(),
            Class::Query => self.query.drop_count(),
        }
    }
}
