//! How transactions are handed out.

ghost use Rattle.std.specs.Prelude.{◌≡◌, ◌<◌, OnOk, OnErr, IfOk, IfSome, length, slice_get, Some};
ghost use Rattle.std.specs.Prelude.{None, false, is_some, nat_lt, option_map};
ghost use Rattle.limits.specs.Limits.{AreTries};
ghost use Rattle.busqueue.specs.Queues.{class_number};
ghost use Rattle.plantevents.specs.declared.event.Event.TheVariants as event;
ghost use Rattle.plantevents.specs.Histories.{hand as open_hand};
ghost use Rattle.plantevents.specs.Waiting.{waiting, class_handouts, handouts};
ghost use Rattle.plantevents.specs.Legal.{IsHand, IsUp};
ghost use Rattle.plantevents.specs.Plants.{tries_of};
ghost use Rattle.plantbuses.specs.HandingSteps.{IsOfClass, handout_of};
ghost use Rattle.plant.specs.Refusals.{GivesFirst, hand_cases};
ghost use Rattle.plant.specs.Shown.{grown, is_full};

use super::Plant;
use crate::refusal::CallRefusal;
use buslink::Transaction;
use busqueue::Class;
use gearcmd::Request;
use plantbuses::{Next, first_of, note_hand, note_handed, transaction_of};
use plantevents::{Event, Origin};
use readytasks::other_events_leave_tasks;

/// A transaction that was handed to a bus.
#[derive(Drop)]
pub struct Handed {
    /// The place of the Hand in the history.
    pub number: u64,
    /// What the transaction was made of.
    pub origin: Origin,
    /// What is to be sent, under that number.
    pub transaction: Transaction,
    /// The attempts that the bus has for it, 1 to 5.
    pub tries: u8,
}

impl Plant {
    /// The request of a class that has waited longest.
    fn oldest(&self, bus: u8, class: Class) -> Option<Request>
        requires { bus < self.now.plant.plan.buses }
        ensures value { result
            ≡ slice_get (waiting self.now.plant bus (class_number class) self.now.history) 0 }
    {
        self.buses[usize::from(bus)].queues().first(class)
    }

    /// What of a class is handed out first: the request that has waited longest, else the owed
    /// level of the least address.
    fn first_of(&self, bus: u8, class: Class) -> Option<Next>
        requires { bus < self.now.plant.plan.buses }
        ensures first { slice_get (class_handouts self.now.plant bus self.now.history
            (class_number class)) 0 ≡ option_map handout_of result }
        ensures class { IfSome result (λ next. IsOfClass next.class next.origin) }
    {
        let request = self.oldest(bus, class);
        let level = self.first_owed(bus, class);
        first_of(class, request, level)
    }

    /// The first of the least class that has anything.
    fn first_handout(&self, bus: u8) -> Option<Next>
        requires { bus < self.now.plant.plan.buses }
        ensures first { slice_get (handouts self.now.plant bus self.now.history) 0
            ≡ option_map handout_of result }
        ensures class { IfSome result (λ next. IsOfClass next.class next.origin) }
    {
        if let Some(next) = self.first_of(bus, Class::UserAction) {
            return Some(next);
        }
        if let Some(next) = self.first_of(bus, Class::Configuration) {
            return Some(next);
        }
        if let Some(next) = self.first_of(bus, Class::AutomaticAction) {
            return Some(next);
        }
        self.first_of(bus, Class::Query)
    }

    /// What is handed out next, if anything is.
    fn next_handout(&self, bus: u8) -> Option<Next>
        requires { bus < self.now.plant.plan.buses }
        ensures first { slice_get (handouts self.now.plant bus self.now.history) 0
            ≡ option_map handout_of result }
        ensures none { nat_lt 0 (length (handouts self.now.plant bus self.now.history))
            ≡ is_some result }
        ensures class { IfSome result (λ next. IsOfClass next.class next.origin) }
    {
        self.first_handout(bus)
    }

    /// What a bus may be handed, or why it may be handed nothing.
    fn handout_for(&self, bus: u8) -> Result<Next, CallRefusal>
        ensures refused { GivesFirst (hand_cases self.now bus) result }
        ensures up { OnOk result (IsUp self.now.plant self.now.history bus) }
        ensures idle { OnOk result (open_hand bus self.now.history ≡ None) }
        ensures room { OnOk result (is_full self.now ≡ false) }
        ensures first { IfOk result (λ next.
            slice_get (handouts self.now.plant bus self.now.history) 0 ≡ Some (handout_of next)) }
        ensures class { IfOk result (λ next. IsOfClass next.class next.origin) }
    {
        self.is_up(bus)?;
        if self.buses[usize::from(bus)].hand().is_some() {
            return Err(CallRefusal::Busy);
        }
        let Some(next) = self.next_handout(bus) else {
            return Err(CallRefusal::NothingReady);
        };
        if self.is_full() {
            return Err(CallRefusal::Full);
        }
        Ok(next)
    }

    /// Whether a bus may be handed a transaction, and else why not.
    pub fn allows_hand(&self, bus: u8) -> Result<(), CallRefusal>
        ensures refused { GivesFirst (hand_cases self.now bus) result }
    {
        match self.handout_for(bus) {
            Ok(_) => Ok(()),
            Err(refusal) => Err(refusal),
        }
    }

    /// Hands a bus what is to be sent next: of the least class that has anything the request that
    /// has waited longest; else, of that class, the owed level of the least address. It takes no
    /// memory.
    ///
    /// # Errors
    ///
    /// There is no such bus, it is down, it has a transaction open, nothing is to be sent, or the
    /// history is full: the first of these. The plant is unchanged then.
    pub fn hand(&mut self, bus: u8) -> Result<Handed, CallRefusal>
        ensures refused { GivesFirst (hand_cases self.old bus) result }
        ensures number { IfOk result (λ handed. handed.number ≡ length self.old.history) }
        ensures next { IfOk result (λ handed. IsHand self.old.plant self.old.history bus
            handed.origin handed.transaction) }
        ensures tries { IfOk result (λ handed. handed.tries ≡ tries_of self.old.plant bus) }
        ensures range { IfOk result (λ handed. AreTries handed.tries) }
        ensures grown { IfOk result (λ handed. self.new
            ≡ grown self.old (event.Hand bus handed.origin handed.transaction)) }
        ensures err { OnErr result (self.new ≡ self.old) }
    {
        let next = self.handout_for(bus)?;
        let number = self.length;
        let tries = self.tries(bus);
        other_events_leave_tasks();
        note_hand(&mut self.buses, bus, number, next);
        note_handed(&mut self.owed, bus, next);
        self.history.push(&Event::Hand {
            bus,
            origin: next.origin(),
            transaction: transaction_of(next),
        });
        self.length += 1;
        self.kept += 1;
        Ok(Handed {
            number,
            origin: next.origin(),
            transaction: transaction_of(next),
            tries,
        })
    }
}
