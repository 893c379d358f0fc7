//! Transactions under the lock.

ghost use Rattle.std.specs.Prelude.{◌≡◌, true, false, OnOk, OnErr, IfOk, IfErr, IsOk, length};
ghost use Rattle.plantevents.specs.declared.event.Event.TheVariants as event;
ghost use Rattle.plantevents.specs.declared.role.Role.TheVariants as roles;
ghost use Rattle.plantevents.specs.Parts.{shown_down};
ghost use Rattle.plantevents.specs.Plants.{tries_of};
ghost use Rattle.limits.specs.Limits.{AreTries};
ghost use Rattle.plant.specs.Matches.{IsReportOf};
ghost use Rattle.plant.specs.Refusals.{GivesFirst, down_cases, hand_cases, up_cases};
ghost use Rattle.plant.specs.Shown.{grown};
ghost use Rattle.plantreceipts.specs.Receipts.{IsNoted, whole};
ghost use Rattle.plantlock.specs.Answers.{Decides, IsNotUp, ShowsTransaction};

use super::LockedPlant;
use buslink::{Report, Transaction};
use plant::{CallRefusal, Handed};
use plantevents::{Event, what_a_part_shows};
use plantreceipts::{LockStart, Share};
use planttallies::{Tallies, Tally};
use std::sync::Wait;

/// The same transaction again.
fn copy_of(transaction: &Transaction) -> Transaction
    ensures { result ≡ transaction.now }
{
    transaction.clone().unwrap()
}

impl<'a, J: LockStart, T: Tally, K: Tallies<T>> LockedPlant<'a, J, T, K> {
    /// Hands a bus what is to be sent next.
    pub fn hand<R: Wait>(
        &mut self,
        rt: &R,
        share: &mut Share<'a, J, T>,
        bus: u8,
    ) -> Result<Handed, CallRefusal>
        requires role { share.old.role ≡ roles.Bus bus }
        ensures event { IfOk result (λ handed. self.new
            ≡ grown self.old (event.Hand bus handed.origin handed.transaction)) }
        ensures noted { IfOk result (λ handed. IsNoted handed.number
            (event.Hand bus handed.origin handed.transaction) share.old share.new) }
        ensures number { IfOk result (λ handed. handed.number ≡ length self.old.history) }
        ensures tries { IfOk result (λ handed. handed.tries ≡ tries_of J.start.plant bus) }
        ensures range { IfOk result (λ handed. AreTries handed.tries) }
        ensures up { OnOk result (shown_down (whole share.old) ≡ false) }
        ensures refused { GivesFirst (hand_cases self.old bus) result }
        ensures err { OnErr result ((self.new ≡ self.old) × (share.new ≡ share.old)) }
    {
        what_a_part_shows();
        self.notes.meet(share);
        let handed = self.plant.hand(bus)?;
        let event = Event::Hand {
            bus,
            origin: handed.origin,
            transaction: copy_of(&handed.transaction),
        };
        self.notes.file(rt, share, &self.plant, event);
        Ok(handed)
    }

    /// Notes the report of a transaction. That of the one that the Share shows open is not refused,
    /// if it was made for the attempts of the bus.
    pub fn note_report<R: Wait>(
        &mut self,
        rt: &R,
        share: &mut Share<'a, J, T>,
        bus: u8,
        number: u64,
        report: Report,
    ) -> Result<(), Report>
        requires role { share.old.role ≡ roles.Bus bus }
        ensures event { OnOk result (self.new ≡ grown self.old (event.Done bus number report)) }
        ensures noted { OnOk result (IsNoted (length self.old.history)
            (event.Done bus number report) share.old share.new) }
        ensures decided { Decides (IsReportOf self.old bus number report) result }
        ensures err { IfErr result (λ back. (self.new ≡ self.old) × (share.new ≡ share.old)
            × (back ≡ report)) }
        ensures open { ShowsTransaction (whole share.old) number report.transaction
            → report.tries ≡ tries_of J.start.plant bus → IsOk result }
    {
        what_a_part_shows();
        self.notes.meet(share);
        let noted = report.clone().unwrap();
        match self.plant.note_report(bus, number, report) {
            Ok(()) => {}
            Err(back) => return Err(back),
        }
        let event = Event::Done {
            bus,
            number,
            report: noted,
        };
        self.notes.file(rt, share, &self.plant, event);
        Ok(())
    }

    /// Closes a bus. Where the Share shows that it is not down, it is not refused.
    pub fn down<R: Wait>(
        &mut self,
        rt: &R,
        share: &mut Share<'a, J, T>,
        bus: u8,
    ) -> Result<(), CallRefusal>
        requires role { share.old.role ≡ roles.Bus bus }
        ensures event { OnOk result (self.new ≡ grown self.old (event.Down bus)) }
        ensures noted { OnOk result
            (IsNoted (length self.old.history) (event.Down bus) share.old share.new) }
        ensures refused { GivesFirst (down_cases self.old bus) result }
        ensures err { OnErr result ((self.new ≡ self.old) × (share.new ≡ share.old)) }
        ensures up { shown_down (whole share.old) ≡ false → IsOk result }
    {
        what_a_part_shows();
        self.notes.meet(share);
        self.plant.down(bus)?;
        self.notes.file(rt, share, &self.plant, Event::Down { bus });
        Ok(())
    }

    /// Opens a bus that was down again.
    pub fn up<R: Wait>(
        &mut self,
        rt: &R,
        share: &mut Share<'a, J, T>,
        bus: u8,
    ) -> Result<(), CallRefusal>
        requires role { share.old.role ≡ roles.Bus bus }
        ensures event { OnOk result (self.new ≡ grown self.old (event.Up bus)) }
        ensures noted { OnOk result
            (IsNoted (length self.old.history) (event.Up bus) share.old share.new) }
        ensures down { OnOk result (shown_down (whole share.old) ≡ true) }
        ensures refused { GivesFirst (up_cases self.old bus) result }
        ensures why { IfErr result (IsNotUp (whole share.old)) }
        ensures err { OnErr result ((self.new ≡ self.old) × (share.new ≡ share.old)) }
    {
        what_a_part_shows();
        self.notes.meet(share);
        self.plant.up(bus)?;
        self.notes.file(rt, share, &self.plant, Event::Up { bus });
        Ok(())
    }
}
