//! How transactions are reported.

ghost use Rattle.std.specs.Prelude.{◌≡◌, ◌↔◌, OnOk, OnErr, IfErr, IfSome, IsSome, Some};
ghost use Rattle.plantevents.specs.declared.event.Event.TheVariants as event;
ghost use Rattle.plantevents.specs.Histories.{hand};
ghost use Rattle.plant.specs.Shown.{grown};
ghost use Rattle.plant.specs.Matches.{IsOpenTransaction, IsReportOf};

use super::Plant;
use crate::answers::write_answer;
use buslink::{Report, Transaction};
use plantbuses::note_report;
use plantevents::{Event, Origin};
use readytasks::other_events_leave_tasks;

impl Plant {
    /// What the transaction was made of, where it is the one that a bus has open.
    fn origin_of(&self, bus: u8, number: u64, transaction: &Transaction) -> Option<Origin>
        ensures open { IsSome result ↔ IsOpenTransaction self.now bus number transaction.now }
        ensures origin { IfSome result (λ origin. hand bus self.now.history ≡ Some (record {
          place = number;
          origin = origin;
          transaction = transaction.now;
        })) }
    {
        if bus >= self.setup.plan().buses() {
            return None;
        }
        let open = self.buses[usize::from(bus)].hand().as_ref()?;
        if open.place() == number && open.transaction().is_same(transaction) {
            Some(open.origin())
        } else {
            None
        }
    }

    /// What the reported transaction was made of, where the report is one of the transaction that a
    /// bus has open, by as many attempts as the bus has.
    fn origin_in(&self, bus: u8, number: u64, report: &Report) -> Option<Origin>
        ensures is { IsSome result ↔ IsReportOf self.now bus number report.now }
        ensures origin { IfSome result (λ origin. hand bus self.now.history ≡ Some (record {
          place = number;
          origin = origin;
          transaction = report.now.transaction;
        })) }
    {
        let origin = self.origin_of(bus, number, report.transaction())?;
        if report.tries() == self.tries(bus) {
            Some(origin)
        } else {
            None
        }
    }

    /// Notes the report of the transaction that a bus has open, which was handed out under this
    /// number, and writes its answer to the input that is located there, if one is. It takes no
    /// memory.
    ///
    /// # Errors
    ///
    /// There is no such bus, this is not the transaction that it has open, or the report was made
    /// for another number of attempts than the bus has. The report comes back, and the plant is
    /// unchanged.
    pub fn note_report(&mut self, bus: u8, number: u64, report: Report) -> Result<(), Report>
        ensures open { OnOk result (IsReportOf self.old bus number report) }
        ensures grown { OnOk result (self.new ≡ grown self.old (event.Done bus number report)) }
        ensures stranger { OnErr result (¬ IsReportOf self.old bus number report) }
        ensures err { IfErr result (λ back. (self.new ≡ self.old) × (back ≡ report)) }
    {
        let Some(origin) = self.origin_in(bus, number, &report) else {
            return Err(report);
        };
        other_events_leave_tasks();
        write_answer(
            self.setup.plan(),
            self.inputs[usize::from(bus)].numbers(),
            &mut self.image,
            bus,
            &origin,
            report.outcome(),
        );
        note_report(&mut self.buses, bus, &report);
        self.history.push(&Event::Done {
            bus,
            number,
            report,
        });
        self.length += 1;
        self.kept -= 1;
        Ok(())
    }
}
