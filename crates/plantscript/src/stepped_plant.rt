//! A plant that takes steps, with what its callers have open.

ghost use Rattle.std.specs.Prelude.{◌≡◌, IfOk, IfErr, OnOk, MatchOption};
ghost use Rattle.limits.specs.Limits.{most_total};
ghost use Rattle.buslink.specs.Attempts.{Spells};
ghost use Rattle.plant.specs.Matches.{IsReportOf};
ghost use Rattle.plant.specs.Shown.{opened, IsOpenFault, IsWorkerCount, IsLimit, IsRoomy};
ghost use Rattle.plantscript.specs.declared.step.Step.TheVariants as steps;
ghost use Rattle.plantscript.specs.Runs.{Answered, HasNoReport};

use crate::places::{
    Unreported, empty_places, note_order, note_sending, note_sent, sending_at, take_order,
};
use crate::step::{Step, StepReply};
use buslink::{Mark, Report};
use daliframe::Frame24;
use ilcompile::Setup;
use ilmachine::{Work, scan_into};
use limits::MOST_TOTAL;
use plant::{CallRefusal, OpenFault, Plant};
use std::alloc::Global;
use std::marker::Model;

/// A plant that takes steps, with the scan that each worker has open and the transaction that each
/// bus has.
#[derive(Drop)]
pub struct SteppedPlant {
    plant: Plant,
    orders: Vec<Option<Work>>,
    sendings: Vec<Option<Unreported>>,
}

impl Model for SteppedPlant {
    ghost use Rattle.std.specs.Coded.{codes};
    ghost use Rattle.ilplan.specs.contracts.plan.Plan as inner;
    ghost use Rattle.plant.specs.Shown.{Shown};
    ghost use Rattle.plantscript.specs.DeskSteps.{OrdersFollow, SendingsFollow};

    ghost Value = { Shown };

    ghost coded = { Prim.hlevel (codes, inner.the_row.coded) };

    ghost view = { λ d. d.plant };

    ghost invariant = { λ d. OrdersFollow d.plant.plant d.plant.history d.orders.items
        × SendingsFollow d.plant.plant d.plant.history d.sendings.items };
}

impl SteppedPlant {
    /// A plant to which nothing has happened.
    ///
    /// # Errors
    ///
    /// Those of `Plant::open`.
    pub fn open(
        alloc: Global,
        setup: Setup,
        workers: usize,
        limit: u64,
    ) -> Result<SteppedPlant, OpenFault>
        ensures opened { IfOk result (λ desk. desk ≡ opened setup workers limit) }
        ensures workers { OnOk result (IsWorkerCount workers) }
        ensures limit { OnOk result (IsLimit limit) }
        ensures roomy { OnOk result (IsRoomy setup.plan.buses limit) }
        ensures fault { IfErr result (IsOpenFault setup.plan.buses workers limit) }
    {
        let plant = Plant::open(alloc, setup, workers, limit)?;
        let buses = usize::from(plant.setup().plan().buses());
        let orders = empty_places(alloc, workers).map_err(|_| OpenFault::Memory)?;
        let sendings = empty_places(alloc, buses).map_err(|_| OpenFault::Memory)?;
        Ok(SteppedPlant {
            plant,
            orders,
            sendings,
        })
    }

    /// The plant, as it is now.
    pub fn plant(&self) -> &Plant
        ensures { result.now ≡ self.now }
    {
        &self.plant
    }

    /// Lets as many events come as a plant may ever have, 2^59 with those that came.
    pub fn lift_limit(&mut self)
        ensures { self.new ≡ record self.old { limit = most_total } }
    {
        let _within = self.plant.len();
        let _most = self.plant.limit();
        self.plant.set_limit(MOST_TOTAL);
    }

    /// The plant.
    pub fn into_plant(self) -> Plant
        ensures { result ≡ self }
    {
        self.plant
    }

    /// Takes a step.
    pub fn serve(&mut self, alloc: Global, step: &Step) -> StepReply
        ensures { Answered self.old step.now result self.new }
    {
        match step {
            Step::Tick { moment } => self.tick(*moment),
            Step::Heard { bus, frame } => self.note_frame(*bus, *frame),
            Step::Take { worker } => self.take(alloc, *worker),
            Step::Commit { worker } => self.commit(*worker),
            Step::Hand { bus } => self.hand(*bus),
            Step::Done { bus, number, marks } => self.note_report(*bus, *number, marks),
            Step::Down { bus } => self.down(*bus),
            Step::Up { bus } => self.up(*bus),
        }
    }

    /// It is this moment.
    fn tick(&mut self, moment: u64) -> StepReply
        ensures { Answered self.old (steps.Tick moment) result self.new }
    {
        match self.plant.tick(moment) {
            Ok(()) => {}
            Err(refusal) => return StepReply::Refused(refusal),
        }
        let _legal = self.plant.len();
        StepReply::Noted
    }

    /// A frame was heard.
    fn note_frame(&mut self, bus: u8, frame: Frame24) -> StepReply
        ensures { Answered self.old (steps.Heard bus frame) result self.new }
    {
        match self.plant.note_frame(bus, frame) {
            Ok(()) => {}
            Err(refusal) => return StepReply::Refused(refusal),
        }
        let _legal = self.plant.len();
        StepReply::Noted
    }

    /// A worker takes the next task.
    fn take(&mut self, alloc: Global, worker: usize) -> StepReply
        ensures { Answered self.old (steps.Take worker) result self.new }
    {
        let order = match self.plant.take(alloc, worker) {
            Ok(order) => order,
            Err(error) => return StepReply::from(error),
        };
        let (number, task) = (order.number, order.task);
        note_order(&mut self.orders, worker, order.work);
        let _legal = self.plant.len();
        StepReply::Taken { number, task }
    }

    /// A worker makes the scan that it has open, and commits it.
    fn commit(&mut self, worker: usize) -> StepReply
        ensures { Answered self.old (steps.Commit worker) result self.new }
    {
        let work = match take_order(&mut self.orders, worker) {
            Some(work) => work,
            None => return StepReply::Refused(CallRefusal::Stranger),
        };
        match self.plant.commit(worker, scan_into(work)) {
            Ok(()) => {}
            Err(_) => unreachable!(),
        }
        let _legal = self.plant.len();
        StepReply::Noted
    }

    /// A bus is handed what is to be sent next.
    fn hand(&mut self, bus: u8) -> StepReply
        ensures { Answered self.old (steps.Hand bus) result self.new }
    {
        let handed = match self.plant.hand(bus) {
            Ok(handed) => handed,
            Err(refusal) => return StepReply::Refused(refusal),
        };
        let sending = Unreported {
            number: handed.number,
            transaction: handed.transaction.clone().unwrap(),
        };
        note_sending(&mut self.sendings, bus, sending);
        let _legal = self.plant.len();
        StepReply::Handed {
            number: handed.number,
            origin: handed.origin,
            transaction: handed.transaction,
        }
    }

    /// The report that these marks spell of the transaction that a bus has open under this number.
    fn report_of(&self, bus: u8, number: u64, marks: &[Mark]) -> Option<Report>
        ensures { MatchOption result (HasNoReport self.now bus number marks.now)
            (λ report. IsReportOf self.now bus number report
            × Spells report.transaction report.tries marks.now report) }
    {
        let sending = sending_at(&self.sendings, bus)?;
        if sending.number != number {
            return None;
        }
        Report::of(&sending.transaction, self.plant.tries(bus), marks)
    }

    /// The frames of a bus's transaction got these marks.
    fn note_report(&mut self, bus: u8, number: u64, marks: &Vec<Mark>) -> StepReply
        ensures { Answered self.old (steps.Done bus number marks.now) result self.new }
    {
        let report = match self.report_of(bus, number, marks) {
            Some(report) => report,
            None => return StepReply::Refused(CallRefusal::Stranger),
        };
        match self.plant.note_report(bus, number, report) {
            Ok(()) => {}
            Err(_) => unreachable!(),
        }
        note_sent(&mut self.sendings, bus);
        let _legal = self.plant.len();
        StepReply::Noted
    }

    /// A bus goes down.
    fn down(&mut self, bus: u8) -> StepReply
        ensures { Answered self.old (steps.Down bus) result self.new }
    {
        match self.plant.down(bus) {
            Ok(()) => {}
            Err(refusal) => return StepReply::Refused(refusal),
        }
        note_sent(&mut self.sendings, bus);
        let _legal = self.plant.len();
        StepReply::Noted
    }

    /// A bus comes up again.
    fn up(&mut self, bus: u8) -> StepReply
        ensures { Answered self.old (steps.Up bus) result self.new }
    {
        match self.plant.up(bus) {
            Ok(()) => {}
            Err(refusal) => return StepReply::Refused(refusal),
        }
        let _legal = self.plant.len();
        StepReply::Noted
    }
}
