//! A plant that repeats what another one did.

use buslink::{Mark, Report};
use ilcompile::Setup;
use limits::MOST_EVENTS;
use plant::{OpenFault, Plant};
use plantscript::{Step, StepReply, SteppedPlant};
use plantturns::Happened;
use std::alloc::Global;

/// A plant that repeats what another one did, event by event in their order. Since a plant decides
/// nothing by chance, it is then as the other one was.
#[derive(Drop)]
pub(crate) struct Follower {
    stepped: SteppedPlant,
}

impl Follower {
    /// A plant to which nothing has happened.
    ///
    /// # Errors
    ///
    /// Those of `Plant::open`.
    pub(crate) fn open(alloc: Global, setup: Setup, workers: usize) -> Result<Follower, OpenFault> {
        let mut stepped = SteppedPlant::open(alloc, setup, workers, u64::from(MOST_EVENTS))?;
        stepped.lift_limit();
        Ok(Follower { stepped })
    }

    /// The plant as it is after what was repeated.
    pub(crate) fn plant(&self) -> &Plant {
        self.stepped.plant()
    }

    /// Repeats an event. Answers whether the plant took it as the other one did: the same task, the
    /// same frames.
    pub(crate) fn follow(&mut self, alloc: Global, happened: &Happened) -> bool {
        let Some(step) = step_of(alloc, self.plant(), happened) else {
            return false;
        };
        match (self.stepped.serve(alloc, &step), happened) {
            (StepReply::Refused(_) | StepReply::Memory, _) => false,
            (StepReply::Taken { task, .. }, Happened::Took { task: told, .. }) => task == *told,
            (
                StepReply::Handed { transaction, .. },
                Happened::Handed {
                    transaction: told,
                    ..
                },
            ) => transaction.is_same(told),
            _ => true,
        }
    }
}

/// The step that repeats an event; none where memory is refused, or where a report is of no
/// transaction.
fn step_of(alloc: Global, plant: &Plant, happened: &Happened) -> Option<Step> {
    match happened {
        Happened::Ticked { moment } => Some(Step::Tick { moment: *moment }),
        Happened::Heard { bus, frame } => Some(Step::Heard {
            bus: *bus,
            frame: *frame,
        }),
        Happened::Took { worker, .. } => Some(Step::Take { worker: *worker }),
        Happened::Committed { worker, .. } => Some(Step::Commit { worker: *worker }),
        Happened::Handed { bus, .. } => Some(Step::Hand { bus: *bus }),
        Happened::Reported { bus, report } => done(alloc, plant, *bus, report),
        Happened::WentDown { bus } => Some(Step::Down { bus: *bus }),
        Happened::CameUp { bus } => Some(Step::Up { bus: *bus }),
    }
}

/// The step that repeats a report of a bus.
fn done(alloc: Global, plant: &Plant, bus: u8, report: &Report) -> Option<Step> {
    if bus >= plant.setup().plan().buses() {
        return None;
    }
    let number = plant.open_hand(bus)?;
    let marks = marks_of(alloc, report)?;
    Some(Step::Done { bus, number, marks })
}

/// What became of each frame of a report.
fn marks_of(alloc: Global, report: &Report) -> Option<Vec<Mark>> {
    let mut marks = Vec::new(alloc);
    for sent in report.attempts() {
        if marks.push(sent.mark).is_err() {
            return None;
        }
    }
    Some(marks)
}
