//! What was given up, as far as it was written.

ghost use Rattle.std.specs.Prelude.{◌<◌};

use crate::log_lines::Stamp;
use crate::status::dropped_at;
use ilplan::Plan;
use plant::Plant;
use std::alloc::{AllocError, Global};
use std::io;
use std::io::Write;

/// How many requests were dropped at each bus, and how many events were given up for each task, as
/// far as it was written.
#[derive(Drop)]
pub(crate) struct Counts {
    dropped: Vec<u64>,
    lost: Vec<u64>,
}

impl Counts {
    /// Nothing was given up yet.
    ///
    /// # Errors
    ///
    /// The allocator is out of memory.
    pub(crate) fn new(alloc: Global, plan: &Plan) -> Result<Counts, AllocError> {
        Ok(Counts {
            dropped: zeros(alloc, usize::from(plan.buses()))?,
            lost: zeros(alloc, plan.tasks())?,
        })
    }

    /// Writes a line for each bus at which requests were dropped since, and one for each task for
    /// which events were given up.
    ///
    /// # Errors
    ///
    /// The writer's.
    pub(crate) fn write<W: Write>(
        &mut self,
        out: &mut W,
        stamp: &Stamp,
        plant: &Plant,
    ) -> io::Result<()> {
        let plan = plant.setup().plan();
        for bus in 0..plan.buses() {
            let more = more_than(&mut self.dropped, usize::from(bus), dropped_at(plant, bus));
            if more > 0 {
                writeln!(out, "{stamp} ! dropped bus {bus}: {more}")?;
            }
        }
        for task in 0..plan.tasks() {
            let more = more_than(&mut self.lost, task, plant.loss_count(task));
            if more > 0 {
                writeln!(out, "{stamp} ! lost {}: {more}", plan.task_name(task))?;
            }
        }
        Ok(())
    }
}

/// So many zeros.
fn zeros(alloc: Global, count: usize) -> Result<Vec<u64>, AllocError> {
    let mut zeros = Vec::new(alloc);
    for _ in 0..count {
        zeros.push(0)?;
    }
    Ok(zeros)
}

/// How much a count is above the one that was noted before; the new one is noted.
fn more_than(noted: &mut Vec<u64>, place: usize, now: u64) -> u64 {
    match noted.get_mut(place) {
        Some(before) => {
            let more = now.saturating_sub(*before);
            *before = now;
            more
        }
        None => 0,
    }
}
