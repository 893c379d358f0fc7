//! What is about to run, as a report.

use crate::buildings::Building;
use crate::lineup::line_for;
use buslink::{Bus, Clock};
use commandoptions::LineWord;
use ilplan::{Activation, Global, Location, Plan};
use iltypes::Value;
use std::fmt;

/// What is about to run in a building: its buses with their lines, its tasks with their bounds, and
/// what its levels begin at, a line each.
#[derive(Clone, Copy)]
pub struct Departure<'d, 'a, B: Bus, C: Clock> {
    pub building: &'d Building<B, C>,
    pub lines: &'d [LineWord<'a>],
}

impl<B: Bus, C: Clock> fmt::Display for Departure<'_, '_, B, C> {
    fn fmt<W: fmt::Write>(&self, f: &mut fmt::Formatter<W>) -> fmt::Result {
        let plan = self.building.setup.plan();
        writeln!(f, "a tick each {} ms", self.building.period)?;
        write_lines(f, self.lines, plan.buses())?;
        write_tasks(f, self.building)?;
        write_levels(f, plan)
    }
}

/// A line for each bus, with the path that it is reached by.
fn write_lines<W: fmt::Write>(
    f: &mut fmt::Formatter<W>,
    lines: &[LineWord],
    buses: u8,
) -> fmt::Result {
    for bus in 0..buses {
        match line_for(lines, bus) {
            Some(
                LineWord {
                    from,
                    to: Some(to),
                    ..
                },
            ) => writeln!(f, "bus {bus} from {from} to {to}")?,
            Some(LineWord { from, .. }) => writeln!(f, "bus {bus} {from}")?,
            None => {}
        }
    }
    Ok(())
}

/// A line for each task, with what starts it and the most instructions that a scan takes.
fn write_tasks<W: fmt::Write, B: Bus, C: Clock>(
    f: &mut fmt::Formatter<W>,
    building: &Building<B, C>,
) -> fmt::Result {
    let plan = building.setup.plan();
    for task in 0..plan.tasks() {
        let name = plan.task_name(task);
        let bound = building.setup.code(task).bound();
        match plan.task(task).activation() {
            Activation::Cyclic { interval } => {
                writeln!(f, "task {name} each {interval} ms bound {bound}")?
            }
            Activation::Event { .. } => writeln!(f, "task {name} on an event bound {bound}")?,
        }
    }
    Ok(())
}

/// A line for each level that is sent at the start, since it does not begin at 255. It says what
/// the level begins at: a scan that comes before the bus's turn may store what is sent.
fn write_levels<W: fmt::Write>(f: &mut fmt::Formatter<W>, plan: &Plan) -> fmt::Result {
    for global in 0..plan.globals() {
        write_level(f, *plan.global(global))?;
    }
    Ok(())
}

/// The line of a global variable that is located at a level, where that does not begin at 255.
fn write_level<W: fmt::Write>(f: &mut fmt::Formatter<W>, global: Global) -> fmt::Result {
    match (global.location, global.initial) {
        (_, Value::Int(255)) => Ok(()),
        (Some(Location::Level { bus, address }), Value::Int(level)) => match address {
            0..=63 => writeln!(f, "level bus {bus} short {address} begins at {level}"),
            64..=79 => writeln!(
                f,
                "level bus {bus} group {} begins at {level}",
                address - 64
            ),
            _ => writeln!(f, "level bus {bus} broadcast begins at {level}"),
        },
        _ => Ok(()),
    }
}
