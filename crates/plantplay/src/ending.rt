//! How a play ends, and what is left then.

ghost use Rattle.std.specs.Prelude.{◌<◌};

use busqueue::Class;
use plant::Plant;
use std::io;
use std::io::Write;

/// How a play ended.
#[derive(Clone, Copy, PartialEq, Eq, Debug)]
pub enum Ending {
    /// All that the scenario says happened, and nothing is left to do.
    Whole,
    /// The history was full before.
    Limit,
    /// The allocator was out of memory before.
    NoMemory,
}

/// The classes of requests, by their numbers.
const CLASSES: [Class; 4] = [
    Class::UserAction,
    Class::Configuration,
    Class::AutomaticAction,
    Class::Query,
];

/// Writes the values of all global variables, then what was given up.
pub(crate) fn write_end<W: Write>(out: &mut W, plant: &Plant) -> io::Result<()> {
    write_globals(out, plant)?;
    write_counts(out, plant)
}

/// Writes a line for each global variable, with its value.
///
/// # Errors
///
/// The writer's.
pub fn write_globals<W: Write>(out: &mut W, plant: &Plant) -> io::Result<()> {
    let plan = plant.setup().plan();
    for global in 0..plan.globals() {
        let name = plan.global_name(global);
        let value = plant.value(global);
        writeln!(out, "{name} = {value}")?;
    }
    Ok(())
}

/// Writes how many requests were dropped at each bus, and how many events were given up for each
/// task, where there were any.
///
/// # Errors
///
/// The writer's.
pub fn write_counts<W: Write>(out: &mut W, plant: &Plant) -> io::Result<()> {
    for bus in 0..plant.setup().plan().buses() {
        write_dropped(out, plant, bus)?;
    }
    write_lost(out, plant)
}

/// A line for each class of which requests were dropped at a bus, with their number.
fn write_dropped<W: Write>(out: &mut W, plant: &Plant, bus: u8) -> io::Result<()>
    requires { bus < plant.now.plant.plan.buses }
{
    for class in CLASSES {
        let dropped = plant.drop_count(bus, class);
        if dropped > 0 {
            writeln!(out, "dropped {bus} {} {dropped}", class.number())?;
        }
    }
    Ok(())
}

/// A line for each task for which events were given up, with their number.
fn write_lost<W: Write>(out: &mut W, plant: &Plant) -> io::Result<()> {
    let plan = plant.setup().plan();
    for task in 0..plan.tasks() {
        let lost = plant.loss_count(task);
        if lost > 0 {
            writeln!(out, "lost {} {lost}", plan.task_name(task))?;
        }
    }
    Ok(())
}
