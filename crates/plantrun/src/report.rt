//! What a run came to.

use plant::Plant;
use plantplay::write_globals;
use std::io;
use std::io::Write;
use workers::Ended;

/// Writes why a run ended and how many events there were, then what each bus sent and heard and how
/// often each task was scanned, and the values of all global variables.
///
/// # Errors
///
/// The writer's.
pub fn write_run<W: Write>(out: &mut W, ended: Ended, plant: &Plant) -> io::Result<()> {
    writeln!(out, "ended {}", ended_name(ended))?;
    writeln!(out, "events {}", plant.len())?;
    write_buses(out, plant)?;
    write_tasks(out, plant)?;
    write_globals(out, plant)
}

/// Why a run ended, as it is printed.
pub fn ended_name(ended: Ended) -> &'static str {
    match ended {
        Ended::Asked => "asked",
        Ended::Limit => "limit",
        Ended::NoMemory => "no memory",
        Ended::NoThread => "no thread",
    }
}

/// A line for each bus, with how many frames are in its reports and how many were heard on it.
fn write_buses<W: Write>(out: &mut W, plant: &Plant) -> io::Result<()> {
    for bus in 0..plant.setup().plan().buses() {
        let sent = plant.frames(bus);
        let heard = plant.heards(bus);
        writeln!(out, "bus {bus} sent {sent} heard {heard}")?;
    }
    Ok(())
}

/// Writes a line for each task, with how often it was taken and how many events were given up for
/// it.
///
/// # Errors
///
/// The writer's.
pub fn write_tasks<W: Write>(out: &mut W, plant: &Plant) -> io::Result<()> {
    let plan = plant.setup().plan();
    for task in 0..plan.tasks() {
        let name = plan.task_name(task);
        let scans = plant.scans(task);
        let lost = plant.loss_count(task);
        writeln!(out, "task {name} scans {scans} lost {lost}")?;
    }
    Ok(())
}
