//! What a building left, and its report.

use buslink::{Bus, Clock};
use livehouse::{Ended, Lived};
use plant::Plant;
use plantrun::{ended_name, write_globals, write_tasks};
use std::io;
use std::io::Write;

/// What a building left.
#[derive(Drop)]
pub struct LiveLeft<B: Bus, C: Clock> {
    pub lived: Lived<B, C>,
    /// Whether a bus went down, at which the building was to end.
    pub is_cut: bool,
}

impl<B: Bus, C: Clock> LiveLeft<B, C> {
    /// Writes why the building ended and how many events there were, then what each bus sent and
    /// heard and how often each task was scanned, and the values of all global variables.
    ///
    /// # Errors
    ///
    /// The writer's.
    pub(crate) fn write<W: Write>(&self, out: &mut W) -> io::Result<()> {
        let plant = self.lived.left.plant();
        writeln!(out, "ended {}\nevents {}", self.reason(), plant.len())?;
        write_buses(out, plant)?;
        write_tasks(out, plant)?;
        write_globals(out, plant)
    }

    /// Why the building ended, as it is printed.
    fn reason(&self) -> &'static str {
        match (self.lived.ended, self.is_cut) {
            (Ended::Asked, true) => "a bus went down",
            (ended, _) => ended_name(ended),
        }
    }
}

/// A line for each bus: whether it is down, how many frames are in its reports, and how many were
/// heard on it.
fn write_buses<W: Write>(out: &mut W, plant: &Plant) -> io::Result<()> {
    for bus in 0..plant.setup().plan().buses() {
        let state = if plant.is_down(bus) { " down" } else { "" };
        let (sent, heard) = (plant.frames(bus), plant.heards(bus));
        writeln!(out, "bus {bus}{state} sent {sent} heard {heard}")?;
    }
    Ok(())
}
