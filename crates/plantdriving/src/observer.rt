//! Who is told what happens at a plant.

ghost use Rattle.std.specs.Prelude.{◌≡◌};
ghost use Rattle.plantdriving.specs.Tellings.{noted};

use crate::Happened;
use buslink::Report;
use plant::Plant;
use std::io;

/// Whoever is told what happens at a plant: each event with its place in the history, from 0. The
/// places order what is told; where several threads drive a plant, each tells what it did itself,
/// once the plant is unlocked.
///
/// An observer that fails stops whoever drives the plant, once what was begun is ended: nothing is
/// open then, and the buses and the history tell the same.
///
/// For contracts alone an observer may keep what it is told, the newest first: then its `told` is
/// that list, as that of a `ghosts::Trace<Told>`. Where it keeps none, `told` is `None`, as it is
/// where nothing is written. Whoever drives a plant tells an observer the same, whatever it keeps.
pub trait Observer<B> {
    ghost use Rattle.std.specs.Prelude.{List, None, Option};
    ghost use Rattle.plantdriving.specs.declared.happened.Told.{Told};

    ghost told: { Self → Option (List Told) } = { λ _. None };

    /// This happened, at this place of the history. Where a task was taken its scan is made next;
    /// where a transaction was handed out it is sent next.
    ///
    /// # Errors
    ///
    /// What was told is not kept.
    fn note(&mut self, place: u64, happened: Happened) -> io::Result<()>
        ensures { told self.new ≡ noted place happened (told self.old) };

    /// Behind the scan of the task whose commit was told last, the plant is as it is here. This is
    /// told where one thread drives the plant; one that lies under a lock is lent to nobody.
    ///
    /// # Errors
    ///
    /// What was told is not kept.
    fn note_values(&mut self, _plant: &Plant, _task: usize) -> io::Result<()>
        ensures { told self.new ≡ told self.old }
    {
        Ok(())
    }

    /// Behind this report of a bus, which was told last, the bus has this interface.
    ///
    /// # Errors
    ///
    /// What was told is not kept.
    fn note_line(&mut self, _bus: u8, _report: &Report, _line: &B) -> io::Result<()>
        ensures { told self.new ≡ told self.old }
    {
        Ok(())
    }
}
