//! How buses come up again.

ghost use Rattle.std.specs.Prelude.{◌≡◌, false, OnOk, OnErr};
ghost use Rattle.plantevents.specs.declared.event.Event.TheVariants as event;
ghost use Rattle.plantevents.specs.Legal.{IsBack};
ghost use Rattle.plant.specs.Shown.{grown, is_full};
ghost use Rattle.plant.specs.Refusals.{GivesFirst, up_cases};

use super::Plant;
use crate::refusal::CallRefusal;
use plantbuses::{note_owed_anew, note_up};
use plantevents::Event;
use readytasks::other_events_leave_tasks;

impl Plant {
    /// Whether a bus may come up, and else why not.
    fn may_come_up(&self, bus: u8) -> Result<(), CallRefusal>
        ensures refused { GivesFirst (up_cases self.now bus) result }
        ensures allowed { OnOk result (IsBack self.now.plant self.now.history bus) }
        ensures room { OnOk result (is_full self.now ≡ false) }
    {
        if bus >= self.setup.plan().buses() {
            return Err(CallRefusal::Stranger);
        }
        if !self.buses[usize::from(bus)].is_down() {
            return Err(CallRefusal::NothingReady);
        }
        if self.is_full() {
            return Err(CallRefusal::Full);
        }
        Ok(())
    }

    /// Opens a bus that was down again: each of its levels is owed anew, and what waited for it
    /// still waits. It goes over the 81 addresses of the bus, and takes no memory.
    ///
    /// # Errors
    ///
    /// There is no such bus, it is not down, or the history is full: the first of these. The plant
    /// is unchanged then.
    pub fn up(&mut self, bus: u8) -> Result<(), CallRefusal>
        ensures refused { GivesFirst (up_cases self.old bus) result }
        ensures ok { OnOk result (self.new ≡ grown self.old (event.Up bus)) }
        ensures err { OnErr result (self.new ≡ self.old) }
    {
        self.may_come_up(bus)?;
        other_events_leave_tasks();
        note_up(&mut self.buses, bus);
        note_owed_anew(&mut self.owed, &self.outputs, &self.buses, &self.image, bus);
        self.history.push(&Event::Up { bus });
        self.length += 1;
        self.kept += 1;
        Ok(())
    }
}
