//! What was told, in the order of the history.

use crate::counts::Counts;
use crate::follower::Follower;
use crate::levels::Levels;
use crate::log_lines::{EventWords, Stamp};
use crate::record::Record;
use crate::seen::SeenValues;
use crate::unsorted::Told;
use ilcompile::Setup;
use jiff::Timestamp;
use plantturns::Happened;
use std::alloc::{AllocError, Global};
use std::io::Write;
use std::{io, mem};

/// A building as far as what was told of it is in order.
#[derive(Drop)]
pub(crate) struct History {
    alloc: Global,
    pub(crate) follower: Follower,
    pub(crate) levels: Levels,
    counts: Counts,
    /// The place of the next event.
    next: u64,
    /// Events that wait until those before them were told.
    waiting: Vec<Told>,
    /// The milliseconds of the last tick; before the first the moment at which the clock begins.
    pub(crate) moment: u64,
    pub(crate) record: Option<Record>,
    /// The values of its global variables, where lines of its events are wanted.
    seen: Option<SeenValues>,
}

impl History {
    /// A building to which nothing has happened, whose clock begins at this moment, with the record
    /// that is wanted of it.
    ///
    /// # Errors
    ///
    /// The allocator is out of memory.
    pub(crate) fn open(
        alloc: Global,
        setup: Setup,
        workers: usize,
        begins: u64,
        record: Option<Record>,
        is_logged: bool,
    ) -> Result<History, AllocError> {
        let levels = Levels::new(alloc, setup.plan())?;
        let counts = Counts::new(alloc, setup.plan())?;
        let seen = match is_logged {
            true => Some(SeenValues::new(alloc, setup.plan())?),
            false => None,
        };
        let Ok(follower) = Follower::open(alloc, setup, workers) else {
            return Err(AllocError);
        };
        Ok(History {
            alloc,
            follower,
            levels,
            counts,
            next: 0,
            waiting: Vec::new(alloc),
            moment: begins,
            record,
            seen,
        })
    }

    /// Follows what was told, as far as it is in order, and writes its lines. Answers whether none
    /// was missed.
    pub(crate) fn follow_all(
        &mut self,
        told: Vec<Told>,
        date: Timestamp,
        lines: &mut Vec<u8>,
    ) -> bool {
        let mut waiting = mem::replace(&mut self.waiting, Vec::new(self.alloc));
        for event in told {
            if waiting.push(event).is_err() {
                return false;
            }
        }
        if waiting.sort_by_key(|event| event.place).is_err() {
            return false;
        }
        for event in waiting {
            if event.place == self.next {
                if self.follow(&event, date, lines).is_err() {
                    return false;
                }
            } else if self.waiting.push(event).is_err() {
                return false;
            }
        }
        true
    }

    /// Follows an event, and writes its lines.
    ///
    /// # Errors
    ///
    /// The allocator is out of memory, or the plant does not take the event as the building's did.
    fn follow(&mut self, event: &Told, date: Timestamp, lines: &mut Vec<u8>) -> io::Result<()> {
        if !self.follower.follow(self.alloc, &event.happened) {
            return Err(io::Error::from(io::ErrorKind::OutOfMemory));
        }
        self.next = self.next.saturating_add(1);
        if let Happened::Ticked { moment } = event.happened {
            self.moment = moment;
        }
        let plan = self.follower.plant().setup().plan();
        if let Happened::Handed { bus, origin, .. } = &event.happened {
            self.levels.note(plan, *bus, *origin);
        }
        if let Some(record) = &mut self.record {
            record.note(&event.happened)?;
        }
        let has_changed = self.see();
        if self.seen.is_some() {
            self.write_event(event, has_changed, date, lines)?;
        }
        Ok(())
    }

    /// Notes the values of the global variables, where lines of events are wanted. Answers whether
    /// one was another before.
    fn see(&mut self) -> bool {
        match &mut self.seen {
            Some(seen) => seen.note(self.follower.plant()),
            None => false,
        }
    }

    /// Writes the lines of an event. Of a tick and of a Take there is none, and of a scan only where
    /// it changed a global variable.
    fn write_event(
        &mut self,
        event: &Told,
        has_changed: bool,
        date: Timestamp,
        lines: &mut Vec<u8>,
    ) -> io::Result<()> {
        let plant = self.follower.plant();
        let stamp = Stamp {
            place: event.place,
            moment: self.moment,
            date,
        };
        let words = EventWords {
            plan: plant.setup().plan(),
            happened: &event.happened,
        };
        let has_line = match event.happened {
            Happened::Ticked { .. } | Happened::Took { .. } => false,
            Happened::Committed { .. } => has_changed,
            _ => true,
        };
        if has_line {
            writeln!(lines, "{stamp} {words}")?;
        }
        match event.happened {
            Happened::Committed { .. } | Happened::Heard { .. } => {
                self.counts.write(lines, &stamp, plant)
            }
            _ => Ok(()),
        }
    }
}
