//! A record of what came to a building, as a scenario that plays again.

use buslink::{Mark, Outcome, Reply, Report};
use gearcmd::{Command, Request};
use ilplan::{Location, Plan};
use limits::MOST_BYTES;
use plantevents::Origin;
use plantturns::Happened;
use std::alloc::{AllocError, Global};
use std::io;
use std::io::Write;

/// The first line of a record that begins with kept values. FILE is the record, whichever name it
/// has.
pub(crate) const KEPT_LINE: &str = "# this FILE begins with the values that FILE.keep keeps: \
    dalictl play TEXT BIND FILE --keep FILE.keep";

/// How the last line of a record ends where a bus came up again.
pub(crate) const END_AT_UP: &str = " came up again, and the record ends here";

/// What is known of a bus.
#[derive(Drop)]
struct BusRecord {
    /// The short addresses of its gear that stand in the record, a bit each.
    gear: u64,
    /// Whose answer the transaction under way brings.
    asked: Option<u8>,
    /// How many frames were sent.
    frames: u64,
    /// Whether its interface failed at a frame.
    has_failed: bool,
}

/// Why nothing is added to a record.
#[derive(Clone, Copy, PartialEq, Eq, Debug)]
pub(crate) enum RecordEnd {
    /// A line found no room.
    Full,
    /// A bus came up again, which no scenario can say.
    CameUp,
}

/// The lines of a scenario: what is on the buses and what became of frames, then what came, in its
/// order. A tick stands there where a task was taken after it or a frame was heard.
#[derive(Drop)]
pub(crate) struct Record {
    head: Vec<u8>,
    body: Vec<u8>,
    buses: Vec<BusRecord>,
    /// The last tick, where it does not stand in the record.
    tick: Option<u64>,
    /// The moment of the last tick, 0 before the first.
    moment: u64,
    /// Whether a bus failed as it was heard, and no tick stands behind that at which a play hears
    /// it.
    owes_tick: bool,
    /// Why nothing is added, once it has ended.
    end: Option<RecordEnd>,
}

impl Record {
    /// The record of a building to which nothing has come: whether it begins with kept values, and
    /// the gear of its levels.
    ///
    /// # Errors
    ///
    /// The allocator is out of memory.
    pub(crate) fn new(alloc: Global, plan: &Plan, begins_kept: bool) -> io::Result<Record> {
        let mut buses = Vec::new(alloc);
        for _ in 0..plan.buses() {
            buses.push(BusRecord {
                gear: 0,
                asked: None,
                frames: 0,
                has_failed: false,
            })?;
        }
        let mut record = Record {
            head: Vec::new(alloc),
            body: Vec::new(alloc),
            buses,
            tick: None,
            moment: 0,
            owes_tick: false,
            end: None,
        };
        if begins_kept {
            writeln!(record.head, "{KEPT_LINE}")?;
        }
        record.note_levels(plan)?;
        Ok(record)
    }

    /// The gear of the levels of a plan.
    fn note_levels(&mut self, plan: &Plan) -> io::Result<()> {
        for global in 0..plan.globals() {
            if let Some(Location::Level { bus, address }) = plan.global(global).location {
                self.note_gear(bus, address)?;
            }
        }
        Ok(())
    }

    /// The bytes of the record.
    ///
    /// # Errors
    ///
    /// The allocator is out of memory.
    pub(crate) fn bytes(&self, alloc: Global) -> Result<Vec<u8>, AllocError> {
        let mut bytes = Vec::new(alloc);
        bytes.extend_from_slice(&self.head)?;
        bytes.extend_from_slice(&self.body)?;
        Ok(bytes)
    }

    /// Why nothing is added, once it has ended.
    pub(crate) fn end(&self) -> Option<RecordEnd> {
        self.end
    }

    /// Notes an event, unless the record has ended. It ends where a bus comes up again.
    ///
    /// # Errors
    ///
    /// The allocator is out of memory.
    pub(crate) fn note(&mut self, happened: &Happened) -> io::Result<()> {
        if self.end.is_some() {
            return Ok(());
        }
        match happened {
            Happened::Ticked { moment } => self.note_tick(*moment)?,
            Happened::Took { .. } => self.write_tick()?,
            Happened::Heard { bus, frame } => {
                self.write_tick()?;
                if self.has_room() {
                    writeln!(self.body, "event {bus} {frame}")?;
                }
            }
            Happened::Committed { .. } => {}
            Happened::Handed { bus, origin, .. } => self.note_handed(*bus, *origin),
            Happened::Reported { bus, report } => self.note_report(*bus, report)?,
            Happened::WentDown { bus } => self.note_down(*bus)?,
            Happened::CameUp { bus } => self.end_at_up(*bus)?,
        }
        Ok(())
    }

    /// Notes a tick, which stands in the record at once where one is owed.
    fn note_tick(&mut self, moment: u64) -> io::Result<()> {
        self.tick = Some(moment);
        self.moment = moment;
        if self.owes_tick {
            self.write_tick()?;
        }
        Ok(())
    }

    /// Ends the record where a bus comes up again.
    fn end_at_up(&mut self, bus: u8) -> io::Result<()> {
        if self.owes_tick {
            self.tick = Some(self.moment);
            self.write_tick()?;
        }
        if self.has_room() {
            writeln!(self.body, "# bus {bus}{END_AT_UP}")?;
            self.end = Some(RecordEnd::CameUp);
        }
        Ok(())
    }

    /// Whether there is room for a line more. A scenario has at most 1,048,576 bytes.
    fn has_room(&mut self) -> bool {
        const LONGEST_LINE: usize = 64;
        let bytes = self.head.len().saturating_add(self.body.len());
        if bytes.saturating_add(LONGEST_LINE) > MOST_BYTES {
            self.end = Some(RecordEnd::Full);
        }
        self.end.is_none()
    }

    /// Writes the last tick, where it is not written.
    fn write_tick(&mut self) -> io::Result<()> {
        let Some(moment) = self.tick else {
            return Ok(());
        };
        self.tick = None;
        self.owes_tick = false;
        if self.has_room() {
            writeln!(self.body, "tick {moment}")?;
        }
        Ok(())
    }

    /// Notes the gear of a short address, where it is not noted.
    fn note_gear(&mut self, bus: u8, short: u8) -> io::Result<()> {
        if short >= 64 || !self.has_room() {
            return Ok(());
        }
        let Some(on_bus) = self.buses.get_mut(usize::from(bus)) else {
            return Ok(());
        };
        let bit = 1u64 << u32::from(short);
        if on_bus.gear & bit == 0 {
            on_bus.gear |= bit;
            writeln!(self.head, "gear {bus} {short}")?;
        }
        Ok(())
    }

    /// Notes whose answer a transaction brings.
    fn note_handed(&mut self, bus: u8, origin: Origin) {
        if let Some(on_bus) = self.buses.get_mut(usize::from(bus)) {
            on_bus.asked = asked_by(origin);
        }
    }

    /// Notes what became of each frame of a report.
    fn note_report(&mut self, bus: u8, report: &Report) -> io::Result<()> {
        for sent in report.attempts() {
            self.note_mark(bus, sent.mark)?;
        }
        let asked = match self.buses.get(usize::from(bus)) {
            Some(on_bus) => on_bus.asked,
            None => None,
        };
        match (report.outcome(), asked) {
            (Outcome::Done(Reply::Answer(_)), Some(short)) => self.note_gear(bus, short),
            _ => Ok(()),
        }
    }

    /// Notes what became of the next frame that was sent on a bus.
    fn note_mark(&mut self, bus: u8, mark: Mark) -> io::Result<()> {
        let has_room = self.has_room();
        let Some(on_bus) = self.buses.get_mut(usize::from(bus)) else {
            return Ok(());
        };
        on_bus.frames = on_bus.frames.saturating_add(1);
        let frame = on_bus.frames;
        let fate = match mark {
            Mark::Quiet | Mark::Answer(_) => return Ok(()),
            Mark::Lost => "lost",
            Mark::Damaged => "damaged",
            Mark::Failed => {
                on_bus.has_failed = true;
                "fault"
            }
        };
        if has_room {
            writeln!(self.head, "reply {bus} {frame} {fate}")?;
        }
        Ok(())
    }

    /// Notes that a bus went down: unless a frame failed, as it was heard.
    fn note_down(&mut self, bus: u8) -> io::Result<()> {
        let has_failed = match self.buses.get(usize::from(bus)) {
            Some(on_bus) => on_bus.has_failed,
            None => true,
        };
        if !has_failed && self.has_room() {
            writeln!(self.body, "hearfault {bus}")?;
            self.owes_tick = true;
        }
        Ok(())
    }
}

/// The short address of the gear whose answer a transaction brings.
fn asked_by(origin: Origin) -> Option<u8> {
    match origin {
        Origin::Queued(Request { command, .. }) => gear_asked(command),
        Origin::Output { .. } => None,
    }
}

/// The short address of the gear that a command asks.
fn gear_asked(command: Command) -> Option<u8> {
    match command {
        Command::GearAsk { address, .. } | Command::GearRead { address, .. } => {
            Some(address.number())
        }
        _ => None,
    }
}
