//! Where the lines of a row's buildings are: buses that scenarios simulate, and files of answers.

ghost use Rattle.std.specs.Prelude.{⊤, IfOk};
ghost use Rattle.livehouse.specs.Sites.{IsNewBus};
ghost use Rattle.rows.specs.Lines.{line_log};

use crate::answering::AnsweringLine;
use crate::disk::RowsDisk;
use buslink::{Bus, Fault, Reply};
use commandoptions::LineWord;
use daliframe::{BusNumber, Frame, Frame24};
use livehouse::{DownWatch, End, Site, SiteFault};
use simbus::{BusSetup, SimBus, parse};
use std::alloc::{AllocError, Global};
use std::num::NonZeroU64;
use std::sync::Arc;

/// The site of a row. A line whose path ends with `.scenario` is the simulated bus of that
/// scenario, a file of the row, and all that comes on it has come. Any other line gives the answers
/// of the file of the row at the path that is read; where the row has none it is not there. The
/// clock is that of the host, which has no moment but the first where the file that ends it is
/// named `once`, and cannot be read where that is named `unread`. What is written beside a building
/// goes to the row's disk.
#[derive(Clone, Copy)]
pub struct RowsSite<'a, S> {
    pub host: &'a S,
    pub disk: &'a RowsDisk,
}

impl<'r, S: Site> Site for RowsSite<'r, S> {
    type Line = RowsLine;

    type Clock = S::Clock;

    ghost refuses = { λ _ _ _. ⊤ };

    ghost is_of = { λ _ _ _ _. ⊤ };

    ghost is_timed = { λ _ _ _ _ _ _. ⊤ };

    fn line<'a>(
        &self,
        alloc: Global,
        line: LineWord<'a>,
        number: BusNumber,
        _patience: u32,
        _watch: &Arc<DownWatch>,
    ) -> Result<Self::Line, AllocError> {
        line_at(alloc, self.disk, line, number)
    }

    fn settle(&self, _lines: &[Self::Line]) {}

    fn open<'a>(
        &self,
        alloc: Global,
        line: LineWord<'a>,
        number: BusNumber,
        _patience: u32,
    ) -> Result<Self::Line, SiteFault> {
        match line_at(alloc, self.disk, line, number) {
            Ok(line) if line.is_there() => Ok(line),
            Ok(_) => Err(SiteFault::Failed),
            Err(_) => Err(SiteFault::Memory),
        }
    }

    fn clock<'a>(
        &self,
        alloc: Global,
        period: NonZeroU64,
        begins: u64,
        end: End<'a>,
    ) -> Result<Self::Clock, SiteFault> {
        let End { until, stop, watch } = end;
        let (period, until) = match stop {
            Some("unread") => return Err(SiteFault::Failed),
            Some("once") => (NonZeroU64::MIN, begins),
            _ => (period, until),
        };
        self.host
            .clock(alloc, period, begins, End { until, stop, watch })
    }
}

/// The line of a bus of this number, by its word.
///
/// # Errors
///
/// The allocator is out of memory.
fn line_at(
    alloc: Global,
    disk: &RowsDisk,
    line: LineWord,
    number: BusNumber,
) -> Result<RowsLine, AllocError>
    ensures { IfOk result (λ line. IsNewBus number (line_log line)) }
{
    let Ok(bytes) = disk.read(line.from) else {
        return Ok(RowsLine::Answering(AnsweringLine::absent(number)));
    };
    if line.to.is_none() && line.from.ends_with(".scenario") {
        return simulated(alloc, &bytes, number);
    }
    Ok(RowsLine::Answering(AnsweringLine::new(bytes, number)))
}

/// The bus of this number that a scenario simulates; one that is not there, where it is no
/// scenario.
///
/// # Errors
///
/// The allocator is out of memory.
fn simulated(alloc: Global, scenario: &[u8], number: BusNumber) -> Result<RowsLine, AllocError>
    ensures { IfOk result (λ line. IsNewBus number (line_log line)) }
{
    let Ok(scenario) = parse(alloc, scenario) else {
        return Ok(RowsLine::Answering(AnsweringLine::absent(number)));
    };
    let setup = BusSetup::of(alloc, &scenario, number)?;
    let mut bus = SimBus::new(alloc, setup)?;
    bus.arrive_all();
    Ok(RowsLine::Simulated(bus))
}

/// The line of a bus in a row.
#[derive(Drop)]
pub enum RowsLine {
    /// A simulated bus.
    Simulated(SimBus),
    /// A line that gives the answers of a file.
    Answering(AnsweringLine),
}

impl RowsLine {
    /// Whether its interface is there, and greeted.
    fn is_there(&self) -> bool {
        match self {
            RowsLine::Simulated(_) => true,
            RowsLine::Answering(line) => line.is_there(),
        }
    }
}

impl Bus for RowsLine {
    ghost log = { line_log };

    fn room(&mut self, frames: usize) -> Result<(), AllocError> {
        match self {
            RowsLine::Simulated(bus) => bus.room(frames),
            RowsLine::Answering(line) => line.room(frames),
        }
    }

    fn send(&mut self, frame: Frame, priority: u8) -> Result<Reply, Fault> {
        match self {
            RowsLine::Simulated(bus) => bus.send(frame, priority),
            RowsLine::Answering(line) => line.send(frame, priority),
        }
    }

    fn hear(&mut self) -> Result<Option<Frame24>, Fault> {
        match self {
            RowsLine::Simulated(bus) => bus.hear(),
            RowsLine::Answering(line) => line.hear(),
        }
    }

    fn mend(&mut self) -> bool {
        match self {
            RowsLine::Simulated(bus) => bus.mend(),
            RowsLine::Answering(line) => line.mend(),
        }
    }

    fn resume(&mut self) {
        match self {
            RowsLine::Simulated(bus) => bus.resume(),
            RowsLine::Answering(line) => line.resume(),
        }
    }
}
