//! The devices and the clock of the machine.

ghost use Rattle.std.specs.Prelude.{◌≡◌, ⊤, IfOk, option_map, string_bytes};
ghost use Rattle.livehouse.specs.Sites.{ArePathsOf};

use crate::host_lines::{Devices, HostOpener, HostTeller, Opened, owned, paths_of};
use crate::reasons::DownReasons;
use crate::site::{Site, SiteFault};
use crate::watch::{DownWatch, End, StopAt, is_there};
use commandoptions::LineWord;
use daliframe::BusNumber;
use liveline::{LineStarter, LiveClock, MendedLine};
use std::alloc::{AllocError, Global};
use std::num::NonZeroU64;
use std::rt::Files;
use std::sync::{Arc, Wait};
use std::thread;
use std::thread::Threads;
use std::time::{Clock as Timer, Duration};

/// The milliseconds in which lines greet before a building runs.
const SETTLING: u32 = 1000;

/// The milliseconds from one look at lines to the next.
const LOOK: u32 = 10;

/// The machine that a building runs on, with who opens its devices in the threads of lines. No
/// contract can say what is on its devices.
#[derive(Clone, Copy)]
pub struct HostSite<'h, R: Files + Wait + Timer + Drop, D: Drop> {
    pub rt: &'h R,
    pub devices: &'h D,
    pub starter: &'h LineStarter<R, R::File, HostOpener<D>>,
    /// Why lines are down, for the status, and for whoever is told that one is not opened.
    pub reasons: &'h Arc<DownReasons>,
}

/// The bus behind a line of the machine.
pub type HostLine<R, D> = MendedLine<R, <R as Files>::File, HostTeller<R>, HostOpener<D>>;

impl<
    'h,
    R: Files + Timer + Threads + Wait + Eprint + Clone + Send + Sync + Drop + 'static,
    D: Devices<R::File> + Clone + Send + 'static,
> Site for HostSite<'h, R, D>
where
    R::File: Send + 'static,
{
    type Line = HostLine<R, D>;

    type Clock = LiveClock<&'h R, StopAt<'h, R>>;

    ghost refuses = { λ _ _ _. ⊤ };

    ghost is_of = { λ _ bus word patience. ArePathsOf word (string_bytes bus.set.opener.from)
        (option_map string_bytes bus.set.opener.to) × (bus.set.patience ≡ patience) };

    ghost is_timed = { λ _ clock period begins until stop. (clock.period ≡ period)
        × (clock.begins ≡ begins) × (clock.until ≡ until)
        × (option_map string_bytes clock.stop.path ≡ stop) };

    fn line<'a>(
        &self,
        alloc: Global,
        line: LineWord<'a>,
        number: BusNumber,
        patience: u32,
        watch: &Arc<DownWatch>,
    ) -> Result<Self::Line, AllocError> {
        let opener = opener_of(alloc, self.devices, line)?;
        let teller = teller_of(self.rt, alloc, line, self.reasons, Some(watch.clone()?))?;
        let rt = self.rt.clone()?;
        let line = MendedLine::start(
            alloc,
            rt,
            opener,
            teller,
            number,
            u64::from(patience),
            self.starter,
        )?;
        watch.note_bell(self.rt, line.bell()?)?;
        Ok(line)
    }

    fn settle(&self, lines: &[Self::Line]) {
        for _ in 0..SETTLING / LOOK {
            if lines.iter().all(|line| line.is_settled()) {
                return;
            }
            thread::sleep(self.rt, Duration::from_millis(u64::from(LOOK)));
        }
    }

    fn open<'a>(
        &self,
        alloc: Global,
        line: LineWord<'a>,
        number: BusNumber,
        patience: u32,
    ) -> Result<Self::Line, SiteFault> {
        let opener = opener_of(alloc, self.devices, line)?;
        let teller = teller_of(self.rt, alloc, line, self.reasons, None)?;
        let rt = self.rt.clone()?;
        let mut bus = MendedLine::start(
            alloc,
            rt,
            opener,
            teller,
            number,
            u64::from(patience),
            self.starter,
        )?;
        for _ in 0..patience / LOOK {
            if bus.is_settled() {
                break;
            }
            thread::sleep(self.rt, Duration::from_millis(u64::from(LOOK)));
        }
        bus.begin();
        if !bus.is_in_step() {
            self.reasons.note(self.rt, line.bus, bus.why());
            return Err(SiteFault::Failed);
        }
        Ok(bus)
    }

    fn why(&self, alloc: Global, bus: u8) -> Option<String> {
        self.reasons.of(self.rt, alloc, bus)
    }

    fn clock<'a>(
        &self,
        alloc: Global,
        period: NonZeroU64,
        begins: u64,
        end: End<'a>,
    ) -> Result<Self::Clock, SiteFault> {
        let End { until, stop, watch } = end;
        if is_there(self.rt, stop) {
            return Err(SiteFault::Ended);
        }
        let Ok(path) = owned(alloc, stop) else {
            return Err(SiteFault::Memory);
        };
        let stop = StopAt {
            rt: self.rt,
            path,
            watch,
        };
        match LiveClock::new(self.rt, period, begins, until, stop) {
            Ok(clock) => Ok(clock),
            Err(_) => Err(SiteFault::Failed),
        }
    }
}

/// Who opens the line of a word.
///
/// # Errors
///
/// The allocator is out of memory.
fn opener_of<D: Clone + Drop>(
    alloc: Global,
    devices: &D,
    line: LineWord,
) -> Result<HostOpener<D>, AllocError>
    ensures { IfOk result (λ opener. ArePathsOf line.entry (string_bytes opener.from)
        (option_map string_bytes opener.to)) }
{
    Ok(HostOpener {
        devices: devices.clone()?,
        from: String::from_str(alloc, line.from)?,
        to: owned(alloc, line.to)?,
        opened: Opened {
            from: None,
            to: None,
        },
    })
}

/// Who tells what becomes of the line of a word. Where it is one of a building, with this watch, a
/// line on standard error says when it goes down and when it is up again.
///
/// # Errors
///
/// The allocator is out of memory.
fn teller_of<R: Clone + Drop>(
    rt: &R,
    alloc: Global,
    line: LineWord,
    reasons: &Arc<DownReasons>,
    watch: Option<Arc<DownWatch>>,
) -> Result<HostTeller<R>, AllocError> {
    Ok(HostTeller {
        rt: rt.clone()?,
        bus: line.bus,
        paths: paths_of(alloc, line)?,
        reasons: reasons.clone()?,
        watch,
    })
}
