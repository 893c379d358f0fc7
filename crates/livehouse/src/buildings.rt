//! A building before it runs, and its run.

ghost use Rattle.std.specs.Prelude.{◌≡◌, ◌<◌, ◌≤◌, ◌⊎◌, IfErr, IfOk, IsSome, length};
ghost use Rattle.std.specs.Prelude.{option_map};
ghost use Rattle.std.specs.Int.NonZero.{non_zero_u64_get};
ghost use Rattle.limits.specs.Limits.{most_buses};
ghost use Rattle.livehouse.specs.Buildings.{IsLiveStop, IsNotLived, IsOpened};
ghost use Rattle.livehouse.specs.Lineups.{AreLinesOf, HasLine};
ghost use Rattle.livehouse.specs.Sites.{AreNewBuses, AreReached, IsNewBus, IsNewClock};
ghost use Rattle.livehouse.specs.Sites.{IsPeriodFor, IsReached, moment_of_end};
ghost use Rattle.livehouse.specs.declared.stops.LiveStop.TheVariants.{Ended, NoClock, Start};
ghost use Rattle.plant.specs.declared.start_fault.StartFault.TheVariants.{Memory};
ghost use Rattle.plantlive.specs.Lives.{HasLived};

use crate::lineup::{check_lines, line_for};
use crate::site::{Site, SiteFault};
use crate::stops::LiveStop;
use crate::watch::{DownWatch, End, WatchedGate};
use buslink::{Bus, Clock};
use commandoptions::{LineWord, LiveOptions, RunSize};
use daliframe::BusNumber;
use ilcompile::Setup;
use limits::{FEW_BUSES, LEAST_EVENTS_OF_MANY};
use plant::{OpenFault, StartFault};
use plantlive::{Gate, Lived, Opening, live, period_of};
use std::alloc::{AllocError, Global};
use std::num::NonZeroU64;
use std::sync::{Arc, Wait};
use std::thread::Threads;
use std::time::Clock as Timer;

/// A building whose lines are being opened and greeted. Nothing was sent yet.
#[derive(Drop)]
pub struct Building<B: Bus, C: Clock> {
    pub setup: Setup,
    /// The buses, by their numbers.
    pub buses: Vec<B>,
    pub clock: C,
    pub size: RunSize,
    /// The milliseconds from one tick to the next.
    pub period: NonZeroU64,
    /// Ends the clock where a bus goes down, if that is asked for, and tells lines of the clock's
    /// end.
    pub watch: Arc<DownWatch>,
}

/// Has the line of each bus of a setup opened and its interface greeted, all side by side, waits
/// until each has greeted or failed, a second at most, and makes the clock, at which it is `begins`
/// then. A line that is not there is a bus that fails, and goes down.
///
/// # Errors
///
/// The words are not the lines of the buses; else the limit is below 500 with more than 16 buses;
/// else the clock cannot be read, or there is a file at the path that ends it. The allocator may be
/// out of memory.
pub fn open<'a, S: Site>(
    alloc: Global,
    site: &S,
    setup: Setup,
    lines: &[LineWord<'a>],
    options: &LiveOptions,
    begins: u64,
) -> Result<Building<S::Line, S::Clock>, LiveStop>
    ensures opened { IfOk result (IsOpened S.Line.log S.Clock.log (S.is_of site.now)
        (S.is_timed site.now) setup lines.now options.now begins) }
    ensures stop { IfErr result (IsLiveStop setup lines.now options.now) }
{
    let buses = setup.plan().buses();
    if let Err(fault) = check_lines(lines, buses) {
        return Err(LiveStop::Lineup(fault));
    }
    if buses > FEW_BUSES && u64::from(options.size.limit) < LEAST_EVENTS_OF_MANY {
        return Err(LiveStop::Start(StartFault::Plant(OpenFault::Limit)));
    }
    let Ok(watch) = Arc::new(alloc, DownWatch::new(alloc, options.ends_on_down)) else {
        return Err(LiveStop::Start(StartFault::Memory));
    };
    let opened = open_lines(alloc, site, lines, buses, options.patience, &watch)?;
    site.settle(opened.as_slice());
    let period = period_in(options, &setup);
    let clock = clock_of(alloc, site, period, options, begins, &watch)?;
    Ok(Building {
        setup,
        buses: opened,
        clock,
        size: options.size,
        period,
        watch,
    })
}

/// The milliseconds from one tick to the next: those that were asked for, else the plan's.
fn period_in(options: &LiveOptions, setup: &Setup) -> NonZeroU64
    ensures { IsPeriodFor setup.now.plan options.now.period (non_zero_u64_get result) }
{
    let period = match options.period {
        Some(asked) => u64::from(asked).max(1),
        None => period_of(setup.plan()),
    };
    match NonZeroU64::new(period) {
        Some(period) => period,
        None => unreachable!(),
    }
}

/// The clock of a building, which begins at this moment and ends as the options say.
fn clock_of<S: Site>(
    alloc: Global,
    site: &S,
    period: NonZeroU64,
    options: &LiveOptions,
    begins: u64,
    watch: &Arc<DownWatch>,
) -> Result<S::Clock, LiveStop>
    ensures new { IfOk result (λ clock. IsNewClock (S.Clock.log clock)) }
    ensures timed { IfOk result (λ clock. S.is_timed site.now clock (non_zero_u64_get period)
        begins (moment_of_end begins options.now.seconds) (option_map (λ path. path.now) options.now.stop)) }
    ensures stop { IfErr result (λ stop. (stop ≡ NoClock)
        ⊎ ((stop ≡ Start Memory) ⊎ ((stop ≡ Ended) × IsSome options.now.stop))) }
{
    let end = End {
        until: last_moment(options, begins),
        stop: options.stop,
        watch: watch.clone()?,
    };
    match site.clock(alloc, period, begins, end) {
        Ok(clock) => Ok(clock),
        Err(SiteFault::Memory) => Err(LiveStop::Start(StartFault::Memory)),
        Err(SiteFault::Failed) => Err(LiveStop::NoClock),
        Err(SiteFault::Ended) => Err(LiveStop::Ended),
    }
}

/// The last moment of a clock that begins at this one, in milliseconds: without an end that was
/// asked for it has none.
fn last_moment(options: &LiveOptions, begins: u64) -> u64
    ensures { result ≡ moment_of_end begins options.now.seconds }
{
    match options.seconds {
        Some(seconds) => begins.saturating_add(u64::from(seconds) * 1000),
        None => u64::MAX,
    }
}

/// The bus of each number below this one, whose line begins to be opened and greeted.
fn open_lines<'a, S: Site>(
    alloc: Global,
    site: &S,
    lines: &[LineWord<'a>],
    buses: u8,
    patience: u32,
    watch: &Arc<DownWatch>,
) -> Result<Vec<S::Line>, AllocError>
    requires few { buses ≤ most_buses }
    requires lines { AreLinesOf buses lines.now }
    ensures new { IfOk result (λ opened. AreNewBuses S.Line.log buses opened.items) }
    ensures reached { IfOk result
        (λ opened. AreReached (S.is_of site.now) lines.now patience opened.items) }
{
    let mut opened = Vec::new(alloc);
    for bus in 0..buses {
        let line = open_line(alloc, site, lines, bus, patience, watch)?;
        opened.push(line)?;
    }
    Ok(opened)
}

/// The bus of this number, whose line begins to be opened and greeted.
fn open_line<'a, S: Site>(
    alloc: Global,
    site: &S,
    lines: &[LineWord<'a>],
    bus: u8,
    patience: u32,
    watch: &Arc<DownWatch>,
) -> Result<S::Line, AllocError>
    requires small { bus < most_buses }
    requires line { HasLine bus lines.now }
    ensures new { IfOk result (λ made. IsNewBus bus (S.Line.log made)) }
    ensures reached { IfOk result (IsReached (S.is_of site.now) lines.now patience bus) }
{
    let (Some(line), Some(number)) = (line_for(lines, bus), BusNumber::new(bus)) else {
        unreachable!()
    };
    site.line(alloc, *line, number, patience, watch)
}

impl<B: Bus + Send, C: Clock + Send> Building<B, C> {
    /// Runs the plant on the building's lines until the clock comes to its end, memory or a thread
    /// is refused, or 2^59 events are used up. Where the history of one run is full the next
    /// begins, with the same plant, buses and clock. The gate is told of each event, in all runs.
    ///
    /// # Errors
    ///
    /// The plant does not start. Nothing was sent.
    pub fn go<G: Gate, R: Threads + Wait + Timer + Sync>(
        self,
        rt: &R,
        alloc: Global,
        gate: &G,
    ) -> Result<Lived<B, C>, LiveStop>
        ensures lived { IfOk result (HasLived self.setup self.size.workers self.size.limit
            self.buses.items self.clock B.log C.log) }
        ensures stop { IfErr result (IsNotLived self.setup self.size (length self.buses.items)) }
    {
        let Building {
            setup,
            buses,
            clock,
            size,
            period: _,
            watch,
        } = self;
        let opening = Opening {
            setup,
            limit: u64::from(size.limit),
        };
        let workers = size.workers as usize;
        let watched = WatchedGate {
            rt,
            watch: &*watch,
            gate,
        };
        match live(rt, alloc, opening, buses, clock, workers, &watched) {
            Ok(lived) => Ok(lived),
            Err(refused) => Err(LiveStop::Start(StartFault::Plant(refused.fault))),
        }
    }
}
