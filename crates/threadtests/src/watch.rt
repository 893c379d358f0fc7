//! A gate that counts what is done by number, and lets scans, frames and the clock wait for counts.

use plantdriving::Happened;
use plantturns::Gate;
use std::alloc::{AllocError, Global};
use std::sync::atomic::{AtomicU64, Ordering};
use std::thread;
use std::time::{Clock as Timer, Duration};

/// The most turns that one waits, each a look and a sleep.
const MOST_TURNS: u32 = 100_000;

/// How long a turn sleeps, in microseconds.
const TURN: u64 = 50;

/// How often each of so many did something.
#[derive(Drop)]
pub struct Counts {
    counts: Vec<AtomicU64>,
}

impl Counts {
    /// None of so many did anything.
    fn new(alloc: Global, many: usize) -> Result<Counts, AllocError> {
        let mut counts = Vec::new(alloc);
        for _one in 0..many {
            counts.push(AtomicU64::new(0))?;
        }
        Ok(Counts { counts })
    }

    /// How often the one with this number did it.
    pub fn of(&self, number: usize) -> u64 {
        match self.counts.get(number) {
            Some(count) => count.load(Ordering::SeqCst),
            None => 0,
        }
    }

    /// The one with this number did it once more.
    fn add(&self, number: usize) {
        if let Some(count) = self.counts.get(number) {
            count.fetch_add(1, Ordering::SeqCst);
        }
    }

    /// The one with this number begins anew.
    fn clear(&self, number: usize) {
        if let Some(count) = self.counts.get(number) {
            count.store(0, Ordering::SeqCst);
        }
    }

    /// Whether each did it so often.
    fn reach(&self, least: u64) -> bool {
        for count in &self.counts {
            if count.load(Ordering::SeqCst) < least {
                return false;
            }
        }
        true
    }
}

/// What is waited for: that each did so much.
#[derive(Clone, Copy)]
pub struct Until {
    /// Each bus heard the given number of frames,
    pub heard: u64,
    /// and sent so many;
    pub sent: u64,
    /// and since its last one it was asked so often, and nothing had come.
    pub idle: u64,
    /// So many scans of each task began,
    pub scans: u64,
    /// and so many of each scan worker.
    pub works: u64,
    /// The clock came to its end so often.
    pub ends: u64,
}

/// Nothing is waited for.
pub const NOW: Until = Until {
    heard: 0,
    sent: 0,
    idle: 0,
    scans: 0,
    works: 0,
    ends: 0,
};

/// What one waits for.
#[derive(Clone, Copy)]
enum Wanted {
    /// What all do.
    All(Until),
    /// The first frame of this bus.
    FrameOf(usize),
}

/// How many there are of each kind, and who waits.
#[derive(Clone, Copy)]
pub struct Rules {
    pub buses: usize,
    pub tasks: usize,
    pub workers: usize,
    /// What each scan waits for.
    pub scans_wait: Until,
    /// Each bus waits within its first frame until the first frame of the next bus began, the last
    /// one until that of bus 0 did.
    pub buses_wait: bool,
}

/// A gate that counts scans and transactions by the numbers that it is given, and lets scans wait.
/// The buses and the clock of a test count and wait here too.
#[derive(Drop)]
pub struct Watch<'r, R> {
    rt: &'r R,
    rules: Rules,
    /// The transactions of each bus.
    pub handed: Counts,
    /// The frames of each bus.
    pub sent: Counts,
    /// The scans of each task.
    pub scans: Counts,
    works: Counts,
    heard: Counts,
    idle: Counts,
    ends: AtomicU64,
    given_up: AtomicU64,
}

impl<'r, R: Timer> Watch<'r, R> {
    /// A gate at which nothing began.
    pub fn new(rt: &'r R, alloc: Global, rules: Rules) -> Result<Self, AllocError> {
        Ok(Watch {
            rt,
            rules,
            handed: Counts::new(alloc, rules.buses)?,
            sent: Counts::new(alloc, rules.buses)?,
            scans: Counts::new(alloc, rules.tasks)?,
            works: Counts::new(alloc, rules.workers)?,
            heard: Counts::new(alloc, rules.buses)?,
            idle: Counts::new(alloc, rules.buses)?,
            ends: AtomicU64::new(0),
            given_up: AtomicU64::new(0),
        })
    }

    /// Whether nobody waited in vain.
    pub fn is_kept(&self) -> bool {
        self.given_up.load(Ordering::SeqCst) == 0
    }

    /// Sleeps for the given number of turns.
    pub fn rest(&self, turns: u64) {
        thread::sleep(self.rt, Duration::from_micros(turns.saturating_mul(TURN)));
    }

    /// Whether all did so much. (What a bus sent is looked up before it is idle, since a frame ends
    /// that.)
    fn has_come(&self, until: Until) -> bool {
        self.heard.reach(until.heard)
            && self.sent.reach(until.sent)
            && self.idle.reach(until.idle)
            && self.scans.reach(until.scans)
            && self.works.reach(until.works)
            && self.ends.load(Ordering::SeqCst) >= until.ends
    }

    /// Whether that is so which one waits for.
    fn is_so(&self, wanted: Wanted) -> bool {
        match wanted {
            Wanted::All(until) => self.has_come(until),
            Wanted::FrameOf(bus) => 0 < self.sent.of(bus),
        }
    }

    /// Waits within the most turns, where nobody waited in vain before.
    fn wait(&self, wanted: Wanted) {
        for _turn in 0..MOST_TURNS {
            if self.is_so(wanted) || !self.is_kept() {
                return;
            }
            self.rest(1);
        }
        self.given_up.store(1, Ordering::SeqCst);
    }

    /// Waits until all did so much.
    pub fn wait_until(&self, until: Until) {
        self.wait(Wanted::All(until));
    }

    /// A bus begins to send a frame, and may wait for the next bus.
    pub fn begin_frame(&self, bus: usize) {
        self.idle.clear(bus);
        self.sent.add(bus);
        if self.rules.buses_wait && self.sent.of(bus) == 1 {
            let next = bus.saturating_add(1);
            let is_last = next >= self.rules.buses;
            self.wait(Wanted::FrameOf(if is_last { 0 } else { next }));
        }
    }

    /// A frame came on a bus.
    pub fn note_frame(&self, bus: usize) {
        self.heard.add(bus);
    }

    /// A bus was asked, and nothing had come.
    pub fn note_idle(&self, bus: usize) {
        self.idle.add(bus);
    }

    /// The clock came to its end.
    pub fn note_end(&self) {
        self.ends.fetch_add(1, Ordering::SeqCst);
    }
}

impl<'r, R: Timer + Sync> Gate for Watch<'r, R> {
    fn before_scan(&self, worker: usize, task: usize) {
        self.scans.add(task);
        self.works.add(worker);
        self.wait_until(self.rules.scans_wait);
    }

    fn before_transaction(&self, bus: u8) {
        self.handed.add(usize::from(bus));
    }

    fn after(&self, _place: u64, _happened: Happened) {}
}
