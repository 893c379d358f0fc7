//! What ends a building.

ghost use Rattle.std.specs.Prelude.{◌≡◌, IsSome, IsTrue};

use liveline::{LineBell, StopCondition};
use plantlive::{Gate, Happened};
use std::alloc::{AllocError, Global};
use std::fs;
use std::rt::Files;
use std::sync::atomic::{AtomicBool, Ordering};
use std::sync::{Arc, Mutex, Wait};

/// Whether a bus went down at which the building is to end, and whether its clock came to its end;
/// and the bells of its lines.
#[derive(Drop)]
pub struct DownWatch {
    /// Whether the building ends where a bus goes down.
    pub ends: bool,
    is_over: AtomicBool,
    has_ended: AtomicBool,
    bells: Mutex<Vec<LineBell>>,
}

impl DownWatch {
    /// No bus went down yet.
    pub fn new(alloc: Global, ends: bool) -> DownWatch
        ensures { result.ends ≡ ends }
    {
        DownWatch {
            ends,
            is_over: AtomicBool::new(false),
            has_ended: AtomicBool::new(false),
            bells: Mutex::new(Vec::new(alloc)),
        }
    }

    /// A line has this bell.
    ///
    /// # Errors
    ///
    /// The allocator is out of memory.
    pub fn note_bell<R: Wait>(&self, rt: &R, bell: LineBell) -> Result<(), AllocError> {
        self.bells.lock(rt).push(bell)?;
        Ok(())
    }

    /// Rings the bell of each line, since there may be something to send.
    pub fn ring<R: Wait>(&self, rt: &R) {
        for bell in self.bells.lock(rt).iter() {
            bell.ring(rt);
        }
    }

    /// A bus went down.
    pub fn note_down(&self) {
        if self.ends {
            self.is_over.store(true, Ordering::Relaxed);
        }
    }

    /// Whether a bus went down at which the building is to end.
    pub fn is_over(&self) -> bool {
        self.is_over.load(Ordering::Relaxed)
    }
}

impl DownWatch {
    /// The clock came to its end.
    pub fn note_end(&self) {
        self.has_ended.store(true, Ordering::Relaxed);
    }

    /// Whether the clock came to its end.
    pub fn has_ended(&self) -> bool {
        self.has_ended.load(Ordering::Relaxed)
    }
}

/// Whoever tells a watch of each bus that went down, rings the bells of the lines for each scan that
/// was committed, and tells another gate of each event.
#[derive(Drop)]
pub struct WatchedGate<'w, G: Gate, R: Wait + Sync> {
    pub rt: &'w R,
    pub watch: &'w DownWatch,
    pub gate: &'w G,
}

impl<G: Gate, R: Wait + Sync> Gate for WatchedGate<'_, G, R> {
    fn before_scan(&self, worker: usize, task: usize) {
        self.gate.before_scan(worker, task);
    }

    fn before_transaction(&self, bus: u8) {
        self.gate.before_transaction(bus);
    }

    fn after(&self, place: u64, happened: Happened) {
        match happened {
            Happened::WentDown { .. } => self.watch.note_down(),
            Happened::Committed { .. } => self.watch.ring(self.rt),
            _ => {}
        }
        self.gate.after(place, happened);
    }
}

/// When the clock of a building ends.
#[derive(Drop)]
pub struct End<'a> {
    /// No moment after this one, in milliseconds.
    pub until: u64,
    /// As soon as there is a file at this path.
    pub stop: Option<&'a str>,
    /// As soon as a bus went down, if the building is to end then.
    pub watch: Arc<DownWatch>,
}

/// The end is wanted where there is a file at this path, if there is a path, and where a bus went
/// down at which the building is to end.
#[derive(Drop)]
pub struct StopAt<'r, R> {
    pub rt: &'r R,
    pub path: Option<String>,
    pub watch: Arc<DownWatch>,
}

/// Whether there is a file at this path, if there is a path.
pub(crate) fn is_there<R: Files>(rt: &R, path: Option<&str>) -> bool
    ensures { IsTrue result → IsSome path.entry }
{
    match path {
        Some(path) => fs::exists(rt, path).unwrap_or(false),
        None => false,
    }
}

impl<R: Files> StopCondition for StopAt<'_, R> {
    fn is_wanted(&self) -> bool {
        is_there(self.rt, self.path.as_deref()) || self.watch.is_over()
    }

    fn note_end(&self) {
        self.watch.note_end();
    }
}
