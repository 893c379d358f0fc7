//! The thread of a line: it opens the line, has it read, and greets it.

use crate::bells::LineBell;
use crate::greetings::{Greeted, Ungreeted};
use crate::reader::TimedReader;
use crate::reasons::Reason;
use crate::troubles::Trouble;
use crate::writer::TimedWriter;
use crossbeam_channel::{Receiver, Sender};
use std::alloc::Global;
use std::io::{Read, Write};
use std::sync::Wait;
use std::thread;
use std::thread::Threads;
use std::time::{Clock, Duration, Instant};

/// The milliseconds from the beginning of a try to that of the next at the soonest.
pub(crate) const PAUSE: u64 = 2000;

/// The milliseconds in which an interface answers the greeting, since no bus has a part in it.
const GREETING: u64 = 500;

/// Whoever opens a line.
pub trait Opener<W>: Drop {
    type From: Read + Drop;

    /// The reader and the writer of the line, opened anew. It may wait for ever, as where a FIFO
    /// has no other end.
    ///
    /// # Errors
    ///
    /// The line cannot be opened. Nothing was written.
    fn open(&mut self) -> Result<(Self::From, W), Reason>;

    /// Whether another line is there now than the one that was opened last, as where an interface
    /// that hangs was replaced.
    fn has_moved(&self) -> bool;
}

/// The ends of a line. A thread reads the first, and another one writes to the second.
pub(crate) type Ends<R, W> = (TimedReader<R>, TimedWriter<R, W>);

/// What the thread is asked: to open and greet the line, over these ends where there are any.
pub(crate) type Job<R, W> = Option<Ends<R, W>>;

/// What a try came to.
pub(crate) type Outcome<R, W> = Result<Greeted<TimedReader<R>, TimedWriter<R, W>>, Reason>;

/// Who tries to open a line and to greet it.
#[derive(Drop)]
pub(crate) struct Tries<R: Wait + Clock + Drop, W: Drop, O> {
    pub(crate) rt: R,
    pub(crate) alloc: Global,
    pub(crate) opener: O,
    /// The milliseconds that the interface has for an answer.
    pub(crate) patience: u64,
    /// The ends of the line that were not greeted.
    pub(crate) ends: Option<Ends<R, W>>,
    /// When the last try began.
    pub(crate) began: Option<Instant>,
    /// The number of the last greeting.
    pub(crate) number: u64,
    /// What rings where something comes on the line.
    pub(crate) bell: LineBell,
}

impl<
    R: Threads + Wait + Clock + Clone + Send + Drop + 'static,
    W: Write + Send + Drop + 'static,
    O: Opener<W>,
> Tries<R, W, O>
where
    O::From: Send + 'static,
{
    /// Tries whenever it is asked to, until nobody asks any more.
    pub(crate) fn serve(&mut self, rt: &R, jobs: &Receiver<Job<R, W>>, to: &Sender<Outcome<R, W>>) {
        for _ in rt.forever() {
            let Ok(job) = jobs.recv(rt) else { return };
            if let Some(ends) = job {
                self.ends = Some(ends);
            }
            self.pause();
            let outcome = self.attempt();
            if to.send(rt, outcome).is_err() {
                return;
            }
        }
    }

    /// Waits until the next try may begin, and notes when it does.
    fn pause(&mut self) {
        if let Some(began) = self.began {
            let since = match began.elapsed(&self.rt) {
                Ok(since) => since,
                Err(_) => Duration::from_millis(0),
            };
            let left = Duration::from_millis(PAUSE).saturating_sub(since);
            thread::sleep(&self.rt, left);
        }
        self.began = Instant::now(&self.rt).ok();
    }

    /// Greets the line over the ends that there are, while they are read, else over new ones. Ends
    /// that do not greet are given up where another line is there by then.
    ///
    /// # Errors
    ///
    /// The line cannot be opened, or its interface does not greet.
    fn attempt(&mut self) -> Outcome<R, W> {
        let (from, to) = self.ends_to_greet()?;
        from.set_patience(self.patience.min(GREETING));
        to.set_patience(self.patience.min(GREETING));
        match Greeted::greet(from, to, self.next_number()) {
            Ok(greeted) => {
                greeted.reader().set_patience(self.patience);
                Ok(greeted)
            }
            Err(Ungreeted { from, mut to, why }) => {
                let is_stuck = to.is_stuck();
                if !self.opener.has_moved() {
                    self.ends = Some((from, to));
                }
                Err(self.why_ungreeted(&why, is_stuck))
            }
        }
    }

    /// The ends that there are, while they are read, else new ones. While the thread that writes is
    /// stuck, and no other line is there, there are none: so no file has two such threads.
    ///
    /// # Errors
    ///
    /// The thread that writes is stuck, or the line cannot be opened.
    fn ends_to_greet(&mut self) -> Result<Ends<R, W>, Reason> {
        if let Some((from, mut to)) = self.ends.take() {
            let is_stuck = to.is_stuck();
            if is_stuck && !self.opener.has_moved() {
                self.ends = Some((from, to));
                return Err(Reason::Silent(self.patience));
            }
            if !is_stuck && !from.has_ended() {
                return Ok((from, to));
            }
        }
        let (from, to) = self.opener.open()?;
        match self.start_threads(from, to) {
            Ok(ends) => Ok(ends),
            Err(error) => Err(Reason::Unopened(error.kind())),
        }
    }

    /// Starts the two threads of the ends. The one that writes comes first, since it ends by itself
    /// where the other one cannot be made.
    fn start_threads(&self, from: O::From, to: W) -> std::io::Result<Ends<R, W>> {
        let writer = TimedWriter::over(self.alloc, self.rt.clone()?, to, self.patience)?;
        let bell = self.bell.another()?;
        let reader = TimedReader::over(self.alloc, self.rt.clone()?, from, self.patience, bell)?;
        Ok((reader, writer))
    }

    /// Why the interface did not greet. Where the thread that writes is stuck, that is why.
    fn why_ungreeted(&self, why: &Trouble, is_stuck: bool) -> Reason {
        match why {
            _ if is_stuck => Reason::Silent(self.patience),
            Trouble::Closed => Reason::Closed,
            Trouble::Echoed => Reason::Echoed,
            _ => Reason::Ungreeted,
        }
    }

    /// A number that no greeting had: the milliseconds since 1970, or one more than the last.
    fn next_number(&mut self) -> u64 {
        let now = match self.rt.since_1970() {
            Ok(since) => u64::try_from(since.as_millis()).unwrap_or(0),
            Err(_) => 0,
        };
        self.number = now.max(self.number.saturating_add(1));
        self.number
    }
}
