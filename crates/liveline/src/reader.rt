//! The reader and its thread.

use crate::bells::LineBell;
use crate::waits::Deadline;
use arrayvec::ArrayVec;
use crossbeam_channel::{Receiver, RecvTimeoutError, Sender, bounded};
use std::alloc::Global;
use std::io::{ErrorKind, Read};
use std::sync::atomic::{AtomicBool, AtomicU64, Ordering};
use std::sync::{Arc, Wait};
use std::thread::Threads;
use std::time::{Clock, Duration, Instant};
use std::{io, thread};

/// The most bytes that are handed on at once.
pub(crate) const MOST_BYTES: usize = 32;

/// The most pieces that wait to be taken. Whoever says more waits.
const MOST_PIECES: usize = 64;

/// A read that gives nothing, and took this number of milliseconds, has only waited: a serial
/// device may be set to give nothing after a while. One that gives nothing at once has come to the
/// end.
const LEAST_WAIT: u64 = 50;

/// Some bytes that were read, or are to be written.
pub(crate) type Piece = ArrayVec<u8, MOST_BYTES>;

/// What a thread of its own reads, taken in time.
#[derive(Drop)]
pub struct TimedReader<R: Wait + Clock + Drop> {
    rt: R,
    /// The milliseconds that a line may take, from the first read of it to its end, or that all
    /// lines may take together.
    patience: AtomicU64,
    /// Whether all lines have one time.
    is_together: AtomicBool,
    /// Whether the time begins anew with the next read.
    is_anew: AtomicBool,
    /// When what is read is to have ended, where it has begun.
    deadline: Option<Deadline>,
    pieces: Receiver<Piece>,
    /// What came and was not taken yet, first to last.
    came: Piece,
    has_ended: Arc<AtomicBool>,
}

/// What a read came to.
enum Came {
    Piece(Piece),
    /// Nothing came, and more may come.
    Nothing,
    /// Nothing more comes.
    End,
}

/// Whether a read that began then has waited. It has not where the clock cannot be read.
fn has_waited<R: Clock>(rt: &R, began: io::Result<Instant>) -> bool {
    match began {
        Ok(began) => match began.elapsed(rt) {
            Ok(time) => time >= Duration::from_millis(LEAST_WAIT),
            Err(_) => false,
        },
        Err(_) => false,
    }
}

/// Reads a piece.
fn read_piece<F: Read, R: Clock>(rt: &R, from: &mut F) -> Came {
    let mut buf = [0u8; MOST_BYTES];
    let began = Instant::now(rt);
    match from.read(&mut buf) {
        Ok(0) if has_waited(rt, began) => Came::Nothing,
        Ok(0) => Came::End,
        Ok(count) => {
            let mut piece = Piece::new();
            match piece.try_extend_from_slice(&buf[..count]) {
                Ok(()) => Came::Piece(piece),
                Err(_) => Came::End,
            }
        }
        Err(error) => match error.kind() {
            ErrorKind::Interrupted => Came::Nothing,
            _ => Came::End,
        },
    }
}

/// Reads until nothing more comes, or nobody takes it. The bell rings for each piece.
fn read_all<F: Read, R: Wait + Clock>(rt: &R, from: &mut F, to: &Sender<Piece>, bell: &LineBell) {
    for _ in rt.forever() {
        match read_piece(rt, from) {
            Came::Piece(piece) => {
                if to.send(rt, piece).is_err() {
                    return;
                }
                bell.ring(rt);
            }
            Came::Nothing => {}
            Came::End => return,
        }
    }
}

impl<R: Wait + Clock + Drop> TimedReader<R> {
    /// Starts the thread that reads this. A line of it takes the given number of milliseconds at
    /// most. The bell rings where something came, and where nothing more comes.
    ///
    /// # Errors
    ///
    /// The allocator is out of memory, or no thread can be made.
    pub fn over<F: Read + Send + Drop + 'static>(
        alloc: Global,
        rt: R,
        from: F,
        patience: u64,
        bell: LineBell,
    ) -> io::Result<TimedReader<R>>
    where
        R: Threads + Clone + Send + 'static,
    {
        let (to, pieces) = bounded::<Piece, Global>(alloc, MOST_PIECES)?;
        let has_ended = Arc::new(alloc, AtomicBool::new(false))?;
        let ends = has_ended.clone()?;
        let theirs = rt.clone()?;
        let mut from = from;
        let started = thread::spawn(&rt, move || {
            read_all(&theirs, &mut from, &to, &bell);
            drop(from);
            ends.store(true, Ordering::SeqCst);
            bell.ring(&theirs);
        });
        if started.is_err() {
            return Err(io::Error::from(ErrorKind::OutOfMemory));
        }
        Ok(TimedReader {
            rt,
            patience: AtomicU64::new(patience),
            is_together: AtomicBool::new(false),
            is_anew: AtomicBool::new(false),
            deadline: None,
            pieces,
            came: Piece::new(),
            has_ended,
        })
    }

    /// Whether the thread ended: nothing more can come, and the device may be opened anew.
    pub fn has_ended(&self) -> bool {
        self.has_ended.load(Ordering::SeqCst)
    }

    /// Whether something came that was not read yet, or nothing more can come.
    pub fn has_come(&self) -> bool {
        !self.came.is_empty() || !self.pieces.is_empty() || self.has_ended()
    }

    /// From the next line on, a line takes the given number of milliseconds at most.
    pub fn set_patience(&self, patience: u64) {
        self.begin_time(patience, false);
    }

    /// From the next read on, all that is read takes the given number of milliseconds at most.
    pub fn set_time(&self, millis: u64) {
        self.begin_time(millis, true);
    }

    /// From the next read on, a line, or all lines together, takes this number of milliseconds.
    fn begin_time(&self, millis: u64, is_together: bool) {
        self.patience.store(millis, Ordering::SeqCst);
        self.is_together.store(is_together, Ordering::SeqCst);
        self.is_anew.store(true, Ordering::SeqCst);
    }

    /// When what is read is to have ended. With its first read its time begins.
    ///
    /// # Errors
    ///
    /// The clock cannot be read.
    fn line_deadline(&mut self) -> io::Result<Deadline> {
        if self.is_anew.swap(false, Ordering::SeqCst) {
            self.deadline = None;
        }
        if let Some(deadline) = self.deadline {
            return Ok(deadline);
        }
        let deadline = Deadline::after(&self.rt, self.patience.load(Ordering::SeqCst))?;
        self.deadline = Some(deadline);
        Ok(deadline)
    }

    /// The next byte. There is none where the thread ended.
    ///
    /// # Errors
    ///
    /// None came in time, or the clock cannot be read.
    fn next_byte(&mut self) -> io::Result<Option<u8>> {
        if let Some(byte) = self.came.pop_at(0) {
            return Ok(Some(byte));
        }
        let deadline = self.line_deadline()?;
        match deadline.receive(&self.rt, &self.pieces) {
            Ok(piece) => {
                self.came = piece;
                Ok(self.came.pop_at(0))
            }
            Err(RecvTimeoutError::Timeout) => Err(io::Error::from(ErrorKind::TimedOut)),
            Err(RecvTimeoutError::Disconnected) => Ok(None),
        }
    }
}

impl<R: Wait + Clock + Drop> Read for TimedReader<R> {
    /// One byte, which is enough for whoever reads lines.
    fn read(&mut self, buf: &mut [u8]) -> io::Result<usize> {
        if buf.is_empty() {
            return Ok(0);
        }
        match self.next_byte() {
            Ok(Some(byte)) => {
                if byte == b'\n' && !self.is_together.load(Ordering::SeqCst) {
                    self.deadline = None;
                }
                buf[0] = byte;
                Ok(1)
            }
            Ok(None) => Ok(0),
            Err(error) => {
                self.deadline = None;
                Err(error)
            }
        }
    }
}
