//! The writer and its thread.

ghost use Rattle.std.specs.Prelude.{◌≡◌, ◌<◌, ◌≤◌, IfErr, IfOk, OnErr, OnOk, length, min};
ghost use Rattle.std.specs.Prelude.{false, true};
ghost use Rattle.std.specs.Io.{WritesAtMost};
ghost use Rattle.std.specs.IoError.{error_kind};
ghost use Rattle.std.specs.declared.io.ErrorKind.TheVariants.{TimedOut};
ghost use Rattle.std.specs.Io.KnownBytes.{Appends};
ghost use Rattle.liveline.specs.Exchanges.{IsAtMost};

use crate::ends::put;
use crate::reader::{MOST_BYTES, Piece};
use crate::waits::Deadline;
use crossbeam_channel::{Receiver, Sender, bounded};
use std::alloc::Global;
use std::io::{ErrorKind, Write};
use std::marker::Model;
use std::sync::Wait;
use std::sync::atomic::{AtomicU64, Ordering};
use std::thread::Threads;
use std::time::Clock;
use std::{io, thread};

/// A piece that the thread is to write, with the writer.
#[derive(Drop)]
struct Lent<W: Drop> {
    to: W,
    piece: Piece,
}

/// The writer, given back, and what became of the piece.
#[derive(Drop)]
struct Returned<W: Drop> {
    to: W,
    outcome: Result<(), ErrorKind>,
}

/// A writer that a thread of its own writes to, in time. It is lent to the thread with a piece of
/// bytes, and no other piece is handed on before it is back. So a writer that takes nothing, as a
/// stopped terminal, holds one thread for as long as that lasts, and never two.
#[derive(Drop)]
pub struct TimedWriter<R: Wait + Clock + Drop, W: Drop> {
    rt: R,
    /// The milliseconds in which a piece is to be written.
    patience: AtomicU64,
    /// The writer, unless it is lent.
    to: Option<W>,
    /// When it is to be back, where it is lent.
    deadline: Deadline,
    lent: Sender<Lent<W>>,
    returned: Receiver<Returned<W>>,
}

// Whether the thread has the writer.
impl<R: Wait + Clock + Drop, W: Drop> Model for TimedWriter<R, W> {
    ghost use Rattle.std.specs.Prelude.{Bool, is_none};

    ghost Value = { Bool };

    ghost view = { λ w. is_none w.to };
}

/// Writes a piece to the writer that it comes with.
fn write_piece<W: Write + Drop>(lent: Lent<W>) -> Returned<W>
    ensures whole { OnOk result.outcome
        (Appends (W.contents lent.to) (W.contents result.to) lent.piece.items) }
    ensures at_most { IsAtMost lent.piece.items (W.contents lent.to) (W.contents result.to) }
{
    let Lent { mut to, piece } = lent;
    let outcome = put(&mut to, piece.as_slice());
    Returned { to, outcome }
}

/// Writes piece after piece, until nobody hands one on.
fn write_all<R: Wait, W: Write + Drop>(
    rt: &R,
    lent: &Receiver<Lent<W>>,
    returned: &Sender<Returned<W>>,
) {
    for _ in rt.forever() {
        let Ok(lent) = lent.recv(rt) else { return };
        if returned.send(rt, write_piece(lent)).is_err() {
            return;
        }
    }
}

/// These bytes as a piece.
fn piece_of(bytes: &[u8]) -> Piece
    requires { length bytes.now ≤ 32 }
    ensures { result.items ≡ bytes.now }
{
    let mut piece = Piece::new();
    let _ = piece.try_extend_from_slice(bytes);
    piece
}

impl<
    R: Threads + Wait + Clock + Clone + Send + Drop + 'static,
    W: Write + Send + Drop + 'static,
> TimedWriter<R, W> {
    /// Starts the thread that writes to this. A piece of 32 bytes at most is to be written in the
    /// given number of milliseconds.
    ///
    /// # Errors
    ///
    /// The allocator is out of memory, or no thread can be made.
    pub fn over(alloc: Global, rt: R, to: W, patience: u64) -> io::Result<TimedWriter<R, W>>
        ensures { IfOk result (λ writer. writer ≡ false) }
    {
        let (lent, pieces) = bounded::<Lent<W>, Global>(alloc, 1)?;
        let (written, returned) = bounded::<Returned<W>, Global>(alloc, 1)?;
        let deadline = Deadline::after(&rt, patience)?;
        let theirs = rt.clone()?;
        let started = thread::spawn(&rt, move || write_all(&theirs, &pieces, &written));
        if started.is_err() {
            return Err(io::Error::from(ErrorKind::OutOfMemory));
        }
        Ok(TimedWriter {
            rt,
            patience: AtomicU64::new(patience),
            to: Some(to),
            deadline,
            lent,
            returned,
        })
    }
}

impl<R: Wait + Clock + Drop, W: Drop> TimedWriter<R, W> {
    /// From the next piece on, a piece is to be written in the given number of milliseconds.
    pub fn set_patience(&self, patience: u64) {
        self.patience.store(patience, Ordering::SeqCst);
    }

    /// Whether the thread still writes what was handed on last: nothing can be written, and the
    /// device is not to be opened anew.
    pub fn is_stuck(&mut self) -> bool
        ensures { result ≡ self.new }
    {
        if self.to.is_none() {
            if let Ok(returned) = self.returned.try_recv(&self.rt) {
                self.to = Some(returned.to);
            }
        }
        self.to.is_none()
    }

    /// Waits until the writer is back, where it is lent.
    ///
    /// # Errors
    ///
    /// It is not back in time, or what was handed on was not written.
    fn take_back(&mut self) -> io::Result<()>
        ensures back { OnOk result (self.new ≡ false) }
        ensures late { IfErr result (λ error. self.new ≡ true → error_kind error ≡ TimedOut) }
    {
        if self.to.is_some() {
            return Ok(());
        }
        match self.deadline.receive(&self.rt, &self.returned) {
            Ok(Returned { to, outcome }) => {
                self.to = Some(to);
                match outcome {
                    Ok(()) => Ok(()),
                    Err(kind) => Err(io::Error::from(kind)),
                }
            }
            Err(_) => Err(io::Error::from(ErrorKind::TimedOut)),
        }
    }

    /// Hands on the first bytes, with the writer, and gives how many these are.
    ///
    /// # Errors
    ///
    /// The thread has the writer, or the clock cannot be read.
    fn hand_on(&mut self, bytes: &[u8]) -> io::Result<usize>
        ensures count { IfOk result (λ count. count ≡ min 32 (length bytes.now)) }
        ensures lent { OnOk result (self.new ≡ true) }
        ensures kept { OnErr result (self.new ≡ self.old) }
    {
        let deadline = Deadline::after(&self.rt, self.patience.load(Ordering::SeqCst))?;
        let Some(to) = self.to.take() else {
            return Err(io::Error::from(ErrorKind::TimedOut));
        };
        self.deadline = deadline;
        let count = MOST_BYTES.min(bytes.len());
        let piece = piece_of(&bytes[..count]);
        match self.lent.send(&self.rt, Lent { to, piece }) {
            Ok(()) => Ok(count),
            Err(refused) => {
                self.to = Some(refused.into_inner().to);
                Err(io::Error::from(ErrorKind::BrokenPipe))
            }
        }
    }
}

impl<R: Wait + Clock + Drop, W: Drop> Write for TimedWriter<R, W> {
    /// Hands on a piece, once the one before is written.
    fn write(&mut self, buf: &[u8]) -> io::Result<usize>
        ensures bound { WritesAtMost result buf.now }
        ensures count { IfOk result (λ count. count ≡ min 32 (length buf.now)) }
        ensures lent { IfOk result (λ count. 0 < count → self.new ≡ true) }
        ensures late { IfErr result (λ error. self.new ≡ true → error_kind error ≡ TimedOut) }
    {
        if buf.is_empty() {
            return Ok(0);
        }
        self.take_back()?;
        self.hand_on(buf)
    }

    /// Waits until what was handed on is written.
    fn flush(&mut self) -> io::Result<()>
        ensures back { OnOk result (self.new ≡ false) }
        ensures late { IfErr result (λ error. self.new ≡ true → error_kind error ≡ TimedOut) }
    {
        self.take_back()
    }
}
