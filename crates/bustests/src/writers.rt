//! Writers that take their time, that fail, and a bus behind them: what a request comes to then.

use buslink::Bus;
use daliframe::BusNumber;
use liveline::{Greeted, LineBus, TimedWriter, Trouble};
use std::alloc::{AllocError, Global};
use std::io::{ErrorKind, Write};
use std::sync::atomic::{AtomicBool, Ordering};
use std::sync::{Arc, Mutex, Wait};
use std::test::Fail;
use std::time::{Clock, Duration};
use std::{io, thread};

/// The milliseconds after which a writer is late, and those that a test waits at most.
const SHORT: u64 = 50;

const LONG: u64 = 30_000;

/// What is written, which takes two pieces.
const LINES: &[u8] = b"gushewa 3 18446744073709551615\nsend 2 0A80\n";

/// A request of one piece.
const HEAR: &[u8] = b"hear\n";

/// A writer that takes nothing while its gate is shut.
#[derive(Drop)]
struct Gated<R: Wait + Clock + Drop> {
    rt: R,
    is_open: Arc<AtomicBool>,
    took: Arc<Mutex<Vec<u8>>>,
}

impl<R: Wait + Clock + Clone + Drop> Gated<R> {
    fn new(alloc: Global, rt: &R, is_open: bool) -> Result<Gated<R>, AllocError> {
        Ok(Gated {
            rt: rt.clone()?,
            is_open: Arc::new(alloc, AtomicBool::new(is_open))?,
            took: Arc::new(alloc, Mutex::new(Vec::new(alloc)))?,
        })
    }
}

impl<R: Wait + Clock + Drop> Write for Gated<R> {
    fn write(&mut self, buf: &[u8]) -> io::Result<usize> {
        for _ in self.rt.forever() {
            if self.is_open.load(Ordering::SeqCst) {
                break;
            }
            thread::sleep(&self.rt, Duration::from_millis(1));
        }
        let mut took = self.took.lock(&self.rt);
        took.extend_from_slice(buf)?;
        Ok(buf.len())
    }

    fn flush(&mut self) -> io::Result<()> {
        Ok(())
    }
}

/// A writer that fails when it is flushed for the second time and later on.
#[derive(Drop)]
struct Failing {
    was_flushed: bool,
    kind: ErrorKind,
}

impl Write for Failing {
    fn write(&mut self, buf: &[u8]) -> io::Result<usize> {
        Ok(buf.len())
    }

    fn flush(&mut self) -> io::Result<()> {
        if self.was_flushed {
            return Err(io::Error::from(self.kind));
        }
        self.was_flushed = true;
        Ok(())
    }
}

#[test]
fn all_is_written_in_order_before_a_flush_ends(rt: HostRuntime) -> Result<(), Fail> {
    let gated = Gated::new(rt.alloc(), &rt, true)?;
    let took = gated.took.clone()?;
    let mut writer = TimedWriter::over(rt.alloc(), rt, gated, LONG)?;
    writer.write_all(LINES)?;
    writer.flush()?;
    assert!(rt; took.lock(&rt).as_slice() == LINES);
    assert!(rt; !writer.is_stuck());
    Ok(())
}

#[test]
fn a_writer_that_takes_nothing_is_late_and_stuck(rt: HostRuntime) -> Result<(), Fail> {
    let gated = Gated::new(rt.alloc(), &rt, false)?;
    let (is_open, took) = (gated.is_open.clone()?, gated.took.clone()?);
    let mut writer = TimedWriter::over(rt.alloc(), rt, gated, SHORT)?;
    assert!(rt; writer.write(HEAR)? == 5);
    for _ in 0..3 {
        let flushed = writer.flush().map_err(|error| error.kind());
        assert!(rt; flushed == Err(ErrorKind::TimedOut));
        let written = writer.write(HEAR).map_err(|error| error.kind());
        assert!(rt; written == Err(ErrorKind::TimedOut));
        assert!(rt; writer.is_stuck() && took.lock(&rt).is_empty());
    }
    is_open.store(true, Ordering::SeqCst);
    for _ in 0..LONG {
        if !writer.is_stuck() {
            break;
        }
        thread::sleep(&rt, Duration::from_millis(1));
    }
    assert!(rt; !writer.is_stuck() && took.lock(&rt).as_slice() == HEAR);
    Ok(())
}

#[test]
fn a_writer_that_fails_is_not_stuck(rt: HostRuntime) -> Result<(), Fail> {
    let failing = Failing {
        was_flushed: true,
        kind: ErrorKind::BrokenPipe,
    };
    let mut writer = TimedWriter::over(rt.alloc(), rt, failing, LONG)?;
    assert!(rt; writer.write(HEAR)? == 5);
    let flushed = writer.flush().map_err(|error| error.kind());
    assert!(rt; flushed == Err(ErrorKind::BrokenPipe) && !writer.is_stuck());
    Ok(())
}

#[test]
fn a_request_that_is_not_taken_is_silence(rt: HostRuntime) -> Result<(), Fail> {
    for (kind, is_silent) in [(ErrorKind::TimedOut, true), (ErrorKind::BrokenPipe, false)] {
        let failing = Failing {
            was_flushed: false,
            kind,
        };
        let says: &[u8] = b"gushewa 3 hears 5\nnone\n";
        let Ok(greeted) = Greeted::greet(says, failing, 5) else {
            return Err(Fail::from("a greeting"));
        };
        let mut bus = LineBus::over(greeted, BusNumber::default());
        bus.room(1)?;
        assert!(rt; bus.hear().is_err() && !bus.is_in_step());
        assert!(rt; matches!(bus.trouble(), Trouble::Silent) == is_silent);
        assert!(rt; matches!(bus.trouble(), Trouble::Closed) != is_silent);
    }
    Ok(())
}
