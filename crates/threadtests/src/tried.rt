//! What is written beside a building over 300 ticks, 30 seconds, with a frame before each, by a
//! storage that is away for some of them, and whose date may be set back: how often each file is
//! tried, and what it took.

use crate::house::House;
use commandoptions::Beside;
use daliframe::Frame24;
use livejournal::{BuildingObserver, Care, Storage};
use plantdriving::Happened;
use plantturns::Gate;
use std::alloc::Global;
use std::io;
use std::io::ErrorKind;
use std::sync::{Mutex, Wait};
use std::test::Fail;

/// A house to which ticks come, and a frame before each that starts nothing.
const HOUSE: House = House {
    buses: 1,
    tasks: 1,
    has_events: true,
    level: 255,
    moments: 300,
};

const TICKS: u64 = 300;

/// A frame that is no event message.
const FRAME: u32 = 0xFFFE00;

/// The date at the start, in seconds since the beginning of 1970.
const DATE: u64 = 1_795_815_310;

/// All is wanted. The log is a little longer than one file of it may be.
const BESIDE: Beside = Beside {
    log: Some("log"),
    log_size: 10_000,
    record: Some("record"),
    status: Some("status"),
    is_json: false,
    keep: Some("keep"),
};

/// How often a file was tried, and how often it was written.
type Tries = (u32, u32);

/// What became of the files.
#[derive(Clone, Copy, PartialEq, Eq, Debug)]
struct Outcome {
    log: Tries,
    status: Tries,
    keep: Tries,
    record: Tries,
    /// How many lines the files of the log have.
    lines: u32,
    /// How many files were given another name.
    renamed: u32,
    /// How many lines on standard error say that a file cannot be written.
    failing: u32,
    /// How many say that one is written again.
    mended: u32,
}

/// Nothing happened.
const NOTHING: Outcome = Outcome {
    log: (0, 0),
    status: (0, 0),
    keep: (0, 0),
    record: (0, 0),
    lines: 0,
    renamed: 0,
    failing: 0,
    mended: 0,
};

/// A disk that is away from one tick on until another, and what becomes of the files then.
#[derive(Clone, Copy)]
struct Row {
    name: &'static str,
    /// The first tick at which it is away.
    from: u64,
    /// The first tick at which it is there again; above 300 it is not so at the end.
    until: u64,
    /// Whether each date is ten seconds before the last.
    falls: bool,
    outcome: Outcome,
}

const ROWS: [Row; 4] = [
    Row {
        name: "the disk is there, and the date is set back",
        from: 0,
        until: 0,
        falls: true,
        outcome: Outcome {
            log: (300, 300),
            status: (31, 31),
            keep: (4, 4),
            record: (2, 2),
            lines: 300,
            renamed: 9,
            failing: 0,
            mended: 0,
        },
    },
    Row {
        name: "the disk is away for ten seconds",
        from: 100,
        until: 200,
        falls: false,
        outcome: Outcome {
            log: (201, 200),
            status: (31, 21),
            keep: (2, 2),
            record: (2, 2),
            lines: 300,
            renamed: 18,
            failing: 2,
            mended: 2,
        },
    },
    Row {
        name: "the disk is away at the start",
        from: 0,
        until: 100,
        falls: false,
        outcome: Outcome {
            log: (200, 200),
            status: (31, 21),
            keep: (3, 2),
            record: (2, 1),
            lines: 300,
            renamed: 9,
            failing: 4,
            mended: 4,
        },
    },
    Row {
        name: "the disk is away",
        from: 0,
        until: 301,
        falls: false,
        outcome: Outcome {
            log: (0, 0),
            status: (31, 0),
            keep: (4, 0),
            record: (2, 0),
            lines: 0,
            renamed: 0,
            failing: 4,
            mended: 0,
        },
    },
];

/// What a storage counts.
#[derive(Clone, Copy)]
struct Counts {
    is_away: bool,
    falls: bool,
    date: u64,
    /// How many bytes the log has.
    size: u64,
    outcome: Outcome,
}

/// A storage that counts what is asked of it.
#[derive(Drop)]
struct Counting<'r, R: Wait> {
    rt: &'r R,
    counts: Mutex<Counts>,
}

impl<R: Wait> Counting<'_, R> {
    /// Has the disk away, or there.
    fn set_away(&self, is_away: bool) {
        self.counts.lock(self.rt).is_away = is_away;
    }

    /// What became of the files.
    fn outcome(&self) -> Outcome {
        self.counts.lock(self.rt).outcome
    }
}

/// Counts a try.
fn count(tries: &mut Tries, is_away: bool) -> io::Result<()> {
    tries.0 = tries.0.saturating_add(1);
    if is_away {
        return Err(io::Error::from(ErrorKind::NotFound));
    }
    tries.1 = tries.1.saturating_add(1);
    Ok(())
}

/// Counts the lines that bytes end.
fn lines_in(bytes: &[u8]) -> u32 {
    let mut lines: u32 = 0;
    for byte in bytes {
        if *byte == b'\n' {
            lines = lines.saturating_add(1);
        }
    }
    lines
}

impl<R: Wait> Storage for Counting<'_, R> {
    ghost use Rattle.std.specs.Prelude.{⊤};

    ghost replaced = { λ _ _ _. ⊤ };

    ghost appended = { λ _ _ _. ⊤ };

    ghost unwritten = { λ _ _. ⊤ };

    fn append(&self, _path: &str, bytes: &[u8]) -> io::Result<u64> {
        let mut counts = self.counts.lock(self.rt);
        let is_away = counts.is_away;
        count(&mut counts.outcome.log, is_away)?;
        counts.outcome.lines = counts.outcome.lines.saturating_add(lines_in(bytes));
        counts.size = counts.size.saturating_add(bytes.len() as u64);
        Ok(counts.size)
    }

    fn end_line(&self, _path: &str) -> io::Result<u64> {
        let counts = self.counts.lock(self.rt);
        match counts.is_away {
            true => Err(io::Error::from(ErrorKind::NotFound)),
            false => Ok(counts.size),
        }
    }

    fn replace(&self, _alloc: Global, path: &str, _bytes: &[u8], _care: Care) -> io::Result<()> {
        let mut counts = self.counts.lock(self.rt);
        let is_away = counts.is_away;
        match path {
            "status" => count(&mut counts.outcome.status, is_away),
            "keep" => count(&mut counts.outcome.keep, is_away),
            _ => count(&mut counts.outcome.record, is_away),
        }
    }

    fn read(&self, _alloc: Global, _path: &str) -> io::Result<Vec<u8>> {
        Err(io::Error::from(ErrorKind::NotFound))
    }

    fn rename(&self, _from: &str, _to: &str) -> io::Result<()> {
        let mut counts = self.counts.lock(self.rt);
        counts.outcome.renamed = counts.outcome.renamed.saturating_add(1);
        counts.size = 0;
        Ok(())
    }

    fn tell(&self, text: &str) -> io::Result<()> {
        let mut counts = self.counts.lock(self.rt);
        if text.ends_with(" cannot be written, and is tried again") {
            counts.outcome.failing = counts.outcome.failing.saturating_add(1);
        }
        if text.ends_with(" is written again") {
            counts.outcome.mended = counts.outcome.mended.saturating_add(1);
        }
        Ok(())
    }

    fn seconds(&self) -> u64 {
        let mut counts = self.counts.lock(self.rt);
        if counts.falls {
            counts.date = counts.date.saturating_sub(10);
        }
        counts.date
    }

    fn memory(&self) -> Option<u64> {
        None
    }
}

/// What becomes of the files over the ticks of a row.
fn outcome_of<R: Wait + Sync>(rt: &R, alloc: Global, row: &Row) -> Result<Outcome, Fail> {
    let counting = Counting {
        rt,
        counts: Mutex::new(Counts {
            is_away: false,
            falls: row.falls,
            date: DATE,
            size: 0,
            outcome: NOTHING,
        }),
    };
    let setup = HOUSE.setup(alloc)?;
    let Ok(observer) = BuildingObserver::open(rt, alloc, &counting, &BESIDE, setup, None, 0, 1)
    else {
        return Err(Fail::new("memory"));
    };
    let frame = Frame24::new(FRAME).ok_or("a frame")?;
    for tick in 0..TICKS {
        counting.set_away(row.from <= tick && tick < row.until);
        observer.after(tick * 2, Happened::Heard { bus: 0, frame });
        observer.after(tick * 2 + 1, Happened::Ticked { moment: tick * 100 });
    }
    counting.set_away(row.until > TICKS);
    observer.finish();
    Ok(counting.outcome())
}

#[test]
fn what_could_not_be_written_is_tried_again(rt: HostRuntime) -> Result<(), Fail> {
    for row in &ROWS {
        let outcome = outcome_of(&rt, rt.alloc(), row)?;
        let (found, wanted) = (outcome, row.outcome);
        let name = row.name;
        assert!(rt; found == wanted, "{name}: {found:?}, and not {wanted:?}");
    }
    Ok(())
}
