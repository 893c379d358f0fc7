//! Buses send at once, and send again after they were idle; tasks are scanned at once; frames are
//! heard and sent and scans are made while the clock still gives moments; an end is seen while it
//! does; what is left at the clock's end is done; a run goes on where the clock does; and runs
//! follow one another.

use crate::house::House;
use crate::links::{PausedClock, WaitingClock, WatchedBus};
use crate::watch::{NOW, Rules, Until, Watch};
use daliframe::BusNumber;
use plant::Plant;
use plantlive::live;
use plantplay::bus_of;
use simbus::{Scenario, ScriptedClock};
use std::alloc::Global;
use std::sync::Wait;
use std::test::Fail;
use std::thread::Threads;
use std::time::Clock as Timer;
use workers::{Closed, Ended, Opening, run, run_again};

/// What is run, what is waited for, and how it ends.
#[derive(Clone, Copy)]
struct Row {
    name: &'static str,
    house: House,
    workers: usize,
    has_memory: bool,
    limit: u64,
    scans_wait: Until,
    buses_wait: bool,
    /// What each answer of the clock waits for.
    waits: &'static [Until],
    /// The clock comes to its end once after the given number of answers.
    pause: u64,
    ended: Ended,
    /// The scans of each task.
    scans: u64,
}

/// A house of 64 buses with no task, whose levels are owed from the start.
const LAMPS: House = House {
    buses: 64,
    tasks: 0,
    has_events: false,
    level: 0,
    moments: 1,
};

/// A house of two buses with a task, whose levels are not owed before its first scan.
const COUNTER: House = House {
    buses: 2,
    tasks: 1,
    has_events: false,
    level: 255,
    moments: 3,
};

/// What most rows have: one scan worker, no scan or bus waits, and the clock comes to its end.
const PLAIN: Row = Row {
    name: "",
    house: LAMPS,
    workers: 1,
    has_memory: true,
    limit: 1000,
    scans_wait: NOW,
    buses_wait: false,
    waits: &[NOW],
    pause: 1,
    ended: Ended::Asked,
    scans: 0,
};

/// Each bus sent its first frame.
const SENT: Until = Until { sent: 1, ..NOW };

/// A scan of each task began.
const SCANNED: Until = Until { scans: 1, ..NOW };

/// Each answer of a clock waits for the scan of the one before, also where it goes on from its end.
const STEPS: [Until; 6] = [
    NOW,
    SCANNED,
    Until { scans: 2, ..NOW },
    Until { scans: 3, ..NOW },
    NOW,
    Until { scans: 4, ..NOW },
];

const ROWS: [Row; 9] = [
    Row {
        name: "two buses send at once",
        house: House { buses: 2, ..LAMPS },
        buses_wait: true,
        waits: &[NOW, SENT],
        ..PLAIN
    },
    Row {
        name: "64 buses send at once",
        buses_wait: true,
        waits: &[NOW, SENT],
        ..PLAIN
    },
    Row {
        name: "64 buses hear and send before the clock's end",
        house: House {
            tasks: 16,
            has_events: true,
            level: 255,
            ..LAMPS
        },
        workers: 2,
        waits: &[
            NOW,
            Until {
                heard: 1,
                sent: 1,
                scans: 1,
                ..NOW
            },
        ],
        scans: 1,
        ..PLAIN
    },
    Row {
        name: "64 buses that were idle send again",
        house: House {
            buses: 64,
            moments: 2,
            ..COUNTER
        },
        waits: &[
            NOW,
            Until {
                sent: 1,
                idle: 50,
                ..NOW
            },
            Until { sent: 2, ..NOW },
        ],
        pause: 2,
        scans: 2,
        ..PLAIN
    },
    Row {
        name: "16 tasks are scanned at once",
        house: House {
            tasks: 16,
            moments: 1,
            ..COUNTER
        },
        workers: 16,
        scans_wait: Until {
            scans: 1,
            works: 1,
            ..NOW
        },
        waits: &[NOW, SCANNED],
        scans: 1,
        ..PLAIN
    },
    Row {
        name: "scans are made before the clock's end",
        house: COUNTER,
        workers: 2,
        waits: &STEPS,
        pause: 3,
        scans: 3,
        ..PLAIN
    },
    Row {
        name: "what is left at the clock's end is done",
        house: House {
            tasks: 2,
            moments: 1,
            ..COUNTER
        },
        scans_wait: Until { ends: 1, ..NOW },
        scans: 1,
        ..PLAIN
    },
    Row {
        name: "a full run ends before its clock",
        house: House {
            buses: 1,
            moments: 900,
            ..LAMPS
        },
        limit: 100,
        pause: 900,
        ended: Ended::Limit,
        ..PLAIN
    },
    Row {
        name: "a run without memory ends before its clock",
        house: House {
            buses: 1,
            moments: 900,
            ..LAMPS
        },
        has_memory: false,
        pause: 900,
        ended: Ended::NoMemory,
        ..PLAIN
    },
];

/// Ten times as many moments as the events of a run.
const LONG: Row = Row {
    name: "runs follow one another",
    house: House {
        buses: 1,
        moments: 900,
        ..LAMPS
    },
    limit: 100,
    pause: 900,
    ..PLAIN
};

/// A clock that comes to its end after three moments, and goes on with a fourth.
const FOURTH: Row = Row {
    name: "a run goes on with the clock",
    house: House {
        moments: 4,
        ..COUNTER
    },
    workers: 2,
    waits: &STEPS,
    pause: 3,
    scans: 3,
    ..PLAIN
};

impl Row {
    /// How many there are of each kind, and who waits.
    fn rules(&self) -> Rules {
        Rules {
            buses: usize::from(self.house.buses),
            tasks: usize::from(self.house.tasks),
            workers: self.workers,
            scans_wait: self.scans_wait,
            buses_wait: self.buses_wait,
        }
    }
}

/// The buses of a row, to which all has come that is to be heard.
fn buses_of<'w, 'r, R: Timer>(
    alloc: Global,
    watch: &'w Watch<'r, R>,
    row: &Row,
    scenario: &Scenario,
) -> Result<Vec<WatchedBus<'w, 'r, R>>, Fail> {
    let mut buses = Vec::new(alloc);
    for bus in 0..row.house.buses {
        if let Some(number) = BusNumber::new(bus) {
            let mut line = bus_of(alloc, scenario, number)?;
            line.arrive_all();
            let bus = WatchedBus::new(line, watch, usize::from(bus), row.has_memory);
            buses.push(bus)?;
        }
    }
    Ok(buses)
}

/// What a run of the tests leaves.
type Left<'w, 'r, R> = Closed<WatchedBus<'w, 'r, R>, WaitingClock<'w, 'r, R>>;

/// What a row is run with.
#[derive(Drop)]
struct Linked<'w, 'r, R> {
    opening: Opening,
    buses: Vec<WatchedBus<'w, 'r, R>>,
    clock: WaitingClock<'w, 'r, R>,
}

/// What a row is run with, to which nothing happened.
fn link<'w, 'r, R: Timer>(
    alloc: Global,
    watch: &'w Watch<'r, R>,
    row: &Row,
) -> Result<Linked<'w, 'r, R>, Fail> {
    let scenario = row.house.scenario(alloc)?;
    let buses = buses_of(alloc, watch, row, &scenario)?;
    let clock = PausedClock::new(ScriptedClock::of(alloc, &scenario)?, row.pause);
    let clock = WaitingClock::new(clock, watch, row.waits);
    let opening = Opening {
        setup: row.house.setup(alloc)?,
        limit: row.limit,
    };
    Ok(Linked {
        opening,
        buses,
        clock,
    })
}

/// Whether the gate and the buses counted what the history has, and each task was scanned so often.
fn has_counted<'r, R: Timer>(plant: &Plant, watch: &Watch<'r, R>, scans: u64) -> bool {
    let mut same = watch.is_kept();
    for bus in 0..plant.setup().plan().buses() {
        let frames = plant.frames(bus);
        let number = usize::from(bus);
        same = same && watch.sent.of(number) == frames && watch.handed.of(number) == frames;
    }
    for task in 0..plant.setup().plan().tasks() {
        same = same && plant.scans(task) == scans && watch.scans.of(task) == scans;
    }
    same
}

/// Whether nobody waited in vain, the run ended so, and all was counted.
fn is_left<'w, 'r, R: Timer>(
    left: &Left<'w, 'r, R>,
    watch: &Watch<'r, R>,
    ended: Ended,
    scans: u64,
) -> bool {
    left.ending() == ended
        && left.clock().gave_none() == (ended == Ended::Asked)
        && has_counted(left.plant(), watch, scans)
}

/// Whether a row holds.
fn holds<R: Threads + Wait + Timer + Sync>(rt: &R, alloc: Global, row: &Row) -> Result<bool, Fail> {
    let watch = Watch::new(rt, alloc, row.rules())?;
    let Linked {
        opening,
        buses,
        clock,
    } = link(alloc, &watch, row)?;
    let Ok(left) = run(rt, alloc, opening, buses, clock, row.workers, &watch) else {
        return Err(Fail::new("the run doesn't start"));
    };
    Ok(is_left(&left, &watch, row.ended, row.scans))
}

/// Whether a run goes on where its clock does and makes a scan more, under the limit of before;
/// under one less it is refused, and what was left comes back.
fn goes_on<R: Threads + Wait + Timer + Sync>(
    rt: &R,
    alloc: Global,
    row: &Row,
) -> Result<bool, Fail> {
    let watch = Watch::new(rt, alloc, row.rules())?;
    let Linked {
        opening,
        buses,
        clock,
    } = link(alloc, &watch, row)?;
    let Ok(left) = run(rt, alloc, opening, buses, clock, row.workers, &watch) else {
        return Err(Fail::new("the run doesn't start"));
    };
    if !is_left(&left, &watch, row.ended, row.scans) {
        return Ok(false);
    }
    let Err(refused) = run_again(rt, alloc, left, row.limit.saturating_sub(1), &watch) else {
        return Ok(false);
    };
    let Ok(more) = run_again(rt, alloc, refused.closed, row.limit, &watch) else {
        return Err(Fail::new("the run doesn't go on"));
    };
    Ok(is_left(&more, &watch, row.ended, row.scans.saturating_add(1)))
}

/// Whether a plant is run to its clock's end, one run after another, and its history is that of
/// all.
fn lives<R: Threads + Wait + Timer + Sync>(rt: &R, alloc: Global, row: &Row) -> Result<bool, Fail> {
    let watch = Watch::new(rt, alloc, row.rules())?;
    let Linked {
        opening,
        buses,
        clock,
    } = link(alloc, &watch, row)?;
    let Ok(lived) = live(rt, alloc, opening, buses, clock, row.workers, &watch) else {
        return Err(Fail::new("the run doesn't start"));
    };
    Ok(
        lived.ended == row.ended
            && lived.left.plant().len() >= u64::from(row.house.moments)
            && is_left(&lived.left, &watch, row.ended, row.scans),
    )
}

#[test]
fn runs_follow_one_another(rt: HostRuntime) -> Result<(), Fail> {
    let is_so = lives(&rt, rt.alloc(), &LONG)?;
    assert!(rt; is_so, "{}", LONG.name);
    Ok(())
}

#[test]
fn a_run_goes_on(rt: HostRuntime) -> Result<(), Fail> {
    let is_so = goes_on(&rt, rt.alloc(), &FOURTH)?;
    assert!(rt; is_so, "{}", FOURTH.name);
    Ok(())
}

#[test]
fn threads_work_at_once(rt: HostRuntime) -> Result<(), Fail> {
    for row in &ROWS {
        let is_so = holds(&rt, rt.alloc(), row)?;
        assert!(rt; is_so, "{}", row.name);
    }
    Ok(())
}
