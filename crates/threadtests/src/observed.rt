//! What is written beside a run in threads: a line of the log for each frame that is heard and for
//! what else has one, in the order of the history, in whatever order workers tell of them.

use crate::house::House;
use commandoptions::Beside;
use daliframe::BusNumber;
use livejournal::{BuildingObserver, Care, Storage};
use plant::Plant;
use plantdriving::Happened;
use plantlive::live;
use plantplay::bus_of;
use plantturns::Gate;
use simbus::{Scenario, ScriptedClock, SimBus};
use std::alloc::Global;
use std::io;
use std::sync::{Mutex, Wait};
use std::test::Fail;
use std::thread::Threads;
use std::time::Clock as Timer;
use workers::Opening;

/// A house in which each bus has an event, a task and a lamp, over several runs.
const HOUSE: House = House {
    buses: 6,
    tasks: 6,
    has_events: true,
    level: 0,
    moments: 300,
};

const LIMIT: u64 = 100;

const WORKERS: usize = 3;

/// The log alone is wanted, on standard error.
const BESIDE: Beside = Beside {
    log: Some("-"),
    log_size: 10_000,
    record: None,
    status: None,
    is_json: false,
    keep: None,
};

/// The status and the record alone are wanted.
const PAGES: Beside = Beside {
    log: None,
    log_size: 10_000,
    record: Some("record"),
    status: Some("status"),
    is_json: false,
    keep: None,
};

/// A storage that holds what is told, and each page that is written.
#[derive(Drop)]
struct Held<'r, R: Wait> {
    rt: &'r R,
    told: Mutex<Vec<u8>>,
}

impl<R: Wait> Storage for Held<'_, R> {
    ghost use Rattle.std.specs.Prelude.{⊤};

    ghost replaced = { λ _ _ _. ⊤ };

    ghost appended = { λ _ _ _. ⊤ };

    ghost unwritten = { λ _ _. ⊤ };

    fn append(&self, _path: &str, _bytes: &[u8]) -> io::Result<u64> {
        Ok(0)
    }

    fn end_line(&self, _path: &str) -> io::Result<u64> {
        Ok(0)
    }

    fn read(&self, _alloc: Global, _path: &str) -> io::Result<Vec<u8>> {
        Err(io::Error::from(io::ErrorKind::NotFound))
    }

    fn replace(&self, _alloc: Global, _path: &str, bytes: &[u8], _care: Care) -> io::Result<()> {
        let mut told = self.told.lock(self.rt);
        told.extend_from_slice(bytes)?;
        Ok(())
    }

    fn rename(&self, _from: &str, _to: &str) -> io::Result<()> {
        Ok(())
    }

    fn tell(&self, text: &str) -> io::Result<()> {
        let mut told = self.told.lock(self.rt);
        told.extend_from_slice(text.as_bytes())?;
        Ok(())
    }

    fn seconds(&self) -> u64 {
        0
    }

    fn memory(&self) -> Option<u64> {
        None
    }
}

/// The buses of the house, to which all has come.
fn buses_of(alloc: Global, scenario: &Scenario) -> Result<Vec<SimBus>, Fail> {
    let mut buses = Vec::new(alloc);
    for bus in 0..HOUSE.buses {
        if let Some(number) = BusNumber::new(bus) {
            let mut line = bus_of(alloc, scenario, number)?;
            line.arrive_all();
            buses.push(line)?;
        }
    }
    Ok(buses)
}

/// How many lines say that a frame was heard, where the places with which lines begin never fall.
fn heard_in_order(text: &str) -> Option<u64> {
    let mut last: u64 = 0;
    let mut heard: u64 = 0;
    for line in text.lines() {
        let place = line.split(' ').next()?.parse::<u64>().ok()?;
        if place < last {
            return None;
        }
        last = place;
        if line.contains(" heard bus ") {
            heard = heard.saturating_add(1);
        }
    }
    Some(heard)
}

/// How many frames were heard on all buses of a plant.
fn heards_of(plant: &Plant) -> u64 {
    let mut heard: u64 = 0;
    for bus in 0..plant.setup().plan().buses() {
        heard = heard.saturating_add(plant.heards(bus));
    }
    heard
}

/// Whether the log of a run in threads has a line for each frame that was heard, in order.
fn is_logged<R: Threads + Wait + Timer + Sync>(rt: &R, alloc: Global) -> Result<bool, Fail> {
    let scenario = HOUSE.scenario(alloc)?;
    let held = Held {
        rt,
        told: Mutex::new(Vec::new(alloc)),
    };
    let Ok(observer) = BuildingObserver::open(
        rt,
        alloc,
        &held,
        &BESIDE,
        HOUSE.setup(alloc)?,
        None,
        0,
        WORKERS,
    ) else {
        return Err(Fail::new("the log isn't opened"));
    };
    let opening = Opening {
        setup: HOUSE.setup(alloc)?,
        limit: LIMIT,
    };
    let clock = ScriptedClock::of(alloc, &scenario)?;
    let buses = buses_of(alloc, &scenario)?;
    let Ok(lived) = live(rt, alloc, opening, buses, clock, WORKERS, &observer) else {
        return Err(Fail::new("the run doesn't start"));
    };
    observer.finish();
    let told = held.told.lock(rt);
    let text = str::from_utf8(&told).unwrap_or("");
    Ok(heard_in_order(text) == Some(heards_of(lived.left.plant())))
}

/// Whether the pages that are written beside these events have this text.
fn have_pages<R: Threads + Wait + Timer + Sync>(
    rt: &R,
    alloc: Global,
    events: Vec<Happened>,
    text: &str,
) -> Result<bool, Fail> {
    let held = Held {
        rt,
        told: Mutex::new(Vec::new(alloc)),
    };
    let setup = HOUSE.setup(alloc)?;
    let Ok(observer) = BuildingObserver::open(rt, alloc, &held, &PAGES, setup, None, 0, WORKERS)
    else {
        return Err(Fail::new("the pages aren't opened"));
    };
    let mut place: u64 = 0;
    for event in events {
        observer.after(place, event);
        place = place.saturating_add(1);
    }
    observer.finish();
    let told = held.told.lock(rt);
    Ok(str::from_utf8(&told).unwrap_or("").contains(text))
}

#[test]
fn a_bus_that_is_up_again_is_so_in_the_status_and_ends_the_record(
    rt: HostRuntime,
) -> Result<(), Fail> {
    let alloc = rt.alloc();
    let down = vec![in alloc;
        Happened::Ticked { moment: 7 },
        Happened::WentDown { bus: 1 },
    ]?;
    let is_down = have_pages(&rt, alloc, down, "bus 1 down sent 0 heard 0")?;
    assert!(rt; is_down, "a bus that is down");
    for (text, why) in [
        (
            "moment 7\nevents 3\nbus 0 up sent 0 heard 0 waiting 0 dropped 0\nbus 1 up sent",
            "up",
        ),
        (
            "# bus 1 came up again, and the record ends here\n",
            "the record's end",
        ),
    ] {
        let up = vec![in alloc;
            Happened::Ticked { moment: 7 },
            Happened::WentDown { bus: 1 },
            Happened::CameUp { bus: 1 },
        ]?;
        let is_up = have_pages(&rt, alloc, up, text)?;
        assert!(rt; is_up, "{why}");
    }
    Ok(())
}

#[test]
fn each_frame_is_logged_in_order(rt: HostRuntime) -> Result<(), Fail> {
    let is_so = is_logged(&rt, rt.alloc())?;
    assert!(rt; is_so, "a line for each frame, in order");
    Ok(())
}
