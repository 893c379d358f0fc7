//! Out of memory: with each request for memory refused in turn (`benches/hostile --memory`), a run
//! that does not start or does not go on gives back what it had, one that ends so says so, and what
//! it left goes on to the same end.

use daliframe::BusNumber;
use ilcompile::Setup;
use plant::{OpenFault, Plant};
use plantload::load;
use plantplay::bus_of;
use simbus::{Scenario, ScriptedClock, SimBus, parse};
use std::alloc::Global;
use std::sync::Wait;
use std::test::Fail;
use std::thread::Threads;
use std::time::Clock as Timer;
use wordlines::Binding;
use workers::{Closed, Ended, NotGoneOn, NotStarted, OpenGate, Opening, run, run_again};

/// An event on each of two buses starts a task, which lights the lamp there.
const TEXT: &str = "PROGRAM p0\nVAR_EXTERNAL l0 : USINT; END_VAR\nLD 7\nST l0\nEND_PROGRAM\n\
    PROGRAM p1\nVAR_EXTERNAL l1 : USINT; END_VAR\nLD 9\nST l1\nEND_PROGRAM\n\
    CONFIGURATION c\n\
    VAR_GLOBAL\nl0 AT %QB0.5 : USINT := 255;\nl1 AT %QB1.5 : USINT := 255;\n\
    e0 AT %IX0.0 : BOOL;\ne1 AT %IX1.0 : BOOL;\nEND_VAR\n\
    TASK t0 (SINGLE := e0, PRIORITY := 1);\nTASK t1 (SINGLE := e1, PRIORITY := 1);\n\
    PROGRAM i0 WITH t0 : p0;\nPROGRAM i1 WITH t1 : p1;\n\
    END_CONFIGURATION\n";

const WIRES: &str = "buses 2\nsource 0.0 device-instance 5 2\nsource 1.0 device-instance 5 2\n";

const EVENTS: &str = "event 0 0A8809\nevent 1 0A8809\ntick 0\n";

const BUSES: u8 = 2;

const WORKERS: usize = 2;

const LIMIT: u64 = 200;

/// What a run leaves.
type Left = Closed<SimBus, ScriptedClock>;

/// The setup of the text, where there is memory for it.
fn setup_of(alloc: Global) -> Option<Setup> {
    let wires = Binding::parse(alloc, WIRES.as_bytes()).ok()?;
    load(alloc, TEXT.as_bytes(), &wires).ok()
}

/// What a run is opened with, where memory may be refused once.
fn opening(alloc: Global) -> Result<Opening, Fail> {
    let setup = match setup_of(alloc) {
        Some(setup) => setup,
        None => setup_of(alloc).ok_or("the text is loaded")?,
    };
    Ok(Opening {
        setup,
        limit: LIMIT,
    })
}

/// A bus to which all has come.
fn bus(alloc: Global, scenario: &Scenario, number: u8) -> Option<SimBus> {
    let mut made = bus_of(alloc, scenario, BusNumber::new(number)?).ok()?;
    made.arrive_all();
    Some(made)
}

/// The buses and the clock of the events, where there is memory for them.
fn links_of(alloc: Global) -> Option<(Vec<SimBus>, ScriptedClock)> {
    let scenario = parse(alloc, EVENTS.as_bytes()).ok()?;
    let mut buses = Vec::new(alloc);
    for number in 0..BUSES {
        buses.push(bus(alloc, &scenario, number)?).ok()?;
    }
    let clock = ScriptedClock::of(alloc, &scenario).ok()?;
    Some((buses, clock))
}

/// The same, where memory may be refused once.
fn links(alloc: Global) -> Result<(Vec<SimBus>, ScriptedClock), Fail> {
    match links_of(alloc) {
        Some(links) => Ok(links),
        None => Ok(links_of(alloc).ok_or("the buses are made")?),
    }
}

/// What a run left. Where it gets no memory to start with, it starts with what came back.
fn begun<R: Threads + Wait + Timer + Sync>(rt: &R, alloc: Global) -> Result<Left, Fail> {
    let (buses, clock) = links(alloc)?;
    let first = opening(alloc)?;
    match run(rt, alloc, first, buses, clock, WORKERS, &OpenGate) {
        Ok(left) => Ok(left),
        Err(
            NotStarted {
                fault: OpenFault::Memory,
                buses,
                clock,
            },
        ) => {
            let again = opening(alloc)?;
            run(rt, alloc, again, buses, clock, WORKERS, &OpenGate).map_err(
                |_| "it starts with what came back".into(),
            )
        }
        Err(_) => Err("another fault".into()),
    }
}

/// What is to stay where a run does not go on.
#[derive(Clone, Copy, PartialEq, Eq)]
struct Counts {
    events: u64,
    limit: u64,
    buses: usize,
    ended: Ended,
}

impl Counts {
    /// Those of what was left.
    fn of(left: &Left) -> Counts {
        Counts {
            events: left.plant().len(),
            limit: left.plant().limit(),
            buses: left.buses().len(),
            ended: left.ending(),
        }
    }
}

/// What a run left that went on. Where it gets no memory to go on with, nothing is changed, and it
/// goes on then.
fn gone_on<R: Threads + Wait + Timer + Sync>(
    rt: &R,
    alloc: Global,
    left: Left,
) -> Result<Left, Fail> {
    let before = Counts::of(&left);
    match run_again(rt, alloc, left, LIMIT + 1, &OpenGate) {
        Ok(more) => Ok(more),
        Err(
            NotGoneOn {
                fault: OpenFault::Memory,
                closed,
            },
        ) => {
            if Counts::of(&closed) != before {
                return Err("what was left is changed".into());
            }
            run_again(rt, alloc, closed, LIMIT + 1, &OpenGate).map_err(
                |_| "it goes on with what came back".into(),
            )
        }
        Err(_) => Err("another fault".into()),
    }
}

/// Whether for each event there is a scan and a frame.
fn is_done(plant: &Plant) -> bool {
    let mut same = true;
    for bus in 0..plant.setup().plan().buses() {
        same = same && plant.heards(bus) == 1 && plant.frames(bus) == 1;
    }
    for task in 0..plant.setup().plan().tasks() {
        same = same && plant.scans(task) == 1;
    }
    same
}

/// Whether a run was cut short for want of memory or of a thread. Else the clock came to its end,
/// and all is done.
fn is_cut(left: &Left) -> Result<bool, Fail> {
    match left.ending() {
        Ended::NoMemory | Ended::NoThread => Ok(true),
        Ended::Asked if is_done(left.plant()) => Ok(false),
        Ended::Asked | Ended::Limit => Err("something is left to do".into()),
    }
}

/// One request of all is refused at most, so that of three runs two are not cut short.
#[test]
fn a_run_goes_on_once_there_is_memory(rt: HostRuntime) -> Result<(), Fail> {
    let first = begun(&rt, rt.alloc())?;
    let is_first_cut = is_cut(&first)?;
    let second = gone_on(&rt, rt.alloc(), first)?;
    let is_second_cut = is_cut(&second)?;
    let third = gone_on(&rt, rt.alloc(), second)?;
    let cuts = [is_first_cut, is_second_cut, is_cut(&third)?];
    assert!(rt; cuts.iter().filter(|is_cut| **is_cut).count() <= 1);
    Ok(())
}
