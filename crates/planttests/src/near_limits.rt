//! Calls near their limits that no scenario reaches: places of a history that are kept back, a
//! limit that is raised, and events that are given up for a task.

use daliframe::Frame24;
use ghosts::{Memo, Trace};
use ilcompile::Setup;
use plant::{CallRefusal, Plant};
use plantevents::Event;
use plantload::{LoadFault, load};
use plantplay::{FrameStyle, open, play};
use plantrun::write_run;
use simbus::{Scenario, parse};
use std::alloc::{AllocError, Global};
use std::test::Fail;
use wordlines::Binding;
use workers::Ended;

/// A lamp that a push button lights, and a question to gear 5 in the first scan of a second task.
pub(crate) const HALL: &str = "PROGRAM see\n\
    VAR_EXTERNAL lamp : USINT (0..254); END_VAR\n\
    LD 200\nST lamp\n\
    END_PROGRAM\n\
    PROGRAM ask\n\
    VAR q : GEAR_ASK; END_VAR\n\
    LD TRUE\nST q.REQ\nCAL q(ADR := 5)\n\
    END_PROGRAM\n\
    CONFIGURATION hall\n\
    VAR_GLOBAL\nbell AT %IX0.3 : BOOL;\nlamp AT %QB0.7 : USINT (0..254);\nEND_VAR\n\
    TASK press (SINGLE := bell, PRIORITY := 0);\n\
    TASK each_second (INTERVAL := T#1s, PRIORITY := 1);\n\
    PROGRAM one WITH press : see;\nPROGRAM two WITH each_second : ask;\n\
    END_CONFIGURATION\n";

/// Keeps the least information of the events that start it, as the second of two tasks.
const LEAST: &str = "PROGRAM one\n\
    VAR_EXTERNAL news : UINT; least : UINT; END_VAR\nLD news\nMIN least\nST least\n\
    END_PROGRAM\n\
    PROGRAM two\nVAR b : BOOL; END_VAR\nLDN b\nST b\nEND_PROGRAM\n\
    CONFIGURATION c\n\
    VAR_GLOBAL\npressed AT %IX0.3 : BOOL;\nnews AT %IW0.131 : UINT;\ncount AT %IW0.195 : UINT;\n\
    least : UINT := 999;\nEND_VAR\n\
    TASK clock (INTERVAL := T#1s, PRIORITY := 1);\n\
    TASK push (SINGLE := pressed, PRIORITY := 0);\n\
    PROGRAM w WITH clock : two;\nPROGRAM x WITH push : one;\n\
    END_CONFIGURATION\n";

/// The push button is instance 2 of the device with short address 5.
pub(crate) const WIRES: &str = "buses 1\nsource 0.3 device-instance 5 2\n";

/// The setup of a text on one bus with the push button.
pub(crate) fn setup_of(alloc: Global, text: &str) -> Result<Setup, LoadFault> {
    match Binding::parse(alloc, WIRES.as_bytes()) {
        Ok(wires) => load(alloc, text.as_bytes(), &wires),
        Err(_) => Err(LoadFault::Memory),
    }
}

/// The same, of a text that is loaded.
fn loaded(alloc: Global, text: &str) -> Result<Setup, Fail> {
    match setup_of(alloc, text) {
        Ok(setup) => Ok(setup),
        Err(_) => Err("it is loaded".into()),
    }
}

/// A plant of a text.
pub(crate) fn plant_of(
    alloc: Global,
    text: &str,
    workers: usize,
    limit: u64,
) -> Result<Plant, Fail> {
    match Plant::open(alloc, loaded(alloc, text)?, workers, limit) {
        Ok(plant) => Ok(plant),
        Err(_) => Err("it is opened".into()),
    }
}

/// How many ticks are accepted until one is refused.
fn ticks(plant: &mut Plant) -> u64 {
    for accepted in 0..200 {
        if plant.tick(1000).is_err() {
            return accepted;
        }
    }
    200
}

/// How many frames are heard until one is refused.
fn frames(plant: &mut Plant, frame: Frame24) -> u64 {
    for accepted in 0..200 {
        if plant.note_frame(0, frame).is_err() {
            return accepted;
        }
    }
    200
}

/// Whether the place for a frame is there when no other is left: of 100 places one is kept for the
/// bus to go down and one for the frame.
fn keeps_a_frame(plant: &mut Plant, frame: Frame24) -> bool {
    plant.may_hear(0).is_ok()
        && ticks(plant) == 97
        && plant.may_tick() == Err(CallRefusal::Full)
        && plant.may_hear(0).is_ok()
        && frames(plant, frame) == 1
        && plant.may_hear(0) == Err(CallRefusal::Full)
        && plant.down(0).is_ok()
        && plant.len() == 99
}

/// The same of a place for a tick.
fn keeps_a_tick(plant: &mut Plant, frame: Frame24) -> bool {
    plant.may_tick().is_ok()
        && frames(plant, frame) == 97
        && plant.may_hear(0) == Err(CallRefusal::Full)
        && plant.may_tick().is_ok()
        && ticks(plant) == 1
        && plant.may_tick() == Err(CallRefusal::Full)
        && plant.len() == 98
}

/// Whether a full plant has one place more where its limit is raised by one.
fn has_room_once_raised(plant: &mut Plant) -> bool {
    if plant.limit() > 101 || plant.len() > 101 {
        return false;
    }
    plant.set_limit(101);
    ticks(plant) == 1
}

#[test]
fn places_are_kept_back(rt: HostRuntime) -> Result<(), Fail> {
    let push = Frame24::new(0x0A_8801).ok_or("24 bits")?;
    let mut first = plant_of(rt.alloc(), HALL, 1, 100)?;
    assert!(rt; keeps_a_frame(&mut first, push));
    let mut second = plant_of(rt.alloc(), HALL, 1, 100)?;
    assert!(rt; keeps_a_tick(&mut second, push));
    assert!(rt; has_room_once_raised(&mut second));
    Ok(())
}

/// Adds a line the given number of times.
fn add(lines: &mut String, times: u32, line: &str) -> Result<(), AllocError> {
    for _ in 0..times {
        lines.push_str(line)?;
    }
    Ok(())
}

/// One line the given number of times, then another 32 times, then a last one.
fn lines_of(
    alloc: Global,
    times: u32,
    first: &str,
    second: &str,
    last: &str,
) -> Result<String, AllocError> {
    let mut lines = String::new(alloc);
    add(&mut lines, times, first)?;
    add(&mut lines, 32, second)?;
    lines.push_str(last)?;
    Ok(lines)
}

/// A scenario of these lines.
fn scenario_of(alloc: Global, lines: &str) -> Result<Scenario, Fail> {
    match parse(alloc, lines.as_bytes()) {
        Ok(scenario) => Ok(scenario),
        Err(_) => Err("a scenario".into()),
    }
}

/// What is printed where a text stands on the buses of one scenario, and another is played; and
/// then what a run would print of that plant.
fn played(
    alloc: Global,
    text: &str,
    buses: &Scenario,
    scenario: &Scenario,
) -> Result<Vec<u8>, Fail> {
    let Ok(mut installation) = open(alloc, loaded(alloc, text)?, buses, 200) else {
        return Err("it starts".into());
    };
    let mut out = Vec::new(alloc);
    if play(
        alloc,
        &mut out,
        FrameStyle::Digits,
        &mut installation,
        scenario,
    )
    .is_err()
        || write_run(&mut out, Ended::Asked, installation.plant()).is_err()
    {
        return Err("it is printed".into());
    }
    Ok(out)
}

/// What is left then.
const LEFT: &str = "pressed = FALSE\nnews = 9\ncount = 34\nleast = 9\n";

/// The events of one scenario come one by one; with the faults of hearing of another all come
/// before anything is heard.
fn crowd(alloc: Global) -> Result<Vec<u8>, Fail> {
    let events = lines_of(alloc, 2, "event 0 0A8801\n", "event 0 0A8809\n", "")?;
    let buses = scenario_of(alloc, &events)?;
    let faults = lines_of(alloc, 2, "hearfault 0\n", "hearfault 0\n", "tick 0\n")?;
    let at_once = scenario_of(alloc, &faults)?;
    played(alloc, LEAST, &buses, &at_once)
}

/// What 34 events before a scan come to: the first two are given up, and 32 scans follow, and that
/// of the other task.
fn crowd_printed(alloc: Global) -> Result<String, AllocError> {
    let mut lines = String::new(alloc);
    lines.push_str("tick 0\n")?;
    add(&mut lines, 2, "heard 0 0A8801\n")?;
    add(&mut lines, 32, "heard 0 0A8809\n")?;
    add(&mut lines, 32, "take push\ncommit push steps 3\n")?;
    lines.push_str("take clock\ncommit clock steps 2\n")?;
    lines.push_str(LEFT)?;
    lines.push_str("lost push 2\nended asked\nevents 101\nbus 0 sent 0 heard 34\n")?;
    lines.push_str("task clock scans 1 lost 0\ntask push scans 32 lost 2\n")?;
    lines.push_str(LEFT)?;
    Ok(lines)
}

#[test]
fn events_that_are_given_up_are_counted(rt: HostRuntime) -> Result<(), Fail> {
    let printed = crowd(rt.alloc())?;
    let wanted = crowd_printed(rt.alloc())?;
    assert!(rt; printed.as_slice() == wanted.as_bytes());
    Ok(())
}

/// Takes what may cross threads.
fn cross<T: Send + Sync + Drop>(x: T) {
    let _ = x;
}

/// A history would take all memory in time if it had bytes.
#[test]
fn histories_have_no_bytes(rt: HostRuntime) {
    cross(Trace::<Event>::new());
    cross(Memo::of(&7u8));
    assert_eq!(rt; std::mem::size_of::<Trace<Event>>(), 0);
    assert_eq!(rt; std::mem::size_of::<Memo<u64>>(), 0);
}
