//! How many frames a bus may be asked for: in a second by the cyclic tasks, and by each event task
//! for an event.

use crate::facts::{BlockCall, TaskFacts, facts_of};
use ilblocks::BlockKind;
use ilcode::Word;
use ilcompile::Setup;
use illisting::{add_at, count_at};
use iltypes::Condition;
use printout::Printout;
use std::alloc::{AllocError, Global};
use std::io;
use std::io::Write;

/// Which of the levels that a task stores count as a frame in each scan.
#[derive(Clone, Copy)]
pub enum Counted {
    /// Each: no more are sent.
    Stored,
    /// Those that a cyclic task computes from what its scan before left, so that they may change in
    /// each scan, whatever comes.
    Moved,
}

/// Writes a line for each bus that the tasks may ask for frames: how many in a second by the cyclic
/// tasks together, and how many for an event by each event task.
///
/// # Errors
///
/// The writer's, or that the allocator is out of memory.
pub fn write_load<W: Write>(alloc: Global, out: &mut W, setup: &Setup) -> io::Result<()> {
    let tasks = facts_of(alloc, setup)?;
    let mut page = Printout::new(alloc);
    for bus in 0..setup.plan().buses() {
        add_bus(alloc, &mut page, &tasks, bus)?;
    }
    page.write_to(out)
}

/// Adds the line of a bus, where it may be asked for frames.
fn add_bus(
    alloc: Global,
    page: &mut Printout,
    tasks: &[TaskFacts],
    bus: u8,
) -> Result<(), AllocError> {
    let tenths = rate_of(alloc, tasks, bus, Counted::Stored)?;
    let mut is_begun = tenths > 0;
    if is_begun {
        begin_part(page, bus, false);
        add_tenths(page, tenths);
        page.text(" a second");
    }
    for facts in tasks {
        let frames = match facts.interval {
            Some(_) => 0,
            None => asked_of(alloc, facts, bus, Counted::Stored)?,
        };
        if frames > 0 {
            begin_part(page, bus, is_begun);
            is_begun = true;
            page.number(frames);
            page.text(" for an event of ");
            page.text(facts.task.name());
        }
    }
    if is_begun {
        page.text("\n");
    }
    Ok(())
}

/// Begins the line of a bus, or goes on with it.
fn begin_part(page: &mut Printout, bus: u8, is_begun: bool) {
    if is_begun {
        page.text(", ");
    } else {
        page.text("bus ");
        page.number(i64::from(bus));
        page.text(" frames at most ");
    }
}

/// Adds a number of tenths.
pub fn add_tenths(page: &mut Printout, tenths: i64) {
    page.number(tenths / 10);
    page.text(".");
    page.number(tenths % 10);
}

/// How many tenths of a frame a second the cyclic tasks may ask a bus for together, at most, with
/// these of their levels.
///
/// # Errors
///
/// The allocator is out of memory.
pub fn rate_of(
    alloc: Global,
    tasks: &[TaskFacts],
    bus: u8,
    counted: Counted,
) -> Result<i64, AllocError> {
    let mut tenths: i64 = 0;
    for facts in tasks {
        if facts.interval.is_some() {
            tenths = tenths.saturating_add(asked_of(alloc, facts, bus, counted)?);
        }
    }
    Ok(tenths)
}

/// What a task may ask a bus for: a cyclic one for so many tenths of a frame a second, rounded up,
/// an event task for so many frames for an event. Requests are counted in halves of frames, of
/// scans one after another: a block that is called once in a scan makes a request in each second
/// scan at most, since REQ becomes FALSE in between.
fn asked_of(
    alloc: Global,
    facts: &TaskFacts,
    bus: u8,
    counted: Counted,
) -> Result<i64, AllocError> {
    let requests = i64::from(most_halves(alloc, facts, bus)?);
    let levels = i64::from(levels_on(facts, bus, counted));
    let Some(interval) = facts.interval else {
        return Ok((requests / 2).saturating_add(levels));
    };
    let interval = i64::from(interval);
    let halves = requests.saturating_add(levels.saturating_mul(2));
    let all = halves
        .saturating_mul(5000)
        .saturating_add(interval.saturating_sub(1));
    Ok(all.checked_div(interval).unwrap_or(0))
}

/// How many levels of a bus a task stores that count.
fn levels_on(facts: &TaskFacts, bus: u8, counted: Counted) -> u32 {
    let mut count: u32 = 0;
    for global in &facts.globals {
        if let Some(level) = facts.stored_level(*global) {
            let is_counted = level.is_moved || matches!(counted, Counted::Stored);
            if is_counted && level.driven.bus == bus {
                count = count.saturating_add(1);
            }
        }
    }
    count
}

/// The most halves of frames that requests to a bus come to on a path of a code. A function calls
/// no block instance, so the paths are those of the programs, gone over from their last word to the
/// first.
fn most_halves(alloc: Global, facts: &TaskFacts, bus: u8) -> Result<u32, AllocError> {
    let code = facts.code;
    let mut most: Vec<u32> = vec![in alloc; 0; code.end_of(0)]?;
    for call in &facts.calls {
        add_at(&mut most, call.place, halves_of(facts, call, bus));
    }
    for place in (0..code.end_of(0)).rev() {
        let next = count_at(&most, place.saturating_add(1));
        let on = match code.get(place) {
            Some(Word::Jump { condition, target }) => {
                let there = count_at(&most, target as usize);
                if condition == Condition::Always {
                    there
                } else {
                    there.max(next)
                }
            }
            _ => next,
        };
        add_at(&mut most, place, on);
    }
    Ok(count_at(&most, 0))
}

/// How many halves of frames a call may ask a bus for in each scan.
fn halves_of(facts: &TaskFacts, call: &BlockCall, bus: u8) -> u32 {
    let number = call.port(1).unwrap_or(i64::from(bus));
    if number != i64::from(bus) || !call.may_request() {
        return 0;
    }
    let frames = frames_of(call.kind);
    let first = facts.port(call.block, 0);
    if facts.interval.is_none() || first.is_false {
        frames.saturating_mul(2)
    } else if first.value == Some(1) {
        0
    } else {
        frames
    }
}

/// How many frames a transaction of a block has.
fn frames_of(kind: BlockKind) -> u32 {
    match kind {
        BlockKind::RTrig | BlockKind::Ctu | BlockKind::Ton => 0,
        BlockKind::GearLevel | BlockKind::GearDo | BlockKind::GearAsk | BlockKind::DevAsk => 1,
        BlockKind::GearPair | BlockKind::DevDo => 2,
        BlockKind::GearSet | BlockKind::GearRead | BlockKind::DevScheme => 3,
    }
}
