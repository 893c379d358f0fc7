//! Notes on levels that change more often than is likely meant, at each scan of a fast task or at
//! each event whatever it says, and on buses that are asked for more frames than they carry.

use crate::facts::{GlobalSlot, TaskFacts};
use crate::kinds::{Kind, Rule};
use crate::load::{Counted, rate_of};
use crate::note::{Added, Found, Note, NotePlace, Notes, note_at, note_of};
use ilblocks::BlockKind;
use ilplan::{Location, Plan};

/// How many milliseconds a level takes on a bus, with the pause before it.
const FRAME_TIME: u32 = 30;

/// The note on a level that a task may change faster than a bus can carry it.
pub(crate) fn note_on_fast(facts: &TaskFacts, global: GlobalSlot) -> Option<Note> {
    let interval = facts.interval?;
    global.driven()?;
    if interval >= FRAME_TIME || !facts.is_moved(global.slot) {
        return None;
    }
    let (task, name) = (Found::Task(facts.number), Found::Name(global.name));
    let found = [
        task,
        name,
        Found::Number(i64::from(interval)),
        Found::Nothing,
    ];
    note_of(Kind::LevelAtEachScan, NotePlace::Name(global.name), found)
}

/// The note on an event task that changes a level by what it was, and does not look at what the
/// event says; or on the information of another source that it looks at.
pub(crate) fn note_on_blind(plan: &Plan, facts: &TaskFacts) -> Option<Note> {
    let trigger = facts.trigger?;
    if trigger >= plan.globals() {
        return None;
    }
    let Some(Location::Trigger { bus, source }) = plan.global(trigger).location else {
        return None;
    };
    let task = Found::Task(facts.number);
    let (mut other, mut count) = (None, None);
    for global in &facts.globals {
        let line = facts.slot(global.slot).read;
        match global.location {
            Some(Location::Information { bus: b, source: s }) if line > 0 => {
                if b == bus && s == source {
                    return None;
                }
                let (at, name) = (NotePlace::Line(line), Found::Name(global.name));
                other = note_at(Kind::ForeignInformation, at, name, task);
            }
            Some(Location::Count { bus: b, source: s }) if line > 0 && (b, s) != (bus, source) => {
                let (at, name) = (NotePlace::Line(line), Found::Name(global.name));
                count = note_at(Kind::ForeignCount, at, name, task);
            }
            _ => {}
        }
    }
    if other.is_some() || has_single_edge(facts) {
        return other;
    }
    let Some(changed) = facts
        .globals
        .iter()
        .find(|global| is_changed(facts, **global))
    else {
        return count;
    };
    let at = NotePlace::Line(facts.slot(changed.slot).read);
    let (name, source) = (Found::Name(changed.name), Found::Source { bus, source });
    note_of(
        Kind::UnreadInformation,
        at,
        [task, name, source, Found::Nothing],
    )
}

/// Whether a level is read and several values are stored to it.
fn is_changed(facts: &TaskFacts, global: GlobalSlot) -> bool {
    let slot = facts.slot(global.slot);
    global.driven().is_some() && slot.value.is_none() && slot.read > 0
}

/// Whether a task has an edge that comes once: what it does behind that it does once.
fn has_single_edge(facts: &TaskFacts) -> bool {
    facts.calls.iter().any(|call| {
        matches!(call.kind, BlockKind::RTrig) && facts.port(call.block, 0).value == Some(1)
    })
}

/// How many tenths of a frame a bus carries in a second, with the pauses between frames.
const MOST_TENTHS: i64 = 400;

/// Adds a note for each bus that the cyclic tasks may ask for more frames than it carries, by their
/// requests and by the levels that change from scan to scan. Other levels change when something
/// happens, and say nothing of how often that is.
pub(crate) fn add_load_notes(notes: &mut Notes, tasks: &[TaskFacts], buses: u8) -> Added {
    for bus in 0..buses {
        let tenths = rate_of(notes.alloc, tasks, bus, Counted::Moved)?;
        if tenths > MOST_TENTHS {
            let (bus, tenths) = (Found::Number(i64::from(bus)), Found::Tenths(tenths));
            notes.add(
                Rule::Load,
                note_at(Kind::BusLoad, NotePlace::Whole, bus, tenths),
            );
        }
    }
    Ok(())
}
