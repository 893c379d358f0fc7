//! Notes on what the calls of block instances ask and command: several questions of which the
//! answers come to one variable, and gear that something else commands as well.

use crate::facts::{BlockCall, House, TaskFacts};
use crate::kinds::{Kind, Rule};
use crate::levels::{BROADCAST, FIRST_GROUP, LevelTarget};
use crate::note::{Found, Note, NotePlace, Notes, note_at, note_of};
use ilblocks::BlockKind;
use ilplan::{Location, Plan};
use ilsource::Name;
use std::alloc::{AllocError, Global};

/// The variable with the answer of one gear or device, and the first question to it with its line.
#[derive(Clone, Copy)]
struct Answerer {
    answer: Name,
    first: Option<((bool, i64, i64), usize)>,
    is_told: bool,
}

/// The first command to gear that no level drives.
#[derive(Clone, Copy)]
struct Commanded {
    task: usize,
    is_cyclic: bool,
    line: usize,
    is_told: bool,
}

/// What the calls so far asked and commanded, by the numbers of what it went to.
#[derive(Drop)]
pub(crate) struct Calls {
    /// Gear and devices in turn.
    answerers: Vec<Option<Answerer>>,
    commanded: Vec<Option<Commanded>>,
}

impl Calls {
    /// No call so far, of a plan with these variables for answers.
    ///
    /// # Errors
    ///
    /// The allocator is out of memory.
    pub fn of(alloc: Global, plan: &Plan) -> Result<Calls, AllocError> {
        let end = LevelTarget::end(plan);
        let mut calls = Calls {
            answerers: vec![in alloc; None; number_of(end, false)]?,
            commanded: vec![in alloc; None; end.number()]?,
        };
        for number in 0..plan.globals() {
            let global = plan.global(number);
            calls.add_answerer(global.name, global.location);
        }
        Ok(calls)
    }

    /// Adds the gear or the device whose answer is at this place.
    fn add_answerer(&mut self, answer: Name, location: Option<Location>) {
        let (bus, address, is_device) = match location {
            Some(Location::GearAnswer { bus, short }) => (bus, short, false),
            Some(Location::DeviceAnswer { bus, short }) => (bus, short, true),
            _ => return,
        };
        let number = number_of(LevelTarget { bus, address }, is_device);
        if let Some(kept) = self.answerers.get_mut(number) {
            *kept = Some(Answerer {
                answer,
                first: None,
                is_told: false,
            });
        }
    }

    /// The note on a call, where it is the second question to what one variable has the answer of.
    pub fn note_on_question(&mut self, call: &BlockCall) -> Option<Note> {
        let question = question_of(call)?;
        let asked = call.driven()?;
        let is_device = matches!(call.kind, BlockKind::DevAsk);
        let number = number_of(asked, is_device);
        let answerer = self.answerers.get_mut(number)?.as_mut()?;
        let Some((first, line)) = answerer.first else {
            answerer.first = Some((question, call.line));
            return None;
        };
        if answerer.is_told || first == question {
            return None;
        }
        answerer.is_told = true;
        let (name, answer) = (Found::Name(call.name), Found::Name(answerer.answer));
        let whom = if is_device {
            Found::Device(asked)
        } else {
            Found::Driven(asked)
        };
        let found = [name, whom, Found::Count(line), answer];
        note_of(Kind::SharedAnswer, NotePlace::Line(call.line), found)
    }

    /// The note on a call, where it is a command to gear that another task commands too and that no
    /// level drives. One of both tasks is a cyclic one: what two event tasks command is what
    /// somebody asked for last. Where one of both commands all gear, both are.
    pub fn note_on_shared(
        &mut self,
        house: &House,
        facts: &TaskFacts,
        call: &BlockCall,
    ) -> Option<Note> {
        let driven = commanded_by(call)?;
        if house.levels.get(driven).is_some() {
            return None;
        }
        let this = Commanded {
            task: facts.number,
            is_cyclic: facts.interval.is_some(),
            line: call.line,
            is_told: false,
        };
        let mut kind = Kind::SharedGear;
        let mut first = self.shared_at(driven, this, false);
        if first.is_none() {
            kind = Kind::SharedMore;
            for address in 0..BROADCAST.saturating_add(1) {
                let is_all = (address == BROADCAST) != (driven.address == BROADCAST);
                let least = address.min(driven.address);
                if first.is_none() && is_all && least < FIRST_GROUP {
                    first = self.shared_at(LevelTarget { address, ..driven }, this, true);
                }
            }
        }
        if let Some(kept) = self.commanded.get_mut(driven.number()) {
            *kept = kept.or(Some(this));
        }
        let Commanded { line, task, .. } = first?;
        let (name, driven) = (Found::Name(call.name), Found::Driven(driven));
        let found = [name, driven, Found::Count(line), Found::Task(task)];
        note_of(kind, NotePlace::Line(call.line), found)
    }

    /// The first command to this, where another task makes it, one of both tasks is a cyclic one,
    /// or both are, and it was not noted yet.
    fn shared_at(
        &mut self,
        driven: LevelTarget,
        this: Commanded,
        is_both: bool,
    ) -> Option<Commanded> {
        let first = self.commanded.get_mut(driven.number())?.as_mut()?;
        let is_cyclic = if is_both {
            first.is_cyclic && this.is_cyclic
        } else {
            first.is_cyclic || this.is_cyclic
        };
        if first.is_told || first.task == this.task || !is_cyclic {
            return None;
        }
        first.is_told = true;
        Some(*first)
    }
}

/// The number of a gear, or of a device, among both.
fn number_of(asked: LevelTarget, is_device: bool) -> usize {
    asked
        .number()
        .saturating_mul(2)
        .saturating_add(usize::from(is_device))
}

/// What a call asks, where it asks and its ports are known: whether it asks for a place of memory,
/// and its ports.
fn question_of(call: &BlockCall) -> Option<(bool, i64, i64)> {
    let is_of_memory = match call.kind {
        BlockKind::GearAsk | BlockKind::DevAsk => false,
        BlockKind::GearRead => true,
        _ => return None,
    };
    if !call.may_request() {
        return None;
    }
    Some((is_of_memory, call.port(3)?, call.port(4)?))
}

/// The note on a command to gear whose level a task stores, where there is one. One that turns all
/// gear of a bus off, by the command 0 or the level 0, is meant so.
pub(crate) fn note_on_command(house: &House, facts: &TaskFacts, call: &BlockCall) -> Option<Note> {
    let driven = commanded_by(call)?;
    if driven.address == BROADCAST && call.port(3) == Some(0) {
        return None;
    }
    let (kind, level) = match house.levels.get(driven) {
        Some(level) => (Kind::CommandToLevel, level),
        None => {
            let changed = house.levels.below(driven, facts, call.place);
            (
                Kind::CommandAboveLevel,
                changed.or(house.levels.above(driven))?,
            )
        }
    };
    if level.is_moved || facts.sends_again(level, call.place) {
        return None;
    }
    let (name, level) = (Found::Name(call.name), Found::Name(level.name));
    let found = [name, Found::Driven(driven), level, Found::Nothing];
    note_of(kind, NotePlace::Line(call.line), found)
}

/// The note on a call that sends 255 as a level.
pub(crate) fn note_on_mask(call: &BlockCall) -> Option<Note> {
    let is_level = matches!(call.kind, BlockKind::GearLevel) && call.may_request();
    if !is_level || call.port(3)? != 255 {
        return None;
    }
    let (at, name) = (NotePlace::Line(call.line), Found::Name(call.name));
    note_at(Kind::LevelMask, at, name, Found::Nothing)
}

/// What a call commands that changes levels.
fn commanded_by(call: &BlockCall) -> Option<LevelTarget> {
    if call.may_request() && matches!(call.kind, BlockKind::GearLevel | BlockKind::GearDo) {
        call.driven()
    } else {
        None
    }
}

/// Adds a note for each level whose gear a level of more gear drives as well.
pub(crate) fn add_covered_levels(notes: &mut Notes, house: &House) {
    for bus in 0..house.plan.buses() {
        for address in 0..BROADCAST {
            notes.add(
                Rule::Overlaps,
                note_on_covered(house, LevelTarget { bus, address }),
            );
        }
    }
}

/// The note on a level whose gear another level drives as well, where there is one.
fn note_on_covered(house: &House, driven: LevelTarget) -> Option<Note> {
    let level = house.levels.get(driven)?;
    let other = house.levels.above(driven)?;
    let (name, other_name) = (Found::Name(level.name), Found::Name(other.name));
    let found = [
        name,
        other_name,
        Found::Driven(other.driven),
        Found::Nothing,
    ];
    note_of(Kind::LevelsOverlap, NotePlace::Name(level.name), found)
}
