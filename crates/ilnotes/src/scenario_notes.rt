//! Notes on a scenario that is played with a text: what it says of buses that are not there, events
//! that are of no source, and gear that it lacks.

use crate::facts::House;
use crate::kinds::{Kind, Rule};
use crate::levels::{FIRST_GROUP, LevelTarget};
use crate::note::{Added, Found, NotePlace, Notes, note_at};
use daliframe::Frame24;
use ilplan::Plan;
use indexmap::IndexMap;
use std::alloc::Global;
use wordlines::{Scenario, Statement, first_line, is_skipped};

/// A scenario and the bytes that it was read from.
#[derive(Clone, Copy)]
pub struct Played<'a> {
    pub bytes: &'a [u8],
    pub scenario: &'a Scenario,
}

/// How many information values an event message has.
const INFORMATION_VALUES: u32 = 1024;

/// A scenario as it is compared with a plan.
#[derive(Drop)]
struct Comparison<'p> {
    plan: &'p Plan,
    /// The gear that the scenario has.
    gear: IndexMap<usize, bool>,
    /// The buses that are not there and were noted, and the senders that were looked for.
    seen: IndexMap<u64, bool>,
}

/// Adds the notes on a scenario.
pub(crate) fn add_scenario_notes(notes: &mut Notes, house: &House, played: Played) -> Added {
    let mut comparison = Comparison::with(notes.alloc, house.plan);
    let mut rest = played.bytes;
    let mut number: usize = 0;
    for statement in played.scenario.lines() {
        // There is no note on a tick, and one line may say many.
        if matches!(statement, Statement::Tick { .. }) {
            continue;
        }
        let (line, after) = next_statement(rest);
        number = number.saturating_add(line);
        rest = after;
        comparison.add_statement(notes, number, statement)?;
    }
    comparison.add_lacking_gear(notes, house);
    Ok(())
}

/// How many lines the next statement but a tick and all before it are, and what stands after it.
fn next_statement(bytes: &[u8]) -> (usize, &[u8]) {
    let mut rest = bytes;
    let mut count: usize = 0;
    for _ in 0..bytes.len() {
        if rest.is_empty() {
            break;
        }
        let (line, after) = first_line(rest);
        rest = after;
        count = count.saturating_add(1);
        if !is_skipped(line) && !line.starts_with(b"tick") {
            break;
        }
    }
    (count, rest)
}

impl<'p> Comparison<'p> {
    /// Nothing is compared so far.
    fn with(alloc: Global, plan: &'p Plan) -> Comparison<'p> {
        Comparison {
            plan,
            gear: IndexMap::new(alloc),
            seen: IndexMap::new(alloc),
        }
    }

    /// Adds the note on the statement of a line, where there is one: on a bus once, and on events
    /// once for each sender, whatever their information.
    fn add_statement(&mut self, notes: &mut Notes, line: usize, statement: &Statement) -> Added {
        let Some(bus) = bus_of(statement) else {
            return Ok(());
        };
        let at = NotePlace::Scenario(line);
        if bus >= self.plan.buses() {
            if self.seen.insert(u64::from(bus), true)?.is_none() {
                let bus = Found::Number(i64::from(bus));
                notes.add(
                    Rule::ScenarioLines,
                    note_at(Kind::ScenarioBus, at, bus, Found::Nothing),
                );
            }
            return Ok(());
        }
        match *statement {
            Statement::Gear { short, .. } => {
                let address = short.number();
                self.gear
                    .insert(LevelTarget { bus, address }.number(), true)?;
            }
            Statement::Event { frame, .. } => {
                let is_new = self.seen.insert(sender_of(bus, frame), true)?.is_none();
                if is_new && !self.has_source(bus, frame) {
                    let event = Found::Event(frame.number());
                    notes.add(
                        Rule::ScenarioLines,
                        note_at(Kind::ScenarioSource, at, event, Found::Nothing),
                    );
                }
            }
            _ => {}
        }
        Ok(())
    }

    /// Whether a frame is an event of a source of a bus.
    fn has_source(&self, bus: u8, frame: Frame24) -> bool {
        self.plan.sources().iter().any(|bound| bound.bus == bus
            && bound.source.information(frame).is_some())
    }

    /// Adds a note for each level of a gear that the scenario does not have.
    fn add_lacking_gear(&self, notes: &mut Notes, house: &House) {
        for bus in 0..self.plan.buses() {
            for address in 0..FIRST_GROUP {
                let driven = LevelTarget { bus, address };
                if self.gear.get(&driven.number()).is_none() {
                    if let Some(level) = house.levels.get(driven) {
                        let name = Found::Name(level.name);
                        let (whole, driven) = (NotePlace::Whole, Found::Driven(driven));
                        notes.add(
                            Rule::ScenarioGear,
                            note_at(Kind::ScenarioGear, whole, name, driven),
                        );
                    }
                }
            }
        }
    }
}

/// A number for the sender of an event, above those of buses.
fn sender_of(bus: u8, frame: Frame24) -> u64 {
    u64::from(bus)
        .saturating_add(1)
        .saturating_mul(65_536)
        .saturating_add(u64::from(frame.number() / INFORMATION_VALUES))
}

/// The bus that a statement is of.
fn bus_of(statement: &Statement) -> Option<u8> {
    match *statement {
        Statement::Gear { bus, .. }
        | Statement::LampFailure { bus, .. }
        | Statement::Memory { bus, .. }
        | Statement::Device { bus, .. }
        | Statement::InputInstance { bus, .. }
        | Statement::Reply { bus, .. }
        | Statement::HearFault { bus }
        | Statement::Event { bus, .. } => Some(bus.number()),
        Statement::Tick { .. } => None,
    }
}
