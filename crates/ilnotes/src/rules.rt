//! All rules, on one walk along the tasks, their calls and their words. Each gives its notes, in
//! whatever order; they are printed rule by rule.

use crate::block_notes::note_on_block;
use crate::call_notes::{Calls, add_covered_levels, note_on_command, note_on_mask};
use crate::facts::{House, TaskFacts};
use crate::kinds::{Kind, Rule};
use crate::note::{Added, Found, NotePlace, Notes, note_at};
use crate::number_notes::{note_on_limits, note_on_time};
use crate::overwritten::add_overwritten;
use crate::pace_notes::{add_load_notes, note_on_blind, note_on_fast};
use crate::range_notes::{
    Kept, commands_gear, keep_stored, note_on_condition, note_on_level, note_on_same,
    note_on_unreached, note_on_unused,
};
use crate::text_notes::{add_comment_notes, add_idle_notes, add_program_notes, add_source_notes};
use crate::variable_notes::{add_variable_notes, note_on_trigger};
use ilcode::Word;
use ilverify::{Pass, Passed, most_requests};
use std::alloc::AllocError;

/// How many requests of one class wait for a bus at most.
const MOST_WAITING: u32 = limits::MOST_WAITING as u32;

/// What is stored to each global variable that is a level.
type Stored = Vec<Option<Kept>>;

/// Adds the notes on what is used to no end, and on what goes wrong in a house.
pub(crate) fn add_all_notes(notes: &mut Notes, house: &House) -> Added {
    let plan = house.plan;
    let mut calls = Calls::of(notes.alloc, plan)?;
    let mut stored = vec![in notes.alloc; None; plan.globals()]?;
    let mut requests: u32 = 0;
    for facts in &house.tasks {
        add_parts(notes, house, facts);
        add_calls(notes, house, facts, &mut calls);
        let reached = add_words(notes, house, facts, &mut stored)?;
        add_overwritten(notes, house, facts, &reached)?;
        let most = most_requests(notes.alloc, facts.code)?;
        requests = requests.saturating_add(most.unwrap_or(0));
    }
    add_stored(notes, house, &stored);
    add_requests(notes, requests);
    add_variable_notes(notes, house)?;
    add_program_notes(notes, house);
    add_comment_notes(notes, house);
    add_idle_notes(notes, house);
    add_source_notes(notes, plan);
    add_covered_levels(notes, house);
    add_load_notes(notes, &house.tasks, plan.buses())
}

/// Adds the notes on the variables and block instances of a task, and on what starts it.
fn add_parts(notes: &mut Notes, house: &House, facts: &TaskFacts) {
    for global in &facts.globals {
        notes.add(Rule::Triggers, note_on_trigger(facts, *global));
        notes.add(Rule::Pace, note_on_fast(facts, *global));
    }
    notes.add(Rule::Pace, note_on_blind(house.plan, facts));
    for (number, block) in facts.task.blocks().iter().enumerate() {
        notes.add(Rule::Blocks, note_on_block(facts, number, block));
    }
}

/// Adds the notes on the calls of a task, and on its jumps.
fn add_calls(notes: &mut Notes, house: &House, facts: &TaskFacts, calls: &mut Calls) {
    for call in &facts.calls {
        notes.add(Rule::Answers, calls.note_on_question(call));
        notes.add(Rule::Commands, note_on_command(house, facts, call));
        notes.add(Rule::Numbers, note_on_mask(call));
        notes.add(Rule::SharedGear, calls.note_on_shared(house, facts, call));
    }
    for (place, is) in &facts.conditions {
        notes.add(Rule::SameResults, note_on_condition(facts, *place, *is));
    }
}

/// Adds the notes on the words of a task, and what they store to levels. For each word whether a
/// scan reaches it.
fn add_words(
    notes: &mut Notes,
    house: &House,
    facts: &TaskFacts,
    stored: &mut Stored,
) -> Result<Vec<bool>, AllocError> {
    let code = facts.code;
    let mut pass = Pass::begin(notes.alloc, code)?;
    let mut reached = Vec::new(notes.alloc);
    let mut was_reached = true;
    let mut passed: usize = 0;
    for place in 0..code.len() {
        let word = code.word(place);
        notes.add(Rule::Numbers, note_on_limits(code, place));
        notes.add(Rule::Numbers, note_on_time(house, facts, place, word));
        match pass.entry() {
            Some(entry) => {
                notes.add(Rule::SameResults, note_on_same(facts, place, word, entry));
                notes.add(Rule::SameResults, note_on_unused(facts, place, word));
                keep_stored(stored, facts, word, entry.result, place >= passed);
                if let Word::Jump { target, .. } = word {
                    passed = passed.max(target as usize);
                }
            }
            None if was_reached => notes.add(
                Rule::Unreached,
                note_on_unreached(house, facts, place),
            ),
            None => {}
        }
        was_reached = pass.entry().is_some();
        reached.push(was_reached)?;
        let Passed::On(next) = pass.advance()? else {
            return Ok(reached);
        };
        pass = next;
    }
    Ok(reached)
}

/// Adds the notes on levels that no store turns off.
fn add_stored(notes: &mut Notes, house: &House, stored: &Stored) {
    if commands_gear(house) {
        return;
    }
    for (number, kept) in stored.iter().enumerate() {
        if let Some(kept) = kept {
            notes.add(Rule::NeverOff, note_on_level(house, number, *kept));
        }
    }
}

/// Adds a note where the tasks together may make more requests than a class of a bus has room for.
fn add_requests(notes: &mut Notes, requests: u32) {
    if requests > MOST_WAITING {
        let all = Found::Number(i64::from(requests));
        let most = Found::Number(i64::from(MOST_WAITING));
        notes.add(
            Rule::Requests,
            note_at(Kind::ManyRequests, NotePlace::Whole, all, most),
        );
    }
}
