//! Notes on variables: what is used to no end, levels that no task stores, and variables that are
//! likely meant as levels. What is used is kept under the place of its name, so that the instances
//! of a program are one.

ghost use Rattle.std.specs.Prelude.{◌≡◌, ◌↔◌, ◌<◌, IfOk, IsSomeAnd, IsTrue, MatchOption, length, slice_get};
ghost use Rattle.ilnotes.specs.Planned.{UsesFunction};
ghost use Rattle.ilnotes.specs.Said.{IsOfLevel, IsOn, IsUsed, NotesUse, SaysUnused};
ghost use Rattle.ilnotes.specs.declared.kinds.Kind.TheVariants.{UnusedFunction};

use crate::facts::{GlobalSlot, House, TaskFacts, Usage};
use crate::kinds::{Kind, Rule};
use crate::note::{Added, Found, Note, NotePlace, Notes, note_at, note_of, note_on};
use crate::planned::{is_stored, starts_task, uses_function};
use crate::reads::Reads;
use illisting::name_in;
use ilplan::{Global, Location, Plan, SlotOwner, UserFunction};
use ilsource::Name;
use iltypes::{IlType, Range, Value};
use std::alloc::{AllocError, Global as GlobalAllocator};

/// How a variable is used by the words of all tasks, reached or not.
#[derive(Clone, Copy)]
struct Use {
    is_read: bool,
    is_stored: bool,
    /// Whether a word stores something else than FALSE or 0.
    is_other: bool,
    /// How many tasks and program instances name it.
    times: u32,
}

/// A variable that no word names.
const UNUSED: Use = Use {
    is_read: false,
    is_stored: false,
    is_other: false,
    times: 0,
};

/// The uses of variables, by the places of their names.
type Uses = Vec<Use>;

/// The numbers that a level has.
const LEVELS: IlType = IlType::Int(Range { lo: 0, hi: 254 });

/// The note on a trigger that a task reads though another event starts it, or the clock.
pub(crate) fn note_on_trigger(facts: &TaskFacts, global: GlobalSlot) -> Option<Note> {
    let line = facts.slot(global.slot).read;
    let is_trigger = matches!(global.location, Some(Location::Trigger { .. }));
    if !is_trigger || line == 0 || facts.trigger == Some(global.number) {
        return None;
    }
    let (name, task) = (Found::Name(global.name), Found::Task(facts.number));
    note_at(Kind::ForeignTrigger, NotePlace::Line(line), name, task)
}

/// Adds a note for each variable that is used to no end, for each level that no task stores, and
/// for each variable that is likely meant as a level; and for each function that no task uses.
pub(crate) fn add_variable_notes(notes: &mut Notes, house: &House) -> Added {
    let mut uses = vec![in notes.alloc; UNUSED; house.source.text().len().saturating_add(1)]?;
    for facts in &house.tasks {
        add_task(&mut uses, house, facts);
    }
    let reads = Reads::of(notes.alloc, house.plan)?;
    for number in 0..house.plan.globals() {
        let note = note_on_global(house, &reads, &uses, number);
        notes.add(Rule::Variables, note);
    }
    for (number, function) in house.plan.functions().iter().enumerate() {
        let unused = note_on_function(notes.alloc, house.plan, number)?;
        notes.add(Rule::Functions, unused);
        if unused.is_none() {
            add_own_notes(notes, &uses, function);
        }
    }
    for facts in &house.tasks {
        for slot in facts.task.slots() {
            if let SlotOwner::Own { name, .. } = slot.variable {
                notes.add(Rule::Variables, note_on_use(&uses, name, slot.initial));
            }
        }
    }
    Ok(())
}

/// The note on a function that no task uses.
fn note_on_function(
    alloc: GlobalAllocator,
    plan: &Plan,
    number: usize,
) -> Result<Option<Note>, AllocError>
    requires { number < length plan.now.functions }
    ensures { IfOk result (λ found. MatchOption found (UsesFunction plan.now number)
        (λ note. (note.kind ≡ UnusedFunction) × ¬ UsesFunction plan.now number
        × IsSomeAnd (slice_get plan.now.functions number) (λ f. IsOn f.name note))) }
{
    if uses_function(alloc, plan, number)? {
        return Ok(None);
    }
    let name = plan.functions()[number].name();
    Ok(note_on(Kind::UnusedFunction, name, Found::Nothing))
}

/// Adds the notes on the inputs and variables of a function.
fn add_own_notes(notes: &mut Notes, uses: &Uses, function: &UserFunction) {
    let inputs = function.inputs().len();
    for own in 0..inputs.saturating_add(function.variables().len()) {
        notes.add(Rule::Variables, note_on_own(uses, function, own));
    }
}

/// Adds how a task uses its variables, and those of its functions. What its lines store to is what
/// the contract of `Task::stores` says; functions have no such list, so their words are asked.
fn add_task(uses: &mut Uses, house: &House, facts: &TaskFacts) {
    for place in 0..facts.task.slots().len() {
        let name = facts.name_of(house.plan, place);
        add_use(uses, name, facts.slot(place), facts.task.stores(place));
    }
    for (body, number) in facts.code.functions().iter().zip(&facts.functions) {
        if let Some(function) = house.plan.functions().get(*number) {
            for own in 0..body.slots {
                let slot = facts.slot(body.first.saturating_add(own));
                add_use(uses, name_in(function, own), slot, slot.is_stored);
            }
        }
    }
}

/// Adds a use of a variable, where it is there.
fn add_use(uses: &mut Uses, name: Option<Name>, used: Usage, is_stored: bool) {
    let Some(name) = name else {
        return;
    };
    if let Some(kept) = uses.get_mut(name.from) {
        kept.is_read = kept.is_read || used.read > 0;
        kept.is_stored = kept.is_stored || is_stored;
        kept.is_other = kept.is_other || used.value != Some(0);
        kept.times = kept.times.saturating_add(1);
    }
}

/// How a variable is used.
fn use_of(uses: &Uses, name: Name) -> Use {
    uses.get(name.from).copied().unwrap_or(UNUSED)
}

/// The note on the global variable of this number, where there is one.
fn note_on_global(house: &House, reads: &Reads, uses: &Uses, number: usize) -> Option<Note>
    requires number { number < length house.now.plan.now.globals }
    requires reads { reads.now ≡ house.now.plan.now }
    ensures { NotesUse house.now.plan.now number result }
{
    let global = house.plan.global(number);
    match global.location {
        None => note_on_plain(uses, global),
        Some(location) if is_used(house.plan, reads, number, location) => None,
        Some(location) => note_on_unused(house, uses, global, location),
    }
}

/// The note on a global variable without an address, where there is one. One that has the numbers of
/// a level, and that a task stores and no other task names, is likely meant as a level.
fn note_on_plain(uses: &Uses, global: &Global) -> Option<Note> {
    let used = use_of(uses, global.name);
    if used.is_stored && used.times == 1 && global.value_type == LEVELS {
        return note_on(Kind::LevelWithoutAddress, global.name, Found::Nothing);
    }
    note_on_use(uses, global.name, global.initial)
}

/// Whether a global variable that is located there is used: whether a task stores to it, where it
/// is a level, or reads it, where it is an input; or starts by it, where it is a trigger.
fn is_used(plan: &Plan, reads: &Reads, number: usize, location: Location) -> bool
    requires { reads.now ≡ plan.now }
    ensures { IsTrue result ↔ IsUsed plan.now number location }
{
    match location {
        Location::Level { .. } => is_stored(plan, number),
        Location::Trigger { .. } => reads.is_read(number) || starts_task(plan, number),
        _ => reads.is_read(number),
    }
}

/// The note on a variable that is located there and not used.
fn note_on_unused(house: &House, uses: &Uses, global: &Global, location: Location) -> Option<Note>
    ensures { IsSomeAnd result (λ note. SaysUnused location note.kind
        × IsOn global.now.name note) }
{
    match location {
        Location::Level { .. } => note_on_level(house, uses, global),
        Location::Trigger { .. } => note_on(Kind::UnusedTrigger, global.name, Found::Nothing),
        _ => note_on(Kind::NeverRead, global.name, Found::Nothing),
    }
}

/// The note on a level that no task stores.
fn note_on_level(house: &House, uses: &Uses, level: &Global) -> Option<Note>
    ensures { IsSomeAnd result (λ note. IsOfLevel note.kind × IsOn level.now.name note) }
{
    let Global { name, initial, .. } = *level;
    let (kind, line) = match same_stored(house, uses, name) {
        Some(other) => (Kind::OtherIsStored, house.lines.at(other).line),
        None => (Kind::LevelNeverStored, 0),
    };
    let (initial, line) = (Found::Value(initial), Found::Count(line));
    let found = [Found::Name(name), initial, line, Found::Nothing];
    note_of(kind, NotePlace::Name(name), found)
}

/// The variable of this name that a program has of its own and stores.
fn same_stored(house: &House, uses: &Uses, global: Name) -> Option<Name> {
    for facts in &house.tasks {
        for slot in facts.task.slots() {
            match slot.variable {
                SlotOwner::Own { name, .. }
                    if use_of(uses, name).is_stored && name.is_same(global, house.plan.text()) => {
                    return Some(name);
                }
                _ => {}
            }
        }
    }
    None
}

/// The note on a function's variable of this number, where there is one: an input is stored by each
/// call, and the result is read at the end of each.
fn note_on_own(uses: &Uses, function: &UserFunction, own: usize) -> Option<Note> {
    let name = name_in(function, own)?;
    let used = use_of(uses, name);
    match own.checked_sub(function.inputs().len()) {
        None if used.is_read => None,
        None => note_on(Kind::InputNeverRead, name, Found::Name(function.name())),
        Some(0) if used.is_stored => None,
        Some(other) => {
            let first = function.variables().get(other)?.initial;
            if other > 0 {
                return note_on_use(uses, name, first);
            }
            note_on(Kind::ResultNeverStored, name, Found::Value(first))
        }
    }
}

/// The note on a variable without an address, by whether it is stored and whether it is read, where
/// there is one.
fn note_on_use(uses: &Uses, name: Name, first: Value) -> Option<Note> {
    let used = use_of(uses, name);
    let (kind, second) = match (used.is_stored, used.is_read) {
        (true, true) if used.is_other || first != Value::Bool(false) => return None,
        (true, true) => (Kind::OnlyReset, Found::Nothing),
        (true, false) => (Kind::StoredNeverRead, Found::Nothing),
        (false, true) => (Kind::NeverStored, Found::Value(first)),
        (false, false) => (Kind::Unused, Found::Nothing),
    };
    note_on(kind, name, second)
}
