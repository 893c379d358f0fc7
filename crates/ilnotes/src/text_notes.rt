//! Notes on what no task has: programs, tasks without one, and sources of the binding.

ghost use Rattle.std.specs.Prelude.{◌≡◌, ◌<◌, ℕ, MatchOption, Some, length, slice_get};
ghost use Rattle.ilnotes.specs.Planned.{UsesSource};
ghost use Rattle.ilnotes.specs.Said.{HasInstance, IsIdle, IsInstanceAt, IsOn};
ghost use Rattle.ilnotes.specs.declared.kinds.Kind.TheVariants.{UnusedProgram, UnusedSource};
ghost use Rattle.ilnotes.specs.declared.kinds.Kind.TheVariants.{UnusedTask};
ghost use Rattle.ilnotes.specs.declared.note.Found.TheVariants.{Source};

use crate::facts::House;
use crate::kinds::{Kind, Rule};
use crate::note::{Found, Note, NotePlace, Notes, note_at, note_of, note_on};
use crate::planned::uses_source;
use ilplan::Plan;
use ilsource::{Declared, Element, InstanceDeclaration, Name, Program};
use wordlines::BoundSource;

/// Adds a note for each program that no task runs and for each task in which no program runs, where
/// the text has a configuration; without one the task `main` runs all.
pub(crate) fn add_program_notes(notes: &mut Notes, house: &House) {
    let Some(configuration) = house.source.configuration() else {
        return;
    };
    let (text, instances) = (house.source.text(), configuration.instances());
    for element in house.source.elements() {
        if let Element::Program(program) = element {
            add_twice_notes(notes, text, program, instances);
            let unused = note_on_program(text, program.name(), instances);
            notes.add(Rule::Programs, unused);
        }
    }
    for (number, task) in configuration.tasks().iter().enumerate() {
        if number < house.plan.tasks() {
            notes.add(Rule::Programs, note_on_task(house.plan, number, task.name));
        }
    }
}

/// The note on a program that no task runs: the configuration has no instance of it.
fn note_on_program(text: &[u8], program: Name, instances: &[InstanceDeclaration]) -> Option<Note>
    ensures { MatchOption result (HasInstance text.now program instances.now)
        (λ note. (note.kind ≡ UnusedProgram) × IsOn program note
        × ¬ HasInstance text.now program instances.now) }
{
    match first_instance(text, program, instances) {
        Some(_) => None,
        None => note_on(Kind::UnusedProgram, program, Found::Nothing),
    }
}

/// The number of the first instance of a program.
fn first_instance(text: &[u8], program: Name, instances: &[InstanceDeclaration]) -> Option<usize>
    ensures { MatchOption result
        ((number : ℕ) → ¬ IsInstanceAt text.now program instances.now number)
        (IsInstanceAt text.now program instances.now) }
{
    for number in 0..instances.len() {
        if instances[number].program.is_same(program, text) {
            return Some(number);
        }
    }
    None
}

/// Adds a note for each instance of a program that does the same as its first one.
fn add_twice_notes(
    notes: &mut Notes,
    text: &[u8],
    program: &Program,
    instances: &[InstanceDeclaration],
) {
    let mut first: Option<InstanceDeclaration> = None;
    for instance in instances {
        if instance.program.is_same(program.name(), text) {
            let other = first.unwrap_or(*instance);
            let note = note_on_twice(text, program, other, *instance);
            notes.add(Rule::Programs, note);
            first = Some(other);
        }
    }
}

/// The note on a task in which no program runs: the plan has the tasks of the configuration, in
/// their order.
fn note_on_task(plan: &Plan, number: usize, name: Name) -> Option<Note>
    requires { number < length plan.now.tasks }
    ensures { MatchOption result (¬ IsIdle plan.now number)
        (λ note. (note.kind ≡ UnusedTask) × IsOn name note × IsIdle plan.now number) }
{
    if plan.task(number).instances().is_empty() {
        return note_on(Kind::UnusedTask, name, Found::Nothing);
    }
    None
}

/// The note on an instance of a program that does the same as another one of its task, since the
/// program has no variables and blocks of its own.
fn note_on_twice(
    text: &[u8],
    program: &Program,
    first: InstanceDeclaration,
    second: InstanceDeclaration,
) -> Option<Note> {
    for declaration in program.declarations() {
        if !matches!(declaration.declared_kind(), Declared::External(_)) {
            return None;
        }
    }
    if first.name == second.name || !first.task?.is_same(second.task?, text) {
        return None;
    }
    let (first, at) = (Found::Name(first.name), NotePlace::Name(second.name));
    let (second, program) = (Found::Name(second.name), Found::Name(program.name()));
    note_of(
        Kind::DoneTwice,
        at,
        [second, first, program, Found::Nothing],
    )
}

/// Adds a note for each comment in which a later line has the sign of a comment again.
pub(crate) fn add_comment_notes(notes: &mut Notes, house: &House) {
    let mut begun: Option<Name> = None;
    let mut last = b' ';
    for (to, byte) in house.source.text().iter().enumerate() {
        let from = to.saturating_sub(1);
        match (last, *byte, begun) {
            (b'(', b'*', None) => begun = Some(Name { from, to }),
            (b'(', b'*', Some(first)) => {
                let second = house.lines.at(Name { from, to }).line;
                if house.lines.at(first).line < second {
                    let note = note_on(Kind::CommentInComment, first, Found::Count(second));
                    notes.add(Rule::Numbers, note);
                }
            }
            (b'*', b')', Some(first)) if from > first.to => begun = None,
            _ => {}
        }
        last = *byte;
    }
}

/// Adds a note where nothing runs: no task is there, or no program.
pub(crate) fn add_idle_notes(notes: &mut Notes, house: &House) {
    let has_program = house
        .source
        .elements()
        .iter()
        .any(|element| matches!(element, Element::Program(_)));
    let kind = if house.plan.tasks() == 0 {
        Kind::NoTask
    } else if house.source.configuration().is_none() && !has_program {
        Kind::NoProgram
    } else {
        return;
    };
    let note = note_at(kind, NotePlace::Whole, Found::Nothing, Found::Nothing);
    notes.add(Rule::Programs, note);
}

/// Adds a note for each source of the binding that the text does not use, and for each that is
/// bound at two places.
pub(crate) fn add_source_notes(notes: &mut Notes, plan: &Plan) {
    for (place, bound) in plan.sources().iter().enumerate() {
        notes.add(Rule::UnusedSources, note_on_source(plan, bound));
        let key = key_of(bound);
        let mut before = plan.sources().iter().take(place);
        if let Some(first) = before.find(|other| key_of(other) == key) {
            let (first, this) = (found_of(first), found_of(bound));
            let note = note_at(Kind::DoubleSource, NotePlace::Whole, first, this);
            notes.add(Rule::DoubleSources, note);
        }
    }
}

/// The note on a source that the text does not use.
fn note_on_source(plan: &Plan, bound: &BoundSource) -> Option<Note>
    ensures { MatchOption result (UsesSource plan.now bound.now.bus bound.now.number)
        (λ note. (note.kind ≡ UnusedSource)
        × (slice_get note.found 0 ≡ Some (Source bound.now.bus bound.now.number))
        × ¬ UsesSource plan.now bound.now.bus bound.now.number) }
{
    if uses_source(plan, bound.bus, bound.number) {
        return None;
    }
    note_at(
        Kind::UnusedSource,
        NotePlace::Whole,
        found_of(bound),
        Found::Nothing,
    )
}

/// A source, as notes name it.
fn found_of(bound: &BoundSource) -> Found
    ensures { result ≡ Source bound.now.bus bound.now.number }
{
    Found::Source {
        bus: bound.bus,
        source: bound.number,
    }
}

/// A number for where the events of a source come from.
fn key_of(bound: &BoundSource) -> u32 {
    let source = bound.source;
    u32::from_le_bytes([bound.bus, source.scheme.number(), source.a, source.b])
}
