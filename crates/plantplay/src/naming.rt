//! The variables that names are of.

ghost use Rattle.std.specs.Prelude.{ℕ, ◌<◌, ◌↔◌, length, IfSome, IsTrue, MatchOption, slice_get};
ghost use Rattle.plantplay.specs.Names.{IsAlike, IsNamed};
ghost use Rattle.plantplay.specs.Watched.{AreWatchable, IsNameOf, IsPlaceOf, IsSlotNamed};
ghost use Rattle.plantplay.specs.Watched.{IsWatchable};

use crate::watch::Place;
use ilplan::{DeclaredName, Plan, SlotName};

/// Whether each name is that of a variable that can be watched: of a global one, or of one of a
/// program instance, `instance.variable`, in any letter case.
pub fn are_watchable(plan: &Plan, names: &[&str]) -> bool
    ensures { IsTrue result ↔ AreWatchable plan.now names.now }
{
    for number in 0..names.len() {
        if !is_watchable(plan, names[number]) {
            return false;
        }
    }
    true
}

/// Whether a name is that of a variable that can be watched.
pub(crate) fn is_watchable(plan: &Plan, name: &str) -> bool
    ensures { IsTrue result ↔ IsWatchable plan.now name.now }
{
    place_of(plan, name).is_some()
}

/// Where the variable of a name is.
pub(crate) fn place_of(plan: &Plan, name: &str) -> Option<Place>
    ensures { MatchOption result (¬ IsWatchable plan.now name.now) (IsPlaceOf plan.now name.now) }
{
    match global_of(plan, name) {
        Some(global) => Some(Place::Global(global)),
        None => own_of(plan, name),
    }
}

/// The global variable of a name.
fn global_of(plan: &Plan, name: &str) -> Option<usize>
    ensures { MatchOption result
        ((number : ℕ) → number < length plan.now.globals → ¬ IsNamed plan.now name.now number)
        (λ global. (global < length plan.now.globals) × IsNamed plan.now name.now global) }
{
    for global in 0..plan.globals() {
        if is_named(plan, global, name) {
            return Some(global);
        }
    }
    None
}

/// Whether a global variable has this name, in any letter case.
pub fn is_named(plan: &Plan, global: usize, name: &str) -> bool
    requires { global < length plan.now.globals }
    ensures { IsTrue result ↔ IsNamed plan.now name.now global }
{
    is_alike(plan.global_name(global), name)
}

/// Where the variable of a program instance of a name is.
fn own_of(plan: &Plan, name: &str) -> Option<Place>
    ensures { MatchOption result ((task slot : ℕ) → ¬ IsSlotNamed plan.now name.now task slot)
        (IsPlaceOf plan.now name.now) }
{
    for task in 0..plan.tasks() {
        if let Some(slot) = slot_of(plan, task, name) {
            return Some(Place::Own { task, slot });
        }
    }
    None
}

/// The slot of a task that is the variable of a program instance of a name.
fn slot_of(plan: &Plan, task: usize, name: &str) -> Option<usize>
    requires { task < length plan.now.tasks }
    ensures { MatchOption result ((slot : ℕ) → ¬ IsSlotNamed plan.now name.now task slot)
        (IsSlotNamed plan.now name.now task) }
{
    for slot in 0..plan.task(task).slots().len() {
        if is_slot_named(plan, task, slot, name) {
            return Some(slot);
        }
    }
    None
}

/// Whether a slot of a task is the variable of a program instance of this name.
fn is_slot_named(plan: &Plan, task: usize, slot: usize, name: &str) -> bool
    requires task { task < length plan.now.tasks }
    requires slot { IfSome (slice_get plan.now.tasks task) (λ t. slot < length t.slots) }
    ensures { IsTrue result ↔ IsSlotNamed plan.now name.now task slot }
{
    let SlotName { instance, variable } = plan.slot_name(task, slot);
    match instance {
        Some(instance) => is_name_of(name, instance, variable),
        None => false,
    }
}

/// Whether a name is that of a variable of a program instance.
fn is_name_of(name: &str, instance: DeclaredName, variable: DeclaredName) -> bool
    ensures { IsTrue result ↔ IsNameOf name.now instance.entry.bytes.now variable.entry.bytes.now }
{
    match name.split_once('.') {
        Some((before, behind)) => {
            let front = is_alike(instance, before);
            let back = is_alike(variable, behind);
            front && back
        }
        None => false,
    }
}

/// Whether a declared name is this word, in any letter case.
fn is_alike(declared: DeclaredName, word: &str) -> bool
    ensures { IsTrue result ↔ IsAlike declared.entry.bytes.now word.now }
{
    declared.bytes.eq_ignore_ascii_case(word.as_bytes())
}
