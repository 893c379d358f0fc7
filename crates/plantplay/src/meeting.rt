//! Whether a plant is as it is expected to be.

ghost use Rattle.std.specs.Prelude.{◌<◌, ◌↔◌, length, IsTrue};
ghost use Rattle.plantplay.specs.Expected.{AreKnown, AreMet, IsKnown, IsMet, IsMetAt, IsSpelled};

use crate::naming::is_named;
use commandoptions::ExpectedWord;
use ilplan::Plan;
use iltypes::Value;
use plant::Plant;

/// Whether each name that is expected is one of a global variable, in any letter case.
pub fn are_known(plan: &Plan, expected: &[ExpectedWord]) -> bool
    ensures { IsTrue result ↔ AreKnown plan.now expected.now }
{
    for number in 0..expected.len() {
        if !is_known(plan, &expected[number]) {
            return false;
        }
    }
    true
}

/// Whether a global variable has the name that is expected.
pub(crate) fn is_known(plan: &Plan, expected: &ExpectedWord) -> bool
    ensures { IsTrue result ↔ IsKnown plan.now expected.now }
{
    for global in 0..plan.globals() {
        if is_named(plan, global, expected.name) {
            return true;
        }
    }
    false
}

/// Whether all is met that is expected.
pub fn are_met(plant: &Plant, expected: &[ExpectedWord]) -> bool
    ensures { IsTrue result ↔ AreMet plant.now expected.now }
{
    for number in 0..expected.len() {
        if !is_met(plant, &expected[number]) {
            return false;
        }
    }
    true
}

/// Whether a global variable of the name has the value that is expected.
fn is_met(plant: &Plant, expected: &ExpectedWord) -> bool
    ensures { IsTrue result ↔ IsMet plant.now expected.now }
{
    for global in 0..plant.setup().plan().globals() {
        if is_met_by(plant, expected, global) {
            return true;
        }
    }
    false
}

/// Whether a global variable has the name and the value that are expected.
fn is_met_by(plant: &Plant, expected: &ExpectedWord, global: usize) -> bool
    requires { global < length plant.now.plant.plan.globals }
    ensures { IsTrue result ↔ IsMetAt plant.now expected.now global }
{
    is_named(plant.setup().plan(), global, expected.name)
        && is_spelled(expected.value, plant.value(global))
}

/// Whether a word spells a value: as it is printed, but for the case of letters and zeros in front.
pub(crate) fn is_spelled(word: &str, value: Value) -> bool
    ensures { IsTrue result ↔ IsSpelled word.now value }
{
    match value {
        Value::Bool(true) => word.eq_ignore_ascii_case("TRUE"),
        Value::Bool(false) => word.eq_ignore_ascii_case("FALSE"),
        Value::Int(number) => match i64::from_str_radix(word, 10) {
            Ok(spelled) => spelled == number,
            Err(_) => false,
        },
    }
}
