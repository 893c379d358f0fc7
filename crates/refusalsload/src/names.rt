//! Variables that are watched, and what is expected of them.

ghost use Rattle.std.specs.Prelude.{◌≡◌, ◌<◌, ℕ, [], Some, codes, false, length, pos, true};
ghost use Rattle.iltypes.specs.declared.value.Value.TheVariants as values;
ghost use Rattle.ilmachine.specs.Images.{Global as GlobalVariable};
ghost use Rattle.ilplan.specs.Plans.{instance_name, variable_name};
ghost use Rattle.ilplan.specs.declared.slot.SlotOwner.{SlotOwner as Owner};
ghost use Rattle.plantevents.specs.Variables.{value};
ghost use Rattle.plantplay.specs.Names.{IsNamed};
ghost use Rattle.plantplay.specs.Watched.{IsWatchable};
ghost use Rattle.plantplay.specs.Expected.{IsKnown, IsMet};

use ilplan::{Plan, SlotOwner};
use plant::Plant;
use plantplay::{ExpectedWord, are_known, are_met, are_watchable, is_named};

/// `names_in_their_own_letter_case_only`: a variable had no name but that in the letters of its
/// declaration.
pub fn letter_case_of_a_name_does_not_matter(plan: &Plan) -> bool
    requires known { 0 < length plan.now.globals }
    requires declared { variable_name plan.now (SlotOwner.Global 0) ≡ Some (codes "lamp") }
    ensures { result ≡ true }
{
    is_named(plan, 0, "LAMP")
}

/// `one_name_that_is_there_is_enough`: of two names that are watched the second was not looked up.
pub fn second_name_is_looked_up(plan: &Plan, first: &str, second: &str) -> bool
    requires { ¬ IsWatchable plan.now second.now }
    ensures { result ≡ false }
{
    are_watchable(plan, &[first, second])
}

/// `the_variable_of_any_instance`: a name with nothing before its dot was that of a variable of any
/// program instance.
pub fn instance_is_named_too(plan: &Plan) -> bool
    requires instances { (owner : Owner) → ¬ (instance_name plan.now owner ≡ Some []) }
    requires globals { (number : ℕ) → number < length plan.now.globals
        → ¬ IsNamed plan.now (codes ".lamp") number }
    ensures { result ≡ false }
{
    are_watchable(plan, &[".lamp"])
}

/// `one_that_is_met_is_enough`: of two expectations the second was not looked at.
pub fn second_expectation_is_looked_at(
    plant: &Plant,
    first: ExpectedWord<'_>,
    second: ExpectedWord<'_>,
) -> bool
    requires { ¬ IsMet plant.now second }
    ensures { result ≡ false }
{
    are_met(plant, &[first, second])
}

/// `an_unknown_name_is_known`: the first name that is expected was not looked up.
pub fn first_name_is_looked_up(plan: &Plan, first: ExpectedWord<'_>) -> bool
    requires { ¬ IsKnown plan.now first }
    ensures { result ≡ false }
{
    are_known(plan, &[first])
}

/// `the_first_global_variable_alone_is_known`: the name of the second global variable was none.
pub fn second_variable_is_known(plan: &Plan, expected: ExpectedWord<'_>) -> bool
    requires known { 1 < length plan.now.globals }
    requires named { IsNamed plan.now expected.name.now 1 }
    ensures { result ≡ true }
{
    are_known(plan, &[expected])
}

/// `true_in_capital_letters_only`: `true` was no word for TRUE.
pub fn true_is_met_in_any_letter_case(plant: &Plant, name: &str) -> bool
    requires known { 0 < length plant.now.plant.plan.globals }
    requires named { IsNamed plant.now.plant.plan name.now 0 }
    requires shown { value plant.now.plant (GlobalVariable 0) plant.now.history
        ≡ Some (values.Bool true) }
    ensures { result ≡ true }
{
    are_met(
        plant,
        &[ExpectedWord {
            name,
            value: "true",
        }],
    )
}

/// `false_is_taken_for_true`: FALSE was expected and met, where all variables of the name are TRUE.
pub fn false_is_not_met_by_true(plant: &Plant, name: &str) -> bool
    requires { (number : ℕ) → IsNamed plant.now.plant.plan name.now number
        → value plant.now.plant (GlobalVariable number) plant.now.history
        ≡ Some (values.Bool true) }
    ensures { result ≡ false }
{
    are_met(
        plant,
        &[ExpectedWord {
            name,
            value: "FALSE",
        }],
    )
}

/// `a_lower_number_is_met`: 9 was expected and met by 12.
pub fn other_number_is_not_met(plant: &Plant, name: &str) -> bool
    requires { (number : ℕ) → IsNamed plant.now.plant.plan name.now number
        → value plant.now.plant (GlobalVariable number) plant.now.history
        ≡ Some (values.Int (pos 12)) }
    ensures { result ≡ false }
{
    are_met(plant, &[ExpectedWord { name, value: "9" }])
}
