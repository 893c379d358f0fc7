//! Codes that are compiled of worked tasks, and those of a setup.

ghost use Rattle.std.specs.Prelude.{◌≡◌, ◌<◌, [], ◌∷◌, IfOk, Some, length, slice_get};
ghost use Rattle.std.specs.Arc.{arc_value};
ghost use Rattle.ilcompile.specs.Rows.{averaging, bodies_of_averaging, calling, functions, limited};
ghost use Rattle.ilcompile.specs.Rows.{task, truth, two_jumps, whole, words_calling};
ghost use Rattle.ilcompile.specs.Rows.{words_of_averaging, words_of_limited, words_of_two_jumps};
ghost use Rattle.ilverify.specs.Verdicts.{Accepted};
ghost use Rattle.refusalscode.specs.Plans.{HasFirst};

use ilcode::Code;
use ilcompile::{Setup, compile};
use ilplan::Plan;
use ilverify::Verified;
use std::alloc::{AllocError, Global};
use std::sync::Arc;

/// `limit_has_two_lower_limits`: LIMIT was MAX of both limits.
pub fn limit_is_max_and_then_min(alloc: Global, plan: &Plan) -> Result<Code, AllocError>
    requires some { 0 < length plan.now.tasks }
    requires first { HasFirst plan.now [] (task (limited ∷ []) (whole 0 ∷ whole 254 ∷ [])) }
    ensures { IfOk result (λ code. code.instructions ≡ words_of_limited) }
{
    compile(alloc, plan, 0)
}

/// `jump_leads_one_too_far`: a jump led past the first word behind its label.
pub fn jumps_lead_to_their_labels(alloc: Global, plan: &Plan) -> Result<Code, AllocError>
    requires some { 0 < length plan.now.tasks }
    requires first { HasFirst plan.now [] (task (two_jumps ∷ []) (truth ∷ [])) }
    ensures { IfOk result (λ code. code.instructions ≡ words_of_two_jumps) }
{
    compile(alloc, plan, 0)
}

/// `call_before_its_arguments`: a block was called before its arguments were passed.
pub fn arguments_stand_before_their_call(alloc: Global, plan: &Plan) -> Result<Code, AllocError>
    requires some { 0 < length plan.now.tasks }
    requires first { HasFirst plan.now [] (task (calling ∷ []) (whole 500 ∷ [])) }
    ensures { IfOk result (λ code. code.instructions ≡ words_calling) }
{
    compile(alloc, plan, 0)
}

/// `starting_values_are_given_to_the_inputs`: a function's starting values went to its inputs.
/// `second_argument_goes_to_the_first_input`: the second argument of a call went to the first.
pub fn starting_values_go_to_variables(alloc: Global, plan: &Plan) -> Result<Code, AllocError>
    requires some { 0 < length plan.now.tasks }
    requires first { HasFirst plan.now functions
        (task (averaging ∷ []) (whole 5 ∷ whole 9 ∷ whole 0 ∷ whole 2 ∷ [])) }
    ensures { IfOk result (λ code. code.instructions ≡ words_of_averaging) }
{
    compile(alloc, plan, 0)
}

/// `functions_begin_at_one_place`: each function began where the first does.
pub fn functions_begin_one_behind_the_other(alloc: Global, plan: &Plan) -> Result<Code, AllocError>
    requires some { 0 < length plan.now.tasks }
    requires first { HasFirst plan.now functions
        (task (averaging ∷ []) (whole 5 ∷ whole 9 ∷ whole 0 ∷ whole 2 ∷ [])) }
    ensures { IfOk result (λ code. code.functions ≡ bodies_of_averaging) }
{
    compile(alloc, plan, 0)
}

/// `words_of_starting_values_stand_on_the_lines_of_the_body`: the words of starting values stood on
/// the first line of the text.
pub fn starting_values_stand_on_their_function(
    alloc: Global,
    plan: &Plan,
) -> Result<Code, AllocError>
    requires some { 0 < length plan.now.tasks }
    requires first { HasFirst plan.now functions
        (task (averaging ∷ []) (whole 5 ∷ whole 9 ∷ whole 0 ∷ whole 2 ∷ [])) }
    ensures { IfOk result (λ code. slice_get code.lines 5 ≡ Some 2) }
{
    compile(alloc, plan, 0)
}

/// `code_of_an_earlier_task`: the second task had the code of the first.
pub fn second_task_has_its_own_code(setup: &Setup) -> &Arc<Verified>
    ghost second: { Accepted }
    requires two { 1 < length setup.now.plan.tasks }
    requires second { slice_get setup.now.codes 1 ≡ Some second }
    ensures { arc_value result.now ≡ second }
{
    setup.code(1)
}
