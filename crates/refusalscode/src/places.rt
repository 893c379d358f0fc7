//! Where jumps may lead, and the bodies of words.

ghost use Rattle.std.specs.Prelude.{◌≡◌, false};
ghost use Rattle.ilcompile.specs.Rows.{bodies_of_averaging};

use ilcode::Code;

/// `target_at_its_own_jump`: a jump might lead to itself, and so run without end.
pub fn no_jump_leads_to_itself(code: &Code) -> bool
    ensures { result ≡ false }
{
    code.is_target(3, 3)
}

/// `first_word_of_a_function_in_the_body_before`: the first word of the second function was one of
/// the first.
pub fn first_word_of_a_function_is_its_own(code: &Code) -> usize
    requires { code.now.functions ≡ bodies_of_averaging }
    ensures { result ≡ 2 }
{
    code.body_at(9)
}
