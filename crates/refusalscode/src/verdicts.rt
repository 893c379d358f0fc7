//! Verdicts of the verifier. A code that it accepts is safe, so a code with an undefined step is
//! refused.

ghost use Rattle.std.specs.Prelude.{◌≡◌, length, false, true, IfErr, IfSome, IsTrue, Some, slice_get};
ghost use Rattle.limits.specs.Limits.{most_calls, most_steps};
ghost use Rattle.ilcode.specs.Listings.{IsIn};
ghost use Rattle.ilcode.specs.Paths.{IsBound};
ghost use Rattle.ilcode.specs.Steps.{IsSafe};
ghost use Rattle.ilverify.specs.Calls.{HasChain, HasGoodCalls};
ghost use Rattle.ilverify.specs.Certificates.{IsCertified, number_of_error};
ghost use Rattle.ilverify.specs.Requests.{HasFewRequests};
ghost use Rattle.refusalscode.specs.Codes.{bad_function, given_after_a_test, loaded_after_a_test};
ghost use Rattle.refusalscode.specs.Codes.{meeting, stored_after_a_test};

use ilcode::{Code, Word};
use ilverify::{Cause, Verified, VerifyError, verify};
use std::alloc::Global;

/// Whether the verifier accepts a code.
fn is_accepted(alloc: Global, code: Code) -> bool
    ensures safe { IsTrue result → IsSafe code }
    ensures calls { IsTrue result → HasGoodCalls code }
{
    match verify(alloc, code) {
        Ok(verified) => {
            let _code = verified.code();
            true
        }
        Err(_) => false,
    }
}

/// `join_takes_the_first_way`: where two ways meet only the first was followed.
pub fn ways_that_meet_are_joined(alloc: Global, code: Code) -> bool
    requires { code ≡ meeting }
    ensures { result ≡ false }
{
    is_accepted(alloc, code)
}

/// `slot_keeps_its_range_after_a_store`: what a test said of a slot was kept over a store to it.
pub fn store_ends_what_a_test_said(alloc: Global, code: Code) -> bool
    requires { code ≡ stored_after_a_test }
    ensures { result ≡ false }
{
    is_accepted(alloc, code)
}

/// `test_kept_after_a_load`: a jump by another result refined the slot that was tested before.
pub fn load_ends_what_a_test_said(alloc: Global, code: Code) -> bool
    requires { code ≡ loaded_after_a_test }
    ensures { result ≡ false }
{
    is_accepted(alloc, code)
}

/// `mark_stays_after_give`: what a test said of a slot was kept over a GIVE to it.
pub fn give_ends_what_a_test_said(alloc: Global, code: Code) -> bool
    requires { code ≡ given_after_a_test }
    ensures { result ≡ false }
{
    is_accepted(alloc, code)
}

/// `functions_begin_with_nothing`: the words of a function were never reached.
pub fn words_of_functions_are_judged(alloc: Global, code: Code) -> bool
    requires { code ≡ bad_function }
    ensures { result ≡ false }
{
    is_accepted(alloc, code)
}

/// `accepts_a_chain_of_nine_calls`: nine calls might be open at one place.
pub fn chain_of_nine_calls_is_refused(
    alloc: Global,
    code: Code,
    place: usize,
    function: u16,
) -> bool
    requires programs { IsIn code 0 place }
    requires call { slice_get code.instructions place ≡ Some (Word.Invoke function) }
    requires chain { HasChain code most_calls function }
    ensures { result ≡ false }
{
    is_accepted(alloc, code)
}

/// `refuses_as_many_words_as_may_be`: a path that is as long as may be was too long.
pub fn longest_lawful_path_is_accepted(alloc: Global, code: Code) -> Result<Verified, VerifyError>
    requires calls { HasGoodCalls code }
    requires certified { IsCertified code }
    requires few { HasFewRequests code }
    requires bound { IsBound code most_steps }
    ensures { IfErr result (λ error. number_of_error error ≡ 1) }
{
    verify(alloc, code)
}

/// `reports_a_later_word`: the word that is reported stood behind the refused one.
pub fn only_word_of_a_code_is_reported(alloc: Global, code: Code) -> Option<usize>
    requires { length code.lines ≡ 1 }
    ensures { IfSome result (λ word. word ≡ 0) }
{
    match verify(alloc, code) {
        Err(VerifyError::Refused(refusal)) => Some(refusal.word),
        Err(VerifyError::Memory(_)) | Ok(_) => None,
    }
}

/// `too_long_before_all_else`: each refusal was that of a path that is too long.
pub fn uncertified_code_is_not_too_long(alloc: Global, code: Code) -> bool
    requires { ¬ IsCertified code }
    ensures { result ≡ false }
{
    match verify(alloc, code) {
        Err(VerifyError::Refused(refusal)) => matches!(refusal.cause, Cause::TooLong),
        Err(VerifyError::Memory(_)) | Ok(_) => false,
    }
}
