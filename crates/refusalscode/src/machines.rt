//! Scans of the machine. A run of a code ends once, so what a scan of a worked code leaves is
//! known.

ghost use Rattle.std.specs.Prelude.{◌≡◌, [], ◌∷◌, IfOk, length, pos};
ghost use Rattle.refusalscode.specs.Scans.{calling, calling_inside, calling_second, closing, jumping};
ghost use Rattle.refusalscode.specs.Scans.{no_blocks, one_block, requesting};

use ilmachine::{ScanResult, Snapshot, scan};
use iltypes::Value;
use std::alloc::AllocError;

/// `stops_before_the_last_word`: of a code with functions the last word of a body was left out.
/// `returns_to_the_call`: the caller went on at the call, and so without end.
pub fn each_word_of_a_call_is_run(snapshot: Snapshot) -> Result<ScanResult, AllocError>
    requires code { snapshot.verified.code ≡ calling }
    requires lasting { snapshot.lasting ≡ no_blocks 0 }
    ensures { IfOk result (λ made. made.steps ≡ 5) }
{
    scan(snapshot)
}

/// `jumps_where_the_condition_is_not_met`: JMPC jumped at FALSE.
pub fn condition_that_is_not_met_goes_on(snapshot: Snapshot) -> Result<ScanResult, AllocError>
    requires code { snapshot.verified.code ≡ jumping }
    requires lasting { snapshot.lasting ≡ no_blocks 0 }
    ensures { IfOk result (λ made. made.steps ≡ 3) }
{
    scan(snapshot)
}

/// `closing_exchanges_its_operands`: 200 SUB (100) was -100.
pub fn closing_takes_the_saved_result_first(snapshot: Snapshot) -> Result<ScanResult, AllocError>
    requires code { snapshot.verified.code ≡ closing }
    requires lasting { snapshot.lasting ≡ no_blocks 0 }
    ensures { IfOk result (λ made. made.after.slots ≡ Value.Int (pos 100) ∷ []) }
{
    scan(snapshot)
}

/// `drops_the_parentheses_of_the_caller`: a call inside parentheses closed them.
pub fn parentheses_stay_open_over_a_call(snapshot: Snapshot) -> Result<ScanResult, AllocError>
    requires code { snapshot.verified.code ≡ calling_inside }
    requires lasting { snapshot.lasting ≡ no_blocks 0 }
    ensures { IfOk result (λ made. made.after.slots ≡ Value.Int (pos 100) ∷ []) }
{
    scan(snapshot)
}

/// `gives_the_result_of_another_function`: each call gave the result of the first function.
pub fn call_gives_the_result_of_its_function(snapshot: Snapshot) -> Result<ScanResult, AllocError>
    requires code { snapshot.verified.code ≡ calling_second }
    requires lasting { snapshot.lasting ≡ no_blocks 0 }
    ensures { IfOk result (λ made. made.after.slots ≡ Value.Int (pos 200) ∷ []) }
{
    scan(snapshot)
}

/// `drops_a_request`: the request of a block was left out.
pub fn request_of_a_block_is_kept(snapshot: Snapshot) -> Result<ScanResult, AllocError>
    requires code { snapshot.verified.code ≡ requesting }
    requires lasting { snapshot.lasting ≡ one_block }
    ensures { IfOk result (λ made. length made.after.requests ≡ 1) }
{
    scan(snapshot)
}
