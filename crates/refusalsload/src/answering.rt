//! What texts and code files are answered.

ghost use Rattle.std.specs.Prelude.{◌≡◌, ℕ, IfOk, IfSome, Some, codes, false, length, slice_get};
ghost use Rattle.std.specs.Arc.{arc_value};
ghost use Rattle.iltypes.specs.Values.{AreOf};
ghost use Rattle.ilblocks.specs.Stores.{Lasting, blocks_at_first};
ghost use Rattle.ilcode.specs.Listings.{Listing, lasting_types};
ghost use Rattle.ilcompile.specs.Loaded.{Loaded};
ghost use Rattle.ilplan.specs.Plans.{Planned};
ghost use Rattle.ilverify.specs.Verdicts.{Accepted};
ghost use Rattle.plantload.specs.Loading.{IsPlanOfText};
ghost use Rattle.ilcodefile.specs.Faults.{IsFirst};
ghost use Rattle.ilcodefile.specs.Files.{HasFile, file};
ghost use Rattle.textanswers.specs.Answered.{IsFound, NoneIsCalled};
ghost use Rattle.textanswers.specs.Stepping.{IsScanAt, lasting};
ghost use Rattle.textanswers.specs.Taking.{Taking};

use ilcodefile::FileCause;
use iltypes::Value;
use ilverify::Verified;
use plantload::LoadFault;
use std::alloc::{AllocError, Global};
use std::sync::Arc;
use textanswers::{CodeAnswer, Scans, Stop, code_of, judge, make};
use wordlines::Binding;

/// `each_fault_is_told_as_cut`: another fault was reported than the first of the bytes.
pub fn first_fault_is_told(alloc: Global, bytes: &[u8], cause: FileCause) -> Option<FileCause>
    requires { IsFirst bytes.now cause }
    ensures { IfSome result (λ told. told ≡ cause) }
{
    match judge(alloc, bytes) {
        CodeAnswer::Faulty(told) => Some(told),
        _ => None,
    }
}

/// `the_bound_is_printed_as_the_words`: of a code of five words another number was answered.
pub fn words_of_a_code_are_counted(alloc: Global, bytes: &[u8]) -> Option<usize>
    ghost code: { Listing }
    requires code { HasFile code }
    requires bytes { file code ≡ bytes.now }
    requires words { length code.instructions ≡ 5 }
    ensures { IfSome result (λ words. words ≡ 5) }
{
    match judge(alloc, bytes) {
        CodeAnswer::Accepted { words, .. } => Some(words),
        _ => None,
    }
}

/// `refused_code_reported_before_the_name`: of a text without a task of the name a refused code was
/// reported.
pub fn name_comes_before_the_code(alloc: Global, binding: &Binding, text: &[u8]) -> bool
    requires { (plan : Planned) → IsPlanOfText binding.now text.now plan
        → NoneIsCalled plan (codes "OTHER") }
    ensures { result ≡ false }
{
    matches!(
        code_of(alloc, binding, text, Some("OTHER")),
        Err(Stop::Load(LoadFault::Code(_)))
    )
}

/// `the_first_task_is_written_whatever_the_name`: the code file was not that of the task that is
/// named.
pub fn task_of_the_name_is_written(
    alloc: Global,
    binding: &Binding,
    text: &[u8],
) -> Result<Vec<u8>, Stop>
    ghost code: { Accepted }
    requires { (setup : Loaded) (task : ℕ)
        → IsFound binding.now text.now (Some (codes "SECOND")) setup task
        → slice_get setup.codes task ≡ Some code }
    ensures { IfOk result (λ bytes. bytes.items ≡ file code.code) }
{
    code_of(alloc, binding, text, Some("SECOND"))
}

/// `first_scan_each_time`: the second scan began from the first values too.
pub fn second_scan_goes_on(
    alloc: Global,
    code: &Arc<Verified>,
    from: &[Value],
) -> Result<Scans, AllocError>
    ghost once: { Lasting }
    requires typed { AreOf from.now (lasting_types (arc_value code.now).code) }
    requires first { (taken : Taking) (to : Lasting) → IsScanAt (arc_value code.now) 0
        (lasting from.now (blocks_at_first (arc_value code.now).code.kinds)) taken to
        → to ≡ once }
    ensures { IfOk result (λ made. (taken : Taking)
        × IsScanAt (arc_value code.now) 100 once taken made.left.lasting) }
{
    make(alloc, code, from, 2, 100)
}
