//! The code file of a task, and the judgement of bytes that may be one.

ghost use Rattle.std.specs.Prelude.{IfErr, IfOk, option_map};
ghost use Rattle.textanswers.specs.Answered.{IsStepStop, IsStopOrMemory};
ghost use Rattle.textanswers.specs.Coding.{IsCodeAnswer, IsCodeFile, IsVerdict};

use crate::answers::find_task;
use crate::code_answer::CodeAnswer;
use crate::stop::Stop;
use ilcode::Code;
use ilcodefile::{FileFault, decode, encode};
use ilverify::{VerifyError, verify};
use std::alloc::Global;
use wordlines::Binding;

/// The code file of the first task of a name, in any letter case, or without a name of the only
/// one.
///
/// # Errors
///
/// The text's first fault, else the least fault of its names, else that no task is meant, else the
/// first task whose code is refused; or that the allocator is out of memory.
pub fn code_of(
    alloc: Global,
    binding: &Binding,
    text: &[u8],
    task: Option<&str>,
) -> Result<Vec<u8>, Stop>
    ensures file { IfOk result (λ bytes. IsCodeFile binding.now text.now
        (option_map (λ name. name.now) task.entry) bytes.items) }
    ensures stop { IfErr result (IsStopOrMemory (IsStepStop binding.now text.now
        (option_map (λ name. name.now) task.entry))) }
{
    let (setup, number) = find_task(alloc, binding, text, task)?;
    let bytes = encode(alloc, setup.code(number).code())?;
    Ok(bytes)
}

/// The answer to bytes: their code is accepted or refused, or they are no code file.
#[tactic(auto, using(ilcodefile::proofs::FirstFaults::shaped))]
pub fn judge(alloc: Global, bytes: &[u8]) -> CodeAnswer
    ensures { IsCodeAnswer bytes.now result }
{
    match decode(alloc, bytes) {
        Ok(code) => judge_code(alloc, code),
        Err(FileFault::Of(cause)) => CodeAnswer::Faulty(cause),
        Err(FileFault::Memory) => CodeAnswer::Memory,
    }
}

/// The answer to a code.
fn judge_code(alloc: Global, code: Code) -> CodeAnswer
    ensures { IsVerdict code result }
{
    match verify(alloc, code) {
        Ok(verified) => CodeAnswer::Accepted {
            words: verified.code().len(),
            bound: verified.bound(),
        },
        Err(VerifyError::Refused(refusal)) => CodeAnswer::Refused(refusal),
        Err(VerifyError::Memory(_)) => CodeAnswer::Memory,
    }
}
