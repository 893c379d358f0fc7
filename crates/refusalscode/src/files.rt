//! Code files.

ghost use Rattle.std.specs.Prelude.{◌≡◌, ◌≤◌, ◌+◌, [], ℕ, All, Err, IfOk, Some, slice_get, slice_index, true};
ghost use Rattle.std.specs.List.{AllByRecursion};
ghost use Rattle.std.specs.List.Sorted.{IsNonDecreasing};
ghost use Rattle.ilcode.specs.Listings.{end_of, slots_end};
ghost use Rattle.ilcode.specs.Words.{IsOldWord};
ghost use Rattle.ilcode.specs.declared.function.FunctionBody.{FunctionBody as AnyBody};
ghost use Rattle.ilcodefile.specs.Faults.{IsReadAs};

use ilcode::Code;
use ilcodefile::{FileCause, FileFault, decode, encode};
use std::alloc::{AllocError, Global};

/// `only_the_length_is_compared`: bytes were read as a code that has another file of their length.
pub fn read_bytes_are_written_again(alloc: Global, bytes: &[u8]) -> Result<bool, FileFault>
    ensures { IfOk result (λ same. same ≡ true) }
{
    let code = decode(alloc, bytes)?;
    let again = encode(alloc, &code)?;
    Ok(again.as_slice() == bytes)
}

/// `first_slot_of_a_function_is_read_as_its_start`: of a function two numbers were read the other
/// way round, so that its file was refused.
pub fn written_code_is_read_again(alloc: Global, code: &Code) -> Result<Code, FileFault>
    ensures { IsReadAs code.now result }
{
    let bytes = encode(alloc, code)?;
    decode(alloc, &bytes)
}

/// `starts_that_fall_are_accepted`: a program might begin before the one before it.
pub fn starts_do_not_fall(alloc: Global, bytes: &[u8]) -> Result<Code, FileFault>
    ensures { IfOk result (λ code. IsNonDecreasing code.starts) }
{
    decode(alloc, bytes)
}

/// `program_behind_a_function_is_accepted`: a program might begin behind the first function.
pub fn programs_begin_before_functions(alloc: Global, bytes: &[u8]) -> Result<Code, FileFault>
    ensures { IfOk result (λ code. All (λ start. start ≤ end_of code 0) code.starts) }
{
    decode(alloc, bytes)
}

/// `slots_between_functions_are_accepted`: slots might stand between those of two functions.
pub fn slots_of_functions_follow_one_another(alloc: Global, bytes: &[u8]) -> Result<Code, FileFault>
    ensures { IfOk result (λ code. (number : ℕ) (f : AnyBody)
        → slice_get code.functions number ≡ Some f
        → f.first + f.slots ≡ slots_end code (number + 1)) }
{
    decode(alloc, bytes)
}

/// `version_1_file_that_calls_a_function_is_read`: a code for 16 buses without functions might have
/// the words that version 1 lacks.
pub fn old_code_has_old_words(alloc: Global, bytes: &[u8]) -> Result<Code, FileFault>
    ensures { IfOk result (λ code. code.buses ≡ 16 → code.functions ≡ []
        → AllByRecursion IsOldWord code.instructions) }
{
    decode(alloc, bytes)
}

/// `version_1_file_of_17_buses_is_written`: the file of a code for 17 buses was of version 1.
pub fn file_of_17_buses_is_of_version_2(alloc: Global, code: &Code) -> Result<Vec<u8>, AllocError>
    requires { code.now.buses ≡ 17 }
    ensures { IfOk result (λ bytes. slice_index bytes.items 4 ≡ 2) }
{
    encode(alloc, code)
}

/// `version_2_file_of_16_buses_is_read`: the file of a code for 16 buses without functions was of
/// version 2.
pub fn file_of_16_buses_is_of_version_1(alloc: Global, code: &Code) -> Result<Vec<u8>, AllocError>
    requires buses { code.now.buses ≡ 16 }
    requires functions { code.now.functions ≡ [] }
    ensures { IfOk result (λ bytes. slice_index bytes.items 4 ≡ 1) }
{
    encode(alloc, code)
}

/// `version_3_is_taken`: a file of version 3 was read.
pub fn version_3_is_refused(alloc: Global) -> Result<Code, FileFault>
    ensures { result ≡ Err (FileFault.Of FileCause.Magic) }
{
    decode(alloc, b"DLIL\x03")
}

/// `memory_in_place_of_a_wrong_head`: bytes that begin otherwise were out of memory.
pub fn wrong_head_is_reported(alloc: Global) -> Result<Code, FileFault>
    ensures { result ≡ Err (FileFault.Of FileCause.Magic) }
{
    decode(alloc, b"X")
}

/// `bytes_after_the_end_are_ignored`: a file might have a byte more.
pub fn byte_after_the_end_is_reported(alloc: Global) -> Result<Code, FileFault>
    ensures { result ≡ Err (FileFault.Of FileCause.Trailing) }
{
    decode(
        alloc,
        b"DLIL\x01\x01\0\0\0\0\0\0\0\0\0\0\0\0\0\0\0\0\0\0\0\0\0\0X",
    )
}

/// `functions_are_not_counted_in_the_length`: a function in a file had 8 bytes.
pub fn function_has_16_bytes(alloc: Global) -> Result<Code, FileFault>
    ensures { result ≡ Err (FileFault.Of FileCause.Cut) }
{
    decode(
        alloc,
        b"DLIL\x02\x01\0\0\0\0\0\0\0\0\0\0\0\0\0\0\0\0\0\0\0\0\0\0\x01\0\0\0FUNCTION",
    )
}
