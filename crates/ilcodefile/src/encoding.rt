//! Codes as bytes.

ghost use Rattle.std.specs.Prelude.{◌≡◌, ◌++◌, ◌<◌, ◌^◌, length, IfOk, OnOk};
ghost use Rattle.std.specs.List.{AllByRecursion};
ghost use Rattle.ilcodefile.specs.BodySteps.{IsSmall};
ghost use Rattle.ilcodefile.specs.Files.{FitsType, FitsValue, IsFileOf, blocks, constant, constants};
ghost use Rattle.ilcodefile.specs.Files.{function, function_count, functions, number, numbers, slot};
ghost use Rattle.ilcodefile.specs.Files.{slots, tag, whole, word, words};
ghost use Rattle.ilcode.specs.Words.{HasWord};

use crate::fields::block_number;
use crate::version::{FileVersion, version_of};
use ilblocks::BlockKind;
use ilcode::{Code, FunctionBody, PackedWord};
use iltypes::{IlType, Value};
use std::alloc::{AllocError, Global};

/// The file of a code.
///
/// # Errors
///
/// The allocator is out of memory.
pub fn encode(alloc: Global, code: &Code) -> Result<Vec<u8>, AllocError>
    ensures { IfOk result (λ bytes. IsFileOf bytes.items code.now) }
{
    let version = version_of(code);
    let mut bytes = Vec::new(alloc);
    bytes.extend_from_slice(&version.magic())?;
    bytes.extend_from_slice(&[code.buses(), 0, 0])?;
    push_number(&mut bytes, code.constants().len())?;
    push_number(&mut bytes, code.slots().len())?;
    push_number(&mut bytes, code.kinds().len())?;
    push_number(&mut bytes, code.starts().len())?;
    push_number(&mut bytes, code.len())?;
    push_function_count(&mut bytes, version, code.functions())?;
    push_constants(&mut bytes, code.constants())?;
    push_slots(&mut bytes, code.slots())?;
    push_blocks(&mut bytes, code.kinds())?;
    push_starts(&mut bytes, code.starts())?;
    push_functions(&mut bytes, code.functions())?;
    push_words(&mut bytes, code.words())?;
    push_lines(&mut bytes, code.lines())?;
    Ok(bytes)
}

/// Adds the number of functions, where the version has it.
fn push_function_count(
    bytes: &mut Vec<u8>,
    version: FileVersion,
    given: &[FunctionBody],
) -> Result<(), AllocError>
    requires { length given.now < 2 ^ 32 }
    ensures { OnOk result (bytes.new.items ≡ bytes.old.items ++ function_count version given.now) }
{
    match version {
        FileVersion::One => Ok(()),
        FileVersion::Two => push_number(bytes, given.len()),
    }
}

/// Adds constants.
fn push_constants(bytes: &mut Vec<u8>, values: &[Value]) -> Result<(), AllocError>
    ensures added { OnOk result (bytes.new.items ≡ bytes.old.items ++ constants values.now) }
    ensures fits { OnOk result (AllByRecursion FitsValue values.now) }
{
    for value in values {
        push_constant(bytes, *value)?;
    }
    Ok(())
}

/// Adds a constant.
fn push_constant(bytes: &mut Vec<u8>, value: Value) -> Result<(), AllocError>
    ensures added { OnOk result (bytes.new.items ≡ bytes.old.items ++ constant value) }
    ensures fits { FitsValue value }
{
    match value {
        Value::Bool(false) => {
            push_tag(bytes, 0)?;
            push_whole(bytes, 0)
        }
        Value::Bool(true) => {
            push_tag(bytes, 0)?;
            push_whole(bytes, 1)
        }
        Value::Int(number) => {
            push_tag(bytes, 1)?;
            push_whole(bytes, number)
        }
    }
}

/// Adds the types of slots.
fn push_slots(bytes: &mut Vec<u8>, types: &[IlType]) -> Result<(), AllocError>
    ensures added { OnOk result (bytes.new.items ≡ bytes.old.items ++ slots types.now) }
    ensures fits { OnOk result (AllByRecursion FitsType types.now) }
{
    for slot in types {
        push_slot(bytes, *slot)?;
    }
    Ok(())
}

/// Adds the type of a slot.
fn push_slot(bytes: &mut Vec<u8>, il_type: IlType) -> Result<(), AllocError>
    ensures added { OnOk result (bytes.new.items ≡ bytes.old.items ++ slot il_type) }
    ensures fits { FitsType il_type }
{
    match il_type {
        IlType::Bool => {
            push_tag(bytes, 0)?;
            push_whole(bytes, 0)?;
            push_whole(bytes, 1)
        }
        IlType::Int(range) => {
            push_tag(bytes, 1)?;
            push_whole(bytes, range.lo)?;
            push_whole(bytes, range.hi)
        }
    }
}

/// Adds the kinds of block instances.
fn push_blocks(bytes: &mut Vec<u8>, kinds: &[BlockKind]) -> Result<(), AllocError>
    ensures { OnOk result (bytes.new.items ≡ bytes.old.items ++ blocks kinds.now) }
{
    for kind in kinds {
        bytes.push(block_number(*kind))?;
    }
    Ok(())
}

/// Adds functions.
fn push_functions(bytes: &mut Vec<u8>, given: &[FunctionBody]) -> Result<(), AllocError>
    requires { AllByRecursion IsSmall given.now }
    ensures { OnOk result (bytes.new.items ≡ bytes.old.items ++ functions given.now) }
{
    for body in given {
        push_function(bytes, *body)?;
    }
    Ok(())
}

/// Adds a function.
fn push_function(bytes: &mut Vec<u8>, body: FunctionBody) -> Result<(), AllocError>
    requires { IsSmall body }
    ensures { OnOk result (bytes.new.items ≡ bytes.old.items ++ function body) }
{
    push_number(bytes, body.start)?;
    push_number(bytes, body.first)?;
    push_number(bytes, body.inputs)?;
    push_number(bytes, body.slots)
}

/// Adds words.
fn push_words(bytes: &mut Vec<u8>, given: &[PackedWord]) -> Result<(), AllocError>
    ensures { OnOk result (bytes.new.items ≡ bytes.old.items ++ words given.now) }
{
    for word in given {
        push_word(bytes, *word)?;
    }
    Ok(())
}

/// Adds a word.
fn push_word(bytes: &mut Vec<u8>, given: PackedWord) -> Result<(), AllocError>
    ensures { OnOk result (bytes.new.items ≡ bytes.old.items ++ word given) }
{
    bytes.extend_from_slice(&given.bits().to_le_bytes())
}

/// Adds starts.
fn push_starts(bytes: &mut Vec<u8>, given: &[usize]) -> Result<(), AllocError>
    requires { AllByRecursion (λ n. n < 2 ^ 32) given.now }
    ensures { OnOk result (bytes.new.items ≡ bytes.old.items ++ numbers given.now) }
{
    for number in given {
        push_number(bytes, *number)?;
    }
    Ok(())
}

/// Adds lines.
fn push_lines(bytes: &mut Vec<u8>, given: &[u32]) -> Result<(), AllocError>
    ensures { OnOk result (bytes.new.items ≡ bytes.old.items ++ numbers given.now) }
{
    for line in given {
        bytes.extend_from_slice(&line.to_le_bytes())?;
    }
    Ok(())
}

/// Adds a number of 32 bits.
fn push_number(bytes: &mut Vec<u8>, given: usize) -> Result<(), AllocError>
    requires { given < 2 ^ 32 }
    ensures { OnOk result (bytes.new.items ≡ bytes.old.items ++ number given) }
{
    bytes.extend_from_slice(&(given as u32).to_le_bytes())
}

/// Adds what a constant or a slot is.
fn push_tag(bytes: &mut Vec<u8>, kind: u8) -> Result<(), AllocError>
    ensures { OnOk result (bytes.new.items ≡ bytes.old.items ++ tag kind) }
{
    bytes.extend_from_slice(&[kind, 0, 0, 0, 0, 0, 0, 0])
}

/// Adds a whole number of 64 bits.
fn push_whole(bytes: &mut Vec<u8>, number: i64) -> Result<(), AllocError>
    ensures { OnOk result (bytes.new.items ≡ bytes.old.items ++ whole number) }
{
    bytes.extend_from_slice(&number.to_le_bytes())
}
