//! The tables of a file, each read to its end.

ghost use Rattle.std.specs.Prelude.{◌≡◌, ℕ, ◌*◌, ◌<◌, ◌^◌, List, length};
ghost use Rattle.std.specs.Prelude.{IfOk, IfSome, IsSomeAnd, slice_index};
ghost use Rattle.std.specs.List.{AllByRecursion};
ghost use Rattle.iltypes.specs.declared.value.IlType.{IlType as AnyType};
ghost use Rattle.iltypes.specs.declared.value.Value.{Value as AnyValue};
ghost use Rattle.ilblocks.specs.declared.kind.BlockKind.{BlockKind as AnyKind};
ghost use Rattle.ilcode.specs.Words.{HasWord};
ghost use Rattle.ilcode.specs.declared.function.FunctionBody.{FunctionBody as AnyBody};
ghost use Rattle.ilcode.specs.declared.word.Word.{Word as AnyWord};
ghost use Rattle.ilcode.specs.Listings.{Listing};
ghost use Rattle.ilcodefile.specs.BodySteps.{IsSmall};
ghost use Rattle.ilcodefile.specs.Files.{FitsType, FitsValue, HasFile, IsFileOf, blocks, constants};
ghost use Rattle.ilcodefile.specs.Files.{functions, numbers, slots, words};
ghost use Rattle.ilcodefile.specs.Faults.{IsShaped, counts_in};
ghost use Rattle.ilcodefile.specs.FaultSteps.{counted};

use crate::bodies::are_bodies;
use crate::fields::{block_at, constant_at, function_at, number_at, slot_at, word_at};
use crate::shape::FileCounts;
use crate::tables::tables_in;
use ilblocks::BlockKind;
use ilcode::{Code, FunctionBody, PackedWord};
use iltypes::{IlType, Value};
use std::alloc::{AllocError, Global};

/// The code of bytes that are as long as their counts ask for, if each field is one that a code may
/// have.
pub(crate) fn parse(
    alloc: Global,
    bytes: &[u8],
    counts: FileCounts,
) -> Result<Option<Code>, AllocError>
    requires counts { counted counts ≡ counts_in bytes.now }
    requires shaped { IsShaped bytes.now }
    ensures good { IfOk result (λ found. IfSome found HasFile) }
    ensures exact { (code : Listing) → IsFileOf bytes.now code
        → IfOk result (λ found. IsSomeAnd found (λ read. read ≡ code)) }
{
    let tables = tables_in(bytes, counts);
    let constants = constants(alloc, tables.constants, counts.constants)?;
    let Some(slots) = slots(alloc, tables.slots, counts.slots)? else {
        return Ok(None);
    };
    let Some(kinds) = blocks(alloc, tables.blocks, counts.blocks)? else {
        return Ok(None);
    };
    let starts = starts(alloc, tables.starts, counts.starts)?;
    let functions = functions(alloc, tables.functions, counts.functions)?;
    let Some(words) = words(alloc, tables.words, counts.words)? else {
        return Ok(None);
    };
    let lines = numbers(alloc, tables.lines, counts.words)?;
    let buses = bytes[5];
    if !are_bodies(buses, counts.slots, &starts, &words, &functions) {
        return Ok(None);
    }
    Ok(Some(Code::new(
        buses, constants, slots, kinds, starts, words, lines, functions,
    )))
}

/// So many constants.
fn constants(alloc: Global, bytes: &[u8], count: usize) -> Result<Vec<Value>, AllocError>
    requires { length bytes.now ≡ 16 * count }
    ensures exact { (xs : List AnyValue) → length xs ≡ count → AllByRecursion FitsValue xs
        → bytes.now ≡ constants xs → IfOk result (λ read. read.items ≡ xs) }
    ensures fits { IfOk result (λ read. AllByRecursion FitsValue read.items) }
    ensures long { IfOk result (λ read. length read.items ≡ count) }
{
    let mut values = Vec::new(alloc);
    let mut rest = bytes;
    for _ in 0..count {
        let (value, after) = constant_at(rest);
        values.push(value)?;
        rest = after;
    }
    Ok(values)
}

/// So many types of slots, if each is one.
fn slots(alloc: Global, bytes: &[u8], count: usize) -> Result<Option<Vec<IlType>>, AllocError>
    requires { length bytes.now ≡ 24 * count }
    ensures exact { (xs : List AnyType) → length xs ≡ count → AllByRecursion FitsType xs
        → bytes.now ≡ slots xs
        → IfOk result (λ found. IsSomeAnd found (λ read. read.items ≡ xs)) }
    ensures fits { IfOk result (λ found. IfSome found (λ read.
        AllByRecursion FitsType read.items × (length read.items ≡ count))) }
{
    let mut types = Vec::new(alloc);
    let mut rest = bytes;
    for _ in 0..count {
        let (found, after) = slot_at(rest);
        let Some(slot) = found else {
            return Ok(None);
        };
        types.push(slot)?;
        rest = after;
    }
    Ok(Some(types))
}

/// So many kinds of block instances, if each is one.
fn blocks(alloc: Global, bytes: &[u8], count: usize) -> Result<Option<Vec<BlockKind>>, AllocError>
    requires { length bytes.now ≡ count }
    ensures exact { (xs : List AnyKind) → length xs ≡ count → bytes.now ≡ blocks xs
        → IfOk result (λ found. IsSomeAnd found (λ read. read.items ≡ xs)) }
    ensures long { IfOk result (λ found. IfSome found (λ read. length read.items ≡ count)) }
{
    let mut kinds = Vec::new(alloc);
    let mut rest = bytes;
    for _ in 0..count {
        let (found, after) = block_at(rest);
        let Some(kind) = found else {
            return Ok(None);
        };
        kinds.push(kind)?;
        rest = after;
    }
    Ok(Some(kinds))
}

/// So many words, if each is one.
fn words(alloc: Global, bytes: &[u8], count: usize) -> Result<Option<Vec<PackedWord>>, AllocError>
    requires { length bytes.now ≡ 4 * count }
    ensures exact { (xs : List AnyWord) → length xs ≡ count → AllByRecursion HasWord xs
        → bytes.now ≡ words xs
        → IfOk result (λ found. IsSomeAnd found (λ read. read.items ≡ xs)) }
    ensures held { IfOk result (λ found. IfSome found (λ read.
        AllByRecursion HasWord read.items × (length read.items ≡ count))) }
{
    let mut given = Vec::new(alloc);
    let mut rest = bytes;
    for _ in 0..count {
        let (found, after) = word_at(rest);
        let Some(word) = found else {
            return Ok(None);
        };
        given.push(word)?;
        rest = after;
    }
    Ok(Some(given))
}

/// So many starts.
fn starts(alloc: Global, bytes: &[u8], count: usize) -> Result<Vec<usize>, AllocError>
    requires { length bytes.now ≡ 4 * count }
    ensures exact { (xs : List ℕ) → length xs ≡ count → AllByRecursion (λ n. n < 2 ^ 32) xs
        → bytes.now ≡ numbers xs → IfOk result (λ read. read.items ≡ xs) }
    ensures long { IfOk result (λ read. length read.items ≡ count) }
{
    let read = numbers(alloc, bytes, count)?;
    let mut places = Vec::with_capacity(alloc, read.len())?;
    for number in &read {
        places.push(*number as usize)?;
    }
    Ok(places)
}

/// So many functions.
fn functions(alloc: Global, bytes: &[u8], count: usize) -> Result<Vec<FunctionBody>, AllocError>
    requires { length bytes.now ≡ 16 * count }
    ensures exact { (xs : List AnyBody) → length xs ≡ count → AllByRecursion IsSmall xs
        → bytes.now ≡ functions xs → IfOk result (λ read. read.items ≡ xs) }
    ensures long { IfOk result (λ read. length read.items ≡ count) }
{
    let mut bodies = Vec::new(alloc);
    let mut rest = bytes;
    for _ in 0..count {
        let (body, after) = function_at(rest);
        bodies.push(body)?;
        rest = after;
    }
    Ok(bodies)
}

/// So many numbers of 32 bits.
fn numbers(alloc: Global, bytes: &[u8], count: usize) -> Result<Vec<u32>, AllocError>
    requires { length bytes.now ≡ 4 * count }
    ensures exact { (xs : List ℕ) → length xs ≡ count → AllByRecursion (λ n. n < 2 ^ 32) xs
        → bytes.now ≡ numbers xs → IfOk result (λ read. read.items ≡ xs) }
    ensures small { IfOk result (λ read. AllByRecursion (λ n. n < 2 ^ 32) read.items) }
    ensures long { IfOk result (λ read. length read.items ≡ count) }
{
    let mut given = Vec::new(alloc);
    let mut rest = bytes;
    for _ in 0..count {
        let (number, after) = number_at(rest);
        given.push(number)?;
        rest = after;
    }
    Ok(given)
}
