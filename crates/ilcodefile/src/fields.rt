//! Fields at the front of bytes: each is read as if it were good. What is read of a field that is
//! not is compared later, with the bytes that it would have.

ghost use Rattle.std.specs.Prelude.{◌≡◌, ℕ, ℤ, ◌≤◌, ◌<◌, ◌^◌, ◌++◌, List, length, drop, take};
ghost use Rattle.std.specs.Prelude.{IfSome, IsSomeAnd, slice_index};
ghost use Rattle.std.specs.Int.{w32, w64, cast_signed, from_le_bytes};
ghost use Rattle.iltypes.specs.declared.range.Range.{Range as AnyRange};
ghost use Rattle.iltypes.specs.declared.value.IlType.{IlType as AnyType};
ghost use Rattle.iltypes.specs.declared.value.IlType.TheVariants as types;
ghost use Rattle.iltypes.specs.declared.value.Value.{Value as AnyValue};
ghost use Rattle.ilblocks.specs.declared.kind.BlockKind.{BlockKind as AnyKind};
ghost use Rattle.ilcode.specs.Words.{HasWord, spelling};
ghost use Rattle.ilcode.specs.declared.function.FunctionBody.{FunctionBody as AnyBody};
ghost use Rattle.ilcode.specs.declared.word.Word.{Word as AnyWord};
ghost use Rattle.ilcodefile.specs.BodySteps.{IsSmall};
ghost use Rattle.ilcodefile.specs.FieldSteps.{Holds, HoldsType};
ghost use Rattle.ilcodefile.specs.Files.{FitsType, FitsValue, block, block_number, constant};
ghost use Rattle.ilcodefile.specs.Files.{function, slot, word};

use ilblocks::BlockKind;
use ilcode::{FunctionBody, PackedWord};
use iltypes::{IlType, Range, Value};

/// The number of 32 bits at the front, and what follows.
pub(crate) fn number_at(bytes: &[u8]) -> (u32, &[u8])
    requires { 4 ≤ length bytes.now }
    ensures value { result.0 ≡ from_le_bytes w32 (take 4 bytes.now) }
    ensures small { result.0 < 2 ^ 32 }
    ensures rest { result.1.now ≡ drop 4 bytes.now }
{
    let (front, rest) = bytes.split_at(4);
    let number = u32::from_le_bytes([front[0], front[1], front[2], front[3]]);
    (number, rest)
}

/// The whole number of 64 bits at the front, and what follows.
fn whole_at(bytes: &[u8]) -> (i64, &[u8])
    requires { 8 ≤ length bytes.now }
    ensures value { result.0 ≡ cast_signed w64 (from_le_bytes w64 (take 8 bytes.now)) }
    ensures rest { result.1.now ≡ drop 8 bytes.now }
{
    let (front, rest) = bytes.split_at(8);
    let number = i64::from_le_bytes([
        front[0], front[1], front[2], front[3], front[4], front[5], front[6], front[7],
    ]);
    (number, rest)
}

/// What the constant or the slot at the front is, and what follows.
fn tag_at(bytes: &[u8]) -> (u8, &[u8])
    requires { 8 ≤ length bytes.now }
    ensures value { result.0 ≡ slice_index bytes.now 0 }
    ensures rest { result.1.now ≡ drop 8 bytes.now }
{
    let (_, rest) = bytes.split_at(8);
    (bytes[0], rest)
}

/// The constant at the front, and what follows.
pub(crate) fn constant_at(bytes: &[u8]) -> (Value, &[u8])
    requires { 16 ≤ length bytes.now }
    ensures exact { (value : AnyValue) (more : List ℕ) → FitsValue value
        → bytes.now ≡ constant value ++ more → (result.0 ≡ value) × (result.1.now ≡ more) }
    ensures fits { FitsValue result.0 }
    ensures rest { result.1.now ≡ drop 16 bytes.now }
{
    let (kind, rest) = tag_at(bytes);
    let (number, rest) = whole_at(rest);
    (constant_of(kind, number), rest)
}

/// The constant whose fields hold these numbers.
fn constant_of(kind: u8, number: i64) -> Value
    ensures exact { (value : AnyValue) → Holds value kind number → result ≡ value }
    ensures fits { FitsValue result }
{
    match (kind, number) {
        (0, 0) => Value::Bool(false),
        (0, _) => Value::Bool(true),
        _ => Value::Int(number),
    }
}

/// The type of the slot at the front, if it has one, and what follows.
pub(crate) fn slot_at(bytes: &[u8]) -> (Option<IlType>, &[u8])
    requires { 24 ≤ length bytes.now }
    ensures exact { (type : AnyType) (more : List ℕ) → FitsType type
        → bytes.now ≡ slot type ++ more
        → IsSomeAnd result.0 (λ read. read ≡ type) × (result.1.now ≡ more) }
    ensures fits { IfSome result.0 FitsType }
    ensures rest { result.1.now ≡ drop 24 bytes.now }
{
    let (kind, rest) = tag_at(bytes);
    let (lo, rest) = whole_at(rest);
    let (hi, rest) = whole_at(rest);
    (type_of(kind, lo, hi), rest)
}

/// The type whose fields hold these numbers.
fn type_of(kind: u8, lo: i64, hi: i64) -> Option<IlType>
    ensures exact { (type : AnyType) → HoldsType type kind lo hi
        → IsSomeAnd result (λ read. read ≡ type) }
    ensures fits { IfSome result FitsType }
{
    if kind == 0 {
        Some(IlType::Bool)
    } else {
        interval(lo, hi)
    }
}

/// The type of the whole numbers from `lo` to `hi`, if there are any.
fn interval(lo: i64, hi: i64) -> Option<IlType>
    ensures exact { (range : AnyRange) → range.lo ≡ lo → range.hi ≡ hi
        → IsSomeAnd result (λ read. read ≡ types.Int range) }
    ensures fits { IfSome result FitsType }
{
    let range = Range::new(lo, hi)?;
    Some(IlType::Int(range))
}

/// The kind of the block instance at the front, if it is one, and what follows.
pub(crate) fn block_at(bytes: &[u8]) -> (Option<BlockKind>, &[u8])
    requires { 1 ≤ length bytes.now }
    ensures exact { (kind : AnyKind) (more : List ℕ) → bytes.now ≡ block kind ++ more
        → IsSomeAnd result.0 (λ read. read ≡ kind) × (result.1.now ≡ more) }
    ensures rest { result.1.now ≡ drop 1 bytes.now }
{
    let (_, rest) = bytes.split_at(1);
    (kind_of(bytes[0]), rest)
}

/// The kind of this number.
fn kind_of(number: u8) -> Option<BlockKind>
    ensures exact { (kind : AnyKind) → number ≡ block_number kind
        → IsSomeAnd result (λ read. read ≡ kind) }
{
    Some(match number {
        0 => BlockKind::RTrig,
        1 => BlockKind::Ctu,
        2 => BlockKind::Ton,
        3 => BlockKind::GearLevel,
        4 => BlockKind::GearDo,
        5 => BlockKind::GearSet,
        6 => BlockKind::GearPair,
        7 => BlockKind::GearAsk,
        8 => BlockKind::GearRead,
        9 => BlockKind::DevDo,
        10 => BlockKind::DevScheme,
        11 => BlockKind::DevAsk,
        _ => return None,
    })
}

/// The number of a kind.
pub(crate) fn block_number(kind: BlockKind) -> u8
    ensures { result ≡ block_number kind }
{
    match kind {
        BlockKind::RTrig => 0,
        BlockKind::Ctu => 1,
        BlockKind::Ton => 2,
        BlockKind::GearLevel => 3,
        BlockKind::GearDo => 4,
        BlockKind::GearSet => 5,
        BlockKind::GearPair => 6,
        BlockKind::GearAsk => 7,
        BlockKind::GearRead => 8,
        BlockKind::DevDo => 9,
        BlockKind::DevScheme => 10,
        BlockKind::DevAsk => 11,
    }
}

/// The function at the front, and what follows.
pub(crate) fn function_at(bytes: &[u8]) -> (FunctionBody, &[u8])
    requires { 16 ≤ length bytes.now }
    ensures exact { (f : AnyBody) (more : List ℕ) → IsSmall f → bytes.now ≡ function f ++ more
        → (result.0 ≡ f) × (result.1.now ≡ more) }
    ensures small { IsSmall result.0 }
    ensures rest { result.1.now ≡ drop 16 bytes.now }
{
    let (start, rest) = number_at(bytes);
    let (first, rest) = number_at(rest);
    let (inputs, rest) = number_at(rest);
    let (slots, rest) = number_at(rest);
    let body = FunctionBody {
        start: start as usize,
        first: first as usize,
        inputs: inputs as usize,
        slots: slots as usize,
    };
    (body, rest)
}

/// The word at the front, if it is one, and what follows.
pub(crate) fn word_at(bytes: &[u8]) -> (Option<PackedWord>, &[u8])
    requires { 4 ≤ length bytes.now }
    ensures exact { (w : AnyWord) (more : List ℕ) → HasWord w → bytes.now ≡ word w ++ more
        → IsSomeAnd result.0 (λ read. read ≡ w) × (result.1.now ≡ more) }
    ensures held { IfSome result.0 HasWord }
    ensures rest { result.1.now ≡ drop 4 bytes.now }
{
    let (bits, rest) = number_at(bytes);
    (unpack(bits), rest)
}

/// The word of these bits, if they are one.
fn unpack(bits: u32) -> Option<PackedWord>
    ensures exact { (w : AnyWord) → HasWord w → bits ≡ spelling w
        → IsSomeAnd result (λ read. read ≡ w) }
    ensures held { IfSome result HasWord }
{
    PackedWord::read(bits)
}
