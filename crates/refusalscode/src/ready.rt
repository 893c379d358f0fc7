//! Ready words: what is made of a word is not what another word would be made into.

ghost use Rattle.std.specs.Prelude.{◌≡◌, ◌≢◌, ◌+◌, ◌*◌, ◌/◌, ◌%◌, [], ◌∷◌, IfOk, IfSome, replicate};
ghost use Rattle.std.specs.Prelude.{slice_get};
ghost use Rattle.refusalscode.specs.Codes.{level};

use ilcells::{Choice, ReadyWord, ready_words};
use ilcode::{PackedWord, Word, WordOperand};
use iltypes::{Condition, IlType, Operator};
use std::alloc::{AllocError, Global};

/// `opens_with_greater_or_equal`: GT( was made into GE(.
pub fn greater_is_not_greater_or_equal(
    alloc: Global,
    types: &[IlType],
    words: &[PackedWord],
) -> Result<Vec<ReadyWord>, AllocError>
    requires types { types.now ≡ [] }
    requires words { words.now ≡ Word.Open Operator.Gt ∷ [] }
    ensures { IfOk result (λ ready. IfSome (slice_get ready.items 0)
        (λ word. word.choice ≢ Choice.OpenGe)) }
{
    ready_words(alloc, types, words)
}

/// `adds_the_constant_to_be_subtracted`: SUB of a constant was made into ADD.
pub fn constant_is_subtracted(
    alloc: Global,
    types: &[IlType],
    words: &[PackedWord],
) -> Result<Vec<ReadyWord>, AllocError>
    requires types { types.now ≡ [] }
    requires words { words.now ≡ Word.Apply Operator.Sub (WordOperand.Constant 0) ∷ [] }
    ensures { IfOk result (λ ready. IfSome (slice_get ready.items 0)
        (λ word. word.choice ≢ Choice.AddConstant)) }
{
    ready_words(alloc, types, words)
}

/// `number_passed_as_a_truth_value`: an argument that is a number was read among the truth values.
pub fn number_is_passed_as_a_number(
    alloc: Global,
    types: &[IlType],
    words: &[PackedWord],
) -> Result<Vec<ReadyWord>, AllocError>
    requires types { types.now ≡ level ∷ [] }
    requires words { words.now ≡ Word.Pass 0 0 (WordOperand.Slot 0) ∷ [] }
    ensures { IfOk result (λ ready. IfSome (slice_get ready.items 0)
        (λ word. word.choice ≢ Choice.PassTruth)) }
{
    ready_words(alloc, types, words)
}

/// `number_given_as_a_truth_value`: a number was given as a truth value.
pub fn number_is_given_as_a_number(
    alloc: Global,
    types: &[IlType],
    words: &[PackedWord],
) -> Result<Vec<ReadyWord>, AllocError>
    requires types { types.now ≡ level ∷ level ∷ [] }
    requires words { words.now ≡ Word.Give (WordOperand.Slot 0) 1 ∷ [] }
    ensures { IfOk result (λ ready. IfSome (slice_get ready.items 0)
        (λ word. word.choice ≢ Choice.GiveTruth)) }
{
    ready_words(alloc, types, words)
}

/// `port_and_instance_exchanged`: in the operand of an argument the port stood where the instance
/// stands.
pub fn instance_of_an_argument_stands_above_its_port(
    alloc: Global,
    types: &[IlType],
    words: &[PackedWord],
) -> Result<Vec<ReadyWord>, AllocError>
    requires types { types.now ≡ [] }
    requires words { words.now ≡ Word.Pass 0 0 (WordOperand.Port 1 2) ∷ [] }
    ensures { IfOk result (λ ready. IfSome (slice_get ready.items 0)
        (λ word. word.choice ≡ Choice.PassPort → word.number % 4096 / 16 ≡ 2)) }
{
    ready_words(alloc, types, words)
}

/// `target_loses_its_high_part`: of a jump's target the high bits were left out.
pub fn target_of_a_jump_is_kept(
    alloc: Global,
    types: &[IlType],
    words: &[PackedWord],
) -> Result<Vec<ReadyWord>, AllocError>
    requires types { types.now ≡ [] }
    requires words { words.now ≡ Word.Jump Condition.Always 65536 ∷ [] }
    ensures { IfOk result (λ ready. IfSome (slice_get ready.items 0)
        (λ word. word.choice ≡ Choice.Jump → word.extra + 256 * word.number ≡ 65536)) }
{
    ready_words(alloc, types, words)
}

/// `slot_given_loses_its_high_part`: of the place that an argument is given to the high bits were
/// left out.
pub fn place_of_a_given_slot_is_kept(
    alloc: Global,
    types: &[IlType],
    words: &[PackedWord],
) -> Result<Vec<ReadyWord>, AllocError>
    requires types { types.now ≡ replicate 17 level }
    requires words { words.now ≡ Word.Give (WordOperand.Slot 0) 16 ∷ [] }
    ensures { IfOk result (λ ready. IfSome (slice_get ready.items 0)
        (λ word. word.choice ≡ Choice.GiveNumber → 16 * word.extra + word.number / 4096 ≡ 16)) }
{
    ready_words(alloc, types, words)
}
