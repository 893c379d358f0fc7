//! Names, lines and their words.

ghost use Rattle.std.specs.Prelude.{◌≡◌, [], ◌∷◌, IfOk, OnOk, Some, false, true};
ghost use Rattle.ilsource.specs.Trees.{Load};
ghost use Rattle.ilsource.specs.Uses.{use_at};

use ilsource::{Action, Instruction, Line, LineColumn, Name, Nested, Operand, Piece, Purpose, Use};
use iltypes::{Condition, Operator};
use std::alloc::AllocError;

/// `letter_case_matters`: names that differ in letter case alone were two names.
pub fn letter_case_does_not_matter() -> bool
    ensures { result ≡ true }
{
    let small = Name { from: 0, to: 1 };
    let capital = Name { from: 1, to: 2 };
    small.is_same(capital, b"aA")
}

/// `carriage_return_ends_a_line`: lines were counted by CR and not by LF.
pub fn line_feeds_end_lines() -> usize
    ensures { result ≡ 2 }
{
    LineColumn::of(b"a\rb\rc\nd", 6).line
}

/// `instance_of_a_call_is_read`: the instance that a line calls was an operand.
pub fn instance_is_called(line: &Line<u32, u32>, uses: &mut Vec<Use<u32>>) -> Result<(), AllocError>
    requires call { line.now.instruction ≡ Some (Instruction.Call Condition.Always 7 []) }
    requires none { uses.old.items ≡ [] }
    ensures { OnOk result (uses.new.items
        ≡ use_at line.now.at Purpose.Call (Operand.Name 7) ∷ []) }
{
    line.push_uses(uses)
}

/// `function_of_a_call_is_read`: the function that a line calls was an operand.
pub fn function_is_invoked(
    line: &Line<u32, u32>,
    uses: &mut Vec<Use<u32>>,
) -> Result<(), AllocError>
    requires call { line.now.instruction ≡ Some (Instruction.Invoke 7 []) }
    requires none { uses.old.items ≡ [] }
    ensures { OnOk result (uses.new.items
        ≡ use_at line.now.at Purpose.Invoke (Operand.Name 7) ∷ []) }
{
    line.push_uses(uses)
}

/// `close_has_the_place_of_its_opening`: the word of `)` stood at the place of `(`.
pub fn closing_has_its_own_place(
    line: &Line<u32, u32>,
    places: &mut Vec<usize>,
) -> Result<(), AllocError>
    requires at { line.now.at ≡ 3 }
    requires nested { line.now.instruction
        ≡ Some (Instruction.Deferred Operator.Add (Load 5 false (Operand.Name 7)) 9) }
    requires none { places.old.items ≡ [] }
    ensures { OnOk result (places.new.items ≡ 3 ∷ 5 ∷ 9 ∷ []) }
{
    line.push_places(places)
}

/// `conditional_call_without_its_jump`: CALC had no word for its condition.
pub fn conditional_call_has_a_jump(line: &Line<u32, u32>) -> usize
    requires { line.now.instruction ≡ Some (Instruction.Call Condition.IfTrue 7 []) }
    ensures { result ≡ 2 }
{
    line.words()
}

/// `operands_of_a_call_are_counted_one_off`: the first operand went to the first input, which has
/// what stands before the call.
pub fn first_operand_goes_to_the_second_input(
    nested: Nested<u32>,
) -> Result<Option<usize>, AllocError>
    requires { nested ≡ Load 0 false (Operand.Name 1) }
    ensures { IfOk result (λ number. number ≡ Some 1) }
{
    let called = nested.call(4, 7, &[Operand::Name(2)])?;
    match called.pieces().get(2) {
        Some(
            Piece {
                action: Action::Give { number, .. },
                ..
            },
        ) => Ok(Some(*number)),
        _ => Ok(None),
    }
}
