//! Lines as they are read.

ghost use Rattle.std.specs.Prelude.{◌≡◌, [], ◌∷◌, IfErr, IfOk, None, Some, false, pos};
ghost use Rattle.ilsource.specs.Trees.{Apply, Load};
ghost use Rattle.refusalslanguage.specs.Texts.{called, limited, opened};

use ilsource::{Instruction, Line, Name, Operand, Symbol};
use iltext::{Token, lines};
use iltokens::ReadError;
use iltypes::{Operator, Value};
use std::alloc::Global;

/// `operands_after_the_first_are_left`: the second operand of a call was a fault.
pub fn call_takes_each_operand<'a>(
    alloc: Global,
    ts: &'a [Token],
) -> Result<(Vec<Line<Symbol, Name>>, &'a [Token]), ReadError<'a, Token>>
    requires { ts.now ≡ called }
    ensures { IfErr result (λ error. error ≡ ReadError.Memory) }
{
    lines(alloc, ts)
}

/// `the_33rd_parenthesis_is_taken`: 33 parentheses were open at once.
pub fn the_33rd_parenthesis_is_a_fault(alloc: Global, ts: &[Token]) -> bool
    requires { ts.now ≡ opened 33 }
    ensures { result ≡ false }
{
    lines(alloc, ts).is_ok()
}

/// `limit_exchanges_its_bounds`: LIMIT in parentheses was at least its upper bound.
pub fn limit_is_at_least_its_first_bound<'a>(
    alloc: Global,
    ts: &'a [Token],
) -> Result<(Vec<Line<Symbol, Name>>, &'a [Token]), ReadError<'a, Token>>
    requires { ts.now ≡ limited }
    ensures { IfOk result (λ read. read.0.items ≡ record {
      at = 0;
      label = None;
      instruction = Some (Instruction.Deferred Operator.Add
          (Apply (Apply (Load 0 false (Operand.Constant (Value.Int (pos 1))))
          0 Operator.Max (Operand.Constant (Value.Int (pos 2))))
          0 Operator.Min (Operand.Constant (Value.Int (pos 3)))) 0);
    } ∷ []) }
{
    lines(alloc, ts)
}
