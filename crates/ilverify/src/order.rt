//! The law that who knows more before an operator, a function or a word knows more after it.

ghost use Rattle.iltypes.specs.declared.function.Function.{Function};
ghost use Rattle.iltypes.specs.declared.operator.Operator.{Operator};
ghost use Rattle.ilcode.specs.declared.word.Word.{Word};
ghost use Rattle.ilverify.specs.Order.{KeepsOrder, KeepsRefusals};
ghost use Rattle.ilverify.specs.Order.{FunctionKeepsOrder, FunctionKeepsRefusals};
ghost use Rattle.ilverify.specs.Order.{KeepsEntryOrder, KeepsWordRefusals};

/// Who knows more before an operator, a function or a word knows more after it, and is refused only
/// where who knows less is refused too. It does nothing: its contract is the law.
pub fn more_known_before_is_more_known_after()
    ensures order { (operator : Operator) → KeepsOrder operator }
    ensures refusals { (operator : Operator) → KeepsRefusals operator }
    ensures function_order { (function : Function) → FunctionKeepsOrder function }
    ensures function_refusals { (function : Function) → FunctionKeepsRefusals function }
    ensures word_order { (word : Word) → KeepsEntryOrder word }
    ensures word_refusals { (word : Word) → KeepsWordRefusals word }
{}
