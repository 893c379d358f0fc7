//! The law that no run goes wrong at a word that has a rule.

ghost use Rattle.ilcode.specs.declared.word.Word.{Word};
ghost use Rattle.ilverify.specs.Safety.{IsSafeAt, IsFitAtStart, IsFitWider, IsFitWithoutResult};
ghost use Rattle.ilverify.specs.Safety.{IsFitAtCall, IsFitAtReturn, KeepsOthers};

/// On at least one bus, a word that has a rule is defined, and leaves what the rule says; that
/// holds from the first word on, where a function is called, where its caller goes on, and of what
/// is known less exactly. A function's body writes no slots but its own and those of the functions
/// before it. It does nothing: its contract is the law.
pub fn words_are_safe()
    ensures safe { (word : Word) → IsSafeAt word }
    ensures start { IsFitAtStart }
    ensures call { IsFitAtCall }
    ensures back { IsFitAtReturn }
    ensures others { KeepsOthers }
    ensures wider { IsFitWider }
    ensures without { IsFitWithoutResult }
{}
