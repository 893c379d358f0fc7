//! The law that a cause stands for a run that goes wrong.

ghost use Rattle.ilcode.specs.declared.word.Word.{Word};
ghost use Rattle.ilverify.specs.CauseLaws.{IsNoWhim};

/// Where a cause of one step arises at a word, at an entry that knows of each slot at least its
/// type, the word is undefined from some configuration that is as the entry says, its mark aside;
/// or it names what its body may not name.
fn causes_are_undefined_steps()
    ensures { (word : Word) → IsNoWhim word }
{}
