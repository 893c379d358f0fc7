//! Laws of the definitions, each by the lemma that crates above cite.

ghost use Rattle.std.specs.Prelude.{◌≡◌, ◌<◌, ◌^◌};
ghost use Rattle.ilcode.specs.declared.word.Word.{Word as AnyWord};
ghost use Rattle.ilcode.specs.Words.{HasWord, spelling};
ghost use Rattle.ilcode.specs.Reading.{meaning};

/// The bits of a word are 32, and those of no other word: they are read as the word again.
fn bits_spell_one_word()
    ensures small { (word : AnyWord) → HasWord word → spelling word < 2 ^ 32 }
    ensures again { (word : AnyWord) → HasWord word → meaning (spelling word) ≡ word }
    ensures one { (word other : AnyWord) → HasWord word → HasWord other
        → spelling word ≡ spelling other → word ≡ other }
{}
