//! The open parentheses that `iltext` counts, and those of the grammar.

ghost use Rattle.std.specs.Prelude.{◌≡◌, ◌≤◌, ◌<◌, ℕ, ◌+◌, List, [], ◌∷◌, ◌++◌, false};
ghost use Rattle.limits.specs.Limits.{most_nesting};
ghost use Rattle.iltokens.specs.declared.keyword.Keyword.TheVariants as words;
ghost use Rattle.iltokens.specs.declared.lexed.Delimiter.TheVariants as delimiters;
ghost use Rattle.iltokens.specs.declared.lexed.What.TheVariants as whats;
ghost use Rattle.iltext.specs.declared.token.Token.{Token};
ghost use Rattle.iltext.specs.declared.token.TokenKind.TheVariants as kinds;
ghost use Rattle.iltext.specs.Faults.{cause_at, open_after_all};
ghost use Rattle.iltext.specs.Texts.{text};
ghost use Rattle.iltext.specs.declared.fault.TextCause.TheVariants.{NotNested, TooDeep};
ghost use Rattle.iltext.specs.Nested.{GoesOn, IsInside};

/// Each front of a text ends inside exactly as many parentheses of deferred operators as are
/// counted over its tokens, and inside at most 32. Where one is open, a `(` opens another.
pub fn count_is_depth()
    ensures counted { (depth : ℕ) (front : List Token) → IsInside depth front
        → open_after_all false 0 front ≡ depth }
    ensures inside { (front : List Token) → text.part front
        → (depth : ℕ) × (depth ≤ most_nesting) × IsInside depth front }
    ensures opens { (front : List Token) (next : Token) → GoesOn front next
        → next.kind ≡ kinds.Good (whats.Delimiter delimiters.Open)
        → 0 < open_after_all false 0 front
        → open_after_all false 0 (front ++ next ∷ []) ≡ open_after_all false 0 front + 1 }
{}

/// A token that would be refused as too deep may not stand there. One that would be refused as a
/// word that stands only outside parentheses may not either, but for R, the name of a port.
pub fn causes_of_depth_hold()
    ensures too_deep { (front rest : List Token) (next : Token)
        → cause_at front (next ∷ rest) ≡ TooDeep → ¬ GoesOn front next }
    ensures not_nested { (front rest : List Token) (next : Token)
        → cause_at front (next ∷ rest) ≡ NotNested → GoesOn front next
        → next.kind ≡ kinds.Good (whats.Keyword words.R) }
{}
