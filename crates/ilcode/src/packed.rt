//! Words of 32 bits.

ghost use Rattle.std.specs.Prelude.{◌≡◌, IfOk};
ghost use Rattle.std.specs.List.{AllByRecursion};
ghost use Rattle.ilcode.specs.Words.{HasWord};

use crate::reading::meaning;
use crate::spelling::{has_word, spell};
use crate::word::Word;
use std::alloc::{AllocError, Global};
use std::marker::Model;

/// A word in 32 bits, which contracts see as the word that they spell.
#[derive(Clone, Copy)]
pub struct PackedWord {
    bits: u32,
}

impl Model for PackedWord {
    ghost use Rattle.ilcode.specs.declared.word.Word as words;

    ghost Value = { words.Word };

    ghost use Rattle.ilcode.specs.Words.{spelling};
    ghost use Rattle.ilcode.specs.Reading.{meaning, IsPacked};
    ghost use Rattle.std.proofs.Common.{ap};

    ghost view = { λ w. meaning w.bits };

    ghost invariant = { λ w. IsPacked w.bits };

    ghost inverse = { λ word. record { bits = spelling word } };

    ghost inverse_ok = { λ w kept. ap (λ bits. record { bits = bits }) kept.is };
}

impl PackedWord {
    ghost use Rattle.std.specs.Prelude.{◌≡◌, ◌≢◌, IfSome, IfNone};
    ghost use Rattle.ilcode.specs.declared.word.Word.{Word as AnyWord};
    ghost use Rattle.ilcode.specs.Words.{spelling, HasWord};

    /// A word that the format can hold.
    pub fn of(word: &Word) -> PackedWord
        requires { HasWord word.now }
        ensures { result ≡ word.now }
    {
        PackedWord { bits: spell(word) }
    }

    /// The word of these bits, if they are one.
    pub fn read(bits: u32) -> Option<PackedWord>
        ensures found { IfSome result (λ word. HasWord word × (spelling word ≡ bits)) }
        ensures none { IfNone result ((word : AnyWord) → HasWord word → spelling word ≢ bits) }
    {
        let meant = meaning(bits);
        if has_word(&meant) && spell(&meant) == bits {
            Some(PackedWord { bits })
        } else {
            None
        }
    }

    /// The bits.
    pub fn bits(self) -> u32
        ensures value { result ≡ spelling self }
        ensures held { HasWord self }
    {
        self.bits
    }

    /// The word, unpacked.
    pub fn word(self) -> Word
        ensures value { result ≡ self }
        ensures held { HasWord result }
    {
        meaning(self.bits)
    }
}

/// The words in 32 bits each, which the format can hold.
///
/// # Errors
///
/// The allocator is out of memory.
pub fn pack(alloc: Global, words: &[Word]) -> Result<Vec<PackedWord>, AllocError>
    requires { AllByRecursion HasWord words.now }
    ensures { IfOk result (λ packed. packed.items ≡ words.now) }
{
    let mut packed = Vec::with_capacity(alloc, words.len())?;
    for word in words {
        packed.push(PackedWord::of(word))?;
    }
    Ok(packed)
}
