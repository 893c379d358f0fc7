//! The words of a line.

ghost use Rattle.std.specs.Prelude.{◌≡◌, ◌≤◌, ◌↔◌, ◌∷◌, [], drop, IsTrue, IfSome, MatchOption};

use crate::cuts::cut_at;
use crate::numerals::number_of;
use std::marker::Model;

/// The words of a line that are left, from the first on.
#[derive(Drop)]
pub struct Words<'a> {
    rest: Option<&'a [u8]>,
}

impl<'a> Model for Words<'a> {
    ghost use Rattle.std.specs.Prelude.{ℕ, List};
    ghost use Rattle.std.specs.Option.{option_copied};
    ghost use Rattle.wordlines.specs.WordLines.{parts_of};

    ghost Value = { List (List ℕ) };

    ghost view = { λ w. parts_of 32 (option_copied w.rest) };
}

impl<'a> Words<'a> {
    ghost use Rattle.wordlines.specs.WordLines.{words, IsTaken, IsWordTaken};

    /// All words of a line.
    pub fn of(line: &'a [u8]) -> Self
        ensures { result ≡ words line.now }
    {
        Words { rest: Some(line) }
    }

    /// Takes the first word that is left. It is empty where two spaces meet, or one stands at an
    /// end.
    pub fn next(&mut self) -> Option<&'a [u8]>
        ensures { MatchOption result ((self.old ≡ []) × (self.new ≡ []))
            (λ word. self.old ≡ word.now ∷ self.new) }
    {
        let (word, rest) = cut_at(self.rest?, b' ');
        self.rest = rest;
        Some(word)
    }

    /// Takes the first word that is left, where it is this one. Answers whether it is.
    pub fn take(&mut self, keyword: &[u8]) -> bool
        ensures { IsWordTaken keyword.now self.old self.new result }
    {
        let Some(left) = self.rest else {
            return false;
        };
        let (word, rest) = cut_at(left, b' ');
        if word != keyword {
            return false;
        }
        self.rest = rest;
        true
    }

    /// Takes the first word that is left, and gives the number of at most `most` that it spells.
    pub fn number(&mut self, most: u64) -> Option<u64>
        ensures value { IsTaken most self.old self.new result }
        ensures rest { self.new ≡ drop 1 self.old }
        ensures limit { IfSome result (λ number. number ≤ most) }
    {
        number_of(self.next()?, most)
    }

    /// Takes the first word that is left, and gives the number of at most `most` that it spells.
    pub fn byte(&mut self, most: u8) -> Option<u8>
        ensures value { IsTaken most self.old self.new result }
        ensures rest { self.new ≡ drop 1 self.old }
        ensures limit { IfSome result (λ number. number ≤ most) }
    {
        let number = self.number(u64::from(most))?;
        Some(number as u8)
    }

    /// Whether no word is left.
    pub fn is_empty(&self) -> bool
        ensures { IsTrue result ↔ (self.now ≡ []) }
    {
        self.rest.is_none()
    }
}
