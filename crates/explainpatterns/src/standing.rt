//! A place that is asked about.

ghost use Rattle.std.specs.Prelude.{◌↔◌, IsTrue};
ghost use Rattle.explaincures.specs.Trying.{IsEnd};

use explaincures::{AskedText, Spot, Surroundings, is_end, is_of_group};
use iltokens::KeywordGroup;

/// Where a part of the asked text begins and ends.
pub type Extent = (usize, usize);

/// A place that is asked about, with all that is known of it.
#[derive(Clone, Copy)]
pub struct Standing<'a> {
    pub asked: &'a AskedText<'a>,
    /// Its line and column, counted from 1.
    pub line: usize,
    pub col: usize,
    pub spot: Spot<'a>,
    pub around: Surroundings,
}

impl<'a> Standing<'a> {
    /// What stands just before the place.
    pub fn before(&self) -> &'a [u8] {
        let (from, to) = self.around.before;
        self.spot.part(from, to)
    }

    /// Whether the text ends there.
    pub fn is_at_end(&self) -> bool
        ensures { IsTrue result ↔ IsEnd self.now.asked.now.text.now self.now.line self.now.col }
    {
        is_end(self.asked.text, self.line, self.col)
    }

    /// Whether the inputs of a call of a block stand there.
    pub fn is_in_call(&self) -> bool {
        match self.around.parenthesis {
            Some(open) if self.around.is_in_body() => {
                let word = Spot::of(self.spot.text, open).first_word();
                is_of_group(word, &[KeywordGroup::Call])
            }
            _ => false,
        }
    }
}
