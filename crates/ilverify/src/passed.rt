//! The pass at a word.

ghost use Rattle.std.specs.Prelude.{IfOk};
ghost use Rattle.ilverify.specs.Passes.{IsPassed};

use crate::known_before::Pass;
use crate::pass::advance;
use crate::refusal::Refusal;
use std::alloc::AllocError;

/// What becomes of a pass at the word that comes.
#[derive(Drop)]
pub enum Passed<'c> {
    /// The word is accepted, or no scan reaches it: the pass, before the next word.
    On(Pass<'c>),
    /// The word is refused.
    Refused(Refusal),
    /// There is no word any more.
    Past,
}

impl<'c> Pass<'c> {
    /// Judges the word that comes.
    ///
    /// # Errors
    ///
    /// The allocator is out of memory.
    pub fn advance(self) -> Result<Passed<'c>, AllocError>
        ensures { IfOk result (IsPassed self.entry) }
    {
        let Pass {
            code,
            place,
            mut pending,
        } = self;
        if place >= code.len() {
            return Ok(Passed::Past);
        }
        match advance(code, &mut pending, place)? {
            Some(refusal) => Ok(Passed::Refused(refusal)),
            None => Ok(Passed::On(Pass {
                code,
                place: place + 1,
                pending,
            })),
        }
    }
}
