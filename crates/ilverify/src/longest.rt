//! The longest ways from the words of a code, and the bound, which is that from its first word.

ghost use Rattle.std.specs.Prelude.{◌≡◌, ◌≤◌, ◌+◌, ℕ, IfOk, IfSome, MatchOption};
ghost use Rattle.limits.specs.Limits.{most_steps};
ghost use Rattle.ilcode.specs.Paths.{IsBound, IsTooLong};
ghost use Rattle.ilverify.specs.BoundSteps.{limited};
ghost use Rattle.ilverify.specs.Calls.{HasGoodCalls};
ghost use Rattle.ilverify.specs.LongestWays.{IsLongest, IsPlaced, IsThrough, alone};

use crate::bound::{fill_bodies, longest_at};
use crate::calls::has_good_calls;
use crate::through::{Counted, through_at, ways_through};
use ilcode::Code;
use limits::MOST_STEPS;
use std::alloc::{AllocError, Global};
use std::marker::Model;

/// For each word of a code the greatest number of words on the ways from there, whatever the
/// values. Numbers that 32 bits do not hold are not told apart.
#[derive(Drop)]
pub struct LongestWays<'c> {
    code: &'c Code,
    /// On a way that goes through to the end of the function.
    through: Vec<Option<u32>>,
    /// On any.
    longest: Vec<u32>,
}

impl<'c> Model for LongestWays<'c> {
    ghost use Rattle.ilcode.specs.Listings.{Listing};
    ghost use Rattle.ilverify.specs.BoundSteps.{AreRight};

    ghost Value = { Listing };

    ghost view = { λ w. w.code.now };

    ghost invariant = { λ w. AreRight w.code.now w.through.items w.longest.items };
}

impl<'c> LongestWays<'c> {
    /// The longest ways from the words of a code, or none where a call stands in it that may not.
    ///
    /// # Errors
    ///
    /// The allocator is out of memory.
    pub fn of(alloc: Global, code: &'c Code) -> Result<Option<LongestWays<'c>>, AllocError>
        ensures { IfOk result (λ made. MatchOption made
            (¬ HasGoodCalls code.now)
            (λ ways. (ways ≡ code.now) × HasGoodCalls code.now)) }
    {
        let good = has_good_calls(alloc, code)?;
        if !good {
            return Ok(None);
        }
        Ok(Some(LongestWays::good(alloc, code)?))
    }

    /// The longest ways where all calls may stand.
    fn good(alloc: Global, code: &'c Code) -> Result<LongestWays<'c>, AllocError>
        requires { HasGoodCalls code.now }
        ensures { IfOk result (λ ways. ways ≡ code.now) }
    {
        let through = ways_through(alloc, code, Counted::Words)?;
        let mut longest = vec![in alloc; 0u32; code.len()]?;
        fill_bodies(code, &through, &mut longest);
        Ok(LongestWays {
            code,
            through,
            longest,
        })
    }

    /// The greatest number of words on the ways from a place of a body on, up to the body's end.
    /// The body of the programs is 0, that of function n is n + 1.
    pub fn words_from(&self, body: usize, place: usize) -> u32
        ensures { IsPlaced self.now (alone self.now body) place
            → IsLongest self.now place (alone self.now body) result }
    {
        let end = self.code.end_of(body);
        let words = longest_at(&self.longest, end, place);
        if body == 0 {
            words
        } else {
            words.max(through_at(&self.through, end, place).unwrap_or(0))
        }
    }

    /// The greatest number of words on the ways from a place of a function's body to the body's
    /// end, or none where no way leads there.
    pub fn words_through(&self, body: usize, place: usize) -> Option<u32>
        ensures { (function : ℕ) → body ≡ function + 1 → IsThrough self.now function place result }
    {
        through_at(&self.through, self.code.end_of(body), place)
    }
}

/// The greatest number of words on a path, whatever the values; none where some path has more than
/// the limit.
pub(crate) fn greatest_path(alloc: Global, code: &Code) -> Result<Option<u32>, AllocError>
    requires { HasGoodCalls code.now }
    ensures exact { IfOk result (λ bound. MatchOption bound
        (IsTooLong code.now)
        (IsBound code.now)) }
    ensures few { IfOk result (λ bound. IfSome bound (λ words. words ≤ most_steps)) }
{
    let ways = LongestWays::good(alloc, code)?;
    Ok(limited(ways.words_from(0, 0)))
}

/// The number, where it is within the limit.
fn limited(words: u32) -> Option<u32>
    ensures { result ≡ limited words }
{
    if words <= MOST_STEPS {
        Some(words)
    } else {
        None
    }
}
