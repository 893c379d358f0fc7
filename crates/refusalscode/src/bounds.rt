//! Bounds, ways and requests of codes, and the pass over a code.

ghost use Rattle.std.specs.Prelude.{◌≡◌, ◌≤◌, List, length, min, None, IfOk, IfSome, true};
ghost use Rattle.ilcode.specs.Paths.{IsPath, Standing, land, requests_on};
ghost use Rattle.ilverify.specs.LongestWays.{IsPlaced, IsWayFrom, alone};
ghost use Rattle.ilverify.specs.Tables.{cap};
ghost use Rattle.refusalscode.specs.Codes.{branching, straight};

use ilcode::Code;
use ilverify::{LongestWays, Pass, Passed, Verified, most_requests};
use std::alloc::{AllocError, Global};

/// `bound_follows_one_way`: of the two ways of a jump only that past it was followed.
pub fn bound_follows_the_longer_way(verified: &Verified) -> u32
    requires { verified.now.code ≡ branching }
    ensures { 5 ≤ result }
{
    verified.bound()
}

/// A bound that is no longest way: one that is beyond each path.
pub fn bound_of_two_words_is_2(verified: &Verified) -> u32
    requires { verified.now.code ≡ straight }
    ensures { result ≡ 2 }
{
    verified.bound()
}

/// `longest_way_ends_in_the_function`: of a function with a way that does not go through, the ways
/// that go through were counted. Whatever the way from a place on, it is no longer.
pub fn no_way_is_longer(ways: &LongestWays<'_>, body: usize, place: usize) -> u32
    ghost way: { List Standing }
    requires placed { IsPlaced ways.now (alone ways.now body) place }
    requires way { IsWayFrom ways.now (land ways.now place (alone ways.now body)) way }
    ensures { min (length way) cap ≤ result }
{
    ways.words_from(body, place)
}

/// `forgets_what_a_function_requests`: the calls of request blocks of a function were left out.
/// `counts_the_last_path`: the number was that of one path. Whatever the path, it holds no more.
pub fn no_path_requests_more(alloc: Global, code: &Code) -> Result<Option<u32>, AllocError>
    ghost path: { List Standing }
    requires { IsPath code.now path }
    ensures { IfOk result (λ most. IfSome most (λ requests.
        min (requests_on code.now path) cap ≤ requests)) }
{
    most_requests(alloc, code)
}

/// `knows_another_place`: what is known before the first word was told of each.
pub fn unreached_word_has_no_entry(pass: &Pass<'_>) -> bool
    requires { pass.now.entry ≡ None }
    ensures { result ≡ true }
{
    pass.entry().is_none()
}

/// `stays_at_a_word`: the pass came to the same word again.
pub fn pass_comes_to_the_next_word(pass: Pass<'_>) -> Result<Option<usize>, AllocError>
    requires { pass.place ≡ 3 }
    ensures { IfOk result (λ next. IfSome next (λ place. place ≡ 4)) }
{
    match pass.advance()? {
        Passed::On(next) => Ok(Some(next.place())),
        Passed::Refused(_) | Passed::Past => Ok(None),
    }
}
