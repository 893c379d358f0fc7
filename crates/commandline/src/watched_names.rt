//! The names of variables that are watched, as words of the command line.

ghost use Rattle.std.specs.Prelude.{MatchResult, map};
ghost use Rattle.commandline.specs.WatchedNames.{AreWatched, IsSeventeenth};

use arrayvec::ArrayVec;

/// How many variables may be watched at most.
pub const MOST_WATCHED: usize = 16;

/// The names of the variables that are watched, in the order of the words.
pub type WatchedNames<'a> = ArrayVec<&'a str, MOST_WATCHED>;

/// The seventeenth name of a variable that is watched.
#[derive(Clone, Copy)]
pub struct WatchedFault<'a> {
    pub name: &'a str,
}

/// The variables that the words name.
///
/// # Errors
///
/// There are more than 16 words.
pub(crate) fn watched_of<'a>(words: &[&'a str]) -> Result<WatchedNames<'a>, WatchedFault<'a>>
    ensures { MatchResult result
        (λ watched. AreWatched (map (λ word. word.now) words.now) watched.items)
        (IsSeventeenth (map (λ word. word.now) words.now)) }
{
    let mut watched = ArrayVec::new();
    for word in words {
        if watched.is_full() {
            return Err(WatchedFault { name: word });
        }
        watched.push(*word);
    }
    Ok(watched)
}
