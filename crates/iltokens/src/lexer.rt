//! The next token of a text.

ghost use Rattle.std.specs.Prelude.{◌≡◌, ◌≤◌, length};
ghost use Rattle.iltokens.specs.TokenSteps.{token_at};
ghost use Rattle.iltokens.specs.Tokens.{IsAhead, StandsNext};

use crate::blanks::blanks;
use crate::front::{Front, front_at};
use crate::lexed::{Lexed, LexicalCause};

/// The longest token after the blanks and comments at the byte `at` of `bytes`, or the end of the
/// text, or the fault there: a byte of 80 hex or more, a byte that begins no token, a number or
/// time outside its limit, or a comment without end, whose place is its `(*`.
pub fn token(bytes: &[u8], at: usize) -> Lexed
    requires { at ≤ length bytes.now }
    // It stands at `at` or behind it, and a token has a byte.
    ensures ahead { IsAhead result at (length bytes.now) }
    // It is what stands after the blanks and comments: the longest token, the end, or the fault,
    ensures next { StandsNext bytes.now at result }
    // and nothing else is.
    ensures only { (other : Lexed) → StandsNext bytes.now at other → other ≡ result }
{
    next_token(bytes, at)
}

/// The same, read as far as each kind of token goes.
#[tactic(auto, unfolding(crate::specs::TokenSteps::token_at))]
fn next_token(bytes: &[u8], at: usize) -> Lexed
    requires { at ≤ length bytes.now }
    ensures exact { result ≡ token_at bytes.now at }
    ensures ahead { IsAhead result at (length bytes.now) }
{
    let (_, ahead) = bytes.split_at(at);
    match blanks(ahead) {
        Err(open) => Lexed::Fault {
            cause: LexicalCause::CommentOpen,
            at: bytes.len() - open.len(),
        },
        Ok(rest) => {
            let from = bytes.len() - rest.len();
            match front_at(rest) {
                Front::End => Lexed::End,
                Front::Token(what, after) => Lexed::Token {
                    what,
                    from,
                    to: bytes.len() - after.len(),
                },
                Front::Fault(cause) => Lexed::Fault { cause, at: from },
            }
        }
    }
}
