//! The tokens of a text.

ghost use Rattle.std.specs.Prelude.{◌≡◌, ◌≤◌, length, IfOk, All};
ghost use Rattle.iltext.specs.Cutting.{Cuts};

use crate::token::{Token, TokenKind};
use iltokens::{Lexed, token};
use std::alloc::{AllocError, Global};

/// The tokens of the text, up to its end or to the first byte that begins none.
pub(crate) fn tokens(alloc: Global, text: &[u8]) -> Result<Vec<Token>, AllocError>
    ensures cut { IfOk result (λ v. Cuts text.now 0 v.items) }
    ensures within { IfOk result (λ v. All (λ t. t.from ≤ length text.now) v.items) }
{
    let mut all = Vec::new(alloc);
    let mut at = 0;
    'all: loop {
        match token(text, at) {
            Lexed::End => return Ok(all),
            Lexed::Fault { cause, at: place } => {
                all.push(Token {
                    kind: TokenKind::Bad(cause),
                    from: place,
                    to: place,
                })?;
                return Ok(all);
            }
            Lexed::Token { what, from, to } => {
                all.push(Token {
                    kind: TokenKind::Good(what),
                    from,
                    to,
                })?;
                at = to;
            }
        }
    }
}
