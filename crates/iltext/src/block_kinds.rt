//! The kinds of function blocks, by their words (IEC 61131-3, 2.5.2.3; profile for requests).

ghost use Rattle.std.specs.Prelude.{◌≡◌};
ghost use Rattle.iltokens.specs.Items.{begins};
ghost use Rattle.iltokens.specs.Results.{Gives};
ghost use Rattle.iltext.specs.Declarations.{block_of_word, block_at, block, instances};

use crate::token::{Token, TokenKind};
use ilblocks::BlockKind;
use iltokens::{Keyword, ReadError, What};

/// The kind of block that a word is.
fn block_of_word(word: Keyword) -> Option<BlockKind>
    ensures { result ≡ block_of_word word }
{
    match word {
        Keyword::RTrig => Some(BlockKind::RTrig),
        Keyword::Ctu => Some(BlockKind::Ctu),
        Keyword::Ton => Some(BlockKind::Ton),
        Keyword::GearLevel => Some(BlockKind::GearLevel),
        Keyword::GearDo => Some(BlockKind::GearDo),
        Keyword::GearSet => Some(BlockKind::GearSet),
        Keyword::GearPair => Some(BlockKind::GearPair),
        Keyword::GearAsk => Some(BlockKind::GearAsk),
        Keyword::GearRead => Some(BlockKind::GearRead),
        Keyword::DevDo => Some(BlockKind::DevDo),
        Keyword::DevScheme => Some(BlockKind::DevScheme),
        Keyword::DevAsk => Some(BlockKind::DevAsk),
        _ => None,
    }
}

/// The kind of block that a token is the word of.
fn kind_of(kind: TokenKind) -> Option<BlockKind>
    ensures { result ≡ block_at kind }
{
    match kind {
        TokenKind::Good(What::Keyword(word)) => block_of_word(word),
        _ => None,
    }
}

/// A kind of function block.
#[tactic(auto, unfolding(crate::specs::Declarations::block))]
pub(crate) fn block<'a>(ts: &'a [Token]) -> Result<(BlockKind, &'a [Token]), ReadError<'a, Token>>
    ensures { Gives (λ x. (x.0, x.1.now)) result (block.read ts.now) }
{
    match ts {
        [first, rest @ ..] => match kind_of(first.kind) {
            Some(kind) => Ok((kind, rest)),
            None => Err(ReadError::Fault(ts)),
        },
        [] => Err(ReadError::Fault(ts)),
    }
}

/// Whether the word of a kind of function block stands first.
#[tactic(auto, unfolding(crate::specs::Declarations::instances, crate::specs::Declarations::block))]
pub(crate) fn begins_instances(ts: &[Token]) -> bool
    ensures { result ≡ begins instances ts.now }
{
    match ts {
        [] => false,
        [first, ..] => kind_of(first.kind).is_some(),
    }
}
