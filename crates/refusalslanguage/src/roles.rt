//! What operators do, and the end of a text.

ghost use Rattle.std.specs.Prelude.{◌≡◌, [], ◌∷◌, Some, false};

use iltext::{OperatorRole, Token, TokenKind, end, role_of};
use iltokens::{Keyword, What};
use iltypes::{Function, IntegerType};

/// `udint_to_sint_taken_as_to_int`: UDINT_TO_SINT converted to INT.
pub fn udint_to_sint_converts_to_sint() -> Option<OperatorRole>
    ensures { result
        ≡ Some (OperatorRole.Transform (Function.Convert IntegerType.Sint)) }
{
    role_of(TokenKind::Good(What::Keyword(Keyword::UdintToSint)))
}

/// `trailing_tokens_ignored`: a text might end with a token more.
pub fn token_behind_the_end_is_refused(ts: &[Token], token: Token) -> bool
    requires { ts.now ≡ token ∷ [] }
    ensures { result ≡ false }
{
    match end(ts) {
        Ok(()) => true,
        Err(_) => false,
    }
}
