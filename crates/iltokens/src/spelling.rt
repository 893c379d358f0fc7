//! Words at the front of some bytes.

ghost use Rattle.std.specs.Prelude.{◌≡◌, ◌≤◌, length, IfSome};
ghost use Rattle.iltokens.specs.Letters.{is_letter, is_name_byte};
ghost use Rattle.iltokens.specs.WordSteps.{after_name, after_word};
ghost use Rattle.iltokens.specs.Views.{seen};

/// Whether a name may begin with `byte`.
pub(crate) fn is_letter(byte: u8) -> bool
    ensures { result ≡ is_letter byte }
{
    byte.is_ascii_alphabetic() || byte == b'_'
}

/// Whether a name may go on with `byte`.
pub(crate) fn is_name_byte(byte: u8) -> bool
    ensures { result ≡ is_name_byte byte }
{
    byte.is_ascii_alphanumeric() || byte == b'_'
}

/// What stands after the letters, digits and underscores at the front.
pub(crate) fn after_name(bytes: &[u8]) -> &[u8]
    ensures exact { result.now ≡ after_name bytes.now }
    ensures within { length result.now ≤ length bytes.now }
{
    let mut rest = bytes;
    'name: loop {
        match rest {
            [byte, after @ ..] if is_name_byte(*byte) => rest = after,
            _ => return rest,
        }
    }
}

/// What stands after `word`, which is in lower case, in any letter case.
pub(crate) fn after_word<'a>(word: &[u8], bytes: &'a [u8]) -> Option<&'a [u8]>
    ensures exact { seen result ≡ after_word word.now bytes.now }
    ensures within { IfSome result (λ rest. length rest.now ≤ length bytes.now) }
{
    let mut rest = bytes;
    for letter in word {
        match rest {
            [] => return None,
            [byte, after @ ..] => {
                if byte.to_ascii_lowercase() != *letter {
                    return None;
                }
                rest = after;
            }
        }
    }
    Some(rest)
}
