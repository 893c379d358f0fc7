//! Bytes that are cut at a mark.

ghost use Rattle.std.specs.Prelude.{◌≡◌, ◌<◌, ◌==◌, ◌∷◌, ℕ, List, length, position, MatchOption};
ghost use Rattle.std.specs.Option.{option_copied};
ghost use Rattle.std.specs.List.{slice_split};
ghost use Rattle.wordlines.specs.WordLines.{parts_of, AreAroundDot};

/// The two parts of a word in which exactly one dot stands.
pub fn parts_around_dot(word: &[u8]) -> Option<(&[u8], &[u8])>
    ensures { MatchOption result ((front back : List ℕ) → ¬ AreAroundDot word.now front back)
        (λ parts. AreAroundDot word.now parts.0.now parts.1.now) }
{
    let (front, rest) = cut_at(word, b'.');
    let (back, more) = cut_at(rest?, b'.');
    match more {
        None => Some((front, back)),
        Some(_) => None,
    }
}

/// The bytes before the first `mark`, and those after it where it stands there.
pub(crate) fn cut_at(bytes: &[u8], mark: u8) -> (&[u8], Option<&[u8]>)
    ensures parts { slice_split (λ byte. byte == mark) bytes.now ≡ result.0.now ∷ parts_of mark
        (option_copied result.1) }
    ensures shorter { MatchOption result.1 (result.0.now ≡ bytes.now)
        (λ after. length after.now < length bytes.now) }
{
    match place_of(bytes, mark) {
        None => (bytes, None),
        Some(end) => {
            let (front, rest) = bytes.split_at(end);
            let (_, after) = rest.split_at(1);
            (front, Some(after))
        }
    }
}

/// The place of the first `mark`.
fn place_of(bytes: &[u8], mark: u8) -> Option<usize>
    ensures { result ≡ position (λ byte. byte == mark) bytes.now }
{
    bytes.iter().position(|byte| *byte == mark)
}
