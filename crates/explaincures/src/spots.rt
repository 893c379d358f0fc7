//! What stands at a place of a text.

ghost use Rattle.std.specs.Prelude.{◌≡◌};
ghost use Rattle.explaincures.specs.Trying.{part_of};

/// A place of a text, with what stands around it on its line.
#[derive(Clone, Copy)]
pub struct Spot<'a> {
    pub text: &'a [u8],
    /// The place, counted from 0.
    pub at: usize,
    /// Where its line begins.
    pub line_from: usize,
    /// Where its line ends, without the line end.
    pub line_to: usize,
}

impl<'a> Spot<'a> {
    /// The place of a text, or its end where the place is behind it.
    pub fn of(text: &'a [u8], at: usize) -> Spot<'a> {
        let at = at.min(text.len());
        Spot {
            text,
            at,
            line_from: up_to_last(part(text, 0, at), Sought::LineFeed),
            line_to: line_end(text, at),
        }
    }

    /// The bytes from one place up to another.
    pub fn part(&self, from: usize, to: usize) -> &'a [u8] {
        part(self.text, from, to)
    }

    /// The line, without its end.
    pub fn line(&self) -> &'a [u8] {
        self.part(self.line_from, self.line_to)
    }

    /// What stands on the line from the place on.
    pub fn rest(&self) -> &'a [u8] {
        self.part(self.at, self.line_to)
    }

    /// What stands on the line before the place.
    pub fn front(&self) -> &'a [u8] {
        self.part(self.line_from, self.at)
    }

    /// The word, number, address or sign at the place; nothing at the end of the line.
    pub fn token(&self) -> &'a [u8] {
        let rest = self.rest();
        part(rest, 0, token_len(rest).max(sign_len(rest)))
    }

    /// Where what is found ends.
    pub fn found_to(&self) -> usize {
        self.at.saturating_add(self.token().len())
    }

    /// Where the letters, digits, dots and signs of numbers begin and end that stand around the
    /// place.
    pub fn literal(&self) -> (usize, usize) {
        let from = up_to_last(self.front(), Sought::NoLiteral);
        let len = before_first(self.rest(), Sought::NoLiteral);
        (
            self.line_from.saturating_add(from),
            self.at.saturating_add(len),
        )
    }

    /// Where what stands between two places begins and ends, without the blanks around it.
    pub fn trimmed(&self, from: usize, to: usize) -> (usize, usize) {
        let bytes = self.part(from, to);
        let first = from.saturating_add(before_first(bytes, Sought::NoBlank));
        (first, from.saturating_add(content_len(bytes)).max(first))
    }

    /// Where the first word of the line stands.
    pub fn first_place(&self) -> (usize, usize) {
        let (from, to) = self.trimmed(self.line_from, self.line_to);
        (from, from.saturating_add(token_len(self.part(from, to))))
    }

    /// The first word of the line.
    pub fn first_word(&self) -> &'a [u8] {
        let (from, to) = self.first_place();
        self.part(from, to)
    }

    /// Where the next line ends that is not empty; the end of this one where there is none.
    pub fn next_line_to(&self) -> usize {
        let rest = self.part(self.line_to, self.text.len());
        let blanks = before_first(rest, Sought::Content);
        if blanks < rest.len() {
            line_end(self.text, self.line_to.saturating_add(blanks))
        } else {
            self.line_to
        }
    }

    /// Whether nothing but blanks stands before the place on its line.
    pub fn is_first(&self) -> bool {
        content_len(self.front()) == 0
    }
}

/// What is looked for among bytes.
#[derive(Clone, Copy)]
pub(crate) enum Sought {
    LineFeed,
    /// What may not stand in a number, a time or an address.
    NoLiteral,
    NoBlank,
    /// What is neither a blank nor the end of a line.
    Content,
}

impl Sought {
    /// Whether a byte is looked for.
    fn is_met(self, byte: u8) -> bool {
        match self {
            Sought::LineFeed => byte == b'\n',
            Sought::NoLiteral => !is_word(byte) && !matches!(byte, b'#' | b'.' | b'%'),
            Sought::NoBlank => !matches!(byte, b' ' | b'\t'),
            Sought::Content => !matches!(byte, b' ' | b'\t' | b'\n' | b'\r'),
        }
    }
}

/// How many bytes stand before the first one that is looked for; all where there is none.
pub(crate) fn before_first(bytes: &[u8], sought: Sought) -> usize {
    for (index, byte) in bytes.iter().enumerate() {
        if sought.is_met(*byte) {
            return index;
        }
    }
    bytes.len()
}

/// How many bytes there are up to the last one that is looked for; none where there is none.
fn up_to_last(bytes: &[u8], sought: Sought) -> usize {
    match bytes.iter().rposition(|byte| sought.is_met(*byte)) {
        Some(place) => place.saturating_add(1),
        None => 0,
    }
}

/// How many bytes there are up to the last one that is no blank.
pub fn content_len(bytes: &[u8]) -> usize {
    up_to_last(bytes, Sought::NoBlank)
}

/// The bytes from one place up to another; fewer where there are fewer.
pub fn part(bytes: &[u8], from: usize, to: usize) -> &[u8]
    ensures value { result.now ≡ part_of bytes.now from to }
{
    let (front, _) = bytes.split_at(to.min(bytes.len()));
    let (_, found) = front.split_at(from.min(front.len()));
    found
}

/// Where the line of a place ends, without its line end.
fn line_end(text: &[u8], at: usize) -> usize {
    let rest = part(text, at, text.len());
    let len = before_first(rest, Sought::LineFeed);
    match part(rest, 0, len) {
        [content @ .., b'\r'] => at.saturating_add(content.len()),
        _ => at.saturating_add(len),
    }
}

/// How many bytes a sign has that stands first.
fn sign_len(bytes: &[u8]) -> usize {
    match bytes {
        [b':' | b'<' | b'>', b'=', ..] => 2,
        [b'.', b'.', ..] | [b'/', b'/', ..] | [b'(', b'*', ..] | [b'<', b'>', ..] => 2,
        _ => 1,
    }
}

/// How many bytes a word, a number or an address has that stands first. A dot is one of a number or
/// an address, where no other stands beside it.
fn token_len(bytes: &[u8]) -> usize {
    let has_head = matches!(bytes, [b'%', ..] | [b'+' | b'-', b'0'..=b'9', ..]);
    let mut is_dotted = has_head || matches!(bytes, [b'0'..=b'9', ..]);
    let mut before = b'.';
    for (index, byte) in bytes.iter().enumerate() {
        let is_kept = match byte {
            b'.' => {
                let next = bytes.get(index.saturating_add(1));
                is_dotted && before != b'.' && !matches!(next, Some(b'.'))
            }
            b'#' => index > 0,
            _ => is_word(*byte) || index == 0 && has_head,
        };
        if !is_kept {
            return index;
        }
        is_dotted = is_dotted || *byte == b'#';
        before = *byte;
    }
    bytes.len()
}

/// Whether a byte may stand in a name.
fn is_word(byte: u8) -> bool {
    byte.is_ascii_alphanumeric() || byte == b'_'
}

/// Where something stands in a text, counted from 0, of which the line and the column count from 1.
pub fn place_of(bytes: &[u8], line: usize, col: usize) -> usize {
    let before = col.saturating_sub(1);
    let mut number: usize = 1;
    for (index, byte) in bytes.iter().enumerate() {
        if number >= line {
            return index.saturating_add(before);
        }
        if *byte == b'\n' {
            number = number.saturating_add(1);
        }
    }
    bytes.len().saturating_add(before)
}
