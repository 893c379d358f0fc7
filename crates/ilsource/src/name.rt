//! Names as words of a text.

/// A word of a text: its bytes `from..to`, counted from 0.
#[derive(Clone, Copy, PartialEq, Eq)]
pub struct Name {
    /// The place of the first byte.
    pub from: usize,
    /// The place just past the last byte.
    pub to: usize,
}

impl Name {
    ghost use Rattle.std.specs.Prelude.{◌≡◌, ◌↔◌, IsTrue};
    ghost use Rattle.ilsource.specs.Names.{text_of, SameName};

    /// The bytes of the name in `text`, as they are written there; those that the text has, where
    /// it is too short.
    pub fn text(self, text: &[u8]) -> &[u8]
        ensures { result.now ≡ text_of text.now self }
    {
        let from = self.from.min(text.len());
        let (_, rest) = text.split_at(from);
        let len = self.to.saturating_sub(self.from).min(rest.len());
        let (word, _) = rest.split_at(len);
        word
    }

    /// Whether both names are spelled alike in `text`, without regard to letter case
    /// (IEC 61131-3, 2.1.2).
    pub fn is_same(self, other: Name, text: &[u8]) -> bool
        ensures { IsTrue result ↔ SameName text.now self other }
    {
        self.text(text).eq_ignore_ascii_case(other.text(text))
    }
}
