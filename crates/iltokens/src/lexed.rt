//! Kinds of tokens, and faults.

ghost use Rattle.std.specs.Prelude.{◌≡◌};
ghost use Rattle.iltokens.specs.Faults.{lexical_fault_number};

use crate::keyword::Keyword;

/// The location and size prefix of a direct address (IEC 61131-3, 2.4.1.1).
#[derive(Clone, Copy, PartialEq, Eq)]
pub enum AddressKind {
    /// `%QB`
    OutputByte,
    /// `%IW`
    InputWord,
    /// `%IX`
    InputBit,
}

/// A delimiter (IEC 61131-3, annex C), an operator of special characters, or the end of a line.
#[derive(Clone, Copy, PartialEq, Eq)]
pub enum Delimiter {
    Comma,
    Colon,
    Semicolon,
    /// `:=`
    Assign,
    /// `.`
    Dot,
    /// `..`
    Range,
    Open,
    Close,
    /// `&`
    Ampersand,
    /// `&N`
    AmpersandNot,
    /// LF or CR LF.
    LineEnd,
}

/// What a token is.
#[derive(Clone, Copy, PartialEq, Eq)]
pub enum What {
    Keyword(Keyword),
    /// A word that is not reserved: a letter or underscore, then letters, digits and underscores.
    Name,
    /// A number with its sign, decimal or of base 2, 8 or 16.
    Number(i64),
    /// A duration `T#..` or `TIME#..`, in milliseconds.
    Time(u32),
    /// A direct address `%QB bus.place`, without blanks. Both numbers are below 2^63.
    Address {
        kind: AddressKind,
        bus: u64,
        place: u64,
    },
    Delimiter(Delimiter),
}

/// Why no token stands somewhere.
#[derive(Clone, Copy, PartialEq, Eq)]
pub enum LexicalCause {
    /// A byte of 80 hex or more outside comments.
    NotAscii,
    /// A byte that begins no token.
    BadToken,
    /// A number or time outside its limit.
    BadNumber,
    /// A comment without end.
    CommentOpen,
}

impl LexicalCause {
    /// The number by which the fault is printed.
    pub fn number(self) -> u8
        ensures { result ≡ lexical_fault_number self }
    {
        match self {
            LexicalCause::NotAscii => 2,
            LexicalCause::BadToken => 3,
            LexicalCause::BadNumber => 5,
            LexicalCause::CommentOpen => 8,
        }
    }
}

/// What stands next in a text; places count its bytes from 0.
#[derive(Clone, Copy, PartialEq, Eq)]
pub enum Lexed {
    /// A token of the bytes `from..to`.
    Token { what: What, from: usize, to: usize },
    /// Nothing but blanks and comments.
    End,
    /// A fault at this byte.
    Fault { cause: LexicalCause, at: usize },
}
