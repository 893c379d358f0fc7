//! Where words stand in a text, one after another.

use explaincures::Spot;
use iltokens::{Delimiter, Keyword, Lexed, What, token};

/// A token of the bytes `from..to` of a text.
#[derive(Clone, Copy)]
pub(crate) struct Token {
    pub what: What,
    pub from: usize,
    pub to: usize,
}

/// What a name or an address is where it stands.
#[derive(Clone, Copy)]
pub(crate) enum Role {
    /// It is declared.
    Given,
    Label,
    /// It stands alone on its line.
    Alone,
    /// An instruction stores to it.
    Stored,
}

/// The next token from a place on, if there is one.
pub(crate) fn token_at(text: &[u8], at: usize) -> Option<Token> {
    if at > text.len() {
        return None;
    }
    match token(text, at) {
        Lexed::Token { what, from, to } => Some(Token { what, from, to }),
        _ => None,
    }
}

/// What the next token from a place on is.
pub(crate) fn what_at(text: &[u8], at: usize) -> Option<What> {
    Some(token_at(text, at)?.what)
}

/// The name or the address that was found, where it stands next with a role.
pub(crate) fn next_same(spot: &Spot, start: usize, role: Role) -> Option<Token> {
    let mut before: Option<What> = None;
    let mut at = start;
    for _ in 0..spot.text.len() {
        let found = token_at(spot.text, at)?;
        at = found.to;
        let is_same = match found.what {
            What::Name => spot
                .part(found.from, found.to)
                .eq_ignore_ascii_case(spot.token()),
            What::Address { .. } => what_at(spot.text, spot.at) == Some(found.what),
            _ => false,
        };
        if is_same && has_role(role, before, what_at(spot.text, at)) {
            return Some(found);
        }
        before = Some(found.what);
    }
    None
}

/// Whether what stands between these two tokens has a role.
fn has_role(role: Role, before: Option<What>, behind: Option<What>) -> bool {
    let word = match before {
        Some(What::Keyword(word)) => Some(word),
        _ => None,
    };
    match role {
        Role::Label => behind == Some(What::Delimiter(Delimiter::Colon)),
        Role::Alone => before == behind && behind == Some(What::Delimiter(Delimiter::LineEnd)),
        Role::Stored => matches!(
            word,
            Some(Keyword::St | Keyword::Stn | Keyword::S | Keyword::R)
        ),
        Role::Given => {
            matches!(
                behind,
                Some(What::Delimiter(Delimiter::Colon | Delimiter::Comma | Delimiter::Assign))
                    | Some(What::Keyword(Keyword::At | Keyword::With))
            ) || matches!(
                word,
                Some(Keyword::Program | Keyword::Function | Keyword::Task | Keyword::At)
            )
        }
    }
}

/// Where the type stands that is declared behind a place: between the colon and what ends it.
pub(crate) fn type_behind(text: &[u8], place: usize) -> (usize, usize) {
    let (mut from, mut last, mut at) = (None, place, place);
    let mut is_behind = false;
    for _ in 0..text.len() {
        let Some(found) = token_at(text, at) else {
            break;
        };
        at = found.to;
        match found.what {
            What::Delimiter(Delimiter::Colon) if !is_behind => is_behind = true,
            What::Delimiter(Delimiter::Semicolon | Delimiter::Assign) if is_behind => break,
            _ => last = found.to,
        }
        if is_behind && found.what != What::Delimiter(Delimiter::Colon) {
            from = from.or(Some(found.from));
        }
    }
    (from.unwrap_or(last), last)
}
