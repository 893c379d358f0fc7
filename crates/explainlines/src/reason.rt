//! Why a line is bad, and the texts that say it.

use crate::forms::Form;
use explaincures::{part, shown_text};
use std::alloc::{AllocError, Global};
use wordlines::number_of;

/// Why a line is bad: two texts, and what fills their slots.
#[derive(Clone, Copy)]
pub(crate) struct Reason {
    /// What is wrong, and what helps. `{word}` stands for what is found, `{name}` and `{list}` for
    /// what is wanted, `{words}` for the first words of lines, and a digit for one of the numbers.
    pub what: &'static str,
    pub cure: &'static str,
    /// From where to where the line is bad, counted from 0.
    pub from: usize,
    pub to: usize,
    pub name: &'static str,
    pub list: &'static str,
    pub numbers: [u64; 4],
    pub meant: Meant,
}

/// How a line is meant.
#[derive(Clone, Copy)]
pub(crate) enum Meant {
    InSmallLetters,
    /// With one blank between two words.
    Spaced,
    /// With this text in place of what is bad.
    With(&'static str),
    /// The same for example: something else may be meant.
    Perhaps(&'static str),
    /// With the hexadecimal digits behind it in one word, for example.
    Digits,
}

impl Reason {
    /// Two texts without slots, of the whole line.
    pub(crate) fn of(what: &'static str, cure: &'static str) -> Reason {
        Reason {
            what,
            cure,
            from: 0,
            to: 0,
            name: "",
            list: "",
            numbers: [0; 4],
            meant: Meant::InSmallLetters,
        }
    }

    /// The same, of a part of the line.
    pub(crate) fn at(self, from: usize, to: usize) -> Reason {
        Reason { from, to, ..self }
    }

    /// The same, with these numbers.
    pub(crate) fn with(self, numbers: [u64; 4]) -> Reason {
        Reason { numbers, ..self }
    }

    /// The same, where the line is meant so.
    pub(crate) fn meaning(self, meant: Meant) -> Reason {
        Reason { meant, ..self }
    }

    /// A text with its slots filled.
    pub(crate) fn filled(
        &self,
        alloc: Global,
        text: &str,
        line: &[u8],
        forms: &[Form],
    ) -> Result<String, AllocError> {
        let mut filled = String::new(alloc);
        for (index, piece) in text.split(['{', '}']).enumerate() {
            if index % 2 == 0 {
                filled.push_str(piece)?;
            } else {
                filled.push_str(&self.shown(alloc, piece, line, forms)?)?;
            }
        }
        Ok(filled)
    }

    /// What fills a slot.
    fn shown(
        &self,
        alloc: Global,
        slot: &str,
        line: &[u8],
        forms: &[Form],
    ) -> Result<String, AllocError> {
        match slot {
            "word" => shown_text(alloc, part(line, self.from, self.to)),
            "words" => first_words(alloc, forms),
            "name" => String::from_str(alloc, self.name),
            "list" => String::from_str(alloc, self.list),
            _ => {
                let digit = number_of(slot.as_bytes(), 3).unwrap_or(0);
                let number = self.numbers.get(digit as usize).unwrap_or(&0);
                format!(in alloc; "{number}")
            }
        }
    }

    /// The line as it is meant.
    pub(crate) fn meant_line(&self, alloc: Global, line: &[u8]) -> Result<Vec<u8>, AllocError> {
        match self.meant {
            Meant::InSmallLetters => line.to_ascii_lowercase(alloc),
            Meant::Spaced => spaced(alloc, line),
            Meant::With(text) | Meant::Perhaps(text) => {
                let with = self.filled(alloc, text, line, &[])?;
                replaced(alloc, line, self.from, self.to, with.as_bytes())
            }
            Meant::Digits => {
                let mut digits = Vec::new(alloc);
                for byte in part(line, self.from, line.len()) {
                    match byte {
                        b'x' | b'X' | b'#' => digits.clear(), // as of `0x048402`, `16#048402`
                        _ if byte.is_ascii_hexdigit() => digits.push(*byte)?,
                        _ => {}
                    }
                }
                replaced(alloc, line, self.from, line.len(), &digits)
            }
        }
    }
}

/// The words with which lines begin, six on the first line.
fn first_words(alloc: Global, forms: &[Form]) -> Result<String, AllocError> {
    let mut words = String::new(alloc);
    for (index, form) in forms.iter().enumerate() {
        words.push_str(match index {
            0 => "",
            6 => ",\n",
            _ => ", ",
        })?;
        words.push_str(form.word)?;
    }
    Ok(words)
}

/// The words of a line with one blank between two.
fn spaced(alloc: Global, line: &[u8]) -> Result<Vec<u8>, AllocError> {
    let mut all = Vec::new(alloc);
    for word in line.split(|byte| *byte == b' ' || *byte == b'\t') {
        if !word.is_empty() {
            all.extend_from_slice(if all.is_empty() { b"" } else { b" " })?;
            all.extend_from_slice(word)?;
        }
    }
    Ok(all)
}

/// The bytes with others in place of those from one place up to another.
fn replaced(
    alloc: Global,
    bytes: &[u8],
    from: usize,
    to: usize,
    with: &[u8],
) -> Result<Vec<u8>, AllocError> {
    let mut all = Vec::from_slice(alloc, part(bytes, 0, from))?;
    all.extend_from_slice(with)?;
    all.extend_from_slice(part(bytes, to, bytes.len()))?;
    Ok(all)
}
