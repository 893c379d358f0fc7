//! Texts of JSON.

use std::fmt;

/// A text as JSON has it: between quotes, with what may not stand there escaped.
#[derive(Clone, Copy)]
pub struct Quoted<'a>(pub &'a str);

impl fmt::Display for Quoted<'_> {
    fn fmt<W: fmt::Write>(&self, f: &mut fmt::Formatter<W>) -> fmt::Result {
        f.write_str("\"")?;
        for letter in self.0.chars() {
            match letter {
                '"' => f.write_str("\\\"")?,
                '\\' => f.write_str("\\\\")?,
                letter if letter < ' ' => {
                    let code = u32::from(letter);
                    write!(f, "\\u{code:04x}")?;
                }
                letter => f.write_char(letter)?,
            }
        }
        f.write_str("\"")
    }
}
