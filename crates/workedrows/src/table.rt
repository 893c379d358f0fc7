//! Tables of a page that say what `check` prints of a text with another line in it.

use std::alloc::{AllocError, Global};

/// A table below a paragraph that names a text, and maybe a binding.
#[derive(Drop)]
pub struct LineTable {
    text: String,
    /// The words of the command line.
    words: String,
    /// The number of the line that is another one, where it is the same in each row.
    number: Option<u32>,
}

/// A text with another line in it, and what `check` prints of it.
#[derive(Drop)]
pub struct ChangedLine {
    /// The number of the page's line.
    pub line: u32,
    /// The text as the page has it.
    pub text: String,
    /// The words of the command line; in it the text is called as [`CHANGED`].
    pub words: String,
    /// The number of the text's line, from 1 on, that is another one.
    pub number: u32,
    pub place: String,
    pub shown: String,
}

/// What a text is called that has another line in it.
pub const CHANGED: &str = "changed.il";

impl LineTable {
    /// The table that a line heads, below a paragraph.
    ///
    /// # Errors
    ///
    /// Memory was refused.
    pub fn of(
        alloc: Global,
        paragraph: &str,
        heading: &str,
    ) -> Result<Option<LineTable>, AllocError> {
        let (Some(number), Some(text)) = (number_of(heading), named(paragraph, &[".il"])) else {
            return Ok(None);
        };
        let words = match named(paragraph, &[".bind"]) {
            Some(binding) => format!(in alloc; "check {CHANGED} --bind {binding}")?,
            None => format!(in alloc; "check {CHANGED}")?,
        };
        Ok(Some(LineTable {
            text: String::from_str(alloc, text)?,
            words,
            number,
        }))
    }

    /// What a row of the table says, at this line of the page.
    ///
    /// # Errors
    ///
    /// Memory was refused.
    pub fn row(
        &self,
        alloc: Global,
        line: u32,
        row: &str,
    ) -> Result<Option<ChangedLine>, AllocError> {
        let Some((number, cells)) = self.numbered(row) else {
            return Ok(None);
        };
        let Some((place, shown)) = two_cells(cells) else {
            return Ok(None);
        };
        Ok(Some(ChangedLine {
            line,
            text: self.text.clone()?,
            words: self.words.clone()?,
            number,
            place: String::from_str(alloc, place)?,
            shown: String::from_str(alloc, shown)?,
        }))
    }

    /// The number of the line that a row is about, and the row's other cells.
    fn numbered<'a>(&self, row: &'a str) -> Option<(u32, &'a str)> {
        let cells = row.strip_prefix("| ")?;
        match self.number {
            Some(number) => Some((number, cells)),
            None => {
                let (number, cells) = cells.split_once(" | ")?;
                Some((number.parse::<u32>().ok()?, cells))
            }
        }
    }
}

/// Which line is another one, by the heading of a table: `None` where each row says it.
fn number_of(heading: &str) -> Option<Option<u32>> {
    if heading.starts_with("| line | in its place | prints |") {
        return Some(None);
    }
    let (number, rest) = heading.strip_prefix("| line ")?.split_once(' ')?;
    if rest.starts_with("| prints |") {
        Some(Some(number.parse::<u32>().ok()?))
    } else {
        None
    }
}

/// What the first two cells have in backquotes.
fn two_cells(cells: &str) -> Option<(&str, &str)> {
    let (place, rest) = cells.strip_prefix("`")?.split_once("` | `")?;
    let (shown, _) = rest.split_once('`')?;
    Some((place, shown))
}

/// The last word in backquotes, with one of these endings, of a paragraph that ends with a colon.
pub(crate) fn named<'a>(paragraph: &'a str, endings: &[&str]) -> Option<&'a str> {
    let sentence = paragraph.trim_end().strip_suffix(":")?;
    let mut name = None;
    for (number, word) in sentence.split('`').enumerate() {
        if number % 2 == 1 && is_name(word, endings) {
            name = Some(word);
        }
    }
    name
}

/// Whether a word is a file's name with one of these endings.
fn is_name(word: &str, endings: &[&str]) -> bool {
    !word.contains(' ') && endings.iter().any(|ending| word.ends_with(*ending))
}
