//! Command lines of rows.

use std::alloc::{AllocError, Global};

/// The words of a command line, without the program's name.
#[derive(Drop)]
pub struct CommandLine {
    words: Vec<Vec<u8>>,
}

impl CommandLine {
    /// The words of a line, with one blank between two; none of an empty one.
    pub(crate) fn of(alloc: Global, line: &str) -> Result<CommandLine, AllocError> {
        let mut words = Vec::new(alloc);
        if !line.is_empty() {
            for word in line.split(' ') {
                words.push(bytes_of(alloc, word)?)?;
            }
        }
        Ok(CommandLine { words })
    }

    /// The words.
    pub(crate) fn words(&self) -> &[Vec<u8>] {
        &self.words
    }
}

/// The bytes of a word; `{255}` stands for a word that is not text.
fn bytes_of(alloc: Global, word: &str) -> Result<Vec<u8>, AllocError> {
    match word {
        "{255}" => Vec::from_slice(alloc, b"\xff"),
        _ => Vec::from_slice(alloc, word.as_bytes()),
    }
}
