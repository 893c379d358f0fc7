//! A text in which lines that were tried stand in place of those at fault.

use explaincures::{AskedText, TriedLines, line_number};
use std::alloc::{AllocError, Global};

/// A text with some of its lines changed.
#[derive(Drop)]
pub(crate) struct CuredText {
    bytes: Vec<u8>,
    /// For each line its number in the asked text, from 1; 0 for one that was changed.
    numbers: Vec<usize>,
}

impl CuredText {
    /// An asked text, so far without a change.
    pub(crate) fn of(alloc: Global, text: &[u8]) -> Result<CuredText, AllocError> {
        let lines = line_number(text, text.len());
        Ok(CuredText {
            numbers: (1..lines.saturating_add(1)).collect(alloc)?,
            bytes: Vec::from_slice(alloc, text)?,
        })
    }

    /// The same with these lines in their place.
    pub(crate) fn with(self, alloc: Global, tried: &TriedLines) -> Result<CuredText, AllocError> {
        let mut cured = CuredText {
            bytes: Vec::new(alloc),
            numbers: Vec::new(alloc),
        };
        let lines = self.bytes.split(|byte| *byte == b'\n');
        for (index, (line, number)) in lines.zip(self.numbers.iter()).enumerate() {
            let place = index.saturating_add(1);
            if place == tried.first {
                for line in tried.with.split('\n') {
                    cured.push_line(line.as_bytes(), 0)?;
                }
            }
            if place < tried.first || place > tried.last {
                cured.push_line(line, *number)?;
            }
        }
        Ok(cured)
    }

    /// Adds a line that has this number in the asked text.
    fn push_line(&mut self, line: &[u8], number: usize) -> Result<(), AllocError> {
        if !self.numbers.is_empty() {
            self.bytes.push(b'\n')?;
        }
        self.bytes.extend_from_slice(line)?;
        self.numbers.push(number)?;
        Ok(())
    }

    /// What is asked of it, as of the text that it was made of.
    pub(crate) fn asked<'c>(&'c self, asked: &AskedText<'c>) -> AskedText<'c> {
        AskedText {
            text: &self.bytes,
            ..*asked
        }
    }

    /// The number of a line in the asked text, where it stands there as it stands here.
    pub(crate) fn number(&self, line: usize) -> Option<usize> {
        let number = *self.numbers.get(line.saturating_sub(1))?;
        if number > 0 { Some(number) } else { None }
    }
}
