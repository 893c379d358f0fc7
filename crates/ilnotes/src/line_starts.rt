//! Where the lines of a text begin.

use ilsource::{LineColumn, Name};
use std::alloc::{AllocError, Global};

/// Where the lines of a text begin, found in one pass: so a text with many notes is not gone over
/// again for each.
#[derive(Drop)]
pub struct LineStarts {
    starts: Vec<usize>,
}

impl LineStarts {
    /// Those of a text.
    pub fn of(alloc: Global, text: &[u8]) -> Result<LineStarts, AllocError> {
        let mut starts = Vec::new(alloc);
        starts.push(0)?;
        for (at, byte) in text.iter().enumerate() {
            if *byte == b'\n' {
                starts.push(at.saturating_add(1))?;
            }
        }
        Ok(LineStarts { starts })
    }

    /// The place of a name.
    pub fn at(&self, name: Name) -> LineColumn {
        let line = match self.starts.binary_search(&name.from) {
            Ok(index) => index.saturating_add(1),
            Err(next) => next,
        };
        let start = self.start_of(line);
        LineColumn {
            line,
            col: name.from.saturating_sub(start).saturating_add(1),
        }
    }

    /// The place of the first byte of a line, counted from 1; 0 where there is no such line.
    pub fn start_of(&self, line: usize) -> usize {
        self.starts
            .get(line.saturating_sub(1))
            .copied()
            .unwrap_or(0)
    }
}
