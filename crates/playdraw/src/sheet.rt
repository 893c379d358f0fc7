//! Where things stand on the sheet of an SVG, in pixels.

use crate::kinds::Block;
use crate::parts::Kind;

/// Left and right of all, and below.
pub(crate) const EDGE: usize = 16;
/// Where the first heading begins, below the picture's name.
pub(crate) const TOP: usize = 32;
/// The height of a heading.
pub(crate) const HEADING: usize = 26;
/// The height of the moments.
pub(crate) const MOMENTS: usize = 34;
/// The height of the signs that are explained, and of a note.
pub(crate) const NOTE: usize = 20;
/// The width of a letter of a place, and of a note, at most.
pub(crate) const LETTER: usize = 6;

/// Where a row stands.
#[derive(Clone, Copy)]
pub(crate) struct Base {
    /// How high it is.
    pub height: usize,
    /// Where its marks stand.
    pub y: usize,
    /// Where its name stands.
    pub name: usize,
    /// How high the greatest level is drawn over its marks.
    light: usize,
}

impl Base {
    /// Where a row of a kind stands that begins at `top`, low where rows are many.
    pub fn of(kind: Kind, is_low: bool, top: usize) -> Base {
        let (height, below, name, light) = match (kind, is_low) {
            (Kind::Level, false) => (56, 50, 0, 34),
            (Kind::Level, true) => (34, 28, 0, 20),
            (Kind::Source, false) => (28, 14, 4, 34),
            (Kind::Source, true) => (22, 11, 4, 20),
            (Kind::Task, false) => (20, 10, 4, 34),
            (Kind::Task, true) => (16, 8, 4, 20),
            (Kind::Variable, false) => (28, 22, 0, 13),
            (Kind::Variable, true) => (22, 16, 0, 13),
            (Kind::Bus, false) => (28, 22, 0, 34),
            (Kind::Bus, true) => (22, 16, 0, 20),
        };
        let y = top.saturating_add(below);
        Base {
            height,
            y,
            name: y.saturating_add(name),
            light,
        }
    }

    /// Where a level is drawn over its marks.
    pub fn height_of(self, level: u8) -> usize {
        let up = usize::from(level).saturating_mul(self.light) / 254;
        self.y.saturating_sub(up)
    }
}

/// Places the rows of each kind on a sheet: low ones where more than 24 are drawn. Where they end.
pub(crate) fn place_blocks(blocks: &mut [Block]) -> usize {
    let mut rows: usize = 0;
    for block in blocks.iter() {
        rows = rows.saturating_add(block.drawn);
    }
    let mut bottom = TOP;
    for block in blocks.iter_mut() {
        block.top = bottom.saturating_add(HEADING);
        block.is_low = rows > 24;
        let Base { height, .. } = Base::of(block.kind, block.is_low, block.top);
        let drawn = block.drawn.saturating_mul(height);
        block.end = block.top.saturating_add(drawn);
        let folded = block.folded.len().saturating_mul(NOTE);
        bottom = block.end.saturating_add(folded);
    }
    bottom
}
