//! The marks of a row where they stand on an axis.

use crate::axis::Axis;
use crate::parts::{Row, RowMark, Sign};
use crate::signs::lasting;
use std::alloc::{AllocError, Global};

/// What is marked of a row from one place to another.
#[derive(Clone, Copy)]
pub(crate) struct Mark {
    /// What happened, or what lasts from before; nothing where nothing is known of it yet.
    pub sign: Option<Sign>,
    /// Where the mark stands.
    pub x: usize,
    /// Where the next mark stands, or the axis ends.
    pub next: usize,
    /// Whether it happened here, and does not last from before the axis.
    pub is_new: bool,
}

/// The marks of a row on an axis, and before them what lasts when the axis begins. Where there is no
/// column, those of a first one stand at the end.
pub(crate) fn marks_of(alloc: Global, row: &Row, axis: &Axis) -> Result<Vec<Mark>, AllocError> {
    let (before, since) = row.split(axis.first);
    let end = axis.first.saturating_add(axis.places.len().max(1));
    let mut marks = Vec::new(alloc);
    let mut last = Mark {
        sign: lasting(before),
        x: axis.left,
        next: axis.right,
        is_new: false,
    };
    for RowMark { column, sign } in since {
        if *column >= end {
            break;
        }
        let (_, x) = axis.place(*column);
        marks.push(Mark { next: x, ..last })?;
        last = Mark {
            sign: Some(*sign),
            x,
            next: axis.right,
            is_new: true,
        };
    }
    marks.push(last)?;
    Ok(marks)
}
