//! The axis of a picture: where its columns stand, in pixels or in letters.

use crate::moment::Moment;
use crate::parts::{Column, Picture};
use crate::timeline::true_axis;
use std::alloc::{AllocError, Global};

/// From one column to the next, at least, where each column has the same width, in pixels.
pub(crate) const LEAST_STEP: usize = 30;

/// Where columns of a picture stand, and its moments.
#[derive(Drop)]
pub(crate) struct Axis {
    /// The number of the first column.
    pub first: usize,
    /// Where the first column begins.
    pub left: usize,
    /// Where the last column ends.
    pub right: usize,
    /// Where each column begins, and where its marks stand.
    pub places: Vec<(usize, usize)>,
    /// The moments that are written below, and where.
    pub labels: Vec<(usize, Moment)>,
    /// Where the times begin that are left out.
    pub breaks: Vec<usize>,
    /// Whether each column has the same width, at which all that is written has room.
    pub is_even: bool,
}

impl Axis {
    /// An axis on which no column stands yet.
    pub fn new(alloc: Global, left: usize, right: usize, is_even: bool) -> Axis {
        Axis {
            first: 0,
            left,
            right,
            places: Vec::new(alloc),
            labels: Vec::new(alloc),
            breaks: Vec::new(alloc),
            is_even,
        }
    }

    /// Where a column begins, and where its marks stand.
    pub fn place(&self, column: usize) -> (usize, usize) {
        let place = self.places.get(column.saturating_sub(self.first));
        place.copied().unwrap_or((self.right, self.right))
    }
}

/// The axis on which each of these columns has this width, and its marks stand so far in it.
pub(crate) fn even_axis(
    alloc: Global,
    columns: &[Column],
    left: usize,
    step: usize,
    inset: usize,
) -> Result<Axis, AllocError> {
    let mut axis = Axis::new(alloc, left, left, true);
    for column in columns {
        let x = axis.right.saturating_add(inset);
        axis.places.push((axis.right, x))?;
        if let Some(moment) = column.moment {
            axis.labels.push((x, moment))?;
        }
        axis.right = axis.right.saturating_add(step);
    }
    Ok(axis)
}

/// Places the columns of a picture between two places, in pixels. Where they have room there beside
/// each other, each has the same width; else the axis is true to time. Then a moment, and what was
/// heard, is one column with all that follows from it, and columns that fall together are one.
pub(crate) fn place_columns(
    alloc: Global,
    picture: &mut Picture,
    left: usize,
    end: usize,
) -> Result<Axis, AllocError> {
    let columns = picture.columns.len();
    if columns.saturating_mul(LEAST_STEP) > end.saturating_sub(left) {
        return true_axis(alloc, picture, left, end);
    }
    let step = 784_usize.saturating_sub(left) / columns.max(1);
    let step = step.max(LEAST_STEP).min(60);
    let mut axis = even_axis(alloc, &picture.columns, left, step, step / 2)?;
    axis.right = axis.right.max(left.saturating_add(step));
    Ok(axis)
}
