//! An axis that is true to time: how its room is shared out, and the moments below it.
//!
//! Places are in thousandths of a pixel, and times in milliseconds.

use crate::axis::Axis;
use crate::moment::Moment;
use crate::parts::{Column, Picture};
use std::alloc::{AllocError, Global};

/// What a time gets that is left out.
const BREAK: usize = 36_000;
/// The least width of a column: those that begin closer to each other are one.
const LEAST_WIDTH: usize = 3_000;

/// From one round moment to the next: the next distance where one is too small. Behind them it is
/// twice the one before.
const DISTANCES: [u64; 20] = [
    10, 100, 500, 1_000, 2_000, 5_000, 10_000, 15_000, 30_000, 60_000, 120_000, 300_000, 600_000,
    900_000, 1_800_000, 3_600_000, 7_200_000, 10_800_000, 21_600_000, 43_200_000,
];

/// Moments, and where they are written.
type Labels = Vec<(usize, Moment)>;

/// A column by its moment.
#[derive(Clone, Copy)]
struct Stop {
    /// Before the first moment the first one.
    moment: u64,
    /// The time from this moment to that of the next column.
    gap: u64,
    /// Where it begins.
    start: usize,
}

/// Places the columns of a picture between two places, in pixels.
pub(crate) fn true_axis(
    alloc: Global,
    picture: &mut Picture,
    left: usize,
    end: usize,
) -> Result<Axis, AllocError> {
    let mut begins = Vec::new(alloc);
    for column in picture.columns.iter() {
        begins.push(Some(!column.follows))?;
    }
    picture.regroup(alloc, &begins)?;
    let mut stops = stops_of(alloc, &picture.columns)?;
    let scale = Scale::of(&stops, end.saturating_sub(left).saturating_mul(1000));
    let mut axis = Axis::new(alloc, left, end, false);
    let begins = place_stops(alloc, &mut stops, &scale, &mut axis)?;
    add_labels(&mut axis.labels, &stops, &scale)?;
    picture.regroup(alloc, &begins)?;
    Ok(axis)
}

/// The columns by their moments, not placed yet.
fn stops_of(alloc: Global, columns: &[Column]) -> Result<Vec<Stop>, AllocError> {
    let mut stops: Vec<Stop> = Vec::new(alloc);
    let mut moment = match columns.iter().find_map(|column| column.moment) {
        Some(first) => first.milliseconds,
        None => 0,
    };
    for column in columns {
        if let (Some(next), Some(last)) = (column.moment, stops.last_mut()) {
            moment = next.milliseconds;
            last.gap = moment.saturating_sub(last.moment);
        }
        stops.push(Stop {
            moment,
            gap: 0,
            start: 0,
        })?;
    }
    Ok(stops)
}

/// How room is shared out between columns and time.
#[derive(Clone, Copy)]
struct Scale {
    /// What each column gets.
    column: usize,
    /// A longer gap is left out.
    longest: u64,
    /// What time gets in all.
    room: usize,
    /// How much time that is, in units.
    time: u64,
    /// A unit, so that products of times and rooms are small.
    unit: u64,
}

impl Scale {
    /// The scale at which these columns fill a room. A gap of more than an eighth of the time is
    /// left out. Where no time is left, each column gets all that it may; else a third of its
    /// share, where that is enough for a sign; else an eighth, and the axis is the truer to time.
    fn of(stops: &[Stop], room: usize) -> Scale {
        let (whole, _) = time_of(stops, u64::MAX);
        let longest = whole / 8;
        let (time, breaks) = time_of(stops, longest);
        let room = room.saturating_sub(breaks.saturating_mul(BREAK));
        let unit = (time / 1_000_000_000_000).saturating_add(1);
        let share = room.checked_div(stops.len()).unwrap_or(0);
        let column = if time == 0 {
            share.min(30_000)
        } else if share / 3 >= 8_000 {
            (share / 3).min(30_000)
        } else {
            share / 8
        };
        Scale {
            column,
            longest,
            room: room.saturating_sub(stops.len().saturating_mul(column)),
            time: time.checked_div(unit).unwrap_or(0),
            unit,
        }
    }

    /// What a time gets that is not left out.
    fn width_of(&self, time: u64) -> usize {
        let units = time.checked_div(self.unit).unwrap_or(0) as usize;
        let width = units.saturating_mul(self.room);
        width.checked_div(self.time as usize).unwrap_or(0)
    }
}

/// The time of the gaps that are this long at most, and how many are longer.
fn time_of(stops: &[Stop], longest: u64) -> (u64, usize) {
    let mut time: u64 = 0;
    let mut longer: usize = 0;
    for stop in stops {
        if stop.gap <= longest {
            time = time.saturating_add(stop.gap);
        } else {
            longer = longer.saturating_add(1);
        }
    }
    (time, longer)
}

/// Places columns one behind the other, each with the time behind it, and those as one that begin
/// close to each other. Which begin a column.
fn place_stops(
    alloc: Global,
    stops: &mut [Stop],
    scale: &Scale,
    axis: &mut Axis,
) -> Result<Vec<Option<bool>>, AllocError> {
    let mut begins = Vec::new(alloc);
    let mut start = axis.left.saturating_mul(1000);
    let mut left: usize = 0;
    for stop in stops {
        stop.start = start;
        let is_new = axis.places.is_empty() || start.saturating_sub(left) >= LEAST_WIDTH;
        if is_new {
            left = start;
            let middle = start.saturating_add(LEAST_WIDTH / 2) / 1000;
            axis.places.push((start / 1000, middle))?;
        }
        begins.push(Some(is_new))?;
        start = start.saturating_add(scale.column);
        if stop.gap > scale.longest {
            axis.breaks.push(start / 1000)?;
            start = start.saturating_add(BREAK);
        } else {
            start = start.saturating_add(scale.width_of(stop.gap));
        }
    }
    Ok(begins)
}

/// Adds the moments below these columns: the first one, the first behind each time that is left
/// out, and round ones.
fn add_labels(labels: &mut Labels, stops: &[Stop], scale: &Scale) -> Result<(), AllocError> {
    let distance = distance_of(scale);
    let mut before = None;
    for stop in stops {
        let moment = stop.moment;
        let is_round = moment.checked_next_multiple_of(distance) == Some(moment);
        if before.is_none() || (before != Some(moment) && is_round) {
            add_label(labels, stop.start, moment)?;
        }
        before = None;
        if stop.gap <= scale.longest {
            before = Some(moment);
            add_round(labels, stop, scale, distance)?;
        }
    }
    Ok(())
}

/// The least distance of round moments that has room.
fn distance_of(scale: &Scale) -> u64 {
    let mut distance: u64 = 1;
    for next in 0..61 {
        if scale.width_of(distance) < 55_000 {
            let twice = distance.saturating_mul(2);
            distance = DISTANCES.get(next).copied().unwrap_or(twice);
        }
    }
    distance
}

/// Adds the round moments between a column and the next one, at a distance from each other, and not
/// more than 100, so that there is an end.
fn add_round(
    labels: &mut Labels,
    stop: &Stop,
    scale: &Scale,
    distance: u64,
) -> Result<(), AllocError> {
    let end = stop.start.saturating_add(scale.column);
    let mut moment = stop.moment;
    for _ in 0..100 {
        let next = moment.saturating_add(1).checked_next_multiple_of(distance);
        moment = next.unwrap_or(u64::MAX);
        let after = moment.saturating_sub(stop.moment);
        if after >= stop.gap {
            break;
        }
        add_label(labels, end.saturating_add(scale.width_of(after)), moment)?;
    }
    Ok(())
}

/// Adds a moment below a place.
fn add_label(labels: &mut Labels, x: usize, milliseconds: u64) -> Result<(), AllocError> {
    labels.push((x.saturating_add(500) / 1000, Moment { milliseconds }))?;
    Ok(())
}
