//! Marks and counts at places.

/// Whether a place is marked.
pub fn is_marked(marks: &[bool], place: usize) -> bool {
    marks.get(place).copied().unwrap_or(false)
}

/// Marks a place.
pub fn mark(marks: &mut Vec<bool>, place: usize) {
    if let Some(is) = marks.get_mut(place) {
        *is = true;
    }
}

/// The count at a place.
pub fn count_at(counts: &[u32], place: usize) -> u32 {
    counts.get(place).copied().unwrap_or(0)
}

/// Adds to the count at a place.
pub fn add_at(counts: &mut Vec<u32>, place: usize, times: u32) {
    if let Some(count) = counts.get_mut(place) {
        *count = count.saturating_add(times);
    }
}
