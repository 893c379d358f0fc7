//! What bytes have: digits, one of some bytes, and two next to one another. They are loops, since
//! a loop takes the check a fraction of what a closure takes.

/// How many digits stand first.
pub fn digits_len(bytes: &[u8]) -> usize {
    for (index, byte) in bytes.iter().enumerate() {
        if !byte.is_ascii_digit() {
            return index;
        }
    }
    bytes.len()
}

/// Whether there are digits alone.
pub fn is_digits(bytes: &[u8]) -> bool {
    digits_len(bytes) == bytes.len()
}

/// How many digits there are.
pub fn count_of_digits(bytes: &[u8]) -> usize {
    let mut count = 0_usize;
    for byte in bytes {
        if byte.is_ascii_digit() {
            count = count.saturating_add(1);
        }
    }
    count
}

/// Where one of some bytes stands first.
pub fn place_of_any(bytes: &[u8], sought: &[u8]) -> Option<usize> {
    for (index, byte) in bytes.iter().enumerate() {
        if sought.contains(byte) {
            return Some(index);
        }
    }
    None
}

/// Where two bytes stand first next to one another.
pub fn place_of_pair(bytes: &[u8], sought: &[u8; 2]) -> Option<usize> {
    for (index, pair) in bytes.windows(2).enumerate() {
        if pair == sought.as_slice() {
            return Some(index);
        }
    }
    None
}

/// The byte at a place; 0 where there is none.
pub(crate) fn byte_at(bytes: &[u8], place: usize) -> u8 {
    match bytes.get(place) {
        Some(byte) => *byte,
        None => 0,
    }
}

/// The last byte; 0 where there is none.
pub(crate) fn last_of(bytes: &[u8]) -> u8 {
    match bytes.last() {
        Some(byte) => *byte,
        None => 0,
    }
}

/// What stands behind a name in a table, if the name is there.
pub(crate) fn named<T: Copy>(table: &[(&str, T)], name: &[u8]) -> Option<T> {
    for (one, what) in table {
        if one.as_bytes() == name {
            return Some(*what);
        }
    }
    None
}

/// Names in a table, with what each stands for.
macro_rules! names {
    ($of:ident: $($name:literal $what:ident $(($($with:literal)+))?),+) => {
        &[$(($name, $of::$what $(($($with),+))?)),+]
    };
}

pub(crate) use names;
