//! What was printed, as text and line by line.

use std::alloc::{AllocError, Global};

/// Bytes as text.
pub(crate) fn text_of(bytes: &[u8]) -> &str {
    match str::from_utf8(bytes) {
        Ok(text) => text,
        Err(_) => "bytes that are no text",
    }
}

/// Bytes without their digits.
pub(crate) fn without_digits(alloc: Global, bytes: &[u8]) -> Result<Vec<u8>, AllocError> {
    let mut others = Vec::new(alloc);
    for byte in bytes {
        if !byte.is_ascii_digit() {
            others.push(*byte)?;
        }
    }
    Ok(others)
}

/// Whether each line of `wanted` is a line of `printed`.
pub(crate) fn each_line_stands(wanted: &[u8], printed: &[u8]) -> bool {
    wanted.split(|byte| *byte == b'\n').all(|line| printed
        .split(|byte| *byte == b'\n')
        .any(|it| it == line))
}

/// Whether each line of `wanted` stands somewhere in `text`.
pub(crate) fn each_line_is_part(wanted: &[u8], text: &str) -> bool {
    wanted
        .split(|byte| *byte == b'\n')
        .all(|line| match str::from_utf8(line) {
            Ok(line) => text.contains(line),
            Err(_) => false,
        })
}
