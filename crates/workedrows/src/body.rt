//! The body of a part of a row: lines, some of them repeated.

ghost use Rattle.std.specs.Prelude.{◌<◌};

use std::alloc::{AllocError, Global};

/// The bytes that the lines of a part spell so far.
#[derive(Drop)]
pub struct Body {
    bytes: Vec<u8>,
    /// How many empty lines came last: they count only where another line follows.
    blanks: usize,
}

impl Body {
    /// The body of no line.
    pub fn new(alloc: Global) -> Self {
        Body {
            bytes: Vec::new(alloc),
            blanks: 0,
        }
    }

    pub fn is_empty(&self) -> bool {
        self.bytes.is_empty()
    }

    /// Adds a line with its end.
    pub fn add_line(&mut self, line: &str) -> Result<(), AllocError> {
        if line.is_empty() {
            self.blanks = self.blanks.saturating_add(1);
            return Ok(());
        }
        self.keep_blanks()?;
        self.bytes.extend_from_slice(line.as_bytes())?;
        self.bytes.push(b'\n')?;
        Ok(())
    }

    /// Adds the empty lines that came last.
    fn keep_blanks(&mut self) -> Result<(), AllocError> {
        for _ in 0..self.blanks {
            self.bytes.push(b'\n')?;
        }
        self.blanks = 0;
        Ok(())
    }

    /// Adds the given number of lines of a pattern.
    pub fn add_times(&mut self, many: u32, pattern: &str) -> Result<(), AllocError> {
        self.keep_blanks()?;
        for number in 0..many {
            self.add_numbered(pattern, number)?;
            self.bytes.push(b'\n')?;
        }
        Ok(())
    }

    /// Adds a pattern, with its number for `{}`, the next one for `{1}` and a line's end for `{/}`.
    fn add_numbered(&mut self, pattern: &str, number: u32) -> Result<(), AllocError> {
        let mut is_first = true;
        for piece in pattern.split('{') {
            if is_first {
                self.bytes.extend_from_slice(piece.as_bytes())?;
                is_first = false;
            } else {
                self.add_piece(piece, number)?;
            }
        }
        Ok(())
    }

    /// Adds what stands behind a `{`.
    fn add_piece(&mut self, piece: &str, number: u32) -> Result<(), AllocError> {
        let rest = match piece.split_once('}') {
            Some(("", after)) => {
                self.add_number(number)?;
                after
            }
            Some(("1", after)) => {
                self.add_number(number.saturating_add(1))?;
                after
            }
            Some(("/", after)) => {
                self.bytes.push(b'\n')?;
                after
            }
            _ => {
                self.bytes.push(b'{')?;
                piece
            }
        };
        self.bytes.extend_from_slice(rest.as_bytes())
    }

    fn add_number(&mut self, number: u32) -> Result<(), AllocError> {
        let alloc = *self.bytes.allocator();
        let digits = format!(in alloc; "{number}")?;
        self.bytes.extend_from_slice(digits.as_bytes())
    }

    /// The bytes, without the empty lines that came last.
    pub fn into_bytes(self) -> Vec<u8> {
        let Body { bytes, blanks: _ } = self;
        bytes
    }
}

/// The bytes that hex digits spell, where they spell some; blanks and line ends are skipped.
pub fn bytes_of_hex(alloc: Global, digits: &[u8]) -> Result<Option<Vec<u8>>, AllocError> {
    let mut bytes = Vec::new(alloc);
    let mut high = None;
    for digit in digits {
        if *digit == b' ' || *digit == b'\n' {
            continue;
        }
        let Some(value) = value_of_hex(*digit) else {
            return Ok(None);
        };
        match high {
            None => high = Some(value),
            Some(first) => {
                bytes.push((first << 4) | value)?;
                high = None;
            }
        }
    }
    Ok(if high.is_none() { Some(bytes) } else { None })
}

/// The hex digits of bytes.
pub fn hex_of_bytes(alloc: Global, bytes: &[u8]) -> Result<String, AllocError> {
    let mut digits = String::new(alloc);
    for byte in bytes {
        digits.push(hex_digit(*byte >> 4))?;
        digits.push(hex_digit(*byte & 15))?;
    }
    Ok(digits)
}

/// The hex digit of a value.
fn hex_digit(value: u8) -> char
    requires { value < 16 }
{
    match value {
        0..=9 => char::from(b'0' + value),
        _ => char::from(b'a' + value - 10),
    }
}

/// The value of a hex digit.
fn value_of_hex(digit: u8) -> Option<u8> {
    match digit {
        b'0'..=b'9' => Some(digit - b'0'),
        b'a'..=b'f' => Some(digit - b'a' + 10),
        b'A'..=b'F' => Some(digit - b'A' + 10),
        _ => None,
    }
}
