//! A play in brief: moments at which nothing happens are left out.

use std::alloc::Global;
use std::io;
use std::io::Write;

/// A writer that passes on of a play the moments at which something was heard, handed or changed,
/// or went wrong. A moment is a line `tick N` with the lines up to the next one; a quiet one has
/// beside it only lines on scans that were taken and committed.
#[derive(Drop)]
pub(crate) struct Brief<'w, W> {
    to: &'w mut W,
    /// The line so far.
    line: Vec<u8>,
    /// The lines of the moment so far, as long as it is quiet.
    moment: Vec<u8>,
    /// Whether the moment is quiet so far.
    is_quiet: bool,
}

impl<'w, W: Write> Brief<'w, W> {
    /// One that has written nothing.
    pub(crate) fn new(alloc: Global, to: &'w mut W) -> Self {
        Brief {
            to,
            line: Vec::new(alloc),
            moment: Vec::new(alloc),
            is_quiet: false,
        }
    }

    /// Takes a whole line.
    fn take_line(&mut self) -> io::Result<()> {
        if self.line.starts_with(b"tick ") {
            self.moment.clear();
            self.is_quiet = true;
        }
        if has_value(&self.line) {
            self.moment.clear();
            self.is_quiet = false;
        }
        if self.is_quiet && is_quiet(&self.line) {
            self.moment.extend_from_slice(&self.line)?;
        } else {
            self.is_quiet = false;
            self.to.write_all(&self.moment)?;
            self.moment.clear();
            self.to.write_all(&self.line)?;
        }
        self.line.clear();
        Ok(())
    }
}

/// Whether nothing happens by a line.
fn is_quiet(line: &[u8]) -> bool {
    line.starts_with(b"tick ") || line.starts_with(b"take ") || line.starts_with(b"commit ")
}

/// Whether a line has the value of a variable at the end of the play.
fn has_value(line: &[u8]) -> bool {
    match str::from_utf8(line) {
        Ok(text) => !text.starts_with(' ') && text.contains(" = "),
        Err(_) => false,
    }
}

impl<W: Write> Write for Brief<'_, W> {
    fn write(&mut self, bytes: &[u8]) -> io::Result<usize> {
        for byte in bytes {
            self.line.push(*byte)?;
            if *byte == b'\n' {
                self.take_line()?;
            }
        }
        Ok(bytes.len())
    }

    fn flush(&mut self) -> io::Result<()> {
        self.to.flush()
    }
}
