//! Pages.

use std::alloc::Global;
use std::io::{ErrorKind, Write};
use std::{fmt, io};

/// A text that is being printed, until the allocator is out of memory.
#[derive(Drop)]
pub struct Printout {
    alloc: Global,
    text: String,
    /// Whether something was left out, since the allocator was out of memory.
    is_cut: bool,
}

impl Printout {
    /// An empty page.
    pub fn new(alloc: Global) -> Printout {
        Printout {
            alloc,
            text: String::new(alloc),
            is_cut: false,
        }
    }

    /// Adds a text.
    pub fn text(&mut self, text: &str) {
        if !self.is_cut && self.text.push_str(text).is_err() {
            self.is_cut = true;
        }
    }

    /// Adds a character.
    pub fn letter(&mut self, letter: char) {
        if !self.is_cut && self.text.push(letter).is_err() {
            self.is_cut = true;
        }
    }

    /// Adds a text the given number of times.
    pub fn repeat(&mut self, text: &str, times: usize) {
        for _ in 0..times {
            self.text(text);
        }
    }

    /// Adds a number, in decimal digits.
    pub fn number(&mut self, number: i64) {
        match format!(in self.alloc; "{number}") {
            Ok(digits) => self.text(&digits),
            Err(_) => self.is_cut = true,
        }
    }

    /// Adds a count, in decimal digits.
    pub fn count(&mut self, count: usize) {
        match format!(in self.alloc; "{count}") {
            Ok(digits) => self.text(&digits),
            Err(_) => self.is_cut = true,
        }
    }

    /// Adds what is displayed so.
    pub fn shown<D: fmt::Display>(&mut self, shown: &D) {
        match format!(in self.alloc; "{shown}") {
            Ok(text) => self.text(&text),
            Err(_) => self.is_cut = true,
        }
    }

    /// Writes the page, where nothing was left out.
    ///
    /// # Errors
    ///
    /// The allocator was out of memory at some time: nothing is written. Or the writer's error.
    pub fn write_to<W: Write>(self, out: &mut W) -> io::Result<()> {
        if self.is_cut {
            return Err(io::Error::from(ErrorKind::OutOfMemory));
        }
        out.write_all(self.text.as_bytes())
    }
}
