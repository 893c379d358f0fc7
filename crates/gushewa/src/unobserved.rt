//! Controllers that nobody observes.

use plantdriving::{Happened, Observer};
use std::io;

/// Hears of each event, and does nothing.
#[derive(Clone, Copy)]
pub struct Unobserved;

impl<B> Observer<B> for Unobserved {
    fn note(&mut self, _place: u64, _happened: Happened) -> io::Result<()> {
        Ok(())
    }
}
