//! How transactions ended, in words.

use buslink::{Mark, Report, Sent};
use std::fmt;

/// How a transaction ended, and how many of its frames were lost, where some were: `quiet`, `answer
/// 200`, `damaged, lost 1`, `gave up, lost 3`, `failed`.
#[derive(Clone, Copy)]
pub struct OutcomeWords<'a>(pub &'a Report);

impl fmt::Display for OutcomeWords<'_> {
    fn fmt<W: fmt::Write>(&self, f: &mut fmt::Formatter<W>) -> fmt::Result {
        let outcome = self.0.outcome();
        match lost_in(self.0.attempts()) {
            0 => write!(f, "{outcome}"),
            lost => write!(f, "{outcome}, lost {lost}"),
        }
    }
}

/// How many of these frames were lost to a collision.
fn lost_in(sent: &[Sent]) -> usize {
    sent.iter().filter(|sent| sent.mark == Mark::Lost).count()
}
