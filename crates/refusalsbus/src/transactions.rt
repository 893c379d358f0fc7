//! Transactions and what became of them.

ghost use Rattle.std.specs.Prelude.{◌≡◌, true};

use buslink::{MOST_SENT, Mark, Outcome, Report, Transaction};

/// `lost_last_frame_is_done`: a transaction whose last frame was lost was done.
pub fn lost_last_frame_gives_up(transaction: &Transaction) -> Outcome
    ensures { result ≡ Outcome.GaveUp }
{
    match Report::of(transaction, 1, &[Mark::Lost]) {
        Some(report) => report.outcome(),
        None => Outcome::GaveUp,
    }
}

/// `gave_up_before_the_last_attempt`: a lost frame gave up while attempts were left.
pub fn lost_frame_is_tried_again(transaction: &Transaction) -> bool
    ensures { result ≡ true }
{
    match Report::of(transaction, 3, &[Mark::Lost]) {
        Some(_) => false,
        None => true,
    }
}

/// `three_attempts_everywhere`: a bus of one attempt had three.
pub fn one_attempt_is_one(transaction: &Transaction) -> bool
    ensures { result ≡ true }
{
    match Report::of(transaction, 1, &[Mark::Lost, Mark::Lost, Mark::Lost]) {
        Some(_) => false,
        None => true,
    }
}

/// `room_for_the_usual_attempts`: a report had room for three attempts of three frames.
pub fn room_for_the_most_attempts() -> usize
    ensures { result ≡ 15 }
{
    MOST_SENT
}
