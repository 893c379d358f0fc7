//! Reports: what became of a transaction, attempt by attempt.
ghost use Rattle.std.specs.Prelude.{◌≡◌, ◌+◌, ◌*◌, ◌<◌, ◌≤◌, ◌++◌, length, MatchOption};
ghost use Rattle.arrayvec.specs.ArrayVec.{array_vec_len};
ghost use Rattle.gearcmd.specs.FrameLists.{most_frames};
ghost use Rattle.limits.specs.Limits.{AreTries};
ghost use Rattle.buslink.specs.Attempts.{sent_with, most_sent};
ghost use Rattle.buslink.specs.Attempts.{ReportParts, Spells, SpellsNone, IsReportParts};
ghost use Rattle.buslink.specs.ReadingSteps.{EndsAt, HasNoAttempt, IsRead, ReadsNone};

use crate::{Mark, Outcome, Sent, Transaction};
use arrayvec::ArrayVec;
use daliframe::Frame;
use gearcmd::MOST_FRAMES;
use limits::MOST_TRIES;
use std::alloc::AllocError;
use std::marker::Model;

/// The most frames that are sent for a transaction, in all of its attempts, on any bus.
pub const MOST_SENT: usize = MOST_TRIES as usize * MOST_FRAMES;

/// What became of a transaction: its attempts, one after another, and how it ended.
#[derive(Drop)]
pub struct Report {
    transaction: Transaction,
    tries: u8,
    attempts: ArrayVec<Sent, MOST_SENT>,
    outcome: Outcome,
}

impl Model for Report {
    ghost use Rattle.buslink.specs.Attempts.{ReportParts, IsReportParts};

    ghost Value = { ReportParts };

    ghost view = { λ r. record {
      transaction = r.transaction;
      tries = r.tries;
      attempts = r.attempts.items;
      outcome = r.outcome;
    } };

    ghost invariant = { λ r. IsReportParts (record {
      transaction = r.transaction;
      tries = r.tries;
      attempts = r.attempts.items;
      outcome = r.outcome;
    }) };

    ghost inverse = { λ r. record {
      transaction = r.transaction;
      tries = r.tries;
      attempts = record { items = r.attempts };
      outcome = r.outcome;
    } };
}

/// It takes no memory, and never fails.
impl Clone for Report {
    ghost use Rattle.std.specs.Prelude.{⊤, ◌≡◌};

    ghost is_clone = { λ report copy. copy ≡ report };

    ghost is_infallible = { λ _. ⊤ };

    fn clone(&self) -> Result<Self, AllocError> {
        let mut attempts = ArrayVec::new();
        attempts
            .try_extend_from_slice(self.attempts.as_slice())
            .unwrap();
        Ok(Report {
            transaction: self.transaction.copied(),
            tries: self.tries,
            attempts,
            outcome: self.outcome,
        })
    }
}

impl Report {
    /// The report of a transaction whose frames got these marks, in order, on a bus that has
    /// `tries` attempts, 1 to 5, where the marks spell one.
    pub fn of(transaction: &Transaction, tries: u8, marks: &[Mark]) -> Option<Self>
        requires { AreTries tries }
        ensures report { MatchOption result (SpellsNone transaction.now tries marks.now)
            (λ r. Spells transaction.now tries marks.now r) }

        // Marks spell one report at most.
        ensures one { (a b : ReportParts)
            → Spells transaction.now tries marks.now a → Spells transaction.now tries marks.now b
            → a ≡ b }
    {
        let mut attempts = ArrayVec::new();
        let last = read_attempts(transaction, tries - 1, marks, &mut attempts)?;
        Some(Report {
            transaction: transaction.copied(),
            tries,
            attempts,
            outcome: Outcome::of(last),
        })
    }

    /// The transaction.
    pub fn transaction(&self) -> &Transaction
        ensures value { result.now ≡ self.now.transaction }
        ensures legal { IsReportParts self.now }
    {
        &self.transaction
    }

    /// The number of attempts of the bus that it was made for, 1 to 5.
    pub fn tries(&self) -> u8
        ensures value { result ≡ self.now.tries }
        ensures legal { IsReportParts self.now }
    {
        self.tries
    }

    /// The frames of all attempts, as they were sent.
    pub fn attempts(&self) -> &[Sent]
        ensures value { result.now ≡ self.now.attempts }
        ensures legal { IsReportParts self.now }
    {
        self.attempts.as_slice()
    }

    /// How the transaction ended.
    pub fn outcome(&self) -> Outcome
        ensures value { result ≡ self.now.outcome }
        ensures legal { IsReportParts self.now }
    {
        self.outcome
    }
}

/// Reads the marks as attempts, which go behind those of `sent`, and gives the last mark.
fn read_attempts(
    transaction: &Transaction,
    retries: u8,
    marks: &[Mark],
    sent: &mut ArrayVec<Sent, MOST_SENT>,
) -> Option<Mark>
    requires { array_vec_len sent.old + most_frames * (retries + 1) ≤ most_sent }
    ensures { MatchOption result (ReadsNone transaction.now retries marks.now)
        (λ last. IsRead transaction.now retries marks.now sent.old.items sent.new.items last) }
{
    let frames = transaction.frames();
    let end = attempt_end(frames.len(), marks)?;
    let (attempt, rest) = marks.split_at(end + 1);
    push_attempt(frames, transaction.first_priority(), attempt, sent);
    if marks[end].is_retried(retries) {
        return read_attempts(transaction, retries - 1, rest, sent);
    }
    if rest.is_empty() {
        Some(marks[end])
    } else {
        None
    }
}

/// Where the attempt at `count` frames ends with which the marks begin.
fn attempt_end(count: usize, marks: &[Mark]) -> Option<usize>
    requires { 0 < count }
    ensures { MatchOption result (HasNoAttempt count marks.now)
        (λ end. EndsAt count marks.now end) }
{
    for (i, mark) in marks.iter().enumerate() {
        if mark.is_broken() || i + 1 == count {
            return Some(i);
        }
    }
    None
}

/// Appends the front of `frames` that has these marks: its first frame with this priority, each
/// later one with 1.
fn push_attempt(
    frames: &[Frame],
    first_priority: u8,
    marks: &[Mark],
    sent: &mut ArrayVec<Sent, MOST_SENT>,
)
    requires front { length marks.now ≤ length frames.now }
    requires room { array_vec_len sent.old + length marks.now ≤ most_sent }
    ensures { sent.new.items ≡ sent.old.items ++ sent_with frames.now first_priority marks.now }
{
    let mut priority = first_priority;
    for (i, mark) in marks.iter().enumerate() {
        let frame = frames[i];
        sent.push(Sent {
            frame,
            priority,
            mark: *mark,
        });
        priority = 1;
    }
}
