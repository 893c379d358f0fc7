//! What became of a frame, and of a transaction.
ghost use Rattle.std.specs.Prelude.{◌≡◌, ◌<◌, ◌↔◌, IsTrue};
ghost use Rattle.buslink.specs.Marks.{IsBroken, outcome_of, mark_of};

use daliframe::Frame;
use std::fmt;

/// What the bus answered to a frame.
#[derive(Clone, Copy, PartialEq, Eq)]
pub enum Reply {
    /// No backward frame: to a query, NO.
    Quiet,
    /// A backward frame of this byte.
    Answer(u8),
    /// Something that is no backward frame, as where two gear answer at once.
    Damaged,
    /// The frame was lost to a collision.
    Lost,
}

/// What became of a frame that was sent.
#[derive(Clone, Copy, Default, PartialEq, Eq)]
pub enum Mark {
    /// No backward frame came.
    #[default]
    Quiet,
    /// A backward frame of this byte came.
    Answer(u8),
    /// Something came that is no backward frame.
    Damaged,
    /// The frame was lost to a collision.
    Lost,
    /// The bus interface failed.
    Failed,
}

impl Mark {
    /// Whether the frame was lost or failed, which ends its attempt.
    pub fn is_broken(self) -> bool
        ensures { IsTrue result ↔ IsBroken self }
    {
        match self {
            Mark::Lost | Mark::Failed => true,
            Mark::Quiet | Mark::Answer(_) | Mark::Damaged => false,
        }
    }

    /// Whether another attempt follows one with this last mark, where the given number of retries
    /// are left (profile).
    pub fn is_retried(self, retries: u8) -> bool
        ensures { IsTrue result ↔ ((self ≡ Mark.Lost) × (0 < retries)) }
    {
        self == Mark::Lost && retries > 0
    }
}

impl fmt::Display for Reply {
    ghost use Rattle.std.specs.Prelude.{Some};
    ghost use Rattle.buslink.specs.Printed.{printed_reply};

    ghost output = { λ reply. Some (printed_reply reply) };

    fn fmt<W: fmt::Write>(&self, f: &mut fmt::Formatter<W>) -> fmt::Result {
        match self {
            Reply::Quiet => write!(f, "quiet"),
            Reply::Answer(byte) => write!(f, "answer {byte}"),
            Reply::Damaged => write!(f, "damaged"),
            Reply::Lost => write!(f, "lost"),
        }
    }
}

impl From<Reply> for Mark {
    ghost from_gives = { λ reply mark. mark ≡ mark_of reply };

    fn from(reply: Reply) -> Mark {
        match reply {
            Reply::Quiet => Mark::Quiet,
            Reply::Answer(byte) => Mark::Answer(byte),
            Reply::Damaged => Mark::Damaged,
            Reply::Lost => Mark::Lost,
        }
    }
}

/// A frame as it was sent.
#[derive(Clone, Copy, Default)]
pub struct Sent {
    pub frame: Frame,
    /// 1 to 5, of which 1 is the highest (IEC 62386-101, clause 9).
    pub priority: u8,
    /// What became of it.
    pub mark: Mark,
}

/// How a transaction ended.
#[derive(Clone, Copy, PartialEq, Eq)]
pub enum Outcome {
    /// All frames were sent; the reply is that to the last.
    Done(Reply),
    /// A frame was lost in each of the attempts that the bus is given.
    GaveUp,
    /// The bus interface failed.
    Failed,
}

impl Outcome {
    /// The outcome of a transaction whose last frame got this mark.
    pub(crate) fn of(last: Mark) -> Self
        ensures { result ≡ outcome_of last }
    {
        match last {
            Mark::Quiet => Outcome::Done(Reply::Quiet),
            Mark::Answer(byte) => Outcome::Done(Reply::Answer(byte)),
            Mark::Damaged => Outcome::Done(Reply::Damaged),
            Mark::Lost => Outcome::GaveUp,
            Mark::Failed => Outcome::Failed,
        }
    }
}

impl fmt::Display for Outcome {
    ghost use Rattle.std.specs.Prelude.{Some};
    ghost use Rattle.buslink.specs.Printed.{printed_outcome};

    ghost output = { λ outcome. Some (printed_outcome outcome) };

    fn fmt<W: fmt::Write>(&self, f: &mut fmt::Formatter<W>) -> fmt::Result {
        match self {
            Outcome::Done(reply) => write!(f, "{reply}"),
            Outcome::GaveUp => write!(f, "gave up"),
            Outcome::Failed => write!(f, "failed"),
        }
    }
}
