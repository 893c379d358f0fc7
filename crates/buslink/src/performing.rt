//! Transactions on a bus.
ghost use Rattle.std.specs.Prelude.{◌≡◌, ◌+◌, ◌*◌, ◌<◌, ◌≤◌, length, All};
ghost use Rattle.arrayvec.specs.ArrayVec.{array_vec_len};
ghost use Rattle.gearcmd.specs.FrameLists.{most_frames};
ghost use Rattle.limits.specs.Limits.{AreTries};
ghost use Rattle.buslink.specs.Attempts.{IsReportParts, most_sent};
ghost use Rattle.buslink.specs.BusLog.{one_more};
ghost use Rattle.buslink.specs.Performing.{after_report};
ghost use Rattle.buslink.specs.PerformingSteps.{IsSent, IsTriedOnce, IsTried};

use crate::marks::Mark;
use crate::reports::{MOST_SENT, Report};
use crate::transactions::Transaction;
use crate::{Bus, Fault};
use arrayvec::ArrayVec;
use daliframe::Frame;

/// Sends the frames of a transaction, and all of them again where one is lost, in at most `tries`
/// attempts, 1 to 5. A fault of the bus interface ends it at once, with the outcome `Failed`. The
/// bus has room for the frames of the most attempts that a bus may be given, which
/// `bus.room(MOST_SENT)` makes.
pub fn perform<B: Bus>(bus: &mut B, transaction: &Transaction, tries: u8) -> Report
    requires tries { AreTries tries }
    requires room { most_sent ≤ (B.log bus.old).spare }
    ensures report { (result.transaction ≡ transaction.now) × IsReportParts result }
    ensures tries { result.tries ≡ tries }
    ensures bus { B.log bus.new ≡ after_report result (B.log bus.new).spare (B.log bus.old) }

    // No spare place is lost: the frames that were sent take one each at most.
    ensures spare_kept { (B.log bus.old).spare
        ≤ (B.log bus.new).spare + length result.attempts }
    ensures failed { All
        (λ frame. frame.mark ≡ Mark.Failed
        → (B.log bus.new).failures ≡ one_more (B.log bus.old).failures)
        result.attempts }
{
    let mut marks = ArrayVec::new();
    try_again(bus, transaction, tries - 1, &mut marks);
    let Some(report) = Report::of(transaction, tries, marks.as_slice()) else {
        unreachable!()
    };
    report
}

/// Tries the transaction, and again after each loss while retries are left. The marks go behind
/// those of `marks`.
fn try_again<B: Bus>(
    bus: &mut B,
    transaction: &Transaction,
    retries: u8,
    marks: &mut ArrayVec<Mark, MOST_SENT>,
)
    requires spare { most_frames * (retries + 1) ≤ (B.log bus.old).spare }
    requires room { array_vec_len marks.old + most_frames * (retries + 1) ≤ most_sent }
    ensures { IsTried transaction.now retries marks.old.items marks.new.items
        (B.log bus.old) (B.log bus.new) }
{
    let last = try_once(
        bus,
        transaction.frames(),
        transaction.first_priority(),
        marks,
    );
    if last.is_retried(retries) {
        try_again(bus, transaction, retries - 1, marks);
    }
}

/// Sends the frames, up to one that is lost or fails, and gives the last mark. The first has this
/// priority, each later one 1.
fn try_once<B: Bus>(
    bus: &mut B,
    frames: &[Frame],
    priority: u8,
    marks: &mut ArrayVec<Mark, MOST_SENT>,
) -> Mark
    requires some { 0 < length frames.now }
    requires spare { length frames.now ≤ (B.log bus.old).spare }
    requires room { array_vec_len marks.old + length frames.now ≤ most_sent }
    ensures { IsTriedOnce frames.now priority marks.old.items marks.new.items
        (B.log bus.old) (B.log bus.new) result }
{
    let mark = send(bus, frames[0], priority);
    marks.push(mark);
    let rest = &frames[1..];
    if mark.is_broken() || rest.is_empty() {
        return mark;
    }
    try_once(bus, rest, 1, marks)
}

/// Sends a frame and gives what became of it.
fn send<B: Bus>(bus: &mut B, frame: Frame, priority: u8) -> Mark
    requires { 0 < (B.log bus.old).spare }
    ensures { IsSent frame priority result (B.log bus.old) (B.log bus.new) }
{
    match bus.send(frame, priority) {
        Ok(reply) => Mark::from(reply),
        Err(Fault) => Mark::Failed,
    }
}
