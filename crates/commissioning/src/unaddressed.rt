//! Whether there is control gear without a short address.

ghost use Rattle.std.specs.Prelude.{◌≡◌, ◌<◌, IfErr, IfOk};
ghost use Rattle.buslink.specs.PerformingSteps.{IsSent as IsFrameSent};
ghost use Rattle.commissioning.specs.Unaddressed.{IsMissingAnswered, IsMissingUnanswered};
ghost use Rattle.commissioning.specs.Unaddressed.{missing_frame};
ghost use Rattle.commissioning.specs.UnaddressedSteps.{EndsAs, IsTriedAlone};

use crate::asking::AskFault;
use buslink::{Bus, Fault, MOST_SENT, Mark, Outcome, Reply};
use daliframe::{Address, Frame, Frame16};
use limits::USUAL_TRIES;

/// QUERY MISSING SHORT ADDRESS (IEC 62386-102, clause 11).
const QUERY_MISSING_SHORT_ADDRESS: u8 = 0x96;

/// The priority of a query.
const QUERY_PRIORITY: u8 = 5;

/// Asks all control gear of a bus by one frame whether some has no short address, in as many
/// attempts as a bus has where nothing is said; how it ended. Gear with an address is silent, and
/// several without one are damage. The outcome is not `Failed`.
///
/// # Errors
///
/// The bus has no room for the frames, and nothing was sent; or the interface failed.
pub fn ask_unaddressed<B: Bus>(bus: &mut B) -> Result<Outcome, AskFault>
    ensures asked { IfOk result
        (λ outcome. IsMissingAnswered outcome (B.log bus.old) (B.log bus.new)) }
    ensures fault { IfErr result
        (λ fault. IsMissingUnanswered fault (B.log bus.old) (B.log bus.new)) }
{
    bus.room(MOST_SENT)?;
    let last = try_query(bus, USUAL_TRIES - 1);
    ending_of(last)
}

/// Sends the query, and again after each loss while retries are left; the last mark.
fn try_query<B: Bus>(bus: &mut B, retries: u8) -> Mark
    requires { retries < (B.log bus.old).spare }
    ensures { IsTriedAlone retries result (B.log bus.old) (B.log bus.new) }
{
    let mark = send_query(bus);
    if mark.is_retried(retries) {
        return try_query(bus, retries - 1);
    }
    mark
}

/// Sends the query, and gives what became of it.
fn send_query<B: Bus>(bus: &mut B) -> Mark
    requires { 0 < (B.log bus.old).spare }
    ensures { IsFrameSent missing_frame 5 result (B.log bus.old) (B.log bus.new) }
{
    let query = Frame16::command(Address::Broadcast, QUERY_MISSING_SHORT_ADDRESS);
    match bus.send(Frame::Forward16(query), QUERY_PRIORITY) {
        Ok(reply) => Mark::from(reply),
        Err(Fault) => Mark::Failed,
    }
}

/// How a transaction ended whose last frame got this mark.
fn ending_of(last: Mark) -> Result<Outcome, AskFault>
    ensures { EndsAs last result }
{
    match last {
        Mark::Quiet => Ok(Outcome::Done(Reply::Quiet)),
        Mark::Answer(byte) => Ok(Outcome::Done(Reply::Answer(byte))),
        Mark::Damaged => Ok(Outcome::Done(Reply::Damaged)),
        Mark::Lost => Ok(Outcome::GaveUp),
        Mark::Failed => Err(AskFault::Failed),
    }
}
