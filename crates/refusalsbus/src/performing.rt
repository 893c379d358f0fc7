//! Transactions on buses of any kind, and buses that are taken up again.

ghost use Rattle.std.specs.Prelude.{◌≡◌, ◌+◌, ◌<◌, ◌≤◌, false, length, true};
ghost use Rattle.buslink.specs.BusLog.{one_more};
ghost use Rattle.buslink.specs.Attempts.{most_sent};

use buslink::{Bus, Outcome, Reply, Report, Transaction, perform};

/// `gave_up_before_the_last_attempt`: on a bus of two attempts a transaction gave up after one.
pub fn last_attempt_is_made<B: Bus>(bus: &mut B, transaction: &Transaction) -> Report
    requires { most_sent ≤ (B.log bus.old).spare }
    ensures { result.outcome ≡ Outcome.GaveUp → 1 < length result.attempts }
{
    perform(bus, transaction, 2)
}

/// `an_attempt_fewer`: on a bus of three attempts a report was made for two.
pub fn report_is_for_all_attempts<B: Bus>(bus: &mut B, transaction: &Transaction) -> u8
    requires { most_sent ≤ (B.log bus.old).spare }
    ensures { result ≡ 3 }
{
    perform(bus, transaction, 3).tries()
}

/// `one_frame_alone_is_sent_again`: a transaction of three frames was done with two frames on the
/// bus, the first one that was lost and the same one again.
pub fn whole_transaction_is_sent_again<B: Bus>(
    bus: &mut B,
    transaction: &Transaction,
    reply: Reply,
) -> Report
    requires room { most_sent ≤ (B.log bus.old).spare }
    requires frames { length transaction.now.frames ≡ 3 }
    ensures { result.outcome ≡ Outcome.Done reply
        → length (B.log bus.old).sent + 3 ≤ length (B.log bus.new).sent }
{
    perform(bus, transaction, 2)
}

/// `a_box_is_not_taken_up`: a bus, as one in a box is, was taken up, and stayed as it was.
pub fn taken_up_bus_is_asked_anew<B: Bus>(bus: &mut B)
    requires { (B.log bus.old).is_mended ≡ true }
    ensures asked { (B.log bus.new).is_mended ≡ false }
    ensures counted { (B.log bus.new).mends ≡ one_more (B.log bus.old).mends }
{
    bus.resume();
}
