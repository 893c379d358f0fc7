//! Buses behind a line that is opened anew.

ghost use Rattle.std.specs.Prelude.{◌≡◌, ◌≢◌, ◌+◌, ◌<◌, IfOk, IfSome, None, OnOk, Some, false, true};

use buslink::{Bus, Fault, Reply};
use daliframe::{BusNumber, Frame, Frame24};
use liveline::{LineStarter, MendedLine, Teller};
use std::alloc::{AllocError, Global};
use std::io::Write;
use std::sync::Wait;
use std::time::Clock;

/// `frames_count_from_the_start`: a frame was counted though the building's end was not asked for.
pub fn frame_before_the_end_is_not_counted<
    R: Wait + Clock + Drop,
    W: Write + Drop,
    T: Teller,
    O: Drop,
>(line: &mut MendedLine<R, W, T, O>) -> Result<Option<Frame24>, Fault>
    requires spare { 0 < line.old.log.spare }
    requires asked { ¬ T.answers line.old.set.teller true }
    ensures { line.new.heard_last ≡ line.old.heard_last }
{
    line.hear()
}

/// `no_frame_counts`: a frame that was heard after the building's end was asked for was not
/// counted.
pub fn frame_after_the_end_is_counted<R: Wait + Clock + Drop, W: Write + Drop, T: Teller, O: Drop>(
    line: &mut MendedLine<R, W, T, O>,
) -> Result<Option<Frame24>, Fault>
    requires spare { 0 < line.old.log.spare }
    requires asked { ¬ T.answers line.old.set.teller false }
    ensures { IfOk result (λ heard. IfSome heard
        (λ frame. line.new.heard_last ≡ line.old.heard_last + 1)) }
{
    line.hear()
}

/// `the_patience_is_doubled`: an interface that was to have 300 milliseconds for an answer had 600.
pub fn patience_is_the_given_one<
    R: Wait + Clock + Clone + Drop,
    W: Write + Drop,
    T: Teller,
    O: Drop,
>(
    alloc: Global,
    rt: R,
    opener: O,
    teller: T,
    number: BusNumber,
    starter: &LineStarter<R, W, O>,
) -> Result<MendedLine<R, W, T, O>, AllocError>
    ensures { IfOk result (λ line. line.set.patience ≡ 300) }
{
    MendedLine::start(alloc, rt, opener, teller, number, 300, starter)
}

/// `each_frame_has_the_whole_time`: the time of a transaction began anew with a later frame.
pub fn time_goes_on_with_a_later_frame<R: Wait + Clock + Drop, W: Write + Drop, T: Teller, O: Drop>(
    line: &mut MendedLine<R, W, T, O>,
    frame: Frame,
) -> Result<Reply, Fault>
    requires spare { 0 < line.old.log.spare }
    requires begun { line.old.began ≡ Some 7 }
    ensures { line.new.began ≡ Some 7 }
{
    line.send(frame, 1)
}

/// `the_time_never_begins`: a frame was asked for and answered, and no time had begun.
pub fn time_begins_with_the_first_frame<
    R: Wait + Clock + Drop,
    W: Write + Drop,
    T: Teller,
    O: Drop,
>(line: &mut MendedLine<R, W, T, O>, frame: Frame) -> Result<Reply, Fault>
    requires { 0 < line.old.log.spare }
    ensures { OnOk result (line.new.began ≢ None) }
{
    line.send(frame, 1)
}

/// `a_transaction_has_the_time_of_the_one_before`: the time went on over two transactions.
pub fn transaction_has_its_own_time<R: Wait + Clock + Drop, W: Write + Drop, T: Teller, O: Drop>(
    line: &mut MendedLine<R, W, T, O>,
) -> Result<(), AllocError>
    ensures { line.new.began ≡ None }
{
    line.room(1)
}
