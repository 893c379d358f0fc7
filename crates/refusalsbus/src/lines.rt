//! Buses and clocks of any kind, and buses behind a line.

ghost use Rattle.std.specs.Prelude.{◌≡◌, ◌<◌, ◌≤◌, ◌++◌, [], ◌∷◌, All, IfOk, IfSome, None, OnOk, Some};
ghost use Rattle.std.specs.Prelude.{codes, false, length, true};
ghost use Rattle.std.specs.Io.KnownBytes.{Appends};
ghost use Rattle.buslink.specs.BusLog.{mark_of_send};
ghost use Rattle.liveline.specs.Exchanges.{IsAtMost};
ghost use Rattle.liveline.specs.Lines.{greeting, line_end, numbered_greeting};
ghost use Rattle.liveline.specs.Lines.{send_line};

use buslink::{Bus, Clock, Fault, Reply};
use daliframe::{Frame, Frame24};
use liveline::{Greeted, LineBus, Ungreeted};
use std::alloc::AllocError;
use std::io::{Read, Write};

/// `failed_send_appends_nothing`: a frame at which the interface failed did not count as sent.
pub fn sent_frame_is_in_the_log<B: Bus>(
    bus: &mut B,
    frame: Frame,
    priority: u8,
) -> Result<Reply, Fault>
    requires { 0 < (B.log bus.old).spare }
    ensures { (B.log bus.new).sent ≡ (B.log bus.old).sent
        ++ record { frame = frame; priority = priority; mark = mark_of_send result } ∷ [] }
{
    bus.send(frame, priority)
}

/// `heard_frame_is_not_listed`, `an_event_is_not_noted`: a frame was heard and not listed.
pub fn heard_frame_is_in_the_log<B: Bus>(bus: &mut B) -> Result<Option<Frame24>, Fault>
    requires { 0 < (B.log bus.old).spare }
    ensures { IfOk result (λ heard. IfSome heard
        (λ frame. (B.log bus.new).heard ≡ (B.log bus.old).heard ++ frame ∷ [])) }
{
    bus.hear()
}

/// `room_is_given_up`: a bus asked for less room than it has gave some up.
pub fn room_is_kept<B: Bus>(bus: &mut B, frames: usize) -> Result<(), AllocError>
    ensures { (B.log bus.old).spare ≤ (B.log bus.new).spare }
{
    bus.room(frames)
}

/// `a_bus_is_mended_before_its_line_greets`: a bus answered that it is mended, and was not.
pub fn answer_to_a_mend_is_kept<B: Bus>(bus: &mut B) -> bool
    ensures { (B.log bus.new).is_mended ≡ result }
{
    bus.mend()
}

/// `a_moment_is_given_and_not_noted`: a clock gave a moment that was not in its log.
pub fn moment_is_in_the_log<C: Clock>(clock: &mut C) -> Option<u64>
    ensures { IfSome result
        (λ moment. (C.log clock.new).given ≡ (C.log clock.old).given ++ moment ∷ []) }
{
    clock.now()
}

/// `its_end_is_not_kept`: a clock gave no moment, and its log did not say so.
pub fn end_of_a_clock_is_kept<C: Clock>(clock: &mut C) -> Option<u64>
    ensures { result ≡ None → (C.log clock.new).gave_none ≡ true }
{
    clock.now()
}

/// `clock_goes_back`, `it_goes_back_with_its_timer`: a clock gave a moment before one that it had
/// given.
pub fn clock_does_not_go_back<C: Clock>(clock: &mut C) -> Option<u64>
    ensures { IfSome result (λ moment. All (λ earlier. earlier ≤ moment) (C.log clock.old).given) }
{
    clock.now()
}

/// `a_line_that_begins_is_mended`: a bus could be taken up that had not been down.
pub fn line_that_begins_is_not_mended<R: Read + Drop, W: Write + Drop>(
    bus: &mut LineBus<R, W>,
    greeted: Greeted<R, W>,
) -> bool
    requires { bus.old.log.is_mended ≡ false }
    ensures { result ≡ false }
{
    bus.begin(greeted);
    bus.mend()
}

/// `a_line_that_is_gone_is_in_step`: a bus without a line was in step.
pub fn line_that_is_gone_is_not_in_step<R: Read + Drop, W: Write + Drop>(
    bus: &mut LineBus<R, W>,
) -> bool
    ensures { result ≡ false }
{
    let _ends = bus.let_go();
    bus.is_in_step()
}

/// `all_frames_have_priority_1`, `the_line_is_not_whole`: a frame was answered whose request had
/// another priority, or was cut.
pub fn request_has_its_priority<R: Read + Drop, W: Write + Drop>(
    bus: &mut LineBus<R, W>,
    frame: Frame,
) -> Result<Reply, Fault>
    requires { 0 < bus.old.log.spare }
    ensures { IfOk result (λ reply.
        Appends bus.old.written bus.new.written (send_line frame 3 ++ line_end)) }
{
    bus.send(frame, 3)
}

/// `a_lost_frame_counts_as_quiet`: a frame that was lost was one that nothing answered.
pub fn lost_frame_is_lost<R: Read + Drop, W: Write + Drop>(
    bus: &mut LineBus<R, W>,
    frame: Frame,
) -> Result<Reply, Fault>
    requires spare { 0 < bus.old.log.spare }
    requires text { bus.old.unread ≡ Some (codes "lost\n") }
    ensures { IfOk result (λ reply. reply ≡ Reply.Lost) }
{
    bus.send(frame, 3)
}

/// `it_asks_again_after_nonsense`, `a_frame_goes_out_twice`: the request was said twice.
pub fn request_is_said_once<R: Read + Drop, W: Write + Drop>(
    bus: &mut LineBus<R, W>,
    frame: Frame,
) -> Result<Reply, Fault>
    requires { 0 < bus.old.log.spare }
    ensures { IsAtMost (send_line frame 3 ++ line_end) bus.old.written bus.new.written }
{
    bus.send(frame, 3)
}

/// `it_speaks_on_after_nonsense`: a bus was in step after a request that was not answered as it
/// should be.
pub fn bus_is_in_step_where_it_was_answered<R: Read + Drop, W: Write + Drop>(
    bus: &mut LineBus<R, W>,
    frame: Frame,
) -> bool
    requires { 0 < bus.old.log.spare }
    ensures { result ≡ true }
{
    let reply = bus.send(frame, 3);
    reply.is_ok() == bus.is_in_step()
}

/// `nonsense_is_no_event`: a line that is no answer said that nothing had come.
pub fn nonsense_is_no_answer<R: Read + Drop, W: Write + Drop>(
    bus: &mut LineBus<R, W>,
    text: &[u8],
) -> bool
    requires spare { 0 < bus.old.log.spare }
    requires text { bus.old.unread ≡ Some text.now }
    requires short { length text.now < 5 }
    requires kept { bus.old.kept ≡ [] }
    ensures { result ≡ false }
{
    bus.hear().is_ok()
}

/// `any_line_is_the_answer`, `the_first_line_that_is_no_answer_counts`, `an_echo_is_the_answer`,
/// `any_line_is_the_greeting_of_version_1`: a line that is no greeting was one: `x`, the greeting
/// itself, or a refusal and `x`.
pub fn short_text_is_no_greeting<R: Read + Drop, W: Write + Drop>(
    from: R,
    to: W,
    text: &[u8],
) -> bool
    requires text { R.remaining from ≡ Some text.now }
    requires short { length text.now < 16 }
    ensures { result ≡ false }
{
    Greeted::greet(from, to, 7).is_ok()
}

/// `version_1_is_not_asked_for`: an interface that knows no numbered greeting was not greeted in
/// version 1. A text of 22 bytes can say `fault` twice and then that greeting, and has no room for
/// one `fault` and the answer of version 2.
pub fn refused_greeting_is_said_plainly<R: Read + Drop, W: Write + Drop>(
    from: R,
    to: W,
    text: &[u8],
) -> Result<Greeted<R, W>, Ungreeted<R, W>>
    requires text { R.remaining from ≡ Some text.now }
    requires short { length text.now < 23 }
    ensures { IfOk result (λ greeted. greeted.announces ≡ false
        → Appends (W.contents to) greeted.written ((numbered_greeting 3 7 ++ line_end)
        ++ ((numbered_greeting 2 7 ++ line_end) ++ (greeting ++ line_end)))) }
{
    Greeted::greet(from, to, 7)
}

/// `a_late_answer_is_the_greeting`: the answer to the greeting before was the answer to this one.
pub fn late_answer_is_no_greeting<R: Read + Drop, W: Write + Drop>(from: R, to: W) -> bool
    requires { R.remaining from ≡ Some (codes "gushewa 3 hears 9\n") }
    ensures { result ≡ false }
{
    Greeted::greet(from, to, 10).is_ok()
}

/// `version_3_is_not_asked_for`, `every_interface_announces`: an interface that was greeted in
/// version 3 did not announce. A text of 21 bytes can answer that greeting, and has no room for a
/// refusal and another one.
pub fn short_greeting_is_of_version_3<R: Read + Drop, W: Write + Drop>(
    from: R,
    to: W,
    text: &[u8],
) -> Result<Greeted<R, W>, Ungreeted<R, W>>
    requires text { R.remaining from ≡ Some text.now }
    requires short { length text.now < 22 }
    ensures { IfOk result (λ greeted. greeted.announces ≡ true) }
{
    Greeted::greet(from, to, 7)
}

/// `what_was_kept_is_passed_over`, `the_last_that_was_kept_is_heard`: a frame that had come before an
/// answer was not the next that was heard.
pub fn kept_frame_is_heard_first<R: Read + Drop, W: Write + Drop>(
    bus: &mut LineBus<R, W>,
) -> Result<Option<Frame24>, Fault>
    requires spare { 0 < bus.old.log.spare }
    requires kept { bus.old.kept ≡ 7 ∷ 9 ∷ [] }
    ensures { IfOk result (λ heard. heard ≡ Some 7) }
{
    bus.hear()
}

/// `a_frame_stays_kept`: a frame that was heard could be heard again.
pub fn kept_frame_is_heard_once<R: Read + Drop, W: Write + Drop>(
    bus: &mut LineBus<R, W>,
) -> Result<Option<Frame24>, Fault>
    requires spare { 0 < bus.old.log.spare }
    requires kept { bus.old.kept ≡ 7 ∷ 9 ∷ [] }
    ensures { OnOk result (bus.new.kept ≡ 9 ∷ []) }
{
    bus.hear()
}

/// `any_interface_may_speak_unasked`: an interface that does not announce said an event before its
/// answer, and that was kept.
pub fn nothing_is_kept_where_nothing_is_announced<R: Read + Drop, W: Write + Drop>(
    bus: &mut LineBus<R, W>,
    frame: Frame,
) -> Result<Reply, Fault>
    requires spare { 0 < bus.old.log.spare }
    requires silent { bus.old.announces ≡ false }
    ensures { OnOk result (bus.new.kept ≡ bus.old.kept) }
{
    bus.send(frame, 3)
}
