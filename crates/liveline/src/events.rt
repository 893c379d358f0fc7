//! Events that an interface says unasked, before an answer.

ghost use Rattle.std.specs.Prelude.{◌≡◌, IfOk, IfSome, false, true};
ghost use Rattle.liveline.specs.Exchanges.{IsEventRead, IsFirst, IsReadPast};
ghost use Rattle.liveline.specs.Lines.{IsMessage, none_line};

use crate::answers::{frame_in, is_none, message_in};
use crate::ends::read_line;
use crate::troubles::{LineBytes, Trouble};
use arrayvec::ArrayVec;
use daliframe::Frame24;
use std::io::Read;
use std::marker::Model;

/// The most frames that are kept until they are heard: more than devices hold back.
pub(crate) const MOST_KEPT: usize = 1024;

/// A frame that came, and was not heard yet.
#[derive(Clone, Copy)]
pub(crate) struct KeptFrame {
    pub(crate) frame: Frame24,
}

impl Model for KeptFrame {
    ghost use Rattle.std.specs.Prelude.{ℕ};

    ghost Value = { ℕ };

    ghost view = { λ kept. kept.frame };

    ghost inverse = { λ n. record { frame = n } };
}

/// What stands where no frame is kept yet. It is never heard.
impl Default for KeptFrame {
    fn default() -> KeptFrame {
        KeptFrame {
            frame: Frame24::dtr0(0),
        }
    }
}

/// Frames that came, first to last.
pub(crate) type KeptFrames = ArrayVec<KeptFrame, MOST_KEPT>;

/// Takes the frame that came first, where there is one.
pub(crate) fn take_first(kept: &mut KeptFrames) -> Option<Frame24>
    ensures { IsFirst result kept.old.items kept.new.items }
{
    match kept.pop_at(0) {
        Some(first) => Some(first.frame),
        None => None,
    }
}

/// Reads a line that says an event, and gives its frame.
///
/// # Errors
///
/// No line comes, or it says none.
pub(crate) fn read_event<R: Read>(from: &mut R) -> Result<Frame24, Trouble>
    ensures { IfOk result (λ frame.
        IsEventRead frame (R.remaining from.old) (R.remaining from.new)) }
{
    let line = read_line(from)?;
    match frame_in(line.as_slice()) {
        Some(frame) => Ok(frame),
        None => Err(Trouble::of(line)),
    }
}

/// Reads the line that answers a request. Where the interface announces, the frames of the events
/// before it are kept.
///
/// # Errors
///
/// No line comes, or more events than can be kept.
#[tactic(auto, using(crate::proofs::Keeping::only_the_line))]
pub(crate) fn read_past<R: Read>(
    from: &mut R,
    announces: bool,
    kept: &mut KeptFrames,
) -> Result<LineBytes, Trouble>
    ensures { IfOk result (λ line. IsReadPast announces line.items
        (R.remaining from.old) (R.remaining from.new) kept.old.items kept.new.items) }
{
    if announces {
        read_past_events(from, kept)
    } else {
        read_line(from)
    }
}

/// Reads lines up to the first that says no event, and keeps the frames of those before it.
///
/// # Errors
///
/// No line comes, or more events than can be kept.
#[tactic(auto, using(crate::proofs::Keeping::none_kept, crate::proofs::Keeping::then_the_line))]
fn read_past_events<R: Read>(from: &mut R, kept: &mut KeptFrames) -> Result<LineBytes, Trouble>
    ensures { IfOk result (λ line. IsReadPast true line.items
        (R.remaining from.old) (R.remaining from.new) kept.old.items kept.new.items) }
{
    for _ in 0..=MOST_KEPT {
        let line = read_line(from)?;
        let Some(frame) = frame_in(line.as_slice()) else {
            return Ok(line);
        };
        let Ok(()) = kept.try_push(KeptFrame { frame }) else {
            return Err(Trouble::of(line));
        };
    }
    Err(Trouble::Silent)
}

/// What an answer to `hear` says came first, where it is such an answer. An interface that announces
/// has said all before it, which is kept.
pub(crate) fn first_said(
    announces: bool,
    answer: &[u8],
    kept: &mut KeptFrames,
) -> Option<Option<Frame24>>
    ensures plain { announces ≡ false → IfSome result (λ message. IsMessage message answer.now)
        × (kept.new ≡ kept.old) }
    ensures announced { announces ≡ true → IfSome result (λ message. (answer.now ≡ none_line)
        × IsFirst message kept.old.items kept.new.items) }
{
    if !announces {
        return message_in(answer);
    }
    if is_none(answer) {
        Some(take_first(kept))
    } else {
        None
    }
}
