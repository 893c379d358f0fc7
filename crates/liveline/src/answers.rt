//! What the lines of an interface say.

ghost use Rattle.std.specs.Prelude.{◌≡◌, ◌↔◌, ◌++◌, ℕ, List, Option, Some, IsTrue, MatchOption};
ghost use Rattle.buslink.specs.declared.marks.Reply.{Reply as ReplyTo};
ghost use Rattle.buslink.specs.declared.marks.Reply.TheVariants as said;
ghost use Rattle.liveline.specs.Lines.{IsMessage, IsReply, fault_line, greeting, none_line};

use buslink::Reply;
use daliframe::Frame24;
use wordlines::{hex_of, number_of};

/// Whether a line says that the interface does not know what was asked.
pub(crate) fn is_fault(line: &[u8]) -> bool
    ensures { IsTrue result ↔ (line.now ≡ fault_line) }
{
    is_same(line, b"fault")
}

/// Whether a line greets in version 1.
pub(crate) fn is_greeting(line: &[u8]) -> bool
    ensures { IsTrue result ↔ (line.now ≡ greeting) }
{
    is_same(line, b"gushewa 1")
}

/// What a line says became of a frame, where it says that.
#[tactic(auto, using(crate::proofs::Answering::no_reply))]
pub(crate) fn reply_in(line: &[u8]) -> Option<Reply>
    ensures { MatchOption result ((reply : ReplyTo) → ¬ IsReply reply line.now)
        (λ reply. IsReply reply line.now) }
{
    if is_same(line, b"quiet") {
        return Some(Reply::Quiet);
    }
    if is_same(line, b"damaged") {
        return Some(Reply::Damaged);
    }
    if is_same(line, b"lost") {
        return Some(Reply::Lost);
    }
    let byte = answer_in(line)?;
    Some(Reply::Answer(byte))
}

/// The backward frame that a line says was answered, where it says that.
#[tactic(auto, using(crate::proofs::Answering::not_after, crate::proofs::Answering::no_number))]
fn answer_in(line: &[u8]) -> Option<u8>
    ensures { MatchOption result ((byte : ℕ) → ¬ IsReply (said.Answer byte) line.now)
        (λ byte. IsReply (said.Answer byte) line.now) }
{
    let digits = after(line, b"answer ")?;
    let byte = number_of(digits, 255)?;
    Some(byte as u8)
}

/// What a line says came on the bus, where it says that: a frame, or nothing.
#[tactic(auto, using(crate::proofs::Answering::no_message))]
pub(crate) fn message_in(line: &[u8]) -> Option<Option<Frame24>>
    ensures { MatchOption result ((message : Option ℕ) → ¬ IsMessage message line.now)
        (λ message. IsMessage message line.now) }
{
    if is_same(line, b"none") {
        return Some(None);
    }
    let frame = frame_in(line)?;
    Some(Some(frame))
}

/// Whether a line says that nothing has come, or nothing more.
pub(crate) fn is_none(line: &[u8]) -> bool
    ensures { IsTrue result ↔ (line.now ≡ none_line) }
{
    is_same(line, b"none")
}

/// The frame that a line says came, where it says that.
#[tactic(auto, using(crate::proofs::Answering::not_after, crate::proofs::Answering::no_number))]
pub(crate) fn frame_in(line: &[u8]) -> Option<Frame24>
    ensures { MatchOption result ((frame : ℕ) → ¬ IsMessage (Some frame) line.now)
        (λ frame. IsMessage (Some frame) line.now) }
{
    let digits = after(line, b"event ")?;
    let bits = hex_of(digits)?;
    Frame24::new(bits)
}

/// What stands in a line behind its first part, where it begins with that.
#[tactic(auto, using(crate::proofs::Answering::stands_behind, crate::proofs::Answering::begins_so))]
fn after<'a>(line: &'a [u8], front: &[u8]) -> Option<&'a [u8]>
    ensures { MatchOption result ((rest : List ℕ) → ¬ (line.now ≡ front.now ++ rest))
        (λ rest. line.now ≡ front.now ++ rest.now) }
{
    let (head, rest) = line.split_at_checked(front.len())?;
    if is_same(head, front) {
        Some(rest)
    } else {
        None
    }
}

/// Whether the bytes are the same.
pub(crate) fn is_same(bytes: &[u8], others: &[u8]) -> bool
    ensures { IsTrue result ↔ (bytes.now ≡ others.now) }
{
    bytes == others
}
