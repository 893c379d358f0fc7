//! A law of the definitions.

ghost use Rattle.std.specs.Prelude.{◌≡◌, ℕ, List, Option};
ghost use Rattle.buslink.specs.declared.marks.Reply.{Reply as ReplyTo};
ghost use Rattle.liveline.specs.Lines.{IsMessage, IsReply};

/// A line says one reply at most, and one message at most. So what is read is what was said.
fn a_line_says_one_thing()
    ensures reply { (line : List ℕ) (one other : ReplyTo) → IsReply one line → IsReply other line
        → one ≡ other }
    ensures message { (line : List ℕ) (one other : Option ℕ) → IsMessage one line
        → IsMessage other line → one ≡ other }
{}
