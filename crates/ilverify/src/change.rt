//! What a word changes of what is known, on each way from it.

ghost use Rattle.std.specs.Prelude.{◌≡◌, OnErr, OnOk};
ghost use Rattle.ilverify.specs.Changes.{changed};

use crate::entry::Entry;
use crate::known::Known;
use crate::mark::ResultMark;
use crate::nesting::KnownOpened;
use crate::operand::known_of_result;
use ilcode::Code;
use std::alloc::AllocError;

/// What a word changes on one way from it.
#[derive(Clone, Copy)]
pub enum Change {
    /// There is a current result, known so, with this mark.
    Give(Known, Option<ResultMark>),
    /// The slot of this number is known so; the current result and its mark stay.
    Write(usize, Known),
    /// Nothing.
    Keep,
    /// The current result has no mark.
    Unmark,
    /// There is no current result.
    Forget,
    /// A parenthesis is opened, and there is no current result.
    Open(KnownOpened),
    /// The innermost parenthesis is closed, and there is a current result, known so.
    Close(Known),
    /// The slot of this number is known so; the current result stays, without a mark.
    GiveSlot(usize, Known),
    /// The function of this number was called: its slots, those of the functions before it and the
    /// current result are known by their types.
    Return(u16),
}

/// What a word changes on the way to the next place and on that to a jump's target; `None` where no
/// value goes that way.
#[derive(Clone, Copy)]
pub struct Changes {
    pub next: Option<Change>,
    pub target: Option<Change>,
}

impl Change {
    /// Changes what is known.
    pub fn apply(self, code: &Code, entry: &mut Entry) -> Result<(), AllocError>
        ensures ok { OnOk result (entry.new ≡ changed code.now entry.old self) }
        ensures err { OnErr result (entry.new ≡ entry.old) }
    {
        match self {
            Change::Give(known, mark) => {
                entry.result = Some(known);
                entry.mark = mark;
            }
            Change::Write(slot, known) => entry.slots.set(slot, known)?,
            Change::Keep => {}
            Change::Unmark => entry.mark = None,
            Change::Forget => {
                entry.result = None;
                entry.mark = None;
            }
            Change::Open(opened) => {
                entry.nesting.open(opened)?;
                entry.result = None;
                entry.mark = None;
            }
            Change::Close(known) => {
                entry.nesting.close();
                entry.result = Some(known);
                entry.mark = None;
            }
            Change::GiveSlot(slot, known) => {
                entry.slots.set(slot, known)?;
                entry.mark = None;
            }
            Change::Return(function) => {
                let from = code.slots_end(0);
                let to = code.slots_end(usize::from(function) + 1);
                entry.slots.reset(code.slots(), from, to)?;
                entry.result = known_of_result(code, usize::from(function));
                entry.mark = None;
            }
        }
        Ok(())
    }
}
