//! What is known before a word.

ghost use Rattle.std.specs.Prelude.{◌≡◌, [], IfOk, OnErr, OnOk, MatchOption};
ghost use Rattle.ilverify.specs.EntrySteps.{IsMarkMeeting, IsResultMeeting};

use crate::known::Known;
use crate::mark::ResultMark;
use crate::nesting::OpenParentheses;
use crate::slots::Slots;
use ilcode::Code;
use std::alloc::{AllocError, Global};

/// What is known before a word that is reached.
#[derive(Drop)]
pub struct Entry {
    /// What is known of each slot.
    pub slots: Slots,
    /// What is known of the current result, or `None` where there may be none.
    pub result: Option<Known>,
    /// What the current result says of a slot, where it says something.
    pub mark: Option<ResultMark>,
    /// The parentheses that are open.
    pub nesting: OpenParentheses,
}

impl Entry {
    ghost use Rattle.ilverify.specs.Entries.{opening, arriving, IsMeeting, MayMeet};

    /// What is known where the programs or a function begin: each slot has a value of its type,
    /// there is no current result, and nothing is open.
    pub fn opening(alloc: Global, code: &Code) -> Result<Entry, AllocError>
        ensures { IfOk result (λ entry. entry ≡ opening code.now) }
    {
        Ok(Entry {
            slots: Slots::new(alloc, code.slots())?,
            result: None,
            mark: None,
            nesting: OpenParentheses::new(alloc),
        })
    }

    /// What is known where control comes to the place: at the start of a program or a function no
    /// current result, and so no mark.
    pub fn arrive(&mut self, code: &Code, place: usize)
        ensures { self.new ≡ arriving code.now place self.old }
    {
        if code.is_start(place) {
            self.result = None;
            self.mark = None;
        }
    }

    /// The same, with the ranges of the slots shared.
    pub fn share(&self) -> Result<Entry, AllocError>
        ensures { IfOk result (λ entry. entry ≡ self.now) }
    {
        Ok(Entry {
            slots: self.slots.share()?,
            result: self.result,
            mark: self.mark,
            nesting: self.nesting.share()?,
        })
    }

    /// What is known on either way, where two ways meet and nothing is open; `None` where no entry
    /// holds both.
    pub fn join(self, other: &Entry) -> Result<Option<Entry>, AllocError>
        requires closed { self.nesting ≡ [] }
        requires closed_there { other.now.nesting ≡ [] }
        ensures { IfOk result (λ made. MatchOption made
            (¬ MayMeet self other.now)
            (λ meeting. IsMeeting self other.now meeting)) }
    {
        let Some(slots) = self.slots.join(&other.slots)? else {
            return Ok(None);
        };
        Ok(Some(Entry {
            slots,
            result: join_results(self.result, other.result),
            mark: join_marks(self.mark, other.mark),
            nesting: self.nesting,
        }))
    }
}

/// What is known of the current result where two ways meet: nothing where there may be none on
/// either, or a result of another kind.
fn join_results(one: Option<Known>, other: Option<Known>) -> Option<Known>
    ensures { IsResultMeeting one other result }
{
    match (one, other) {
        (Some(one), Some(other)) => one.join(other),
        (None, _) => None,
        (_, None) => None,
    }
}

/// The mark of the current result where two ways meet: that of both, or none.
fn join_marks(one: Option<ResultMark>, other: Option<ResultMark>) -> Option<ResultMark>
    ensures { IsMarkMeeting one other result }
{
    if one != other { None } else { one }
}
