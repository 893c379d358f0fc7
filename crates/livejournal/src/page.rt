//! Files that are written whole, again and again.

ghost use Rattle.std.specs.Prelude.{◌≡◌, ◌↔◌, ◌/◌, Some, IsSomeAnd, IsTrue, option_map};
ghost use Rattle.livejournal.specs.Trying.{CameTo, IsDue, IsTried, IsWanted};
ghost use Rattle.livejournal.specs.Trying.{is_failing, period_of, turn_between};

use crate::storage::{Care, Storage};
use std::alloc::Global;

/// How often a file is written.
#[derive(Clone, Copy)]
pub(crate) enum Pace {
    EachSecond,
    EachTenSeconds,
    EachMinute,
}

impl Pace {
    /// The number of the period in which this moment is, from 0. The moment is in milliseconds.
    fn period_at(self, moment: u64) -> u64
        ensures { result ≡ moment / period_of self }
    {
        match self {
            Pace::EachSecond => moment / 1000,
            Pace::EachTenSeconds => moment / 10_000,
            Pace::EachMinute => moment / 60_000,
        }
    }
}

/// Whether a file began to fail, or is mended.
#[derive(Clone, Copy, PartialEq, Eq, Debug)]
pub(crate) enum Turn {
    /// It is as it was: written, or failing.
    Same,
    Fails,
    Mended,
}

/// What is told, by whether a file failed before and whether it fails now.
pub(crate) fn turn_of(failed: bool, fails: bool) -> Turn
    ensures { result ≡ turn_between failed fails }
{
    match (failed, fails) {
        (false, true) => Turn::Fails,
        (true, false) => Turn::Mended,
        (false, false) | (true, true) => Turn::Same,
    }
}

/// A file that is written whole, once in each period where its bytes changed.
#[derive(Drop)]
pub(crate) struct Page<'a> {
    pub(crate) path: &'a str,
    pub(crate) pace: Pace,
    pub(crate) care: Care,
    /// The number of the period in which it was tried last, once it was tried.
    pub(crate) tried: Option<u64>,
    /// What it has, where the last try wrote it.
    pub(crate) has: Option<Vec<u8>>,
}

impl<'a> Page<'a> {
    /// A file that was not tried yet.
    pub(crate) fn new(path: &'a str, pace: Pace, care: Care) -> Page<'a> {
        Page {
            path,
            pace,
            care,
            tried: None,
            has: None,
        }
    }

    /// Whether it was not tried in the period of this moment, in milliseconds.
    fn is_due(&self, moment: u64) -> bool
        ensures { IsTrue result ↔ IsDue moment self.now }
    {
        self.tried != Some(self.pace.period_at(moment))
    }

    /// Whether it was tried, and was not written by the last try.
    fn is_failing(&self) -> bool
        ensures { result ≡ is_failing self.now }
    {
        self.tried.is_some() && self.has.is_none()
    }

    /// Tries to write these bytes, unless the file has them. Without memory for them there are
    /// none. Answers whether it began to fail, or is mended.
    pub(crate) fn write<S: Storage>(
        &mut self,
        alloc: Global,
        storage: &S,
        moment: u64,
        bytes: Option<Vec<u8>>,
    ) -> Turn
        ensures tried { IsTried (S.replaced storage.now) (S.unwritten storage.now) moment
            (option_map (λ bytes. bytes.items) bytes) self.old self.new }
        ensures told { result ≡ turn_between (is_failing self.old) (is_failing self.new) }
    {
        let failed = self.is_failing();
        let has = match bytes {
            Some(bytes) => self.put(alloc, storage, bytes),
            None => None,
        };
        self.tried = Some(self.pace.period_at(moment));
        self.has = has;
        turn_of(failed, self.is_failing())
    }

    /// The bytes, once the file has them; none where it cannot be written.
    fn put<S: Storage>(&self, alloc: Global, storage: &S, bytes: Vec<u8>) -> Option<Vec<u8>>
        ensures { CameTo (S.replaced storage.now) (S.unwritten storage.now) self.now
            (Some bytes.items) (option_map (λ has. has.items) result) }
    {
        let has_them = match &self.has {
            Some(has) => *has == bytes,
            None => false,
        };
        if has_them || storage.replace(alloc, self.path, &bytes, self.care).is_ok() {
            Some(bytes)
        } else {
            None
        }
    }
}

/// Whether there is a file that is to be tried at this moment.
pub(crate) fn is_wanted(page: &Option<Page>, at_once: bool, moment: u64) -> bool
    ensures { IsTrue result ↔ IsSomeAnd page.now (IsWanted at_once moment) }
{
    match page {
        Some(page) => at_once || page.is_due(moment),
        None => false,
    }
}
