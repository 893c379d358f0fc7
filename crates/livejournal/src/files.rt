//! The files beside a building that are written whole: status, kept values, record.

ghost use Rattle.std.specs.Prelude.{◌≡◌};
ghost use Rattle.livejournal.specs.Serving.{AreServed};
ghost use Rattle.livejournal.specs.Trying.{IsServed};

use crate::history::History;
use crate::keep::Keeper;
use crate::opening::Opening;
use crate::page::{Pace, Page, is_wanted};
use crate::record::RecordEnd;
use crate::status::{Status, write_json, write_lines};
use crate::storage::{Care, Storage};
use crate::told::{tell, try_page};
use commandoptions::Beside;
use jiff::Timestamp;
use livekeep::KeptAt;
use std::alloc::{AllocError, Global};
use std::io;

/// The files beside a building that are written whole, of those that are wanted.
#[derive(Drop)]
pub(crate) struct Files<'a> {
    alloc: Global,
    is_json: bool,
    pub(crate) status: Option<Page<'a>>,
    pub(crate) keep: Option<Page<'a>>,
    pub(crate) record: Option<Page<'a>>,
    /// What is done before the record is written, until it is done.
    opening: Option<Opening<'a>>,
    /// Whether it was told that the record has ended.
    has_ended: bool,
    keeper: Keeper,
}

impl<'a> Files<'a> {
    /// The files that are wanted beside a building that begins with the values of this file, where
    /// there is one. None was tried yet.
    ///
    /// # Errors
    ///
    /// The allocator is out of memory.
    pub(crate) fn new(
        alloc: Global,
        beside: &Beside<'a>,
        kept: Option<&[u8]>,
    ) -> Result<Files<'a>, AllocError> {
        Ok(Files {
            alloc,
            is_json: beside.is_json,
            status: page_at(beside.status, Pace::EachSecond, Care::Passing),
            keep: page_at(beside.keep, Pace::EachTenSeconds, Care::Private),
            record: page_at(beside.record, Pace::EachMinute, Care::Lasting),
            opening: opening_of(alloc, beside.record, kept)?,
            has_ended: false,
            keeper: Keeper::new(alloc),
        })
    }

    /// Tries each file that is due at the building's moment, or each at all. A record is tried too
    /// once it has ended, and it is told why.
    pub(crate) fn serve<S: Storage>(&mut self, storage: &S, at_once: bool, history: &History)
        ensures { AreServed (S.replaced storage.now) (S.unwritten storage.now) at_once
            history.now.moment self.old self.new }
    {
        let (alloc, is_json) = (self.alloc, self.is_json);
        serve_status(alloc, storage, &mut self.status, at_once, history, is_json);
        serve_keep(
            alloc,
            storage,
            &mut self.keep,
            at_once,
            history,
            &mut self.keeper,
        );
        let end = self.end_of(history);
        let now = at_once || end.is_some();
        serve_record(
            alloc,
            storage,
            &mut self.record,
            now,
            history,
            &mut self.opening,
        );
        if let Some(end) = end {
            tell(storage, ended_since(end));
        }
    }

    /// Why the record has ended, the first time that it is asked for then.
    fn end_of(&mut self, history: &History) -> Option<RecordEnd>
        ensures status { self.new.status ≡ self.old.status }
        ensures keep { self.new.keep ≡ self.old.keep }
        ensures record { self.new.record ≡ self.old.record }
    {
        let end = match &history.record {
            Some(record) if !self.has_ended => record.end(),
            _ => None,
        };
        if end.is_some() {
            self.has_ended = true;
        }
        end
    }
}

/// The file at a path, where one is wanted.
fn page_at<'a>(path: Option<&'a str>, pace: Pace, care: Care) -> Option<Page<'a>> {
    Some(Page::new(path?, pace, care))
}

/// Tries the status, where it is wanted.
fn serve_status<S: Storage>(
    alloc: Global,
    storage: &S,
    page: &mut Option<Page>,
    at_once: bool,
    history: &History,
    is_json: bool,
)
    ensures { IsServed (S.replaced storage.now) (S.unwritten storage.now) at_once
        history.now.moment page.old page.new }
{
    if is_wanted(page, at_once, history.moment) {
        let bytes = status_bytes(alloc, storage, history, is_json);
        try_page(alloc, storage, page, history.moment, bytes.ok());
    }
}

/// Tries the kept values, where they are wanted.
fn serve_keep<S: Storage>(
    alloc: Global,
    storage: &S,
    page: &mut Option<Page>,
    at_once: bool,
    history: &History,
    keeper: &mut Keeper,
)
    ensures { IsServed (S.replaced storage.now) (S.unwritten storage.now) at_once
        history.now.moment page.old page.new }
{
    if is_wanted(page, at_once, history.moment) {
        let at = KeptAt {
            date: storage.seconds(),
            moment: history.moment,
        };
        let bytes = keeper.bytes(alloc, at, history.follower.plant(), at_once);
        try_page(alloc, storage, page, history.moment, bytes.ok());
    }
}

/// What is done before the record at this path is written, where one is wanted.
///
/// # Errors
///
/// The allocator is out of memory.
fn opening_of<'a>(
    alloc: Global,
    path: Option<&'a str>,
    kept: Option<&[u8]>,
) -> Result<Option<Opening<'a>>, AllocError> {
    match path {
        Some(path) => Ok(Some(Opening::new(alloc, path, kept)?)),
        None => Ok(None),
    }
}

/// Tries the record, where it is wanted, once what is done before it is done.
fn serve_record<S: Storage>(
    alloc: Global,
    storage: &S,
    page: &mut Option<Page>,
    at_once: bool,
    history: &History,
    opening: &mut Option<Opening>,
)
    ensures { IsServed (S.replaced storage.now) (S.unwritten storage.now) at_once
        history.now.moment page.old page.new }
{
    if is_wanted(page, at_once, history.moment) {
        let bytes = record_bytes(alloc, storage, history, opening);
        try_page(alloc, storage, page, history.moment, bytes.ok());
    }
}

/// The bytes of a status.
///
/// # Errors
///
/// The allocator is out of memory.
fn status_bytes<S: Storage>(
    alloc: Global,
    storage: &S,
    history: &History,
    is_json: bool,
) -> io::Result<Vec<u8>> {
    let plant = history.follower.plant();
    let reasons = reasons_of(alloc, storage, plant.setup().plan().buses())?;
    let status = Status {
        plant,
        levels: &history.levels,
        moment: history.moment,
        date: date_at(storage.seconds()),
        memory: storage.memory(),
        reasons: reasons.as_slice(),
    };
    let mut bytes = Vec::new(alloc);
    if is_json {
        write_json(&mut bytes, &status)?;
    } else {
        write_lines(&mut bytes, &status)?;
    }
    Ok(bytes)
}

/// Why the lines of the given number of buses are down, where that is known.
///
/// # Errors
///
/// The allocator is out of memory.
fn reasons_of<S: Storage>(
    alloc: Global,
    storage: &S,
    buses: u8,
) -> Result<Vec<Option<String>>, AllocError> {
    let mut reasons = Vec::new(alloc);
    for bus in 0..buses {
        reasons.push(storage.why_down(alloc, bus))?;
    }
    Ok(reasons)
}

/// The bytes of a record, once what is done before it is done.
///
/// # Errors
///
/// It cannot be done, or the allocator is out of memory.
fn record_bytes<S: Storage>(
    alloc: Global,
    storage: &S,
    history: &History,
    opening: &mut Option<Opening>,
) -> io::Result<Vec<u8>> {
    if let Some(to_do) = &*opening {
        to_do.serve(alloc, storage)?;
        *opening = None;
    }
    match &history.record {
        Some(record) => Ok(record.bytes(alloc)?),
        None => Ok(Vec::new(alloc)),
    }
}

/// Why a record has ended, as a line.
fn ended_since(end: RecordEnd) -> &'static str {
    match end {
        RecordEnd::Full => "the record is full, and ends here",
        RecordEnd::CameUp => "a bus came up again, and the record ends here",
    }
}

/// The date of the given number of seconds since 1970.
pub(crate) fn date_at(seconds: u64) -> Timestamp {
    let seconds = i64::try_from(seconds).unwrap_or(0);
    Timestamp::from_second(seconds).unwrap_or_default()
}
