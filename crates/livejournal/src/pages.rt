//! The writing of what was told, in the order of the history.

ghost use Rattle.std.specs.Prelude.{◌≡◌, true, false};
ghost use Rattle.livejournal.specs.Serving.{AreServed};

use crate::files::{Files, date_at};
use crate::history::History;
use crate::log::Log;
use crate::page::Turn;
use crate::record::Record;
use crate::storage::Storage;
use crate::told::{tell, tell_turn};
use crate::unsorted::Told;
use commandoptions::Beside;
use ilcompile::Setup;
use std::alloc::{AllocError, Global};

/// What is written beside a building, by events in the order of the history.
#[derive(Drop)]
pub(crate) struct Pages<'a> {
    alloc: Global,
    history: History,
    log: Option<Log<'a>>,
    files: Files<'a>,
    /// Whether each event was followed so far.
    follows: bool,
}

impl<'a> Pages<'a> {
    /// What is wanted beside a building to which nothing has happened, whose clock begins at this
    /// moment, and which begins with the values of this file, where there is one. No file is tried
    /// yet.
    ///
    /// # Errors
    ///
    /// The allocator is out of memory.
    pub(crate) fn open(
        alloc: Global,
        beside: &Beside<'a>,
        setup: Setup,
        kept: Option<&[u8]>,
        begins: u64,
        workers: usize,
    ) -> Result<Pages<'a>, AllocError> {
        let record = opened_record(alloc, beside, &setup, kept.is_some())?;
        let is_logged = beside.log.is_some();
        Ok(Pages {
            alloc,
            history: History::open(alloc, setup, workers, begins, record, is_logged)?,
            log: opened_log(alloc, beside),
            files: Files::new(alloc, beside, kept)?,
            follows: true,
        })
    }

    /// Writes all that is in order of what was told, and tries the files that are due. `is_whole`
    /// says whether each event was told so far.
    pub(crate) fn take<S: Storage>(&mut self, storage: &S, told: Vec<Told>, is_whole: bool)
        ensures { self.new.follows ≡ true → AreServed (S.replaced storage.now)
            (S.unwritten storage.now) false self.new.history.moment self.old.files self.new.files }
    {
        if !self.follows {
            return;
        }
        let mut lines = Vec::new(self.alloc);
        let date = date_at(storage.seconds());
        self.follows = is_whole && self.history.follow_all(told, date, &mut lines);
        write_log(self.alloc, storage, &mut self.log, &lines);
        if self.follows {
            self.files.serve(storage, false, &self.history);
        } else {
            tell(
                storage,
                "an event was missed: log, record, status and kept values end here",
            );
        }
    }

    /// Tries once more at the end what the log is still to get, and each file.
    pub(crate) fn finish<S: Storage>(&mut self, storage: &S)
        ensures { self.new.follows ≡ true → AreServed (S.replaced storage.now)
            (S.unwritten storage.now) true self.new.history.moment self.old.files self.new.files }
    {
        write_log(self.alloc, storage, &mut self.log, b"");
        if self.follows {
            self.files.serve(storage, true, &self.history);
        }
    }
}

/// Writes these lines to the log, where there is one, and tells where it begins to fail and where
/// it is mended.
fn write_log<S: Storage>(alloc: Global, storage: &S, log: &mut Option<Log>, lines: &[u8]) {
    let Some(log) = log else {
        return;
    };
    let turn = log.write(alloc, storage, lines);
    tell_turn(alloc, storage, log.path, turn, log.left_out);
    if turn == Turn::Mended {
        log.left_out = 0;
    }
}

/// The log, where one is wanted.
fn opened_log<'a>(alloc: Global, beside: &Beside<'a>) -> Option<Log<'a>> {
    Some(Log::new(alloc, beside.log?, u64::from(beside.log_size)))
}

/// The record of a building to which nothing has come, where one is wanted.
fn opened_record(
    alloc: Global,
    beside: &Beside,
    setup: &Setup,
    begins_kept: bool,
) -> Result<Option<Record>, AllocError> {
    if beside.record.is_none() {
        return Ok(None);
    }
    match Record::new(alloc, setup.plan(), begins_kept) {
        Ok(record) => Ok(Some(record)),
        Err(_) => Err(AllocError),
    }
}
