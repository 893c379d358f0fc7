//! What is told of files on standard error.

ghost use Rattle.std.specs.Prelude.{◌≡◌, option_map};
ghost use Rattle.livejournal.specs.Trying.{AreTried};

use crate::page::{Page, Turn};
use crate::storage::Storage;
use std::alloc::Global;

/// Tells a line. Whether it can be told changes nothing.
pub(crate) fn tell<S: Storage>(storage: &S, line: &str) {
    let _told = storage.tell(line);
    let _ended = storage.tell("\n");
}

/// Tells where the file at this path begins to fail, and where it is mended, without so many lines.
pub(crate) fn tell_turn<S: Storage>(
    alloc: Global,
    storage: &S,
    path: &str,
    turn: Turn,
    left_out: u64,
) {
    let line = match (turn, left_out) {
        (Turn::Same, _) => return,
        (Turn::Fails, _) => format!(in alloc; "{path} cannot be written, and is tried again"),
        (Turn::Mended, 0) => format!(in alloc; "{path} is written again"),
        (Turn::Mended, lines) => {
            format!(in alloc; "{path} is written again, without {lines} lines")
        }
    };
    if let Ok(line) = line {
        tell(storage, &line);
    }
}

/// Tries a file, where there is one, with these bytes, and tells where it begins to fail and where
/// it is mended.
pub(crate) fn try_page<S: Storage>(
    alloc: Global,
    storage: &S,
    page: &mut Option<Page>,
    moment: u64,
    bytes: Option<Vec<u8>>,
)
    ensures { AreTried (S.replaced storage.now) (S.unwritten storage.now) moment
        (option_map (λ bytes. bytes.items) bytes) page.old page.new }
{
    if let Some(page) = page {
        let turn = page.write(alloc, storage, moment, bytes);
        tell_turn(alloc, storage, page.path, turn, 0);
    }
}
