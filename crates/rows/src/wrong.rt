//! Rows that must not hold: without them a judge who compares nothing would find no difference.
//!
//! Such a row is named for what the judge must say of it: the kind of the difference, ` at `, and
//! the line that shows it, as `status at status 1`. The pages that must not hold stand in one file,
//! each below a heading that is named in the same way.

use crate::pages::judge_page;
use crate::running::judge_lines;
use livehouse::Site;
use std::rt::Files;
use std::sync::Wait;
use std::thread::Threads;
use std::time::Clock as Timer;
use workedrows::{Judge, RowsStop};

/// What a file has that must not hold.
#[derive(Clone, Copy)]
pub enum Wrong {
    /// Rows, each below `== `.
    Rows,
    /// Pages, each below a heading.
    Pages,
}

/// How many rows or pages a file has, where each is refused for what its name says.
///
/// # Errors
///
/// The first one that holds, or that is refused for something else.
pub fn refuse_all<R: Files + AllocGlobal + Threads + Wait + Timer + Sync, S: Site + Sync>(
    rt: &R,
    site: &S,
    wrong: Wrong,
    text: &str,
) -> Result<u32, RowsStop> {
    let begun = match wrong {
        Wrong::Rows => "\n== ",
        Wrong::Pages => "\n# ",
    };
    let mut refused: u32 = 0;
    for one in text.split(begun).skip(1) {
        refuse_one(rt, site, wrong, one)?;
        refused = refused.saturating_add(1);
    }
    Ok(refused)
}

/// Has a row or a page judged by itself, from its name on.
fn refuse_one<R: Files + AllocGlobal + Threads + Wait + Timer + Sync, S: Site + Sync>(
    rt: &R,
    site: &S,
    wrong: Wrong,
    one: &str,
) -> Result<(), RowsStop> {
    let (name, lines) = match one.split_once('\n') {
        Some(parts) => parts,
        None => (one, ""),
    };
    let mut judge = Judge::new(rt.alloc());
    let judged = match wrong {
        Wrong::Rows => {
            judge.begin_row(name)?;
            judge_lines(&mut judge, rt, site, lines)
        }
        Wrong::Pages => judge_page(&mut judge, rt, site, "wrong.md", lines),
    };
    match judged {
        Ok(()) => Err(RowsStop::Held(String::from_str(rt.alloc(), name)?)),
        Err(stop) if is_named(name, &stop) => Ok(()),
        Err(stop) => Err(stop),
    }
}

/// Whether a row is named for why it was refused.
fn is_named(name: &str, stop: &RowsStop) -> bool {
    let RowsStop::Row { line, why, .. } = stop else {
        return false;
    };
    match name.split_once(" at ") {
        Some((kind, place)) => kind == why.kind() && place == line.as_str(),
        None => false,
    }
}
