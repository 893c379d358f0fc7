//! The program `rows`: runs worked rows of the command line, each in memory.
//!
//! What crosses the boundary: files of rows and pages of the documents, whose names are the words
//! of the command line, and one line: how many rows hold and how many wrong ones do not, or the
//! first one that is otherwise. README.md has their formats; `workedrows` reads a row and compares,
//! `running` runs its command lines by `commands::run`, whose threads are those of the program's
//! own runtime, `pages` has the commands of a page, `simulated` and `disk` are where the lines of a
//! row's buildings are and what is written beside them goes, and `wrong` has the rows that must not
//! hold. Nothing is proved of the rows themselves, and a row more costs no proof: `rows texts.rows`
//! is a call.
#![tactic(auto)]

mod answering;
mod disk;
mod pages;
mod running;
mod simulated;
mod wrong;

use livehouse::{DownReasons, HostDevices, HostSite, LineStarter, Site};
use pages::judge_page;
use running::judge_lines;
use std::process::ExitCode;
use std::rt::{Env, Files};
use std::sync::{Arc, Wait};
use std::thread::Threads;
use std::time::Clock as Timer;
use std::{env, fs, io};
use workedrows::{Judge, RowsStop};
use wrong::{Wrong, refuse_all};

fn main(rt: HostRuntime) -> io::Result<ExitCode> {
    let devices = HostDevices { rt };
    let site = HostSite {
        rt: &rt,
        devices: &devices,
        starter: &LineStarter::start(rt.alloc(), rt)?,
        reasons: &Arc::new(rt.alloc(), DownReasons::new(rt.alloc()))?,
    };
    match judge_files(&rt, &site) {
        Ok((rows, wrong)) => {
            println!(rt; "{rows} rows hold, and {wrong} wrong rows don't")?;
            Ok(ExitCode::SUCCESS)
        }
        Err(stop) => {
            println!(rt; "{stop}")?;
            Ok(ExitCode::FAILURE)
        }
    }
}

/// How many rows there are in the files that the command line names, where all of them hold, and
/// how many wrong ones in the files whose names begin with `wrong`, where none of these does.
///
/// # Errors
///
/// A file that is not read, or the first row that does not hold, or that holds though it is wrong.
fn judge_files<R: Files + Env + AllocGlobal + Threads + Wait + Timer + Sync, S: Site + Sync>(
    rt: &R,
    site: &S,
) -> Result<(u32, u32), RowsStop> {
    let mut judge = Judge::new(rt.alloc());
    let mut wrong: u32 = 0;
    for path in env::args(rt)?.skip(1) {
        let text = fs::read_to_string(rt, path.as_str())?;
        let is_page = path.as_str().ends_with(".md");
        match (path.as_str().starts_with("wrong"), is_page) {
            (true, _) => {
                let kind = if is_page { Wrong::Pages } else { Wrong::Rows };
                wrong = wrong.saturating_add(refuse_all(rt, site, kind, &text)?);
            }
            (false, true) => judge_page(&mut judge, rt, site, path.as_str(), &text)?,
            (false, false) => judge_lines(&mut judge, rt, site, &text)?,
        }
    }
    Ok((judge.rows(), wrong))
}
