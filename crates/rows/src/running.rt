//! Running the command lines of rows.

use crate::disk::RowsDisk;
use crate::simulated::RowsSite;
use commands::run;
use livehouse::Site;
use std::sync::Wait;
use std::thread::Threads;
use std::time::Clock as Timer;
use workedrows::{CommandLine, Judge, RowsStop};

/// Judges the lines of rows, whose commands take the threads of this runtime, and lines at this
/// site.
///
/// # Errors
///
/// The first row that does not hold, or a line that is none of a row.
pub fn judge_lines<T: Threads + Wait + Timer + Sync, S: Site + Sync>(
    judge: &mut Judge,
    threads: &T,
    site: &S,
    text: &str,
) -> Result<(), RowsStop> {
    for line in text.split('\n') {
        if let Some(command) = judge.take_line(line)? {
            run_line(judge, threads, site, &command)?;
        }
    }
    judge.end_part()
}

/// Runs a command line over the files of the row.
///
/// # Errors
///
/// Memory was refused.
fn run_line<T: Threads + Wait + Timer + Sync, S: Site + Sync>(
    judge: &mut Judge,
    threads: &T,
    host: &S,
    line: &CommandLine,
) -> Result<(), RowsStop> {
    let disk = RowsDisk::new(judge.alloc(), judge.copied_files()?);
    let machine = judge.machine(line);
    let site = RowsSite { host, disk: &disk };
    let status = run(&machine, threads, &site).number();
    let mut output = machine.into_output();
    let left = disk.into_left();
    output.complained.extend_from_slice(&left.told)?;
    judge.note_end(status, output);
    if left.is_written {
        judge.replace_files(left.files);
    }
    Ok(())
}
