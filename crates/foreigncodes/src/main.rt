//! The program `foreigncodes`: bytes that may be code files, made by others or torn on the way, and
//! what becomes of each.
//!
//! What crosses the boundary: one word of the command line, how many random files are tried, and
//! three lines for each version with how many files had which end (`tally`): of all fronts of a
//! worked file, of the file with each single bit changed (`worked`), and of random files
//! (`random_files`), which have functions in version 2. What is read as a code is written again;
//! what is accepted is scanned from values at each end of its slots' types, and at random
//! (`trials`). A file that is written otherwise, and a scan that exceeds its bound or leaves a
//! type, is wrong, and the exit status is 1: `foreign 100000` is a call.
#![tactic(auto)]

mod bodies;
mod random_files;
mod tally;
mod trials;
mod values;
mod worked;

use random_files::RandomFiles;
use std::alloc::{AllocError, Global};
use std::process::ExitCode;
use std::rt::Env;
use std::{env, io};
use tally::{Ends, Tally};
use trials::tried;
use worked::{CALLING, STRAIGHT, changed, fronts};

fn main(rt: HostRuntime) -> io::Result<ExitCode> {
    let count = asked(&rt)?;
    let old = Ends {
        fronts: fronts(rt.alloc(), &STRAIGHT)?,
        changed: changed(rt.alloc(), &STRAIGHT)?,
        random: random(rt.alloc(), count)?,
    };
    let new = Ends {
        fronts: fronts(rt.alloc(), &CALLING)?,
        changed: changed(rt.alloc(), &CALLING)?,
        random: random_with_functions(rt.alloc(), count)?,
    };
    println!(rt; "version 1")?;
    println!(rt; "{old}")?;
    println!(rt; "version 2")?;
    println!(rt; "{new}")?;
    Ok(if old.are_good() && new.are_good() {
        ExitCode::SUCCESS
    } else {
        ExitCode::FAILURE
    })
}

/// How many random files the command line asks for; 1,000 where it says nothing.
fn asked<R: Env + AllocGlobal>(rt: &R) -> io::Result<u32> {
    for word in env::args(rt)?.skip(1) {
        if let Ok(count) = word.as_str().parse::<u32>() {
            return Ok(count);
        }
    }
    Ok(1000)
}

/// What becomes of the given number of random files.
fn random(alloc: Global, count: u32) -> Result<Tally, AllocError> {
    let mut files = RandomFiles::new(42);
    let mut tally = Tally::default();
    for _ in 0..count {
        let bytes = files.next(alloc)?;
        tally.count(tried(alloc, &bytes, files.word())?);
    }
    Ok(tally)
}

/// What becomes of the given number of random files with functions.
fn random_with_functions(alloc: Global, count: u32) -> Result<Tally, AllocError> {
    let mut files = RandomFiles::new(43);
    let mut tally = Tally::default();
    for _ in 0..count {
        let bytes = files.next_with_functions(alloc)?;
        tally.count(tried(alloc, &bytes, files.word())?);
    }
    Ok(tally)
}
