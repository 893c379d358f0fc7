//! Whether a command writes what it reads.

use crate::paths::{PathFault, Writing, Written, check_paths};
use crate::replaced::check_code_file;
use commandline::{Invocation, Tool};
use commandoptions::{LineWord, LiveFiles, LiveOptions};
use std::alloc::{AllocError, Global};
use std::rt::Files;

/// Whether what the user asks for writes to no path that it reads, to each path one thing, a file
/// that stays open for long only where a regular one is or may come, and a code file in place of no
/// file but another one.
///
/// # Errors
///
/// The first path that is otherwise, and why; or the allocator is out of memory.
pub fn check_invocation<R: Files>(
    rt: &R,
    alloc: Global,
    invocation: &Invocation,
) -> Result<(), PathFault> {
    match invocation {
        Invocation::Code { files, to, .. } => {
            let written = anew(Some(*to), "the code file");
            let binding = files.binding.unwrap_or(files.text);
            check_paths(rt, alloc, &[files.text, binding], &[written])?;
            check_code_file(rt, alloc, *to, files.binding.is_some())
        }
        Invocation::Look { files, options, .. } => {
            let kept = files.keep.unwrap_or(files.scenario);
            let reads = [files.text, files.binding, files.scenario, kept];
            check_paths(rt, alloc, &reads, &[anew(options.to, "the picture")])
        }
        Invocation::Tool(tool) => check_tool(rt, alloc, tool),
        Invocation::Live {
            files,
            lines,
            options,
        } => check_live(rt, alloc, files, lines, options),
        _ => Ok(()),
    }
}

/// Whether a command at one line writes to no path that it reads.
///
/// # Errors
///
/// As of [`check_invocation`].
fn check_tool<R: Files>(rt: &R, alloc: Global, tool: &Tool) -> Result<(), PathFault> {
    let (line, first, second, path) = match tool {
        Tool::Probe {
            line,
            against,
            record,
            ..
        } => match against {
            Some(files) => (line, files.binding, files.text, *record),
            None => (line, line.from, line.from, *record),
        },
        Tool::Listen {
            line,
            binding,
            record,
            end,
            ..
        } => {
            let binding = binding.unwrap_or(line.from);
            (line, binding, end.stop.unwrap_or(line.from), *record)
        }
        Tool::Blink { .. } | Tool::Request { .. } => return Ok(()),
    };
    let reads = [first, second, line.from, line.to.unwrap_or(line.from)];
    let written = Written {
        path,
        what: "the record",
        writing: Writing::Whole,
    };
    check_paths(rt, alloc, &reads, &[written])
}

/// Whether a building writes to no path that it reads, and to each path one thing.
///
/// # Errors
///
/// As of [`check_invocation`].
fn check_live<R: Files>(
    rt: &R,
    alloc: Global,
    files: &LiveFiles,
    lines: &[LineWord],
    options: &LiveOptions,
) -> Result<(), PathFault> {
    let reads = live_reads(alloc, files, lines, options.stop)?;
    check_paths(rt, alloc, &reads, &live_writes(options))
}

/// The paths that a building reads.
///
/// # Errors
///
/// The allocator is out of memory.
fn live_reads<'a>(
    alloc: Global,
    files: &LiveFiles<'a>,
    lines: &[LineWord<'a>],
    stop: Option<&'a str>,
) -> Result<Vec<&'a str>, AllocError> {
    let mut reads = Vec::new(alloc);
    reads.extend_from_slice(&[files.binding, files.text, stop.unwrap_or(files.text)])?;
    for line in lines {
        reads.extend_from_slice(&[line.from, line.to.unwrap_or(line.from)])?;
    }
    Ok(reads)
}

/// What a building writes.
fn live_writes<'a>(options: &LiveOptions<'a>) -> [Written<'a>; 4] {
    let beside = &options.beside;
    [
        Written {
            path: beside.log.filter(|path| *path != "-"),
            what: "the log",
            writing: Writing::Behind,
        },
        Written {
            path: beside.record,
            what: "the record",
            writing: Writing::AsideKept,
        },
        Written {
            path: beside.status,
            what: "the status",
            writing: Writing::Whole,
        },
        Written {
            path: beside.keep,
            what: "what is kept",
            writing: Writing::Aside,
        },
    ]
}

/// A file that is written anew, or a device.
fn anew<'a>(path: Option<&'a str>, what: &'static str) -> Written<'a> {
    Written {
        path,
        what,
        writing: Writing::Anew,
    }
}
