//! The lines of a log, with what the frames in them say.

use crate::wording::{add_frame, frame_of};
use commandfiles::{DiskFault, ExitStatus, Unserved, reason};
use daliwords::FrameWords;
use printout::Printout;
use std::alloc::Global;
use std::fs::File;
use std::io;
use std::io::{BufRead, BufReader, Read, Write};
use std::rt::Files;

/// The word for standard input in place of frames.
pub(crate) const STANDARD_INPUT: &str = "-";

/// The file of standard input.
const STANDARD_INPUT_FILE: &str = "/dev/stdin";

/// Prints each line of standard input, with what the frames in it say; the writer, and how the
/// program ends. What is printed is by rows alone.
///
/// # Errors
///
/// Standard input cannot be read, or the writer's error.
pub(crate) fn serve_log<'a, R: Files, W: Write + Drop>(
    rt: &R,
    alloc: Global,
    mut to: W,
) -> Result<(W, ExitStatus), Unserved<'a>> {
    let input = match File::open(rt, STANDARD_INPUT_FILE) {
        Ok(input) => input,
        Err(error) => return Err(unread(reason(error.kind()))),
    };
    decode_lines(alloc, &mut to, input)?;
    Ok((to, ExitStatus::Accepted))
}

/// Writes each line of an input as soon as it has come, with what the frames in it say.
fn decode_lines<'a, R: Read + Drop, W: Write>(
    alloc: Global,
    to: &mut W,
    input: R,
) -> Result<(), Unserved<'a>> {
    for line in BufReader::new(alloc, input)?.lines(alloc) {
        match line {
            Ok(line) => write_line(alloc, to, &line)?,
            Err(error) => return Err(unread(reason(error.kind()))),
        }
    }
    Ok(())
}

/// Standard input is not read, for this reason.
fn unread<'a>(why: DiskFault) -> Unserved<'a> {
    let path = STANDARD_INPUT;
    Unserved::NotRead { path, why }
}

/// Writes a line with what the frames in it say, in one piece.
fn write_line<W: Write>(alloc: Global, to: &mut W, line: &str) -> io::Result<()> {
    let mut page = Printout::new(alloc);
    add_line(&mut page, line);
    page.write_to(to)
}

/// Adds a line of a log with what the frames in it say. A line of frames alone is a line for each,
/// as `frame` prints them; of any other the frames are said behind it that stand behind `send`,
/// `event`, `heard` or `hand`. A line with a parenthesis says them already.
fn add_line(page: &mut Printout, line: &str) {
    if is_of_frames(line) {
        for word in line.split_ascii_whitespace() {
            add_frame(page, word);
        }
        return;
    }
    page.text(line);
    if !line.contains('(') {
        add_said(page, line);
    }
    page.text("\n");
}

/// Whether each word of a line is a frame, and there is one.
fn is_of_frames(line: &str) -> bool {
    let mut has_some = false;
    for word in line.split_ascii_whitespace() {
        if frame_of(word).is_none() {
            return false;
        }
        has_some = true;
    }
    has_some
}

/// Adds what the frames say that stand behind a word that has frames behind it.
fn add_said(page: &mut Printout, line: &str) {
    let mut is_behind = false;
    let mut is_first = true;
    for word in line.split_ascii_whitespace() {
        if matches!(word, "send" | "event" | "heard" | "hand") {
            is_behind = true;
        }
        if let (true, Some(frame)) = (is_behind, frame_of(word)) {
            page.text(if is_first { ": " } else { ", " });
            is_first = false;
            page.shown(&FrameWords(frame));
        }
    }
}
