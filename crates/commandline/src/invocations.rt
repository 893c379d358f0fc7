//! What the user asks for.

use crate::expected_words::ExpectedWords;
use crate::line_words::LineWords;
use crate::questions::Question;
use crate::tools::Tool;
use crate::watched_names::WatchedNames;
use commandoptions::{Files, Inquiry, LiveFiles, LiveOptions, PlayFiles, RunSize};

/// What the user asks for.
#[derive(Drop)]
pub enum Invocation<'a> {
    /// An answer to a text.
    Ask(Inquiry<'a>),
    /// `play TEXT BIND SCENARIO [--keep FILE] [--limit N] [--names] [--brief]
    /// [--expect NAME=VALUE].. [--watch NAME]..`, here and in the two others of a scenario also
    /// with `--bind FILE` in place of BIND
    Play {
        files: PlayFiles<'a>,
        limit: u32,
        shows: PlayShows<'a>,
    },
    /// `run TEXT BIND SCENARIO [--keep FILE] [--limit N] [--workers W]`
    Run {
        files: PlayFiles<'a>,
        size: RunSize,
    },
    /// `live TEXT BIND --line B=PATH.. [--period MS] [--for SECONDS] [--stop PATH] [--limit N]
    /// [--workers W] [--patience MS] [--end-on-down] [--stay] [--log FILE] [--log-size BYTES]
    /// [--record FILE] [--status FILE] [--json] [--keep FILE]`
    Live {
        files: LiveFiles<'a>,
        lines: LineWords<'a>,
        options: LiveOptions<'a>,
    },
    /// What is done at one line.
    Tool(Tool<'a>),
    /// `look TEXT BIND SCENARIO [--keep FILE] [--text] [--out FILE] [--bus B] [--from MS] [--to MS]
    /// [--watch NAME]..`
    Look {
        files: PlayFiles<'a>,
        options: LookOptions<'a>,
        /// The variables that have a row each.
        watches: WatchedNames<'a>,
    },
    /// A question about a text.
    Tell {
        files: Files<'a>,
        question: Question<'a>,
    },
    /// `code TEXT [BIND] [TASK] OUT`: the code file of the task goes to this path.
    Code {
        files: Files<'a>,
        /// The task's name; without one, the text has one task.
        task: Option<&'a str>,
        to: &'a str,
    },
    /// `check --code TEXT`: whether the code of the code file at this path is accepted.
    CheckCode {
        path: &'a str,
    },
    /// `frame HEX [HEX2] [HEX3] [HEX4]`: what frames say.
    Frame {
        words: GivenFrames<'a>,
    },
    /// `event BIND B.K INFORMATION`: the scenario's line of an event.
    EventLine {
        /// The path of the binding.
        binding: &'a str,
        /// The bus and the source's number there, as they were given.
        source: &'a str,
        /// The event's information, 0 to 1023.
        information: u32,
    },
}

/// What a play shows beside what happens.
#[derive(Drop)]
pub struct PlayShows<'a> {
    /// Whether frames are in words too.
    pub names: bool,
    /// Whether moments are left out at which nothing was heard, handed or changed, nor went wrong.
    pub is_brief: bool,
    /// What is expected at the end.
    pub expects: ExpectedWords<'a>,
    /// The variables whose changes are shown.
    pub watches: WatchedNames<'a>,
}

/// What of a scenario a picture shows, and where the picture goes.
#[derive(Clone, Copy)]
pub struct LookOptions<'a> {
    /// Whether it is lines for a terminal in place of an SVG.
    pub is_text: bool,
    /// The path of the file to which it goes, where one is given; else it is printed.
    pub to: Option<&'a str>,
    /// The bus that alone is shown, 0 to 63, where one is given.
    pub bus: Option<u32>,
    /// The milliseconds at which it begins, where they are given.
    pub from: Option<u32>,
    /// The milliseconds at which it ends, where they are given.
    pub until: Option<u32>,
}

/// The words for frames, one to four.
#[derive(Clone, Copy)]
pub struct GivenFrames<'a> {
    /// The first, which is always given.
    pub first: &'a str,
    /// The others, of which those that are given come first.
    pub others: [Option<&'a str>; 3],
}
