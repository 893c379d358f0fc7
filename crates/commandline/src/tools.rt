//! What is done at one line.

use commandoptions::{LineWord, LiveFiles};

/// What is done at one line. All answers of a transaction may take the milliseconds of its patience,
/// 100 to 60,000.
#[derive(Clone, Copy)]
pub enum Tool<'a> {
    /// `probe --line PATH [--patience MS] [TEXT BIND] [--bus B] [--record FILE] [--json]`
    Probe {
        line: LineWord<'a>,
        patience: u32,
        /// What is compared with the line, where it is given.
        against: Option<LiveFiles<'a>>,
        /// The path to which the gear goes as a scenario, where one is given.
        record: Option<&'a str>,
        /// Whether what is found is printed as JSON.
        is_json: bool,
    },
    /// `listen --line PATH [--patience MS] [--bind FILE] [--bus B] [--record FILE] [--for SECONDS]
    /// [--stop PATH]`
    Listen {
        line: LineWord<'a>,
        patience: u32,
        /// The path of the binding by which sources are named, where one is given.
        binding: Option<&'a str>,
        /// The path to which a scenario of what was heard goes, where one is given.
        record: Option<&'a str>,
        end: GivenListenEnd<'a>,
    },
    /// `blink --line PATH [--patience MS] ADR`: the short address, 0 to 63.
    Blink {
        line: LineWord<'a>,
        patience: u32,
        address: u8,
    },
    /// `ask --line PATH [--patience MS] REQUEST ADR [VALUE] [VALUE2]`
    Request {
        line: LineWord<'a>,
        patience: u32,
        words: GivenRequest<'a>,
    },
}

/// When the listening at a line ends.
#[derive(Clone, Copy)]
pub struct GivenListenEnd<'a> {
    /// The seconds after which it ends, where they are given.
    pub seconds: Option<u32>,
    /// The path of the file by which it is ended, where one is given.
    pub stop: Option<&'a str>,
}

/// A request to what is on a bus, in words: the name of a function block, and the numbers of its
/// ports after `REQ` and `BUS`.
#[derive(Clone, Copy)]
pub struct GivenRequest<'a> {
    /// The block's name.
    pub request: &'a str,
    /// The number of its port `ADR`, 0 to 80.
    pub address: u8,
    /// The number of the port after `ADR`, 0 to 255, where it is given.
    pub value: Option<u32>,
    /// The number of the port after that one, 0 to 255, where it is given.
    pub second_value: Option<u32>,
}
