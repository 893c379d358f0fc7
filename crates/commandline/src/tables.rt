//! The commands of the line, each with its words.

use crate::words::Word;

/// The program's version, the kit that proves it, and where it is from. `packaging/parts` writes
/// the commit, and whether the program is proved, in place of the last words, which are as long.
pub(crate) const VERSION: &str = "0.16.0, rattle-kit-13f, built in a checkout and not packed";

/// A command: its name, what the help says of it, its usage, its words, and what its help ends
/// with.
#[derive(Clone, Copy)]
pub(crate) struct Subcommand {
    pub(crate) name: &'static str,
    pub(crate) about: &'static str,
    pub(crate) usage: &'static str,
    pub(crate) words: &'static [Word],
    /// What its exit statuses mean, and an example.
    pub(crate) end: &'static str,
}

const TEXT: Word = Word::Wanted("TEXT", "The text of the programs, or - for standard input");

const BIND: Word = Word::Wanted("BIND", "The binding of buses");

const BOUND: Word = Word::Optional("BIND", "The binding of buses [default: one bus]");

const BINDING: Word = Word::Valued("bind", "FILE", "The binding of buses, in place of BIND");

const TASK: Word = Word::Optional(
    "TASK",
    "The task's name, in any letter case [default: the only one]",
);

const BEHIND: Word = Word::Optional("BIND", "The binding of buses, or with --bind the scenario");

const SCENARIO: Word = Word::Optional("SCENARIO", "What is on the buses and what happens there");

const KEPT: Word = Word::Valued(
    "keep",
    "FILE",
    "Begins with the values that this file keeps",
);

const JSON: Word = Word::Flag("json", "Prints one object of JSON");

const LIMIT: Word = Word::Number(
    "limit",
    "N",
    100,
    1_000_000,
    "The most events of the history, 100..1000000 [default: 100000]",
);

const EVENTS: Word = Word::Number(
    "limit",
    "N",
    100,
    1_000_000,
    "The most events of one run, after which it goes on, 100..1000000 [default: 100000]",
);

const SCANS: Word = Word::Number(
    "scans",
    "N",
    1,
    1_000_000,
    "How many scans, 1..1000000 [default: 1]",
);

const EVERY: Word = Word::Number(
    "every",
    "MS",
    0,
    4_294_967_295,
    "Milliseconds from scan to scan, 0..4294967295 [default: 100]",
);

const WORKERS: Word = Word::Number(
    "workers",
    "W",
    1,
    16,
    "How many scan workers, 1..16 [default: 2]",
);

const LINE: Word = Word::Repeated(
    "line",
    "B=PATH",
    "The line of bus B, given for each bus: one path, or FROM,TO to read and to write",
);

const PATH: Word = Word::WantedValued(
    "line",
    "PATH",
    "The line of the bus: one path, or FROM,TO to read and to write",
);

const BUS: Word = Word::Number(
    "bus",
    "B",
    0,
    63,
    "The number of the line's bus, 0..63 [default: 0]",
);

const PERIOD: Word = Word::Number(
    "period",
    "MS",
    1,
    60_000,
    "Milliseconds from tick to tick, 1..60000 [default: the text's least INTERVAL]",
);

const SECONDS: Word = Word::Number(
    "for",
    "SECONDS",
    1,
    4_294_967,
    "Ends after so many seconds, 1..4294967 [default: never]",
);

const STOP: Word = Word::Valued("stop", "PATH", "Ends once there is a file at this path");

const PATIENCE: Word = Word::Number(
    "patience",
    "MS",
    100,
    60_000,
    "Milliseconds that all answers of a transaction may take, 100..60000 [default: 1000]",
);

const LOG_SIZE: Word = Word::Number(
    "log-size",
    "BYTES",
    10_000,
    4_000_000_000,
    "The bytes of one file of the log, 10000..4000000000 [default: 16000000]",
);

pub(crate) const CHECK: Subcommand = Subcommand {
    name: "check",
    about: "Prints for each task its words and the bound of a scan, or the first fault",
    usage: "dalictl check [OPTIONS] <TEXT> [BIND]",
    words: &[
        TEXT,
        BOUND,
        BINDING,
        Word::Flag("code", "TEXT is a code file, which has no binding"),
        JSON,
    ],
    end: "Exit status: 0 accepted, 1 refused, 2 wrong usage, 3 a file isn't read.{n}{n}\
          Example: dalictl check hall.il hall.bind",
};

pub(crate) const EXPLAIN: Subcommand = Subcommand {
    name: "explain",
    about: "Explains the first thing that stands against a text, or prints notes on it",
    usage: "dalictl explain [OPTIONS] <TEXT> [BIND [SCENARIO]]",
    words: &[
        TEXT,
        Word::Optional(
            "BIND",
            "The binding of buses [default: one bus], or with --bind the scenario",
        ),
        Word::Optional("SCENARIO", "A scenario that is explained too"),
        BINDING,
        JSON,
    ],
    end: "Exit status: 0 nothing stands against it, 1 refused, 2 wrong usage, 3 a file isn't read.\
          {n}{n}Example: dalictl explain hall.il hall.bind hall.scenario",
};

pub(crate) const NOTES: Subcommand = Subcommand {
    name: "notes",
    about: "Prints what is likely not meant in an accepted text",
    usage: "dalictl notes [OPTIONS] <TEXT> [BIND]",
    words: &[
        TEXT,
        BOUND,
        BINDING,
        Word::Valued(
            "deny",
            "NOTE",
            "Ends with 1 where a note of this name is printed, or any note with all",
        ),
        JSON,
    ],
    end: "Exit status: 0 accepted, 1 refused or a note is denied, 2 wrong usage, \
          3 a file isn't read.{n}{n}Example: dalictl notes hall.il hall.bind --deny all",
};

pub(crate) const LIST: Subcommand = Subcommand {
    name: "list",
    about: "Prints the words of tasks, what is known before each, and the longest path",
    usage: "dalictl list [OPTIONS] <TEXT> [BIND] [TASK]",
    words: &[
        TEXT,
        BOUND,
        Word::Optional(
            "TASK",
            "The task's name, in any letter case [default: all tasks]",
        ),
        BINDING,
        JSON,
    ],
    end: "A word alone behind TEXT that has a . or a / is BIND, and any other is TASK.{n}{n}\
          Exit status: 0 accepted, 1 refused or no such task, 2 wrong usage, \
          3 a file isn't read.{n}{n}Example: dalictl list hall.il hall.bind push",
};

pub(crate) const CODE: Subcommand = Subcommand {
    name: "code",
    about: "Writes the code of one task to a code file",
    usage: "dalictl code [OPTIONS] <TEXT> [BIND] [TASK] <OUT>",
    words: &[
        TEXT,
        BOUND,
        TASK,
        Word::Optional("OUT", "The code file that is written, the last word"),
        BINDING,
    ],
    end: "A word alone between TEXT and OUT that has a . or a / is BIND, and any other is TASK.\
          {n}{n}Exit status: 0 written, 1 refused or no such task, 2 wrong usage, \
          3 a file isn't read or written.{n}{n}\
          Example: dalictl code hall.il hall.bind push push.code",
};

pub(crate) const STEP: Subcommand = Subcommand {
    name: "step",
    about: "Runs scans of one task and prints its variables",
    usage: "dalictl step [OPTIONS] <TEXT> [BIND] [TASK]",
    words: &[TEXT, BOUND, TASK, BINDING, SCANS, EVERY],
    end: "A word alone behind TEXT that has a . or a / is BIND, and any other is TASK.{n}{n}\
          Exit status: 0 scanned, 1 refused or no such task, 2 wrong usage, \
          3 a file isn't read.{n}{n}Example: dalictl step hall.il hall.bind push --scans 3",
};

pub(crate) const PLAY: Subcommand = Subcommand {
    name: "play",
    about: "Plays a scenario on simulated buses and prints what happens",
    usage: "dalictl play [OPTIONS] <TEXT> <BIND> <SCENARIO>",
    words: &[
        TEXT,
        BEHIND,
        SCENARIO,
        BINDING,
        KEPT,
        LIMIT,
        Word::Flag("names", "Prints behind each frame what it says in words"),
        Word::Flag(
            "brief",
            "Leaves out moments at which nothing was heard, handed or changed, nor went wrong",
        ),
        Word::Listed(
            "expect",
            "NAME=VALUE",
            "What a value must be at the end, at most 16 times; where it isn't, the status is 1",
        ),
        Word::Listed(
            "watch",
            "NAME",
            "Prints a variable's value behind each commit that finds it changed, at most 16 times",
        ),
    ],
    end: "Exit status: 0 played, 1 refused or not as expected, 2 wrong usage or no such name, \
          3 a file isn't read, or a bus is down.{n}{n}\
          Example: dalictl play hall.il hall.bind hall.scenario --names",
};

pub(crate) const LOOK: Subcommand = Subcommand {
    name: "look",
    about: "Plays a scenario on simulated buses and prints a picture of it",
    usage: "dalictl look [OPTIONS] <TEXT> <BIND> <SCENARIO>",
    words: &[
        TEXT,
        BEHIND,
        SCENARIO,
        BINDING,
        KEPT,
        Word::Flag("text", "Prints lines for a terminal in place of an SVG"),
        Word::Valued("out", "FILE", "Writes the picture to this file"),
        Word::Number(
            "bus",
            "B",
            0,
            63,
            "Shows this bus alone, 0..63 [default: all buses]",
        ),
        Word::Number(
            "from",
            "MS",
            0,
            4_294_967_295,
            "Begins at this millisecond, 0..4294967295 [default: the first]",
        ),
        Word::Number(
            "to",
            "MS",
            0,
            4_294_967_295,
            "Ends at this millisecond, 0..4294967295 [default: the last]",
        ),
        Word::Listed(
            "watch",
            "NAME",
            "Draws a row of a variable's values, at most 16 times",
        ),
    ],
    end: "Exit status: 0 drawn, 1 refused, 2 wrong usage or no such name, \
          3 a file isn't read or written, or a bus is down.{n}{n}\
          Example: dalictl look hall.il hall.bind hall.scenario > hall.svg",
};

pub(crate) const RUN: Subcommand = Subcommand {
    name: "run",
    about: "Runs a scenario on simulated buses in threads and prints what it came to",
    usage: "dalictl run [OPTIONS] <TEXT> <BIND> <SCENARIO>",
    words: &[TEXT, BEHIND, SCENARIO, BINDING, KEPT, LIMIT, WORKERS],
    end: "Exit status: 0 it came to the scenario's end, 1 refused, 2 wrong usage, \
          3 a file isn't read, or a bus is down.{n}{n}\
          Example: dalictl run hall.il hall.bind hall.scenario",
};

pub(crate) const PROBE: Subcommand = Subcommand {
    name: "probe",
    about: "Asks each address of one line and prints what is there",
    usage: "dalictl probe [OPTIONS] --line <PATH> [TEXT BIND]",
    words: &[
        PATH,
        PATIENCE,
        Word::Optional(
            "TEXT",
            "The text of the programs, which the line is compared with",
        ),
        Word::Optional("BIND", "The binding of buses, which TEXT must have"),
        BUS,
        Word::Valued(
            "record",
            "FILE",
            "Writes the gear that answers as a scenario to this file",
        ),
        JSON,
    ],
    end: "Exit status: 0 the line did not fail, 1 refused, 2 wrong usage, 3 the line failed.{n}{n}\
          Example: dalictl probe --line /dev/ttyUSB0",
};

pub(crate) const LISTEN: Subcommand = Subcommand {
    name: "listen",
    about: "Prints the events of one line as they come",
    usage: "dalictl listen [OPTIONS] --line <PATH>",
    words: &[
        PATH,
        PATIENCE,
        Word::Valued(
            "bind",
            "FILE",
            "The binding of buses, by which sources are named",
        ),
        BUS,
        Word::Valued(
            "record",
            "FILE",
            "Writes a scenario of the events to this file",
        ),
        SECONDS,
        STOP,
    ],
    end: "Exit status: 0 the line did not fail, 1 refused, 2 wrong usage, 3 the line failed.{n}{n}\
          Example: dalictl listen --line /dev/ttyUSB0 --bind hall.bind --for 60",
};

pub(crate) const BLINK: Subcommand = Subcommand {
    name: "blink",
    about: "Blinks one control gear of one line",
    usage: "dalictl blink [OPTIONS] --line <PATH> <ADR>",
    words: &[
        PATH,
        PATIENCE,
        Word::WantedNumber("ADR", 0, 63, "The short address, 0..63"),
    ],
    end: "Exit status: 0 the line did not fail, 2 wrong usage, 3 the line failed.{n}{n}\
          Example: dalictl blink --line /dev/ttyUSB0 5",
};

pub(crate) const ASK: Subcommand = Subcommand {
    name: "ask",
    about: "Makes one request to one line and prints the answer",
    usage: "dalictl ask [OPTIONS] --line <PATH> <REQUEST> <ADR> [VALUE] [VALUE2]",
    words: &[
        PATH,
        PATIENCE,
        Word::Wanted(
            "REQUEST",
            "The block or the command that makes it, such as GEAR_ASK or query-status",
        ),
        Word::WantedNumber("ADR", 0, 80, "Its port ADR, 0..80"),
        Word::OptionalNumber("VALUE", 0, 255, "Its port after ADR, 0..255"),
        Word::OptionalNumber("VALUE2", 0, 255, "Its port after that one, 0..255"),
    ],
    end: "Exit status: 0 the line did not fail, 2 wrong usage or no such request, \
          3 the line failed.{n}{n}Example: dalictl ask --line /dev/ttyUSB0 query-status 5",
};

pub(crate) const LIVE: Subcommand = Subcommand {
    name: "live",
    about: "Runs a building over the lines of its buses and prints what it came to",
    usage: "dalictl live [OPTIONS] --line <B=PATH> <TEXT> <BIND>",
    words: &[
        TEXT,
        BIND,
        LINE,
        PERIOD,
        SECONDS,
        STOP,
        EVENTS,
        WORKERS,
        PATIENCE,
        Word::Flag("end-on-down", "Ends where a bus has gone down"),
        Word::Flag(
            "stay",
            "Has no effect, since a building goes on where a bus has gone down",
        ),
        Word::Valued(
            "log",
            "FILE",
            "Writes what happens on the buses to this file, or with - to standard error",
        ),
        LOG_SIZE,
        Word::Valued(
            "record",
            "FILE",
            "Writes a scenario of what happened to this file",
        ),
        Word::Valued(
            "status",
            "FILE",
            "Writes each second to this file how the building stands",
        ),
        Word::Flag("json", "Writes as JSON how the building stands"),
        Word::Valued(
            "keep",
            "FILE",
            "Begins with the values that this file keeps, and keeps them",
        ),
    ],
    end: "Exit status: 0 it ended as it was asked to, 1 refused, 2 wrong usage, \
          3 a bus is down at the end, or a file isn't read.{n}{n}\
          Example: dalictl live hall.il hall.bind --line 0=/dev/ttyUSB0 --stop /tmp/hall.stop",
};

const FRAME: Subcommand = Subcommand {
    name: "frame",
    about: "Prints in words what frames say",
    usage: "dalictl frame <HEX> [HEX2] [HEX3] [HEX4]",
    words: &[
        Word::Wanted(
            "HEX",
            "A frame in 4 or 6 hex digits, such as FF05, or - for standard input",
        ),
        Word::Optional("HEX2", "The frame after it"),
        Word::Optional("HEX3", "The frame after that one"),
        Word::Optional("HEX4", "The last frame"),
    ],
    end: "Exit status: 0 they are frames, 2 wrong usage.{n}{n}Example: dalictl frame C14402 FF00",
};

const EVENT: Subcommand = Subcommand {
    name: "event",
    about: "Prints the line of a scenario by which a source of the binding sends an event",
    usage: "dalictl event <BIND> <B.K> <INFORMATION>",
    words: &[
        BIND,
        Word::Wanted("B.K", "The bus and the source's number there, such as 0.3"),
        Word::WantedNumber("INFORMATION", 0, 1023, "The event's information, 0..1023"),
    ],
    end: "Exit status: 0 there is such a source, 1 refused, 2 wrong usage, 3 a file isn't read.\
          {n}{n}Example: dalictl event hall.bind 0.0 2",
};

/// The commands at the desk: the first of the help. The commands stand in tables of a few each,
/// since a proof of one table takes the square of its words.
pub(crate) const DESK: [Subcommand; 5] = [CHECK, EXPLAIN, NOTES, LIST, CODE];

/// The commands that try a text out.
pub(crate) const TRYING: [Subcommand; 4] = [STEP, PLAY, LOOK, RUN];

/// The commands at one line.
pub(crate) const AT_LINE: [Subcommand; 4] = [PROBE, LISTEN, BLINK, ASK];

/// The command for a building, and those by hand: the last of the help.
pub(crate) const LAST: [Subcommand; 3] = [LIVE, FRAME, EVENT];

/// The help of the program, whose commands stand as in the tables.
pub(crate) const HELP: &str = "\
Checks and runs Instruction List programs for DALI-2 lighting buses

Usage: dalictl <COMMAND>

At the desk:
  check    Prints for each task its words and the bound of a scan, or the first fault
  explain  Explains the first thing that stands against a text, or prints notes on it
  notes    Prints what is likely not meant in an accepted text
  list     Prints the words of tasks, what is known before each, and the longest path
  code     Writes the code of one task to a code file

Trying:
  step     Runs scans of one task and prints its variables
  play     Plays a scenario on simulated buses and prints what happens
  look     Plays a scenario on simulated buses and prints a picture of it
  run      Runs a scenario on simulated buses in threads and prints what it came to

On a bus:
  probe    Asks each address of one line and prints what is there
  listen   Prints the events of one line as they come
  blink    Blinks one control gear of one line
  ask      Makes one request to one line and prints the answer
  live     Runs a building over the lines of its buses and prints what it came to

By hand:
  frame    Prints in words what frames say
  event    Prints the line of a scenario by which a source of the binding sends an event

Options:
  -h, --help     Print help
  -V, --version  Print version

Exit status:
  0  done
  1  refused, not as expected, or a task that isn't there
  2  wrong usage, or another name that isn't there
  3  a file isn't read or written, a bus is down, or memory ran out

Each command has its own help, with its words and an example: dalictl COMMAND --help";
