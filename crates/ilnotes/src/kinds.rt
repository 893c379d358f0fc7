//! What notes say: a name, by which `--deny` asks for them, and a text, in which `{0}` to `{3}` are
//! what was found; and the rules in their order.

/// The names of notes, in alphabetical order.
pub const NOTE_NAMES: [&str; 44] = [
    "always-same",
    "bus-load",
    "command-beside-level",
    "comment-in-comment",
    "count-without-number",
    "done-twice",
    "double-source",
    "foreign-information",
    "foreign-trigger",
    "input-always-true",
    "input-never-true",
    "level-255",
    "level-at-each-scan",
    "level-never-stored",
    "level-without-address",
    "levels-overlap",
    "limits-swapped",
    "many-requests",
    "never-called",
    "never-off",
    "never-read",
    "never-stored",
    "nothing-runs",
    "overwritten",
    "request-once",
    "scenario-bus",
    "scenario-gear",
    "scenario-source",
    "setting-at-each-scan",
    "shared-answer",
    "shared-gear",
    "time-below-interval",
    "time-without-unit",
    "timer-in-event-task",
    "timer-without-time",
    "unreached",
    "unread-information",
    "unused",
    "unused-function",
    "unused-program",
    "unused-result",
    "unused-source",
    "unused-task",
    "unused-trigger",
];

/// Whether notes have this name, or all have it.
pub fn is_note_name(name: &str) -> bool {
    name == "all" || NOTE_NAMES.contains(&name)
}

/// What a note says.
#[derive(Clone, Copy)]
pub(crate) enum Kind {
    ForeignTrigger,
    LevelWithoutAddress,
    LevelNeverStored,
    OtherIsStored,
    UnusedTrigger,
    NeverRead,
    StoredNeverRead,
    InputNeverRead,
    NeverStored,
    OnlyReset,
    ResultNeverStored,
    Unused,
    UnusedFunction,
    UnusedProgram,
    UnusedTask,
    NoTask,
    NoProgram,
    DoneTwice,
    CommentInComment,
    Unreached,
    UnreachedCall,
    UnusedSource,
    DoubleSource,
    UnusedBlock,
    StoredNeverCalled,
    ReadNeverCalled,
    TimerInEventTask,
    TimerWithoutTime,
    CountWithoutNumber,
    SettingAtEachScan,
    SettingAtEachSecondScan,
    EdgeOnce,
    CountOnce,
    TimeOnce,
    RequestOnce,
    CountForGood,
    NeverTrue,
    LimitsSwapped,
    TimeWithoutUnit,
    TimeBelowInterval,
    Overwritten,
    OverwrittenInput,
    AlwaysSame,
    AlwaysSameNumber,
    AlwaysSameNumbers,
    AlwaysSameCondition,
    UnusedResult,
    NeverOff,
    SharedAnswer,
    LevelMask,
    CommandToLevel,
    CommandAboveLevel,
    SharedGear,
    SharedMore,
    LevelsOverlap,
    LevelAtEachScan,
    UnreadInformation,
    ForeignInformation,
    ForeignCount,
    ManyRequests,
    BusLoad,
    ScenarioBus,
    ScenarioSource,
    ScenarioGear,
}

/// The rules, in the order in which their notes stand, whichever were found first.
#[derive(Clone, Copy)]
pub(crate) enum Rule {
    Triggers,
    Variables,
    Functions,
    Programs,
    Unreached,
    UnusedSources,
    DoubleSources,
    Blocks,
    Numbers,
    Overwritten,
    SameResults,
    NeverOff,
    Answers,
    Commands,
    SharedGear,
    Overlaps,
    Pace,
    Requests,
    Load,
    ScenarioLines,
    ScenarioGear,
}

/// How many rules there are.
pub(crate) const RULES: u8 = 21;

impl Rule {
    /// Whether it notes a place of the text once, whatever is found there besides.
    pub fn notes_once(self) -> bool {
        matches!(
            self,
            Rule::Variables
                | Rule::Blocks
                | Rule::Numbers
                | Rule::Overwritten
                | Rule::SameResults
                | Rule::Commands
        )
    }
}

/// The name of notes of a kind, and behind it their text.
pub(crate) fn text_of(kind: Kind) -> &'static str {
    match kind {
        Kind::ForeignTrigger => {
            "foreign-trigger: {0} is always FALSE in the task {1}, which it does not start"
        }
        Kind::LevelWithoutAddress => {
            "level-without-address: {0} has the numbers of a level and no address: it is sent to \
             no gear; a level is declared as {0} AT %QB0.5"
        }
        Kind::LevelNeverStored => {
            "level-never-stored: no task stores the level {0}, which stays {1}"
        }
        Kind::OtherIsStored => {
            "level-never-stored: no task stores the level {0}, which stays {1}; the {0} of line {2} \
             is another variable: VAR_EXTERNAL names the level"
        }
        Kind::UnusedTrigger => "unused-trigger: {0} starts no task, and no task reads it",
        Kind::NeverRead => "never-read: {0} is never read",
        Kind::StoredNeverRead => "never-read: {0} is stored and never read",
        Kind::InputNeverRead => "never-read: the input {0} of {1} is never read",
        Kind::NeverStored => "never-stored: {0} is read and never stored, and stays {1}",
        Kind::OnlyReset => { "never-stored: {0} is never TRUE: only FALSE is stored to it" }
        Kind::ResultNeverStored => "never-stored: the result of {0} is never stored, and stays {1}",
        Kind::Unused => "unused: {0} is not used",
        Kind::UnusedFunction => "unused-function: no task uses the function {0}",
        Kind::UnusedProgram => "unused-program: no task runs the program {0}",
        Kind::UnusedTask => "unused-task: no program runs in the task {0}",
        Kind::NoTask => "nothing-runs: the configuration has no task: nothing runs",
        Kind::NoProgram => "nothing-runs: the text has no program: nothing runs",
        Kind::DoneTwice => {
            "done-twice: {0} does in each scan again what {1} did: {2} has no variables of its own"
        }
        Kind::CommentInComment => {
            "comment-in-comment: the comment that begins here goes on to line {1}, where (* stands \
             again: all between is comment"
        }
        Kind::Unreached => "unreached: no scan of the task {0} comes here",
        Kind::UnreachedCall => "unreached: no call of {0} comes here",
        Kind::UnusedSource => "unused-source: the text does not use the source {0} of the binding",
        Kind::DoubleSource => {
            "double-source: the sources {0} and {1} of the binding are one; each of its events is \
             one of both"
        }
        Kind::UnusedBlock => "unused: {0} is not used",
        Kind::StoredNeverCalled => {
            "never-called: {0} is never called: what is stored to it does nothing"
        }
        Kind::ReadNeverCalled => {
            "never-called: {0} is never called: its outputs stay as they are at first"
        }
        Kind::TimerInEventTask => {
            "timer-in-event-task: the timer {0} is in the event task {1}: no scan sees that its \
             time is over until the next event comes"
        }
        Kind::TimerWithoutTime => {
            "timer-without-time: the timer {0} is given no PT: its time is over at once"
        }
        Kind::CountWithoutNumber => {
            "count-without-number: the counter {0} is given no PV: its Q is TRUE from the first call on"
        }
        Kind::SettingAtEachScan => {
            "setting-at-each-scan: {0} makes its setting in each scan of the task {1}; a setting \
             is kept, and what keeps it wears out"
        }
        Kind::SettingAtEachSecondScan => {
            "setting-at-each-scan: {0} makes its setting in each second scan of the task {1}; a \
             setting is kept, and what keeps it wears out"
        }
        Kind::EdgeOnce => {
            "input-always-true: CLK of {0} is never FALSE again: its edge comes once, and then no \
             more"
        }
        Kind::CountOnce => {
            "input-always-true: CU of {0} is never FALSE again: it counts once, and then no more"
        }
        Kind::TimeOnce => {
            "input-always-true: IN of {0} is never FALSE again: its time runs once, and then is \
             over for good"
        }
        Kind::RequestOnce => {
            "request-once: REQ of {0} is never FALSE again: it makes its request once, and then no \
             more"
        }
        Kind::CountForGood => {
            "input-never-true: R of {0} is never TRUE: once its Q is TRUE, it stays so"
        }
        Kind::NeverTrue => "input-never-true: {1} of {0} is never TRUE: it does nothing",
        Kind::LimitsSwapped => {
            "limits-swapped: LIMIT {0}, {1} gives {1} whatever comes: the lower limit stands first"
        }
        Kind::TimeWithoutUnit => "time-without-unit: PT := {0} is {0} ms; {0} seconds are T#{0}s",
        Kind::TimeBelowInterval => {
            "time-below-interval: the time of {0} ms is over at the next scan, {1} ms later"
        }
        Kind::Overwritten => {
            "overwritten: what is stored to {0} here is lost: each way on stores it again before \
             the scan ends, as line {1} does, and nothing reads it in between"
        }
        Kind::OverwrittenInput => {
            "overwritten: what is stored to {0}.{2} here is lost: each way on stores it again, as \
             line {1} does, before {0} is called"
        }
        Kind::AlwaysSame => "always-same: {0} gives {1} whatever comes",
        Kind::AlwaysSameNumber => {
            "always-same: {0} gives {1} whatever comes: the number before it is {2}"
        }
        Kind::AlwaysSameNumbers => {
            "always-same: {0} gives {1} whatever comes: the number before it is {2}, the other {3}"
        }
        Kind::AlwaysSameCondition => {
            "always-same: the condition of this line is {0} whatever comes"
        }
        Kind::UnusedResult => {
            "unused-result: what {0} gives is not used: the next instruction loads another value"
        }
        Kind::NeverOff => "never-off: no store turns {0} off: the least that is stored is {1}",
        Kind::SharedAnswer => {
            "shared-answer: {0} asks {1} another question than line {2} does; {3} has the answer \
             that came last, whichever question it is to"
        }
        Kind::LevelMask => { "level-255: {0} sends 255, which is no new level; full light is 254" }
        Kind::CommandToLevel => {
            "command-beside-level: {0} commands {1}, whose level is {2}; {2} keeps its value, and \
             is sent again only once that changes"
        }
        Kind::CommandAboveLevel => {
            "command-beside-level: {0} commands {1}, also that of {2}; {2} keeps its value, and is \
             sent again only once that changes"
        }
        Kind::SharedGear => {
            "shared-gear: {0} commands {1}, and so does line {2} in the task {3}; the gear has \
             what was sent last"
        }
        Kind::SharedMore => {
            "shared-gear: {0} commands {1}, and line {2} in the task {3} commands some of the same \
             gear; the gear has what was sent last"
        }
        Kind::LevelsOverlap => {
            "levels-overlap: {0} is also driven by {1}, the level of {2}; neither follows the \
             other, and the gear has what was sent last"
        }
        Kind::LevelAtEachScan => {
            "level-at-each-scan: the task {0} may change the level {1} at each scan, every {2} ms; \
             a bus takes some 30 ms for a level"
        }
        Kind::UnreadInformation => {
            "unread-information: the task {0} changes {1} at each event of source {2} and reads no \
             information; a button that sends 1, 0 and 2 for a press changes it three times"
        }
        Kind::ForeignInformation => {
            "foreign-information: {0} is the information of another source than the one whose \
             events start the task {1}"
        }
        Kind::ForeignCount => {
            "foreign-information: {0} is the count of another source than the one whose events \
             start the task {1}"
        }
        Kind::ManyRequests => {
            "many-requests: one scan of each task may make {0} requests; a bus keeps {1} of a \
             class"
        }
        Kind::BusLoad => {
            "bus-load: the requests of the cyclic tasks, and their levels that may change in each \
             scan, come to at most {1} frames a second on bus {0}; it carries some 40"
        }
        Kind::ScenarioBus => "scenario-bus: the binding has no bus {0}; nothing comes of the line",
        Kind::ScenarioSource => {
            "scenario-source: the event {0} is of no source of the binding; nothing comes of it"
        }
        Kind::ScenarioGear => {
            "scenario-gear: {0} is the level of {1}, and the scenario has no such gear"
        }
    }
}
