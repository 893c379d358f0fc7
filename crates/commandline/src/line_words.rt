//! The lines of buses, as words of the command line name them.

ghost use Rattle.std.specs.Prelude.{◌≡◌, ◌↔◌, ◌<◌, ℕ, Option, IsTrue, MatchOption, MatchResult, map};
ghost use Rattle.std.specs.Prelude.{option_map};
ghost use Rattle.std.specs.List.{Any};
ghost use Rattle.clap.specs.Words.{Text};
ghost use Rattle.commandline.specs.LineWords.{ArePaths, AreLines, HasPath, IsFirstFault};
ghost use Rattle.commandline.specs.LineWords.{IsLineWord, IsPath, SharePath};
ghost use Rattle.commandoptions.specs.declared.line_word.LineWord.{LineWord};

use arrayvec::ArrayVec;
use commandoptions::LineWord;
use limits::MOST_BUSES;
use wordlines::number_of;

/// The most lines: one of each bus.
const MOST_LINES: usize = MOST_BUSES as usize;

/// The lines of buses, in the order of their words.
pub type LineWords<'a> = ArrayVec<LineWord<'a>, MOST_LINES>;

/// The first word that is not taken as a line.
#[derive(Clone, Copy)]
pub enum LineWordFault<'a> {
    /// This word is neither `B=PATH` nor `B=FROM,TO` with a bus below 64; and at one line, neither
    /// `PATH` nor `FROM,TO`.
    NoLine(&'a str),
    /// This word names a bus that a word before it names.
    Again(&'a str),
    /// This word names another bus than those before it, and a path that one of them names.
    Shared(&'a str),
}

/// The lines that the words name.
///
/// # Errors
///
/// A word names none, or a bus or a path that a word before it names.
pub(crate) fn lines_of<'a>(words: &[&'a str]) -> Result<LineWords<'a>, LineWordFault<'a>>
    ensures { MatchResult result
        (λ lines. AreLines (map (λ word. word.now) words.now) lines.items)
        (IsFirstFault (map (λ word. word.now) words.now)) }
{
    let mut lines = ArrayVec::new();
    for word in words {
        let Some(line) = line_of(word) else {
            return Err(LineWordFault::NoLine(word));
        };
        if has_line(lines.as_slice(), line.bus) {
            return Err(LineWordFault::Again(word));
        }
        if is_shared(lines.as_slice(), &line) {
            return Err(LineWordFault::Shared(word));
        }
        lines.push(line);
    }
    Ok(lines)
}

/// Whether one of the lines is of this bus.
fn has_line(lines: &[LineWord], bus: u8) -> bool
    ensures { IsTrue result ↔ Any (λ line. line.bus ≡ bus) lines.now }
{
    lines.iter().any(|line| line.bus == bus)
}

/// Whether one of the lines shares a path with this one.
fn is_shared(lines: &[LineWord], line: &LineWord) -> bool
    ensures { IsTrue result ↔ Any (λ other. SharePath other line.now) lines.now }
{
    lines.iter().any(|other| share_path(other, line))
}

/// Whether a path is of both lines.
fn share_path(one: &LineWord, other: &LineWord) -> bool
    ensures { IsTrue result ↔ SharePath one.now other.now }
{
    has_path(one, other.from)
        || match other.to {
            Some(to) => has_path(one, to),
            None => false,
        }
}

/// Whether a path is one of the line's.
fn has_path(line: &LineWord, path: &str) -> bool
    ensures { IsTrue result ↔ HasPath line.now path.now }
{
    line.from == path
        || match line.to {
            Some(to) => to == path,
            None => false,
        }
}

/// The line that a word names, where it names one.
fn line_of<'a>(word: &'a str) -> Option<LineWord<'a>>
    ensures { MatchOption result ((line : LineWord) → ¬ IsLineWord word.now line)
        (IsLineWord word.now) }
{
    let (digits, paths) = word.split_once('=')?;
    let bus = number_of(digits.as_bytes(), u64::from(MOST_BUSES - 1))?;
    let (from, to) = paths_in(paths)?;
    Some(LineWord {
        bus: bus as u8,
        from,
        to,
    })
}

/// The path that is read and, where it is another one, the path that is written: `PATH` or
/// `FROM,TO`.
pub(crate) fn paths_in<'a>(text: &'a str) -> Option<(&'a str, Option<&'a str>)>
    ensures { MatchOption result
        ((from : Text) (to : Option Text) → ¬ ArePaths text.now from to)
        (λ paths. ArePaths text.now paths.0.now (option_map (λ path. path.now) paths.1)) }
{
    match text.split_once(',') {
        Some((from, to)) if is_path(from) && is_path(to) => Some((from, Some(to))),
        None if is_path(text) => Some((text, None)),
        _ => None,
    }
}

/// Whether a text can be a path.
fn is_path(text: &str) -> bool
    ensures { IsTrue result ↔ IsPath text.now }
{
    !text.is_empty() && !text.contains(',')
}
