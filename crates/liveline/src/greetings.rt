//! The greeting of a line.

ghost use Rattle.std.specs.Prelude.{◌≡◌, ◌↔◌, ◌++◌, IfOk, IsTrue, OnOk};
ghost use Rattle.std.specs.Io.KnownBytes.{Appends, Consumes};
ghost use Rattle.liveline.specs.Greetings.{GreetedLine, IsAnswered, IsAsked, IsGreeted};
ghost use Rattle.liveline.specs.Greetings.{IsGreetedAsBefore, IsGreetedPlainly, IsReadAway};
ghost use Rattle.liveline.specs.Greetings.{answer_line, ends, ends_of};
ghost use Rattle.liveline.specs.Lines.{fault_line, greeting, line_end, numbered_answer};
ghost use Rattle.liveline.specs.Lines.{numbered_greeting};

use crate::answers::{is_fault, is_greeting, is_same};
use crate::ends::{read_line, say, trouble_of};
use crate::troubles::{LineBytes, Trouble};
use std::io::{ErrorKind, Read, Write};
use std::marker::Model;

/// The version in which an interface says unasked what comes.
const ANNOUNCING: u8 = 3;

/// The version before it, which is greeted by a number too.
const NUMBERED: u8 = 2;

/// The most lines that are read before the one that answers the greeting.
const MOST_PASSED: usize = 64;

/// The most reads before an interface that does not know the greeting is silent.
const MOST_READS: usize = 4096;

/// The two ends of a line whose interface greeted. Greeting alone makes them.
#[derive(Drop)]
pub struct Greeted<R: Read, W: Write> {
    pub(crate) from: R,
    pub(crate) to: W,
    /// Whether the interface says unasked what comes.
    pub(crate) announces: bool,
}

impl<R: Read, W: Write> Model for Greeted<R, W> {
    ghost use Rattle.liveline.specs.Greetings.{GreetedLine};

    ghost Value = { GreetedLine };

    ghost view = { λ g. record {
      unread = R.remaining g.from;
      written = W.contents g.to;
      announces = g.announces;
    } };
}

/// The two ends of a line whose interface did not greet, and why.
#[derive(Drop)]
pub struct Ungreeted<R, W> {
    pub from: R,
    pub to: W,
    pub why: Trouble,
}

impl<R: Read + Drop, W: Write + Drop> Greeted<R, W> {
    /// Greets the interface at the other end by a number that no earlier greeting had: what it
    /// still says to earlier requests is passed over. It is greeted in version 3, where it does not
    /// know that in version 2, and where it does not know that in version 1.
    ///
    /// # Errors
    ///
    /// The interface did not greet. The ends come back.
    pub fn greet(from: R, to: W, number: u64) -> Result<Greeted<R, W>, Ungreeted<R, W>>
        ensures { IfOk result
            (λ greeted. IsGreeted number (ends (R.remaining from) (W.contents to)) greeted) }
    {
        let mut from = from;
        let mut to = to;
        match greet(&mut from, &mut to, number) {
            Ok(announces) => Ok(Greeted {
                from,
                to,
                announces,
            }),
            Err(why) => Err(Ungreeted { from, to, why }),
        }
    }

    /// The reader, to look at it.
    pub fn reader(&self) -> &R
        ensures { R.remaining result.now ≡ self.now.unread }
    {
        &self.from
    }

    /// The writer, to look at it.
    pub fn writer(&self) -> &W
        ensures { W.contents result.now ≡ self.now.written }
    {
        &self.to
    }

    /// The two ends.
    pub fn into_ends(self) -> (R, W)
        ensures { ends (R.remaining result.0) (W.contents result.1) ≡ ends_of self }
    {
        let Greeted { from, to, .. } = self;
        (from, to)
    }
}

/// Greets the interface by this number, and gives whether it announces.
#[tactic(auto, using(crate::proofs::Greeting::newest, crate::proofs::Greeting::older))]
fn greet<R: Read, W: Write>(from: &mut R, to: &mut W, number: u64) -> Result<bool, Trouble>
    ensures { IfOk result (λ announces. IsGreeted number
        (ends (R.remaining from.old) (W.contents to.old)) (record {
          unread = R.remaining from.new;
          written = W.contents to.new;
          announces = announces;
        })) }
{
    if greet_in(ANNOUNCING, from, to, number)? {
        return Ok(true);
    }
    greet_as_before(from, to, number)?;
    Ok(false)
}

/// Greets the interface by this number in version 2, and in version 1 where it does not know that.
#[tactic(auto, using(crate::proofs::Greeting::by_number, crate::proofs::Greeting::plainly))]
fn greet_as_before<R: Read, W: Write>(from: &mut R, to: &mut W, number: u64) -> Result<(), Trouble>
    ensures { OnOk result (IsGreetedAsBefore number
        (ends (R.remaining from.old) (W.contents to.old))
        (ends (R.remaining from.new) (W.contents to.new))) }
{
    if greet_in(NUMBERED, from, to, number)? {
        return Ok(());
    }
    greet_plainly(from, to)
}

/// Greets the interface in this version by this number, and gives whether it knows such a greeting.
#[tactic(auto, using(crate::proofs::Greeting::asked))]
fn greet_in<R: Read, W: Write>(
    version: u8,
    from: &mut R,
    to: &mut W,
    number: u64,
) -> Result<bool, Trouble>
    ensures { IfOk result (λ knows. IsAsked version number (answer_line knows version number)
        (ends (R.remaining from.old) (W.contents to.old))
        (ends (R.remaining from.new) (W.contents to.new))) }
{
    let asked = greeting_of(version, number)?;
    say(to, asked.as_slice())?;
    read_answer(from, version, number, &asked)
}

/// Greets an interface in version 1, once it is silent.
#[tactic(auto, using(crate::proofs::Greeting::said_plainly))]
fn greet_plainly<R: Read, W: Write>(from: &mut R, to: &mut W) -> Result<(), Trouble>
    ensures { OnOk result (IsGreetedPlainly (ends (R.remaining from.old) (W.contents to.old))
        (ends (R.remaining from.new) (W.contents to.new))) }
{
    read_away(from)?;
    say(to, b"gushewa 1\n")?;
    read_plain_answer(from)
}

/// The greeting of this number in this version, with its end.
fn greeting_of(version: u8, number: u64) -> Result<LineBytes, Trouble>
    ensures { IfOk result (λ line. line.items ≡ numbered_greeting version number ++ line_end) }
{
    let mut line = LineBytes::new();
    match writeln!(line, "gushewa {version} {number}") {
        Ok(()) => Ok(line),
        Err(_) => Err(Trouble::Absent),
    }
}

/// What answers the greeting of this number in this version, without its end.
fn answer_to(version: u8, number: u64) -> Result<LineBytes, Trouble>
    ensures { IfOk result (λ line. line.items ≡ numbered_answer version number) }
{
    let mut line = LineBytes::new();
    match write!(line, "gushewa {version} hears {number}") {
        Ok(()) => Ok(line),
        Err(_) => Err(Trouble::Absent),
    }
}

/// Reads lines up to the one that answers the greeting of this number in this version, and gives
/// whether the interface knows the greeting. The lines before it answer nothing that is asked now.
///
/// # Errors
///
/// Too many lines come before it, or the next one does not come.
#[tactic(auto, using(crate::proofs::Greeting::none_passed, crate::proofs::Greeting::answered, crate::proofs::Greeting::refused))]
fn read_answer<R: Read>(
    from: &mut R,
    version: u8,
    number: u64,
    asked: &LineBytes,
) -> Result<bool, Trouble>
    ensures { IfOk result (λ knows. IsAnswered version number (answer_line knows version number)
        (R.remaining from.old) (R.remaining from.new)) }
{
    let answer = answer_to(version, number)?;
    let mut is_echoed = false;
    for _ in 0..MOST_PASSED {
        let line = read_or_echo(from, asked, &mut is_echoed)?;
        if is_line(&line, &answer) {
            return Ok(true);
        }
        if is_refusal(&line) {
            return Ok(false);
        }
    }
    Err(Trouble::Silent)
}

/// The next line, where one comes. It is noted where that is what was said: a device that is not set
/// for the line gives it back.
///
/// # Errors
///
/// No line comes, or nothing came but what was said.
fn read_or_echo<R: Read>(
    from: &mut R,
    asked: &LineBytes,
    is_echoed: &mut bool,
) -> Result<LineBytes, Trouble>
    ensures { IfOk result (λ line. Consumes (R.remaining from.old) (R.remaining from.new)
        (line.items ++ line_end)) }
{
    match read_line(from) {
        Ok(line) => {
            *is_echoed = *is_echoed || is_echo(&line, asked);
            Ok(line)
        }
        Err(Trouble::Silent) if *is_echoed => Err(Trouble::Echoed),
        Err(trouble) => Err(trouble),
    }
}

/// Whether a line gives back what was said. A terminal that is not set for the line gives back
/// another end.
fn is_echo(line: &LineBytes, asked: &LineBytes) -> bool {
    match asked.as_slice().split_last() {
        Some((_end, said)) => line.as_slice().starts_with(said),
        None => false,
    }
}

/// Whether the lines are the same.
fn is_line(line: &LineBytes, other: &LineBytes) -> bool
    ensures { IsTrue result ↔ (line.now.items ≡ other.now.items) }
{
    is_same(line.as_slice(), other.as_slice())
}

/// Whether a line says that the interface does not know what was asked.
fn is_refusal(line: &LineBytes) -> bool
    ensures { IsTrue result ↔ (line.now.items ≡ fault_line) }
{
    is_fault(line.as_slice())
}

/// Reads away what comes, until the reader is silent for its time-out.
///
/// # Errors
///
/// Nothing more comes, or it speaks without end.
#[tactic(auto, using(crate::proofs::Greeting::nothing_read))]
fn read_away<R: Read>(from: &mut R) -> Result<(), Trouble>
    ensures { OnOk result (IsReadAway (R.remaining from.old) (R.remaining from.new)) }
{
    for _ in 0..MOST_READS {
        if !read_some(from)? {
            return Ok(());
        }
    }
    Err(Trouble::Silent)
}

/// Reads some of what comes, and gives whether more may come before the reader is silent for its
/// time-out.
///
/// # Errors
///
/// Nothing more comes.
#[tactic(auto, using(crate::proofs::Greeting::some_read, crate::proofs::Greeting::none_read))]
fn read_some<R: Read>(from: &mut R) -> Result<bool, Trouble>
    ensures { OnOk result (IsReadAway (R.remaining from.old) (R.remaining from.new)) }
{
    let mut some = [0u8; 16];
    match from.read(&mut some) {
        Ok(0) => Err(Trouble::Closed),
        Ok(_) => Ok(true),
        Err(error) => match error.kind() {
            ErrorKind::TimedOut => Ok(false),
            ErrorKind::Interrupted => Ok(true),
            kind => Err(trouble_of(kind)),
        },
    }
}

/// Reads the greeting of version 1.
///
/// # Errors
///
/// The next line is another one, or it does not come.
fn read_plain_answer<R: Read>(from: &mut R) -> Result<(), Trouble>
    ensures { OnOk result (Consumes (R.remaining from.old) (R.remaining from.new)
        (greeting ++ line_end)) }
{
    let line = read_line(from)?;
    if is_greeting(line.as_slice()) {
        Ok(())
    } else {
        Err(Trouble::of(line))
    }
}
