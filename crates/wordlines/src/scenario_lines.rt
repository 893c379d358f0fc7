//! The lines of a scenario.

ghost use Rattle.std.specs.Prelude.{◌≡◌, ◌<◌, ◌-◌, Some, None, MatchOption};
ghost use Rattle.wordlines.specs.WordLines.{words, IsTaken};
ghost use Rattle.wordlines.specs.Saying.{said, said_after, gear_of, lamp_failure_of, memory_of};
ghost use Rattle.wordlines.specs.Saying.{level_in, groups_in, scenes_in};
ghost use Rattle.wordlines.specs.Saying.{device_of, instance_of, reply_of};
ghost use Rattle.wordlines.specs.Saying.{scheme_in, scheme_with};
ghost use Rattle.wordlines.specs.Saying.{hear_fault_of, tick_of, ticks_of, event_of, fate_of};
ghost use Rattle.wordlines.specs.Saying.{fate_in};
ghost use Rattle.wordlines.specs.Saying.{frame_in, at_end};

use crate::entries::ScenarioEntry;
use crate::statements::{FrameFate, GearStart, Statement};
use crate::tick_row::TickRow;
use crate::{Words, hex_of};
use daliframe::{
    BusNumber, EventScheme, Frame24, InstanceNumber, InstanceType, Number, ShortAddress,
};

/// What a line says that is not skipped.
pub(crate) fn entry_of(line: &[u8]) -> Option<ScenarioEntry>
    ensures { result ≡ said (words line.now) }
{
    let mut words = Words::of(line);
    let keyword = words.next()?;
    if keyword == b"ticks".as_slice() {
        return ticks(words);
    }
    let statement = statement_after(keyword, words)?;
    Some(ScenarioEntry::One { statement })
}

/// The numbers of `ticks from to every`.
fn ticks(mut words: Words<'_>) -> Option<ScenarioEntry>
    ensures { result ≡ ticks_of words.entry }
{
    let from = words.number(u64::MAX)?;
    let to = words.number(u64::MAX)?;
    let every = words.number(u64::MAX)?;
    let row = TickRow::new(from, to, every)?;
    if words.is_empty() {
        Some(ScenarioEntry::Ticks { row })
    } else {
        None
    }
}

/// What the words after a keyword of one statement say.
fn statement_after(keyword: &[u8], words: Words<'_>) -> Option<Statement>
    ensures { result ≡ said_after keyword.now words.entry }
{
    if keyword == b"gear".as_slice() {
        gear(words)
    } else if keyword == b"lampfailure".as_slice() {
        lamp_failure(words)
    } else if keyword == b"memory".as_slice() {
        memory(words)
    } else if keyword == b"device".as_slice() {
        device(words)
    } else if keyword == b"instance".as_slice() {
        instance(words)
    } else if keyword == b"reply".as_slice() {
        reply(words)
    } else if keyword == b"hearfault".as_slice() {
        hear_fault(words)
    } else if keyword == b"tick".as_slice() {
        tick(words)
    } else if keyword == b"event".as_slice() {
        event(words)
    } else {
        None
    }
}

/// The numbers of `gear b s`, and how the gear begins.
fn gear(mut words: Words<'_>) -> Option<Statement>
    ensures { result ≡ gear_of words.entry }
{
    let bus: BusNumber = next_number(&mut words)?;
    let short: ShortAddress = next_number(&mut words)?;
    let level = level(&mut words)?;
    let groups = groups(&mut words)?;
    let scenes = scenes(&mut words)?;
    let start = GearStart {
        level,
        groups,
        scenes,
    };
    ended(&words, Statement::Gear { bus, short, start })
}

/// The numbers of `lampfailure b s`.
fn lamp_failure(mut words: Words<'_>) -> Option<Statement>
    ensures { result ≡ lamp_failure_of words.entry }
{
    let bus: BusNumber = next_number(&mut words)?;
    let short: ShortAddress = next_number(&mut words)?;
    ended(&words, Statement::LampFailure { bus, short })
}

/// The numbers of `memory b s bank offset value`.
fn memory(mut words: Words<'_>) -> Option<Statement>
    ensures { result ≡ memory_of words.entry }
{
    let bus: BusNumber = next_number(&mut words)?;
    let short: ShortAddress = next_number(&mut words)?;
    let bank = words.byte(u8::MAX)?;
    let offset = words.byte(u8::MAX)?;
    let value = words.byte(u8::MAX)?;
    ended(
        &words,
        Statement::Memory {
            bus,
            short,
            bank,
            offset,
            value,
        },
    )
}

/// The numbers of `device b s`.
fn device(mut words: Words<'_>) -> Option<Statement>
    ensures { result ≡ device_of words.entry }
{
    let bus: BusNumber = next_number(&mut words)?;
    let short: ShortAddress = next_number(&mut words)?;
    ended(&words, Statement::Device { bus, short })
}

/// The numbers of `instance b s i type scheme value`.
fn instance(mut words: Words<'_>) -> Option<Statement>
    ensures { result ≡ instance_of words.entry }
{
    let bus: BusNumber = next_number(&mut words)?;
    let short: ShortAddress = next_number(&mut words)?;
    let number: InstanceNumber = next_number(&mut words)?;
    let kind: InstanceType = next_number(&mut words)?;
    let scheme = event_scheme(&mut words)?;
    let value = words.byte(u8::MAX)?;
    ended(
        &words,
        Statement::InputInstance {
            bus,
            short,
            number,
            kind,
            scheme,
            value,
        },
    )
}

/// The numbers and the word of `reply b n lost`, `damaged` or `fault`.
fn reply(mut words: Words<'_>) -> Option<Statement>
    ensures { result ≡ reply_of words.entry }
{
    let bus: BusNumber = next_number(&mut words)?;
    let place = words.number(u64::MAX)?;
    let fate = fate(&mut words)?;
    if place == 0 {
        return None;
    }
    ended(&words, Statement::Reply { bus, place, fate })
}

/// The number of `hearfault b`.
fn hear_fault(mut words: Words<'_>) -> Option<Statement>
    ensures { result ≡ hear_fault_of words.entry }
{
    let bus: BusNumber = next_number(&mut words)?;
    ended(&words, Statement::HearFault { bus })
}

/// The number of `tick m`.
fn tick(mut words: Words<'_>) -> Option<Statement>
    ensures { result ≡ tick_of words.entry }
{
    let moment = words.number(u64::MAX)?;
    ended(&words, Statement::Tick { moment })
}

/// The numbers of `event b HHHHHH`.
fn event(mut words: Words<'_>) -> Option<Statement>
    ensures { result ≡ event_of words.entry }
{
    let bus: BusNumber = next_number(&mut words)?;
    let frame = frame(&mut words)?;
    ended(&words, Statement::Event { bus, frame })
}

/// The statement, where no word is left.
fn ended(words: &Words<'_>, statement: Statement) -> Option<Statement>
    ensures { result ≡ at_end words.now statement }
{
    if words.is_empty() {
        Some(statement)
    } else {
        None
    }
}

/// Takes a number below the limit of its type.
fn next_number<Of, const LIMIT: u8>(words: &mut Words<'_>) -> Option<Number<Of, LIMIT>>
    requires { 0 < LIMIT }
    ensures { IsTaken (LIMIT - 1) words.old words.new result }
{
    Number::new(words.byte(LIMIT - 1)?)
}

/// Takes `level l`, where it stands there: the level at which gear begins.
fn level(words: &mut Words<'_>) -> Option<u8>
    ensures { MatchOption result (level_in words.old ≡ None)
        (λ level. level_in words.old ≡ Some (level, words.new)) }
{
    if words.take(b"level") {
        words.byte(254)
    } else {
        Some(0)
    }
}

/// Takes `group g`, as often as it stands there: the groups in which gear begins.
fn groups(words: &mut Words<'_>) -> Option<[bool; 16]>
    ensures { MatchOption result (groups_in words.old ≡ None)
        (λ groups. groups_in words.old ≡ Some (groups, words.new)) }
{
    let mut groups = [false; 16];
    while words.take(b"group") {
        let group = words.byte(15)?;
        groups[usize::from(group)] = true;
    }
    Some(groups)
}

/// Takes `scene n l`, as often as it stands there: the levels of scenes with which gear begins.
fn scenes(words: &mut Words<'_>) -> Option<[u8; 16]>
    ensures { MatchOption result (scenes_in words.old ≡ None)
        (λ scenes. scenes_in words.old ≡ Some (scenes, words.new)) }
{
    let mut scenes = [255; 16];
    while words.take(b"scene") {
        let scene = words.byte(15)?;
        let level = words.byte(255)?;
        scenes[usize::from(scene)] = level;
    }
    Some(scenes)
}

/// Takes the number of an event scheme.
fn event_scheme(words: &mut Words<'_>) -> Option<EventScheme>
    ensures { MatchOption result (scheme_in words.old ≡ None)
        (λ scheme. scheme_in words.old ≡ Some (scheme, words.new)) }
{
    scheme_with(words.byte(u8::MAX)?)
}

/// The event scheme of a number, where it has one.
fn scheme_with(number: u8) -> Option<EventScheme>
    ensures { result ≡ scheme_with number }
{
    EventScheme::new(number)
}

/// Takes the word that says what becomes of a frame.
fn fate(words: &mut Words<'_>) -> Option<FrameFate>
    ensures { MatchOption result (fate_in words.old ≡ None)
        (λ fate. fate_in words.old ≡ Some (fate, words.new)) }
{
    fate_named(words.next()?)
}

/// What a word says that becomes of a frame.
fn fate_named(word: &[u8]) -> Option<FrameFate>
    ensures { result ≡ fate_of word.now }
{
    if word == b"lost".as_slice() {
        Some(FrameFate::Lost)
    } else if word == b"damaged".as_slice() {
        Some(FrameFate::Damaged)
    } else if word == b"fault".as_slice() {
        Some(FrameFate::Fault)
    } else {
        None
    }
}

/// Takes the six digits of a frame.
fn frame(words: &mut Words<'_>) -> Option<Frame24>
    ensures { MatchOption result (frame_in words.old ≡ None)
        (λ frame. frame_in words.old ≡ Some (frame, words.new)) }
{
    Frame24::new(hex_of(words.next()?)?)
}
