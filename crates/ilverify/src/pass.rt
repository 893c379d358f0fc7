//! One pass forward over the words of a code.
//!
//! The pass keeps an entry for each later place that is reached, and joins in it what is known on
//! each way that leads there. It takes a word's entry when it comes to the word, and keeps it no
//! longer. So the certificate that the verdict speaks of stands in no memory: that there is one
//! which says most, and in which the later places have these entries, is what the contracts say
//! (`IsFound`). Entries share the ranges that no word between them has changed.

ghost use Rattle.std.specs.Prelude.{◌≡◌, ◌+◌, ◌<◌, length, slice_get, replicate, Some, None};
ghost use Rattle.std.specs.Prelude.{IfOk, IfSome, OnOk, MatchOption};
ghost use Rattle.limits.specs.Limits.{most_words};
ghost use Rattle.ilcode.specs.Listings.{IsLawful, start_of, end_of, body_at};
ghost use Rattle.ilverify.specs.Changes.{changed, ways_of};
ghost use Rattle.ilverify.specs.Entries.{arriving};
ghost use Rattle.ilverify.specs.Rules.{IsRule};
ghost use Rattle.ilverify.specs.Certificates.{is_met, IsCertified, IsRangeRefusal};
ghost use Rattle.ilverify.specs.PassSteps.{CanMeet, CanMeetAt, CanMeetIf, IsMeetingOf, Meets};
ghost use Rattle.ilverify.specs.PassSteps.{MeetsIf, arrived, target_of, AreTyped, AreBounded};
ghost use Rattle.ilverify.specs.PassSteps.{HaveBegun, AreFollowed, IsFound};

use crate::change::{Change, Changes};
use crate::entry::Entry;
use crate::refusal::Refusal;
use crate::word::after_word;
use ilcode::{Code, Word};
use std::alloc::{AllocError, Global};

/// None of the places is reached.
#[tactic(auto, using(std::proofs::lemmas::List::replicate_more))]
fn unreached(alloc: Global, count: usize) -> Result<Vec<Option<Entry>>, AllocError>
    ensures { IfOk result (λ pending. pending.items ≡ replicate count None) }
{
    let mut pending = Vec::new(alloc);
    for _place in 0..count {
        pending.push(None)?;
    }
    Ok(pending)
}

/// Whether the place is reached, and nothing is open there.
fn is_met(pending: &[Option<Entry>], place: usize) -> bool
    ensures { result ≡ is_met pending.now place }
{
    match pending.get(place) {
        Some(Some(entry)) => entry.nesting.len() == 0,
        _ => false,
    }
}

/// Where a jump leads, or the next place.
fn target_of(place: usize, word: Word) -> usize
    requires { place < most_words }
    ensures { result ≡ target_of place word }
{
    match word {
        Word::Jump { target, .. } => target as usize,
        _ => place + 1,
    }
}

/// What is known where this way meets those that led to the place before, if any did.
fn join(old: Option<Entry>, way: Entry) -> Result<Entry, AllocError>
    requires { CanMeet old way }
    ensures { IfOk result (λ entry. IsMeetingOf old way entry) }
{
    match old {
        Some(old) => Ok(old.join(&way)?.unwrap()),
        None => Ok(way),
    }
}

/// The way leads to the place, where that is a word's.
fn meet(pending: &mut Vec<Option<Entry>>, place: usize, way: Entry) -> Result<(), AllocError>
    requires { CanMeetAt (slice_get pending.old.items place) way }
    ensures { OnOk result (Meets pending.old.items place way pending.new.items) }
{
    if place < pending.len() {
        let old = pending[place].take();
        let entry = join(old, way)?;
        pending[place] = Some(entry);
    }
    Ok(())
}

/// What the word changes of the entry on the way to the place goes there.
fn follow(
    code: &Code,
    pending: &mut Vec<Option<Entry>>,
    place: usize,
    entry: Entry,
    change: Change,
) -> Result<(), AllocError>
    requires { CanMeetAt (slice_get pending.old.items place)
        (arriving code.now place (changed code.now entry change)) }
    ensures { OnOk result (Meets pending.old.items place
        (arriving code.now place (changed code.now entry change)) pending.new.items) }
{
    let mut way = entry;
    change.apply(code, &mut way)?;
    way.arrive(code, place);
    meet(pending, place, way)
}

/// The way of a jump to its target, if any value goes there and that is not the end of the body.
fn follow_target(
    code: &Code,
    pending: &mut Vec<Option<Entry>>,
    end: usize,
    place: usize,
    entry: &Entry,
    change: Option<Change>,
) -> Result<(), AllocError>
    requires { CanMeetIf (slice_get pending.old.items place)
        (arrived code.now end place entry.now change) }
    ensures { OnOk result (MeetsIf pending.old.items place
        (arrived code.now end place entry.now change) pending.new.items) }
{
    if place >= end {
        return Ok(());
    }
    let Some(change) = change else {
        return Ok(());
    };
    let way = entry.share()?;
    follow(code, pending, place, way, change)
}

/// The way to the next place, if any value goes there and that is not the end of the body.
fn follow_next(
    code: &Code,
    pending: &mut Vec<Option<Entry>>,
    end: usize,
    place: usize,
    entry: Entry,
    change: Option<Change>,
) -> Result<(), AllocError>
    requires { CanMeetIf (slice_get pending.old.items place)
        (arrived code.now end place entry change) }
    ensures { OnOk result (MeetsIf pending.old.items place
        (arrived code.now end place entry change) pending.new.items) }
{
    if place >= end {
        return Ok(());
    }
    let Some(change) = change else {
        return Ok(());
    };
    follow(code, pending, place, entry, change)
}

/// What is known on each way from the word at the place goes where the way leads, but for a way to
/// the end of its body.
fn follow_ways(
    code: &Code,
    pending: &mut Vec<Option<Entry>>,
    place: usize,
    word: Word,
    entry: Entry,
    changes: Changes,
) -> Result<(), AllocError>
    requires within { place < most_words }
    requires typed { AreTyped code.now entry.slots }
    requires bounded { AreBounded code.now place pending.old.items }
    requires rule { IsRule code.now place (is_met pending.old.items (place + 1)) entry word
        (ways_of code.now entry changes) }
    ensures { OnOk result (AreFollowed code.now place word entry changes pending.old.items
        pending.new.items) }
{
    let end = code.end_of(code.body_at(place));
    let target = target_of(place, word);
    follow_target(code, pending, end, target, &entry, changes.target)?;
    follow_next(code, pending, end, place + 1, entry, changes.next)
}

/// Judges the word at the place, where it is reached, and follows the ways from it.
pub(crate) fn advance(
    code: &Code,
    pending: &mut Vec<Option<Entry>>,
    place: usize,
) -> Result<Option<Refusal>, AllocError>
    requires within { place < length code.now.instructions }
    requires found { IsFound code.now place pending.old.items }
    ensures judged { IfOk result (λ refusal. MatchOption refusal
        (IsFound code.now (place + 1) pending.new.items)
        (IsRangeRefusal code.now)) }
    ensures here { IfOk result (λ refusal. IfSome refusal (λ refusal. refusal.word ≡ place)) }
{
    let Some(entry) = pending[place].take() else {
        return Ok(None);
    };
    let word = code.word(place);
    let met = is_met(pending, place + 1);
    match after_word(code, place, met, &entry, word) {
        Ok(changes) => {
            follow_ways(code, pending, place, word, entry, changes)?;
            Ok(None)
        }
        Err(cause) => Ok(Some(Refusal {
            word: place,
            line: code.lines()[place] as usize,
            cause,
        })),
    }
}

/// Where a body begins.
fn start_of(code: &Code, body: usize) -> usize
    ensures { result ≡ start_of code.now body }
{
    if body == 0 { 0 } else { code.end_of(body - 1) }
}

/// The first word of a body, if it has one, is reached, with what is known there at first.
fn begin_body(
    alloc: Global,
    code: &Code,
    pending: &mut Vec<Option<Entry>>,
    body: usize,
) -> Result<(), AllocError>
    requires lawful { IsLawful code.now }
    requires begun { HaveBegun code.now body pending.old.items }
    ensures { OnOk result (HaveBegun code.now (body + 1) pending.new.items) }
{
    let start = start_of(code, body);
    if start < code.end_of(body) {
        let first = Entry::opening(alloc, code)?;
        meet(pending, start, first)?;
    }
    Ok(())
}

/// The entries that are kept before the first word: what is known at first where each body begins.
pub(crate) fn begin(alloc: Global, code: &Code) -> Result<Vec<Option<Entry>>, AllocError>
    ensures { IfOk result (λ pending. IsFound code.now 0 pending.items) }
{
    let mut pending = unreached(alloc, code.len())?;
    for body in 0..code.functions().len() + 1 {
        begin_body(alloc, code, &mut pending, body)?;
    }
    Ok(pending)
}

/// Judges the words that are reached, one after another: the first refusal by what is known of
/// values, if any.
pub(crate) fn judge(alloc: Global, code: &Code) -> Result<Option<Refusal>, AllocError>
    ensures { IfOk result (λ refusal. MatchOption refusal
        (IsCertified code.now)
        (IsRangeRefusal code.now)) }
{
    let mut pending = begin(alloc, code)?;
    for place in 0..code.len() {
        let refusal = advance(code, &mut pending, place)?;
        if refusal.is_some() {
            return Ok(refusal);
        }
    }
    Ok(None)
}
