//! What is known after a word on each way from it, or why it is refused.

ghost use Rattle.std.specs.Prelude.{◌≡◌, ◌↔◌, ◌<◌, ◌+◌, length, slice_get, Some, None};
ghost use Rattle.std.specs.Prelude.{IsSome, IsTrue, MatchResult};
ghost use Rattle.ilcode.specs.Listings.{Listing, body_at};
ghost use Rattle.ilverify.specs.declared.change.Change.TheVariants.{Forget};
ghost use Rattle.ilverify.specs.declared.entry.Entry.{Entry};
ghost use Rattle.ilverify.specs.Causes.{IsLeastCause};
ghost use Rattle.ilverify.specs.Changes.{changed, ways_of};
ghost use Rattle.ilverify.specs.WordSteps.{IsJudged, least_beside};
ghost use Rattle.ilverify.specs.Operands.{in_programs};
ghost use Rattle.ilverify.specs.Refusals.{ArisesBeforeNesting, ArisesAtCall};
ghost use Rattle.ilverify.specs.Refusals.{ArisesAtOpen, ArisesAtClose};
ghost use Rattle.ilverify.specs.Refusals.{ArisesAtWord, IsClosedAt, HasToClose, StaysOpen};
ghost use Rattle.ilverify.specs.Refusals.{open_after};
ghost use Rattle.ilverify.specs.Rules.{IsRule, Opens, Closes, with_stored};

use crate::cause::Cause;
use crate::change::{Change, Changes};
use crate::entry::Entry;
use crate::jump::{check_jump, jump};
use crate::known::Known;
use crate::marks::{constant_of, mark_of_apply, mark_of_function, mark_of_load};
use crate::nesting::KnownOpened;
use crate::operand::{known_of, may_name, may_set, may_store, may_write, type_of_variable};
use crate::rules;
use ilcode::{Code, Target, Word};
use iltypes::Operator;
use limits::MOST_NESTING;

/// What a word changes that leads to the next place alone.
fn onward(change: Change) -> Changes
    ensures next { result.next ≡ Some change }
    ensures target { result.target ≡ None }
{
    Changes {
        next: Some(change),
        target: None,
    }
}

/// What the word changes, or the least cause that arises at it before its parentheses.
fn judge(code: &Code, place: usize, entry: &Entry, word: Word) -> Result<Changes, Cause>
    ensures { MatchResult result
        (λ changes. IsJudged code.now place entry.now word (ways_of code.now entry.now changes))
        (IsLeastCause (ArisesBeforeNesting code.now place entry.now word)) }
{
    let body = code.body_at(place);
    match word {
        Word::Load { negated, operand } => {
            let named = may_name(code, place, body, operand);
            let known = rules::load(negated, known_of(code, entry, operand), named)?;
            Ok(onward(Change::Give(known, mark_of_load(negated, operand, known))))
        }
        Word::Apply(operator, operand) => {
            let named = may_name(code, place, body, operand);
            let operand_known = known_of(code, entry, operand);
            let known = rules::apply(operator, entry.result, operand_known, named)?;
            let mark = mark_of_apply(entry.mark, operator, constant_of(code, operand));
            Ok(onward(Change::Give(known, mark)))
        }
        Word::Transform(function) => {
            let known = rules::transform(function, entry.result)?;
            Ok(onward(Change::Give(known, mark_of_function(entry.mark, function))))
        }
        Word::Store { negated, variable } => {
            let declared = type_of_variable(code, variable);
            let writable = may_store(code, place, body, negated, variable);
            let stored = rules::store(negated, entry.result, declared, writable)?;
            Ok(onward(write(variable, stored)))
        }
        Word::Set(variable) | Word::Reset(variable) => {
            let declared = type_of_variable(code, variable);
            let settable = may_set(code, place, body, variable);
            rules::check_set(entry.result, declared, settable)?;
            Ok(onward(Change::Keep))
        }
        Word::Pass {
            port,
            block,
            operand,
        } => {
            let input = Target::Port { port, block };
            let declared = type_of_variable(code, input);
            rules::pass(
                known_of(code, entry, operand),
                may_name(code, place, body, operand),
                declared,
                may_write(code, place, body, input),
            )?;
            Ok(onward(Change::Unmark))
        }
        Word::Call(block) => Ok(onward(call(code, place, body, block)?)),
        Word::Open(operator) => Ok(onward(open(entry, operator)?)),
        Word::Close => Ok(onward(close(entry)?)),
        Word::Jump { condition, target } => {
            check_jump(
                condition,
                code.is_target(place, target as usize),
                entry.result,
            )?;
            Ok(jump(entry, condition))
        }
        Word::Give { operand, slot } => {
            let given = Target::Slot(slot);
            let stored = rules::pass(
                known_of(code, entry, operand),
                may_name(code, place, body, operand),
                type_of_variable(code, given),
                may_write(code, place, body, given),
            )?;
            Ok(onward(Change::GiveSlot(usize::from(slot), stored)))
        }
        Word::Invoke(function) => Ok(onward(Change::Return(function))),
    }
}

/// What a store changes: a slot is known as what was stored, and a port as before.
fn write(variable: Target, stored: Known) -> Change
    ensures { (code : Listing) (entry : Entry)
        → changed code entry result ≡ with_stored entry variable stored }
{
    match variable {
        Target::Slot(slot) => Change::Write(usize::from(slot), stored),
        Target::Port { .. } => Change::Keep,
    }
}

/// What CAL changes, of the block instance of this number, at the place, which is one of the body.
fn call(code: &Code, place: usize, body: usize, block: u16) -> Result<Change, Cause>
    requires { body ≡ body_at code.now place }
    ensures { MatchResult result
        (λ change. IsTrue (in_programs code.now place)
        × IsSome (slice_get code.now.kinds block) × (change ≡ Forget))
        (IsLeastCause (ArisesAtCall (slice_get code.now.kinds block)
        (in_programs code.now place))) }
{
    if body == 0 && usize::from(block) < code.kinds().len() {
        Ok(Change::Forget)
    } else {
        Err(Cause::BadSlot)
    }
}

/// What an operator with `(` changes.
fn open(entry: &Entry, operator: Operator) -> Result<Change, Cause>
    ensures { MatchResult result
        (λ change. (code : Listing)
        → Opens entry.now operator entry.now.result (changed code entry.now change))
        (IsLeastCause (ArisesAtOpen entry.now.result)) }
{
    match entry.result {
        Some(saved) => Ok(Change::Open(KnownOpened { operator, saved })),
        None => Err(Cause::NoResult),
    }
}

/// What `)` changes.
fn close(entry: &Entry) -> Result<Change, Cause>
    ensures { MatchResult result
        (λ change. (code : Listing)
        → Closes entry.now entry.now.nesting (changed code entry.now change))
        (IsLeastCause (ArisesAtClose entry.now.nesting entry.now.result)) }
{
    match entry.nesting.innermost() {
        Some(opened) => {
            let known = rules::close(opened.operator, opened.saved, entry.result)?;
            Ok(Change::Close(known))
        }
        None if entry.result.is_none() => Err(Cause::NoResult),
        None => Err(Cause::EmptyNesting),
    }
}

/// Whether nothing may be open after the place: a program or a function begins at the next one, the
/// code ends, or, by `met`, a jump leads there.
fn is_closed_after(code: &Code, place: usize, met: bool) -> bool
    requires { place < length code.now.instructions }
    ensures { IsTrue result ↔ IsClosedAt code.now (place + 1) met }
{
    let end = code.len();
    let next = place + 1;
    code.is_start(next) || next == end || met
}

/// Whether nothing may be open after the word at the place.
fn has_to_close(code: &Code, place: usize, met: bool, word: Word) -> bool
    requires { place < length code.now.instructions }
    ensures { IsTrue result ↔ HasToClose code.now place met word }
{
    match word {
        Word::Jump { .. } => true,
        _ => is_closed_after(code, place, met),
    }
}

/// Whether a parenthesis stays open where nothing may be open, or one too many is opened; so many
/// are open before the word.
fn stays_open(code: &Code, place: usize, met: bool, word: Word, count: usize) -> bool
    requires { place < length code.now.instructions }
    ensures { IsTrue result ↔ StaysOpen code.now place met word (open_after word count) }
{
    let most = if has_to_close(code, place, met, word) {
        0
    } else {
        MOST_NESTING
    };
    match word {
        Word::Open(_) => count >= most,
        Word::Close => count.saturating_sub(1) > most,
        _ => count > most,
    }
}

/// The least cause at a word after which a parenthesis stays open.
fn least_cause(judged: Result<Changes, Cause>) -> Cause
    ensures { result ≡ least_beside judged }
{
    match judged {
        Ok(_) => Cause::OpenNesting,
        Err(cause) => {
            if cause.number() < 5 {
                cause
            } else {
                Cause::OpenNesting
            }
        }
    }
}

/// What the word at the place changes of what is known before it, on each way from it (profile), or
/// the least cause that arises there. `met` says whether a jump leads to the next place.
pub fn after_word(
    code: &Code,
    place: usize,
    met: bool,
    entry: &Entry,
    word: Word,
) -> Result<Changes, Cause>
    requires { place < length code.now.instructions }
    ensures { MatchResult result
        (λ changes. IsRule code.now place met entry.now word (ways_of code.now entry.now changes))
        (IsLeastCause (ArisesAtWord code.now place met entry.now word)) }
{
    let judged = judge(code, place, entry, word);
    if stays_open(code, place, met, word, entry.nesting.len()) {
        return Err(least_cause(judged));
    }
    judged
}
