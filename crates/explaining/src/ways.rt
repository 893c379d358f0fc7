//! A way that leads to a word, with what is known on it.

use crate::refused::instruction_on;
use crate::taken::{Way, misfit_to, place_before, ways_up_to};
use explaincures::{Spot, line_of, part, place_of, shown_text};
use ilcode::{Code, Word};
use illisting::{KnownText, TaskNames, WordText, line_at};
use iltokens::Keyword::{Jmp, Jmpc, Jmpcn, Ret, Retc, Retcn};
use iltokens::{Delimiter, Lexed, What, keyword_of, token};
use ilverify::{Cause, Pass, Passed, Refusal};
use printout::Printout;
use std::alloc::{AllocError, Global};

/// How many words of the way are shown at most.
const MOST_SHOWN: usize = 16;

/// Prints the last words of a way that a value goes to a word, each with its line and what is known
/// before it.
pub(crate) fn print_way(
    alloc: Global,
    page: &mut Printout,
    names: &TaskNames,
    text: &[u8],
    refusal: Refusal,
) -> Result<(), AllocError> {
    let (code, word) = (names.code, refusal.word);
    let mut ways = ways_up_to(alloc, code, word)?;
    if let Cause::OutOfRange { allowed, .. } = refusal.cause {
        if let Some(misfit) = misfit_to(&ways, word, allowed) {
            ways.push(misfit)?; // the last of them is shown
        }
    }
    let way = way_to(alloc, &ways, word)?;
    page.text("the way there, with what is known before each word:\n");
    let mut pass = Pass::begin(alloc, code)?;
    for place in 0..word.saturating_add(1) {
        if way.contains(&place) {
            print_step(alloc, page, names, text, &pass)?;
            print_meeting(page, code, &ways, place);
        }
        let Passed::On(next) = pass.advance()? else {
            return Ok(());
        };
        pass = next;
    }
    Ok(())
}

/// The last places of a way that leads to a word, that of the word first.
fn way_to(alloc: Global, ways: &[Way], word: usize) -> Result<Vec<usize>, AllocError> {
    let mut way = Vec::new(alloc);
    let mut place = word;
    for _ in 0..MOST_SHOWN {
        way.push(place)?;
        match place_before(ways, place) {
            Some(before) => place = before,
            None => break,
        }
    }
    Ok(way)
}

/// Prints the word to which a pass has come, with what is known before it.
fn print_step(
    alloc: Global,
    page: &mut Printout,
    names: &TaskNames,
    text: &[u8],
    pass: &Pass,
) -> Result<(), AllocError> {
    if let Some(word) = names.code.get(pass.place()) {
        let line = line_at(names.code, pass.place());
        let spelled = spelled(alloc, names, text, word, line)?;
        page.text(&format!(in alloc; "{line:>6} | {spelled:<24}  ")?);
        if let Some(entry) = pass.entry() {
            page.shown(&KnownText { names, word, entry });
        }
        page.text("\n");
    }
    Ok(())
}

/// Prints where else control comes from to a place of the way.
fn print_meeting(page: &mut Printout, code: &Code, ways: &[Way], place: usize) {
    let before = place_before(ways, place);
    for way in ways {
        if way.to == place && before != Some(way.from) {
            page.text("       |   (ways meet before it: line ");
            page.count(line_at(code, way.from));
            let is_next = way.from.saturating_add(1) == place;
            page.text(if is_next { " leads" } else { " jumps" });
            page.text(" there too)\n");
        }
    }
}

/// A word as it is shown: a jump as it is written in the text, where it stands on this line.
fn spelled(
    alloc: Global,
    names: &TaskNames,
    text: &[u8],
    word: Word,
    line: usize,
) -> Result<String, AllocError> {
    let verb = instruction_on(text, line);
    let keyword = keyword_of(verb.token());
    if matches!(word, Word::Jump { .. })
        && matches!(keyword, Some(Jmp | Jmpc | Jmpcn | Ret | Retc | Retcn))
    {
        let label = operand_on(text, line, Behind::Instruction).unwrap_or(verb);
        return shown_text(alloc, verb.part(verb.at, label.found_to()));
    }
    let word = WordText { names, word };
    format!(in alloc; "{word}")
}

/// What an operand stands behind on its line.
#[derive(Clone, Copy)]
pub(crate) enum Behind {
    /// The instruction's word.
    Instruction,
    /// The name of an input.
    Input(&'static [u8]),
    /// The name of a function and the operands before it: this is its number, from 1 on.
    Function(usize),
}

/// The operand on a line of a text.
pub(crate) fn operand_on<'q>(text: &'q [u8], line: usize, behind: Behind) -> Option<Spot<'q>> {
    let line_from = place_of(text, line, 1);
    let line = line_of(text, line);
    let mut at: usize = 0;
    let mut number: usize = 0;
    let mut is_next = false;
    for _ in 0..line.len() {
        let (what, from, to) = token_at(line, at)?;
        at = to;
        let is_sign = matches!(
            what,
            What::Delimiter(Delimiter::Open | Delimiter::Assign | Delimiter::Colon)
        );
        if is_next && !is_sign {
            return Some(Spot::of(text, line_from.saturating_add(from)));
        }
        number = match what {
            What::Delimiter(Delimiter::Colon) => 0,
            What::Delimiter(Delimiter::Comma) => number.saturating_add(1),
            _ => number.max(1),
        };
        is_next = match behind {
            Behind::Instruction => is_next || matches!(what, What::Keyword(_)),
            Behind::Input(name) => is_next || part(line, from, to).eq_ignore_ascii_case(name),
            Behind::Function(operand) => number == operand,
        };
    }
    None
}

/// The token of a line from a place on, with where it begins and ends.
fn token_at(line: &[u8], at: usize) -> Option<(What, usize, usize)> {
    if at >= line.len() {
        return None;
    }
    match token(line, at) {
        Lexed::Token { what, from, to } if to > at => Some((what, from, to)),
        _ => None,
    }
}
