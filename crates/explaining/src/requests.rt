//! The calls that make too many requests.

use crate::taken::{Way, ways_up_to};
use ilcode::{Code, Word};
use illisting::{TaskNames, WordText, line_at};
use printout::Printout;
use std::alloc::{AllocError, Global};

/// The most requests on a way up to a place, and the place before it on that way.
#[derive(Clone, Copy)]
struct Most {
    requests: usize,
    before: usize,
}

/// Prints the calls on a way with too many requests, up to the word that is refused. Ways count
/// whatever their jumps test.
pub(crate) fn print_requests(
    alloc: Global,
    page: &mut Printout,
    names: &TaskNames,
    word: usize,
) -> Result<(), AllocError> {
    let ways = ways_up_to(alloc, names.code, word)?;
    let calls = calls_to(alloc, names.code, &ways, word)?;
    page.text("the calls on a way there, whatever its jumps test:\n");
    for place in calls.iter().rev() {
        if let Some(word) = names.code.get(*place) {
            let (line, text) = (line_at(names.code, *place), WordText { names, word });
            page.text(&format!(in alloc; "{line:>6} | {text}\n")?);
        }
    }
    Ok(())
}

/// How many requests a word may make.
fn requests_of(code: &Code, place: usize) -> usize {
    match code.get(place) {
        Some(Word::Call(block)) => match code.kinds().get(usize::from(block)) {
            Some(kind) if kind.makes_requests() => 1,
            _ => 0,
        },
        _ => 0,
    }
}

/// The calls on the way with the most requests to a word, the last first.
fn calls_to(
    alloc: Global,
    code: &Code,
    ways: &[Way],
    word: usize,
) -> Result<Vec<usize>, AllocError> {
    let most = most_by(alloc, code, ways, word)?;
    let mut calls = Vec::new(alloc);
    let mut place = word;
    for _ in 0..most.len() {
        if requests_of(code, place) > 0 {
            calls.push(place)?;
        }
        match most.get(place) {
            Some(found) if place > 0 => place = found.before,
            _ => break,
        }
    }
    Ok(calls)
}

/// The most requests on ways up to each place; where there are none, the place before it is the
/// first.
fn most_by(alloc: Global, code: &Code, ways: &[Way], word: usize) -> Result<Vec<Most>, AllocError> {
    let none = Most {
        requests: 0,
        before: 0,
    };
    let mut most = vec![in alloc; none; word.saturating_add(1)]?;
    for way in ways {
        let before = most.get(way.from).copied().unwrap_or(none);
        let requests = before.requests.saturating_add(requests_of(code, way.from));
        if let Some(kept) = most.get_mut(way.to) {
            if kept.requests < requests {
                *kept = Most {
                    requests,
                    before: way.from,
                };
            }
        }
    }
    Ok(most)
}
