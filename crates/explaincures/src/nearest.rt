//! Words that differ from another one by a letter.

ghost use Rattle.std.specs.Prelude.{◌≡◌, ◌↔◌, IsTrue};
ghost use Rattle.explaincures.specs.Nearest.{DiffersAtEnd, digits_of};

use crate::spots::part;
use crate::words::{Group, INSTRUCTIONS, SPELLED, asked_group};
use iltokens::{keyword_of, keywords};

/// Whether two words differ by one letter that was added, left out or changed, or by two beside
/// each other that were exchanged; letter case aside. Words of one letter are near to none, and
/// those that are near have the same digits: `lamp2` is another lamp than `lamp3`.
pub fn is_near(one: &[u8], other: &[u8]) -> bool
    ensures { IsTrue result → digits_of one.now ≡ digits_of other.now }
{
    if one.len().min(other.len()) < 2 || one.eq_ignore_ascii_case(other) {
        return false;
    }
    has_same_digits(one, other) && is_one_change(one, other)
}

/// Whether two words have the same digits, one after another.
fn has_same_digits(one: &[u8], other: &[u8]) -> bool
    ensures { IsTrue result → digits_of one.now ≡ digits_of other.now }
{
    let (mut rest, mut others) = (one, other);
    'digits: loop {
        match (rest, others) {
            ([byte, behind @ ..], _) if !byte.is_ascii_digit() => rest = behind,
            (_, [byte, behind @ ..]) if !byte.is_ascii_digit() => others = behind,
            ([digit, behind @ ..], [found, after @ ..]) if *digit == *found => {
                rest = behind;
                others = after;
            }
            ([], []) => return true,
            _ => return false,
        }
    }
}

/// Whether two words differ by one letter that was added, left out or changed, or by two beside
/// each other that were exchanged.
fn is_one_change(one: &[u8], other: &[u8]) -> bool {
    let same = common(one, other);
    let rest = part(one, same, one.len());
    let others = part(other, same, other.len());
    let (more, others_more) = (part(rest, 1, rest.len()), part(others, 1, others.len()));
    let is_exchanged = match (rest, others) {
        ([a, b, rest @ ..], [c, d, others @ ..]) => {
            [*a, *b].eq_ignore_ascii_case(&[*d, *c]) && rest.eq_ignore_ascii_case(others)
        }
        _ => false,
    };
    more.eq_ignore_ascii_case(others_more)
        || more.eq_ignore_ascii_case(others)
        || rest.eq_ignore_ascii_case(others_more)
        || is_exchanged
}

/// With how many letters in common two words begin.
fn common(one: &[u8], other: &[u8]) -> usize {
    for (index, letter) in one.iter().enumerate() {
        match other.get(index) {
            Some(found) if found.eq_ignore_ascii_case(letter) => {}
            _ => return index,
        }
    }
    one.len()
}

/// The first reserved word that is near to another word, which is none. An instruction is one only
/// where it is plainly meant: [`is_alike`], or what was found is that with its last letter twice.
pub fn near_word(found: &[u8]) -> Option<&'static str> {
    if keyword_of(found).is_some() {
        return None;
    }
    near_among(INSTRUCTIONS, found, true).or(near_among(SPELLED, found, false))
}

/// The first word of some groups that is near to another one; an instruction is plainly meant too.
fn near_among(groups: &[Group], found: &[u8], is_instruction: bool) -> Option<&'static str> {
    for group in groups {
        let near = near_of(*group, found, is_instruction);
        if near.is_some() {
            return near;
        }
    }
    None
}

/// The same of one group.
fn near_of(group: Group, found: &[u8], is_instruction: bool) -> Option<&'static str> {
    for keyword in keywords() {
        let word = keyword.spelling();
        let is_kept = !is_instruction || is_plain(word.as_bytes(), found);
        if is_kept && is_near(found, word.as_bytes()) && asked_group(*keyword) == Some(group) {
            return Some(word);
        }
    }
    None
}

/// Whether an instruction is plainly meant by a word that is near to it.
fn is_plain(instruction: &[u8], other: &[u8]) -> bool {
    is_alike(instruction, other) || is_twice(instruction, other)
}

/// Whether an instruction and another word begin with the same letter, depend on the same, and
/// differ before the end, where other languages have letters that say something else: `JMPF` jumps
/// where the result is FALSE. Nor is it another letter in the middle of three, as in `MID`.
fn is_alike(instruction: &[u8], other: &[u8]) -> bool
    ensures { IsTrue result → ¬ DiffersAtEnd instruction.now other.now }
{
    if differs_at_end(instruction, other) {
        return false;
    }
    depends_alike(instruction, other) && !differs_in_middle(instruction, other)
}

/// Whether two words differ in nothing but what stands last in the longer one, letter case aside.
fn differs_at_end(one: &[u8], other: &[u8]) -> bool
    ensures { IsTrue result ↔ DiffersAtEnd one.now other.now }
{
    let most = one.len().max(other.len()).saturating_sub(1);
    part(one, 0, most).eq_ignore_ascii_case(part(other, 0, most))
}

/// Whether two words have three letters, of which the first and the last are the same.
fn differs_in_middle(one: &[u8], other: &[u8]) -> bool {
    match (one, other) {
        ([a, _, b], [c, _, d]) => [*a, *b].eq_ignore_ascii_case(&[*c, *d]),
        _ => false,
    }
}

/// Whether a word is an instruction with its last letter twice, and depends on the same.
fn is_twice(instruction: &[u8], other: &[u8]) -> bool {
    match other {
        [front @ .., last, again] if last.eq_ignore_ascii_case(again) => {
            let len = front.len().saturating_add(1);
            part(other, 0, len).eq_ignore_ascii_case(instruction)
        }
        _ => false,
    }
}

/// Whether an instruction and another word begin with the same letter, and both have an N at the
/// end, or as many letters C, which make it conditional, and as many letters N, which turn it
/// round. In a conversion, which has a `_`, these change nothing.
fn depends_alike(instruction: &[u8], other: &[u8]) -> bool {
    let is_kept = match (instruction, other) {
        ([.., b'N'], [.., b'n' | b'N']) => true,
        _ => {
            count(instruction, b'C') == count(other, b'C')
                && count(instruction, b'N') == count(other, b'N')
                || instruction.contains(&b'_')
        }
    };
    is_kept && common(instruction, other) > 0
}

/// How often a word has a letter, letter case aside.
fn count(word: &[u8], letter: u8) -> usize {
    let mut times: usize = 0;
    for byte in word {
        if byte.eq_ignore_ascii_case(&letter) {
            times = times.saturating_add(1);
        }
    }
    times
}

/// The instruction of this number, counted from 0, that may be meant by a word which is none: it
/// begins as the word does up to the word's last letter and has one letter more at most, none more
/// where the word has two, or is near to it and begins with the same letter.
pub fn meant_instruction(found: &[u8], number: usize) -> Option<&'static str> {
    let mut left = number;
    for group in INSTRUCTIONS {
        match meant_of(*group, found, left) {
            Ok(word) => return Some(word),
            Err(rest) => left = rest,
        }
    }
    None
}

/// The same of one group; else the number that is left once those of this group are counted.
fn meant_of(group: Group, found: &[u8], number: usize) -> Result<&'static str, usize> {
    let mut left = number;
    for keyword in keywords() {
        let word = keyword.spelling();
        let is_asked = asked_group(*keyword) == Some(group);
        if is_asked && may_be_meant(word.as_bytes(), found) {
            if left == 0 {
                return Ok(word);
            }
            left = left.saturating_sub(1);
        }
    }
    Err(left)
}

/// Whether an instruction may be meant by a word.
fn may_be_meant(instruction: &[u8], found: &[u8]) -> bool {
    let front = part(found, 0, found.len().saturating_sub(1));
    let begins = part(instruction, 0, front.len()).eq_ignore_ascii_case(front);
    let most = found.len().saturating_add(usize::from(front.len() > 1));
    let is_one_off = is_near(instruction, found) && common(instruction, found) > 0;
    begins && !front.is_empty() && instruction.len() <= most || is_one_off
}
