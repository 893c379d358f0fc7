//! How a line looks: a pattern, which has words, signs and slots, is compared with it.
//!
//! Its items stand apart by blanks. Where it begins stands first, if that is not the place that
//! is asked about: `^` the line, `<` the word before the place on its line, `<<` the same on any
//! line, `#` the number around the place, `%` the word that begins the block of variables, `&`
//! the word of other languages that does. Then come words and signs as they are written, which
//! may be absent with `?` behind them; slots in braces and conditions in parentheses
//! (src/slots.rt), of which `{}` is one of the pattern's words; `@`, the place; `[` and `]`,
//! between which a change puts its text; `*`, blanks if any; `_`, a blank or more; `$`, the end
//! of the line. `_` right before an item asks for a blank before it, and `~` for none.

use crate::conditions::holds;
use crate::slots::{place_within, slot_end, word_end, word_meant, words_end};
use crate::standing::{Extent, Standing};
use explaincures::Spot;

/// How far a line is like a pattern, and what stands in its slots.
#[derive(Clone, Copy)]
pub struct Likeness {
    to: usize,
    count: usize,
    /// What stands in the slots.
    pub parts: [Extent; 6],
    /// What a change replaces.
    pub put: Extent,
    /// The word of the operator in a slot for one, or that which is near to what stands there.
    pub word: &'static str,
}

impl Likeness {
    /// How the line of a place is like a pattern with these words, which have blanks between them,
    /// if it is.
    pub fn of(standing: &Standing, pattern: &str, words: &str) -> Option<Likeness> {
        let spot = &standing.spot;
        let mut like = Likeness {
            to: spot.at,
            count: 0,
            parts: [(spot.at, spot.found_to()); 6],
            put: (spot.at, spot.at),
            word: "",
        };
        for item in pattern.split(' ') {
            if !like.take(standing, item.as_bytes(), words) {
                return None;
            }
        }
        Some(like)
    }

    /// Reads one item of the pattern.
    fn take(&mut self, standing: &Standing, item: &[u8], words: &str) -> bool {
        let spot = &standing.spot;
        let (to, (next, _)) = (self.to, spot.trimmed(self.to, spot.line_to));
        match item {
            b"^" | b"<" | b"<<" | b"#" | b"%" | b"&" => self.begin(standing, item),
            b"@" | b"_@" | b"~@" => self.reach(standing, item, next),
            b"[" => self.mark((to, to), to),
            b"]" => self.mark((self.put.0, to), to),
            b"*" => self.mark(self.put, next),
            b"_" => next > to && self.mark(self.put, next),
            b"$" => next >= spot.line_to && self.mark(self.put, next),
            [b'_', item @ ..] => next > to && self.read(standing, item, words, next),
            [b'~', item @ ..] => next == to && self.read(standing, item, words, next),
            [b'(', b'a'..=b'z', ..] => holds(standing, &Spot::of(spot.text, to), item),
            _ => self.read(standing, item, words, next),
        }
    }

    /// Goes to a place, with what a change replaces.
    fn mark(&mut self, put: Extent, to: usize) -> bool {
        (self.put, self.to) = (put, to);
        true
    }

    /// Goes to where a pattern begins.
    fn begin(&mut self, standing: &Standing, item: &[u8]) -> bool {
        let Standing { spot, around, .. } = standing;
        let (before, to) = around.before;
        let is_behind = before >= spot.line_from && to > spot.line_from;
        let place = match item {
            b"^" => Some(spot.first_place()),
            b"#" => Some(spot.literal()),
            b"&" => around.foreign,
            b"%" => match around.block {
                Some(block) => Some((block.at, block.at)),
                None => None,
            },
            b"<<" => Some(around.before),
            _ if is_behind => Some(around.before),
            _ => None,
        };
        match place {
            Some((from, _)) => self.mark((from, from), from),
            None => false,
        }
    }

    /// Goes on at the place that is asked about, where it stands next.
    fn reach(&mut self, standing: &Standing, item: &[u8], next: usize) -> bool {
        let Standing { spot, around, .. } = standing;
        let is_there = self.to == around.before.1 || next == spot.at;
        let is_right = match item {
            b"_@" => matches!(spot.front(), [] | [.., b' ' | b'\t']),
            b"~@" => self.to == spot.at,
            _ => true,
        };
        is_there && is_right && self.mark(self.put, spot.at)
    }

    /// Reads a slot, a word or a sign.
    fn read(&mut self, standing: &Standing, item: &[u8], words: &str, from: usize) -> bool {
        let here = Spot::of(standing.spot.text, from);
        let Some(to) = self.end_of(standing, &here, item, words) else {
            return false;
        };
        if let [b'{', slot @ .., b'}'] = item {
            self.keep(&here, slot, to);
        }
        self.mark(self.put, to)
    }

    /// Where a slot, a word or a sign ends that begins at a place, if it stands there.
    fn end_of(&self, standing: &Standing, here: &Spot, item: &[u8], words: &str) -> Option<usize> {
        match item {
            b"{}" => words_end(standing, here, words),
            [b'{', slot @ .., b'}'] => slot_end(standing, here, slot),
            [word @ .., b'?'] => word_end(standing, here, word).or(Some(self.to)),
            word => word_end(standing, here, word),
        }
    }

    /// Keeps what stands in a slot.
    fn keep(&mut self, here: &Spot, slot: &[u8], to: usize) {
        self.word = word_meant(here, slot).unwrap_or(self.word);
        if let Some(part) = self.parts.get_mut(self.count) {
            *part = place_within(here, slot, to);
        }
        self.count = self.count.saturating_add(1);
    }
}
