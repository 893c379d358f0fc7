//! Codes.

ghost use Rattle.std.specs.Prelude.{◌≡◌, nat_lt, ◌&&◌, ◌==◌};
ghost use Rattle.std.specs.List.{list_any, position, position_or_len};

use crate::function::FunctionBody;
use crate::packed::PackedWord;
use crate::word::Word;
use ilblocks::BlockKind;
use iltypes::{IlType, Value};
use std::marker::Model;

/// The code of one task: its programs' words one after another and behind them those of its
/// functions, with what they name. No list is longer than its limit (crate `limits`), and each word
/// has its line. A word takes 4 bytes, and its line 4 more.
#[derive(Drop)]
pub struct Code {
    buses: u8,
    constants: Vec<Value>,
    slots: Vec<IlType>,
    kinds: Vec<BlockKind>,
    starts: Vec<usize>,
    words: Vec<PackedWord>,
    lines: Vec<u32>,
    functions: Vec<FunctionBody>,
}

impl Model for Code {
    ghost use Rattle.ilcode.specs.Listings.{Listing, listing_of, IsLawful};

    ghost Value = { Listing };

    ghost view = { λ c.
        listing_of c.buses c.constants.items c.slots.items c.kinds.items c.starts.items
        c.words.items c.lines.items c.functions.items };

    ghost invariant = { λ c.
        IsLawful (listing_of c.buses c.constants.items c.slots.items c.kinds.items
        c.starts.items c.words.items c.lines.items c.functions.items) };
}

impl Code {
    ghost use Rattle.std.specs.Prelude.{◌≡◌, ◌<◌, Some, length, slice_get};
    ghost use Rattle.ilcode.specs.Listings.{Listing, IsLawful, listing_of};
    ghost use Rattle.ilcode.specs.Listings.{end_of, slots_end, body_at};
    ghost use Rattle.ilcode.specs.Steps.{is_target, is_start};

    /// The code of these parts: buses, constants, the slots' types, the kinds of the block
    /// instances, the places where programs begin, words, a line for each of these, and the
    /// functions.
    #[allow(clippy::too_many_arguments)]
    pub fn new(
        buses: u8,
        constants: Vec<Value>,
        slots: Vec<IlType>,
        kinds: Vec<BlockKind>,
        starts: Vec<usize>,
        words: Vec<PackedWord>,
        lines: Vec<u32>,
        functions: Vec<FunctionBody>,
    ) -> Code
        requires { IsLawful (listing_of buses constants.items slots.items kinds.items
            starts.items words.items lines.items functions.items) }
        ensures { result ≡ listing_of buses constants.items slots.items kinds.items
            starts.items words.items lines.items functions.items }
    {
        Code {
            buses,
            constants,
            slots,
            kinds,
            starts,
            words,
            lines,
            functions,
        }
    }

    /// The number of buses, 1 to 64.
    pub fn buses(&self) -> u8
        ensures value { result ≡ self.now.buses }
        ensures lawful { IsLawful self.now }
    {
        self.buses
    }

    /// The constants, which operands name by their numbers.
    pub fn constants(&self) -> &[Value]
        ensures value { result.now ≡ self.now.constants }
    {
        &self.constants
    }

    /// The types of the slots.
    pub fn slots(&self) -> &[IlType]
        ensures value { result.now ≡ self.now.slots }
    {
        &self.slots
    }

    /// The kinds of the block instances.
    pub fn kinds(&self) -> &[BlockKind]
        ensures value { result.now ≡ self.now.kinds }
    {
        &self.kinds
    }

    /// The places where programs begin.
    pub fn starts(&self) -> &[usize]
        ensures value { result.now ≡ self.now.starts }
    {
        &self.starts
    }

    /// The words, one at each place; no list is longer than its limit.
    pub fn words(&self) -> &[PackedWord]
        ensures value { result.now ≡ self.now.instructions }
        ensures lawful { IsLawful self.now }
    {
        &self.words
    }

    /// The number of words, at most 65,536.
    pub fn len(&self) -> usize
        ensures value { result ≡ length self.now.instructions }
        ensures lawful { IsLawful self.now }
    {
        self.words.len()
    }

    /// The word at a place.
    pub fn word(&self, place: usize) -> Word
        requires { place < length self.now.instructions }
        ensures value { slice_get self.now.instructions place ≡ Some result }
        ensures lawful { IsLawful self.now }
    {
        self.words[place].word()
    }

    /// The word at a place, if there is one.
    pub fn get(&self, place: usize) -> Option<Word>
        ensures { result ≡ slice_get self.now.instructions place }
    {
        match self.words.get(place) {
            Some(word) => Some(word.word()),
            None => None,
        }
    }

    /// Whether a jump at the place may lead to the target: forward, no further than to the start of
    /// the next program or function, or to the end.
    #[tactic(auto, using(crate::proofs::Bodies::any_start))]
    pub fn is_target(&self, place: usize, target: usize) -> bool
        ensures { result ≡ is_target self.now place target }
    {
        place < target
            && target <= self.words.len()
            && !begins_between(&self.starts, place, target)
            && !function_between(&self.functions, place, target)
    }

    /// Whether a program or a function begins at the place.
    #[tactic(auto, using(crate::proofs::Bodies::any_start))]
    pub fn is_start(&self, place: usize) -> bool
        ensures { result ≡ is_start self.now place }
    {
        self.starts.contains(&place) || begins_at(&self.functions, place)
    }

    /// The functions, in the order in which they stand: each calls those before it alone.
    pub fn functions(&self) -> &[FunctionBody]
        ensures value { result.now ≡ self.now.functions }
        ensures lawful { IsLawful self.now }
    {
        &self.functions
    }

    /// The place where a body ends: that of the programs is 0, that of function n is n + 1.
    pub fn end_of(&self, body: usize) -> usize
        ensures { result ≡ end_of self.now body }
    {
        match self.functions.get(body) {
            Some(function) => function.start,
            None => self.words.len(),
        }
    }

    /// The number of the slot where those of a body end.
    pub fn slots_end(&self, body: usize) -> usize
        ensures { result ≡ slots_end self.now body }
    {
        match self.functions.get(body) {
            Some(function) => function.first,
            None => self.slots.len(),
        }
    }

    /// The body that the word at a place is one of.
    pub fn body_at(&self, place: usize) -> usize
        ensures { result ≡ body_at self.now place }
    {
        begun_before(&self.functions, place)
    }

    /// The line of the text that each word stands on, counted from 1.
    pub fn lines(&self) -> &[u32]
        ensures value { result.now ≡ self.now.lines }
    {
        &self.lines
    }
}

/// Whether a program begins between the two places.
fn begins_between(starts: &[usize], place: usize, target: usize) -> bool
    ensures { result ≡ list_any (λ start. nat_lt place start && nat_lt start target) starts.now }
{
    starts.iter().any(|start| place < *start && *start < target)
}

/// Whether a function begins between the two places.
fn function_between(functions: &[FunctionBody], place: usize, target: usize) -> bool
    ensures { result ≡ list_any (λ f. nat_lt place f.start && nat_lt f.start target) functions.now }
{
    functions.iter().any(|function| place < function.start && function.start < target)
}

/// Whether a function begins at the place.
fn begins_at(functions: &[FunctionBody], place: usize) -> bool
    ensures { result ≡ list_any (λ f. f.start == place) functions.now }
{
    functions.iter().any(|function| function.start == place)
}

/// The number of the first function that begins behind the place, or that of all functions.
fn begun_before(functions: &[FunctionBody], place: usize) -> usize
    ensures { result ≡ position_or_len (λ f. nat_lt place f.start) functions.now }
{
    first_behind(functions, place).unwrap_or(functions.len())
}

/// The number of the first function that begins behind the place, if one does.
fn first_behind(functions: &[FunctionBody], place: usize) -> Option<usize>
    ensures { result ≡ position (λ f. nat_lt place f.start) functions.now }
{
    functions.iter().position(|function| place < function.start)
}
