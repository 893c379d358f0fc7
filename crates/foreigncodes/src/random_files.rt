//! Random code files, such that many have a code and a good part of these is accepted.

use crate::bodies::{Body, Held};
use rand_core::utils::NextWord;
use rand_pcg::Pcg32;
use std::alloc::{AllocError, Global};

/// What each of them begins with; its version comes next.
const LETTERS: [u8; 4] = [0x44, 0x4c, 0x49, 0x4c];

/// 2 buses, 5 constants; the numbers of slots, instances, starts and words come next.
const HEAD: [u8; 7] = [2, 0, 0, 5, 0, 0, 0];

/// The constants 1, 100, -3 and the greatest number, and TRUE; the slots from 0 to 254, of BOOL,
/// from
/// -3 to 3, and of all numbers.
const TABLES: [u8; 176] = [
    1, 0, 0, 0, 0, 0, 0, 0, 1, 0, 0, 0, 0, 0, 0, 0, // 1
    1, 0, 0, 0, 0, 0, 0, 0, 100, 0, 0, 0, 0, 0, 0, 0, // 100
    1, 0, 0, 0, 0, 0, 0, 0, 253, 255, 255, 255, 255, 255, 255, 255, // -3
    1, 0, 0, 0, 0, 0, 0, 0, 255, 255, 255, 255, 255, 255, 255, 127, // the greatest
    0, 0, 0, 0, 0, 0, 0, 0, 1, 0, 0, 0, 0, 0, 0, 0, // TRUE
    1, 0, 0, 0, 0, 0, 0, 0, 0, 0, 0, 0, 0, 0, 0, 0, 254, 0, 0, 0, 0, 0, 0, 0, // 0 to 254
    0, 0, 0, 0, 0, 0, 0, 0, 0, 0, 0, 0, 0, 0, 0, 0, 1, 0, 0, 0, 0, 0, 0, 0, // BOOL
    1, 0, 0, 0, 0, 0, 0, 0, 253, 255, 255, 255, 255, 255, 255, 255, 3, 0, 0, 0, 0, 0, 0, 0, // -3 to 3
    1, 0, 0, 0, 0, 0, 0, 0, 0, 0, 0, 0, 0, 0, 0, 128, 255, 255, 255, 255, 255, 255, 255, 127, // all
];

/// The instances, a TON and a GEAR_ASK.
const INSTANCES: [u8; 2] = [2, 7];

/// Low bytes of words, each the operation and 64 times the kind of its operand: those that may come
/// where there is no current result, on a truth value, on a number, and any; 3 and 98 begin no
/// word.
const AT_FIRST: [u8; 16] = [
    64, 64, 64, 64, 64, 64, 64, 128, 128, 128, 128, 192, 192, 28, 28, 32,
];

const ON_TRUTHS: [u8; 32] = [
    64, 128, 66, 66, 66, 66, 67, 68, 69, 70, 71, 72, 73, 74, 75, 134, 135, 136, 138, 12, 12, 29,
    29, 29, 30, 30, 34, 33, 95, 65, 28, 194,
];

const ON_NUMBERS: [u8; 32] = [
    64, 66, 66, 66, 66, 66, 77, 78, 80, 82, 83, 84, 85, 86, 87, 88, 89, 141, 142, 143, 144, 145,
    146, 148, 150, 152, 153, 26, 27, 34, 33, 159,
];

const ANY: [u8; 16] = [
    3, 98, 33, 34, 32, 65, 67, 79, 81, 95, 159, 194, 70, 134, 208, 223,
];

/// Low bytes of the words that only files of version 2 have.
const CALL: u8 = 36;

const GIVE_SLOT: u8 = 99;

const GIVE_CONSTANT: u8 = 163;

/// Random files, one after another.
#[derive(Drop)]
pub(crate) struct RandomFiles {
    words: Pcg32,
}

impl RandomFiles {
    ghost use Rattle.std.specs.Prelude.{◌<◌};

    /// Those of this seed.
    pub(crate) fn new(seed: u64) -> RandomFiles {
        RandomFiles {
            words: Pcg32::new(seed, 54),
        }
    }

    /// A random word.
    pub(crate) fn word(&mut self) -> u32 {
        self.words.next_word()
    }

    /// A random number below the limit.
    pub(crate) fn below(&mut self, limit: u32) -> u32
        requires { 0 < limit }
        ensures { result < limit }
    {
        self.word() % limit
    }

    /// The next file: 1 to 12 words in one or two programs.
    pub(crate) fn next(&mut self, alloc: Global) -> Result<Vec<u8>, AllocError> {
        let count = 1 + self.below(12);
        let second = self.below(4 * count);
        let mut bytes = Vec::new(alloc);
        push_head(&mut bytes, 1, 4)?;
        bytes.extend_from_slice(&(if second < count { 2u32 } else { 1 }).to_le_bytes())?;
        bytes.extend_from_slice(&count.to_le_bytes())?;
        bytes.extend_from_slice(&TABLES)?;
        bytes.extend_from_slice(&INSTANCES)?;
        push_starts(&mut bytes, second, count)?;
        self.push_words(&mut bytes, Body::alone(count))?;
        push_lines(&mut bytes, count)?;
        Ok(bytes)
    }

    /// The next file with functions: one or two of 1 to 4 words each, behind 1 to 8 words of one or
    /// two programs.
    pub(crate) fn next_with_functions(&mut self, alloc: Global) -> Result<Vec<u8>, AllocError> {
        let two = self.below(2) == 1;
        let count = 1 + self.below(8);
        let second = self.below(4 * count);
        let end = count + 1 + self.below(4);
        let all = if two { end + 1 + self.below(4) } else { end };
        let mut bytes = Vec::new(alloc);
        push_front(&mut bytes, two, second < count, all)?;
        push_starts(&mut bytes, second, count)?;
        self.push_functions(&mut bytes, two, count, end)?;
        self.push_words(&mut bytes, Body::programs(if two { 2 } else { 1 }, count))?;
        self.push_words(&mut bytes, Body::first(count, end))?;
        self.push_words(&mut bytes, Body::second(end, all))?;
        push_lines(&mut bytes, all)?;
        Ok(bytes)
    }

    /// Where one or two functions stand; seldom a slot too far.
    fn push_functions(
        &mut self,
        bytes: &mut Vec<u8>,
        two: bool,
        count: u32,
        end: u32,
    ) -> Result<(), AllocError> {
        let first = if self.below(64) == 0 { 5 } else { 4 };
        push_numbers(bytes, [count, first, 1, 2])?;
        if two {
            push_numbers(bytes, [end, 6, 2, 4])?;
        }
        Ok(())
    }

    /// The words of a body.
    fn push_words(&mut self, bytes: &mut Vec<u8>, body: Body) -> Result<(), AllocError> {
        let mut held = Held::Nothing;
        for place in body.from..body.to {
            let low = self.low_in(held, body);
            let numbers = self.numbers(low, place, held, body);
            bytes.push(low)?;
            bytes.extend_from_slice(&numbers.to_le_bytes()[..3])?;
            held = held_after(low, numbers, held);
        }
        Ok(())
    }

    /// A low byte, mostly of a word that may come here in the body.
    fn low_in(&mut self, held: Held, body: Body) -> u8 {
        if body.has_functions() {
            let choice = self.below(16);
            if choice < 2 && (body.may_call() || self.below(8) == 0) {
                return CALL;
            }
            if choice == 2 {
                return GIVE_SLOT;
            }
            if choice == 3 {
                return GIVE_CONSTANT;
            }
        }
        let low = self.low(held);
        if body.is_function() && self.below(16) != 0 {
            without_ports(low)
        } else {
            low
        }
    }

    /// A low byte, mostly of a word that may come here.
    fn low(&mut self, held: Held) -> u8 {
        if self.below(16) == 0 {
            return ANY[self.below(16) as usize];
        }
        match held {
            Held::Nothing => AT_FIRST[self.below(16) as usize],
            Held::Truth => ON_TRUTHS[self.below(32) as usize],
            Held::Number => ON_NUMBERS[self.below(32) as usize],
        }
    }

    /// The numbers a and b of a word with this low byte, b as 4,096 times of it: a slot, a constant
    /// or a port that is mostly there, a place not far ahead, an instance, a type or an operator.
    fn numbers(&mut self, low: u8, place: u32, held: Held, body: Body) -> u32 {
        match (low % 64, low / 64) {
            (31, 3) => self.port() + 4096 * self.port(),
            (31, _) => self.operand(held) + 4096 * self.port(),
            (_, 3) => self.port(),
            (0, 1) => body.slot(self.below(5)),
            (0, 2) => self.below(5),
            (35, 1) => {
                let to = self.given(body);
                body.slot(self.operand(held_in(to))) + 4096 * to
            }
            (35, _) => {
                let to = self.given(body);
                self.constant(held_in(to)) + 4096 * to
            }
            (36, _) => self.called(body),
            (_, 1) => body.slot(self.operand(held)),
            (_, 2) => self.constant(held),
            (27, _) => self.below(7),
            (28, _) | (29, _) | (30, _) => place.saturating_add(1 + self.below(4)),
            (32, _) => self.below(3),
            (34, _) => self.below(24),
            _ => 0,
        }
    }

    /// A slot, mostly one whose kind is that of the current result.
    fn operand(&mut self, held: Held) -> u32
        ensures { result < 5 }
    {
        match (held, self.below(8)) {
            (Held::Truth, 1..) => 1,
            (Held::Number, 1 | 2) => 0,
            (Held::Number, 3 | 4) => 2,
            (Held::Number, 5..) => 3,
            _ => self.below(5),
        }
    }

    /// A slot that is given a value, mostly the input of a function that the body may call.
    fn given(&mut self, body: Body) -> u32
        ensures { result < 11 }
    {
        let any = self.below(11);
        if self.below(4) == 0 {
            any
        } else {
            body.input(any)
        }
    }

    /// A function, mostly one that the body may call.
    fn called(&mut self, body: Body) -> u32 {
        let any = self.below(3);
        if self.below(8) == 0 {
            any
        } else {
            body.callee(any)
        }
    }

    /// A constant, mostly one whose kind is that of the current result.
    fn constant(&mut self, held: Held) -> u32
        ensures { result < 5 }
    {
        match (held, self.below(8)) {
            (Held::Truth, 1..) => 4,
            (Held::Number, 1..) => self.below(4),
            _ => self.below(5),
        }
    }

    /// A port: one of the first five of one of the two instances, or of one that is not there.
    fn port(&mut self) -> u32
        ensures { result < 37 }
    {
        16 * (self.below(17) / 8) + self.below(5)
    }
}

/// What is probably the current result after a word.
fn held_after(low: u8, numbers: u32, held: Held) -> Held {
    match (low % 64, low / 64) {
        (0, 1) => held_in(numbers),
        (0, 2) if numbers == 4 => Held::Truth,
        (0, _) => Held::Number,
        (36, _) if numbers == 0 => Held::Truth,
        (36, _) => Held::Number,
        (18..=23, _) => Held::Truth,
        (32, _) | (34, _) => Held::Nothing,
        _ => held,
    }
}

/// What a slot holds, if it is there.
fn held_in(slot: u32) -> Held {
    match slot {
        1 | 5 | 7 => Held::Truth,
        _ => Held::Number,
    }
}

/// The low byte of the same word with a slot in place of a port, and of LD in place of CAL.
fn without_ports(low: u8) -> u8 {
    match (low % 64, low / 64) {
        (31, _) | (32, _) => 64,
        (_, 3) => low % 128,
        _ => low,
    }
}

/// What a file begins with, up to the number of its instances.
fn push_head(bytes: &mut Vec<u8>, version: u8, slots: u32) -> Result<(), AllocError> {
    bytes.extend_from_slice(&LETTERS)?;
    bytes.push(version)?;
    bytes.extend_from_slice(&HEAD)?;
    bytes.extend_from_slice(&slots.to_le_bytes())?;
    bytes.extend_from_slice(&2u32.to_le_bytes())
}

/// What a file with one or two functions begins with, up to its instances: one or two programs, and
/// the given number of words in all.
fn push_front(bytes: &mut Vec<u8>, two: bool, programs: bool, all: u32) -> Result<(), AllocError> {
    push_head(bytes, 2, if two { 10 } else { 6 })?;
    bytes.extend_from_slice(&(if programs { 2u32 } else { 1 }).to_le_bytes())?;
    bytes.extend_from_slice(&all.to_le_bytes())?;
    bytes.extend_from_slice(&(if two { 2u32 } else { 1 }).to_le_bytes())?;
    bytes.extend_from_slice(&TABLES)?;
    push_slots(bytes, two)?;
    bytes.extend_from_slice(&INSTANCES)
}

/// The slots of one or two functions: the first has an input from 0 to 254 and a result of BOOL,
/// the second has inputs from -3 to 3 and of BOOL, a result from 0 to 254, and a variable of all
/// numbers.
fn push_slots(bytes: &mut Vec<u8>, two: bool) -> Result<(), AllocError> {
    bytes.extend_from_slice(&TABLES[80..128])?;
    if two {
        bytes.extend_from_slice(&TABLES[128..152])?;
        bytes.extend_from_slice(&TABLES[104..128])?;
        bytes.extend_from_slice(&TABLES[80..104])?;
        bytes.extend_from_slice(&TABLES[152..])?;
    }
    Ok(())
}

/// Numbers of 32 bits.
fn push_numbers(bytes: &mut Vec<u8>, numbers: [u32; 4]) -> Result<(), AllocError> {
    for number in numbers {
        bytes.extend_from_slice(&number.to_le_bytes())?;
    }
    Ok(())
}

/// The start of one program, and of a second one where it begins before the end.
fn push_starts(bytes: &mut Vec<u8>, second: u32, end: u32) -> Result<(), AllocError> {
    bytes.extend_from_slice(&0u32.to_le_bytes())?;
    if second < end {
        bytes.extend_from_slice(&second.to_le_bytes())?;
    }
    Ok(())
}

/// So many lines.
fn push_lines(bytes: &mut Vec<u8>, count: u32) -> Result<(), AllocError> {
    for line in 0..count {
        bytes.extend_from_slice(&line.to_le_bytes())?;
    }
    Ok(())
}
