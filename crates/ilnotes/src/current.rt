//! What the words of a straight line say of the current result by themselves: constants, truth
//! values among them, and the slot from which it was computed. The ranges of `ilverify` say
//! neither.

use crate::facts::place_of;
use ilcode::{Code, Word, WordOperand};
use illisting::{is_marked, mark};
use iltypes::{Function, Operator, Value};
use std::alloc::{AllocError, Global};

/// The value of an operand that is a constant. FALSE counts as 0 and TRUE as 1.
pub fn constant_of(code: &Code, operand: WordOperand) -> Option<i64> {
    let WordOperand::Constant(number) = operand else {
        return None;
    };
    match code.constants().get(usize::from(number))? {
        Value::Bool(is) => Some(i64::from(*is)),
        Value::Int(number) => Some(*number),
    }
}

/// What is known of the current result, or of what is stored.
#[derive(Clone, Copy)]
pub(crate) struct Current {
    /// Its value, where the words say it by themselves.
    pub value: Option<i64>,
    /// The slot, or first port, from which it was loaded, by its place among what a code uses.
    pub origin: Option<usize>,
    /// Whether it was changed since then, as by ADD.
    pub is_changed: bool,
    /// Whether that made it the opposite, and no more.
    pub is_opposite: bool,
}

/// Nothing is known.
const UNKNOWN: Current = Current {
    value: None,
    origin: None,
    is_changed: false,
    is_opposite: false,
};

impl Current {
    /// Once it is negated, where it is: a truth value becomes its opposite.
    fn opposite_if(self, negated: bool) -> Current {
        let value = match self.value {
            Some(0) if negated => Some(1),
            Some(1) if negated => Some(0),
            value => value,
        };
        Current {
            value,
            origin: self.origin,
            is_changed: self.is_changed || negated,
            is_opposite: if negated {
                !self.is_changed
            } else {
                self.is_opposite
            },
        }
    }

    /// Once it is limited, or of another type, and so is no constant any more; or once it is
    /// changed.
    fn computed(self, is_changed: bool) -> Current {
        Current {
            value: None,
            origin: self.origin,
            is_changed: self.is_changed || is_changed,
            is_opposite: false,
        }
    }
}

/// A way along the words of a task's code.
#[derive(Drop)]
pub(crate) struct Way<'c> {
    code: &'c Code,
    /// The slot of the trigger that starts the task, which is TRUE in each scan.
    trigger: Option<usize>,
    /// Whether a jump leads to a place.
    landings: Vec<bool>,
    /// The number of the straight line. Along it nothing is jumped over.
    pub stretch: usize,
    pub place: usize,
    /// The furthest place that a jump before leads to.
    passed: usize,
    pub result: Current,
}

impl<'c> Way<'c> {
    /// Before the first word.
    ///
    /// # Errors
    ///
    /// The allocator is out of memory.
    pub fn new(
        alloc: Global,
        code: &'c Code,
        trigger: Option<usize>,
    ) -> Result<Way<'c>, AllocError> {
        let mut landings = vec![in alloc; false; code.len()]?;
        for place in 0..code.len() {
            if let Word::Jump { target, .. } = code.word(place) {
                mark(&mut landings, target as usize);
            }
        }
        Ok(Way {
            code,
            trigger,
            landings,
            stretch: 0,
            place: 0,
            passed: 0,
            result: UNKNOWN,
        })
    }

    /// Comes to a place: what is known of the result ends where a jump leads to, and where a
    /// program or a function begins. A way may come to the first place again.
    pub fn arrive(&mut self, place: usize) {
        self.place = place;
        if place == 0 {
            self.passed = 0;
        }
        if place == 0 || is_marked(&self.landings, place) || self.code.is_start(place) {
            self.stretch = self.stretch.saturating_add(1);
            self.result = UNKNOWN;
        }
    }

    /// Whether no jump leads past the word here.
    pub fn is_always(&self) -> bool {
        self.place >= self.passed
    }

    /// Goes on past a word.
    pub fn go_on(&mut self, word: Word) {
        self.result = match word {
            Word::Load { negated, operand } => self.loaded(operand).opposite_if(negated),
            Word::Apply(
                Operator::Add
                | Operator::Sub
                | Operator::Mul
                | Operator::Div
                | Operator::Mod
                | Operator::Xor { .. },
                _,
            )
            | Word::Transform(Function::Not)
            | Word::Invoke(_) => self.result.computed(true),
            Word::Apply(Operator::Min | Operator::Max, _) | Word::Transform(_) => {
                self.result.computed(false)
            }
            Word::Apply(..) | Word::Call(_) | Word::Open(_) | Word::Close => UNKNOWN,
            _ => self.result,
        };
        if let Word::Jump { target, .. } = word {
            self.passed = self.passed.max(target as usize);
        }
    }

    /// What a load of an operand leaves.
    fn loaded(&self, operand: WordOperand) -> Current {
        let mut loaded = UNKNOWN;
        match operand {
            WordOperand::Slot(slot) if self.trigger == Some(usize::from(slot)) => {
                loaded.value = Some(1);
            }
            WordOperand::Slot(_) | WordOperand::Port { port: 0, .. } => {
                loaded.origin = Some(place_of(self.code, operand));
            }
            _ => loaded.value = constant_of(self.code, operand),
        }
        loaded
    }

    /// What a word stores, where it does.
    pub fn stored_by(&self, word: Word) -> Current {
        let mut stored = UNKNOWN;
        match word {
            Word::Store { negated, .. } => stored = self.result.opposite_if(negated),
            Word::Pass { operand, .. } | Word::Give { operand, .. } => {
                stored = self.loaded(operand);
            }
            Word::Set(_) => stored.value = Some(1),
            Word::Reset(_) => stored.value = Some(0),
            _ => {}
        }
        stored
    }
}
