//! The different constants of a task.

ghost use Rattle.std.specs.Prelude.{◌≡◌, ℕ, [], ◌∷◌, ◌++◌, List, flat_map};
ghost use Rattle.std.specs.List.{list_any, IsDistinct};
ghost use Rattle.iltypes.specs.declared.value.Value.{Value};
ghost use Rattle.ilsource.specs.declared.instruction.Line.{Line};
ghost use Rattle.ilsource.specs.Uses.{uses_in};
ghost use Rattle.ilplan.specs.declared.place.Place.{Place};
ghost use Rattle.ilplan.specs.Constants.{same_value, with_constant, each_once};
ghost use Rattle.ilplan.specs.Constants.{different_constants, AreAmong};

use iltypes::Value;
use std::alloc::{AllocError, Global};
use std::collections::HashMap;
use std::marker::Model;

/// Different values, with their numbers from 0. A number is found by hashing.
#[derive(Drop)]
pub struct Constants {
    values: Vec<Value>,
    numbers: HashMap<Value, usize>,
}

impl Model for Constants {
    ghost use Rattle.std.specs.Prelude.{List};
    ghost use Rattle.std.specs.HashMap.{get};
    ghost use Rattle.iltypes.specs.declared.value.Value as value;
    ghost use Rattle.iltypes.specs.contracts.value.ValuePartialEq.TheImpl.{eq-value};
    ghost use Rattle.ilplan.specs.Constants.{AreNumbers};

    ghost Value = { List value.Value };

    ghost view = { λ c. c.values.items };

    ghost invariant = { λ c. AreNumbers (get eq-value.it c.numbers) c.values.items };
}

impl Constants {
    ghost use Rattle.std.specs.Prelude.{◌≡◌, [], OnErr, OnOk, length};
    ghost use Rattle.std.specs.List.{position_or_len};
    ghost use Rattle.ilplan.specs.Constants.{same_value, with_constant};

    /// No constants.
    pub fn new(alloc: Global) -> Constants
        ensures { result ≡ [] }
    {
        Constants {
            values: Vec::new(alloc),
            numbers: HashMap::new(alloc),
        }
    }

    /// Adds a value, where it is new, with the next number.
    pub fn add(&mut self, value: Value) -> Result<(), AllocError>
        ensures ok { OnOk result (self.new ≡ with_constant self.old value) }
        ensures err { OnErr result (self.new ≡ self.old) }
    {
        if self.numbers.contains_key(&value) {
            return Ok(());
        }
        self.values.reserve(1)?;
        self.numbers.insert(value, self.values.len())?;
        self.values.push_reserved(value);
        Ok(())
    }

    /// How many there are.
    pub fn len(&self) -> usize
        ensures value { result ≡ length self.now }
    {
        self.values.len()
    }

    /// The number of a value, or how many constants there are where it is none of them.
    pub fn number_of(&self, value: Value) -> usize
        ensures value { result ≡ position_or_len (same_value value) self.now }
    {
        match self.numbers.get(&value) {
            Some(number) => *number,
            None => self.values.len(),
        }
    }

    /// The values, in the order of their numbers.
    pub fn as_slice(&self) -> &[Value]
        ensures value { result.now ≡ self.now }
    {
        self.values.as_slice()
    }
}

/// Each of some values once: they are the same values, none is there twice, and one value more goes
/// last where it is new, so that they stand in order of first use. The constants that lines use are
/// among their different constants.
pub fn each_value_stands_once()
    ensures same { (values : List Value) (value : Value)
        → list_any (same_value value) (each_once values) ≡ list_any (same_value value) values }
    ensures distinct { (values : List Value) → IsDistinct same_value (each_once values) }
    ensures more { (values : List Value) (value : Value)
        → each_once (values ++ value ∷ []) ≡ with_constant (each_once values) value }
    ensures used { (lines : List (Line Place ℕ))
        → AreAmong (different_constants lines) (flat_map uses_in lines) }
{}
