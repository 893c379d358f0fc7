//! Rows of values.

use crate::bank::{
    copy_first, copy_numbers, copy_truths, copy_words, number, put, put_number, put_truth, truth,
    value,
};
use crate::layout::RowLayout;
use iltypes::{IlType, Value};
use std::alloc::{AllocError, Global};
use std::marker::Model;
use std::sync::Arc;

/// A value for each slot: the truth values 64 to a word in one bank, the whole numbers in the
/// other. Contracts see the values in the order of the slots.
#[derive(Drop)]
pub struct ValueRow {
    layout: Arc<RowLayout, Global>,
    truths: Vec<u64>,
    numbers: Vec<i64>,
}

impl Model for ValueRow {
    ghost use Rattle.std.specs.Prelude.{List};
    ghost use Rattle.std.specs.Arc.{arc_value};
    ghost use Rattle.iltypes.specs.declared.value.Value as values;
    ghost use Rattle.ilcells.specs.Banks.{row_in, AreBanks};

    ghost Value = { List values.Value };

    ghost view = { λ r. row_in (arc_value r.layout) r.truths.items r.numbers.items };

    ghost invariant = { λ r. AreBanks (arc_value r.layout) r.truths.items r.numbers.items };
}

impl ValueRow {
    ghost use Rattle.std.specs.Prelude.{◌≡◌, ℕ, ◌<◌, ◌≤◌, ◌++◌, IfOk, Some, length, take, drop};
    ghost use Rattle.std.specs.Prelude.{slice_get, slice_set};
    ghost use Rattle.std.specs.Option.{IsSomeAnd};
    ghost use Rattle.std.specs.Arc.{arc_value};
    ghost use Rattle.iltypes.specs.declared.value.Value.TheVariants.{Bool, Int};
    ghost use Rattle.ilcells.specs.Cells.{is_number_of};
    ghost use Rattle.ilcells.specs.declared.place.BankPlace.TheVariants.{Truth, Number};
    ghost use Rattle.ilcells.specs.Banks.{kinds_of, truth_count, number_count, StandsAt};
    ghost use Rattle.ilcells.specs.Banks.{kinds_of_types};
    ghost use Rattle.limits.specs.Limits.{most_slots};

    /// A row of this layout, with some value of its kind in each slot.
    fn at_first(alloc: Global, layout: Arc<RowLayout, Global>) -> Result<ValueRow, AllocError>
        ensures { IfOk result (λ row. kinds_of row ≡ arc_value layout) }
    {
        let words = layout.truths() / 64 + 1;
        let count = layout.numbers();
        let truths = vec![in alloc; 0u64; words]?;
        let numbers = vec![in alloc; 0i64; count]?;
        Ok(ValueRow {
            layout,
            truths,
            numbers,
        })
    }

    /// The row of this layout with these values, one of its kind for each slot.
    pub fn of(
        alloc: Global,
        layout: Arc<RowLayout, Global>,
        values: &[Value],
    ) -> Result<ValueRow, AllocError>
        requires { kinds_of values.now ≡ arc_value layout }
        ensures { IfOk result (λ row. row ≡ values.now) }
    {
        let mut row = ValueRow::at_first(alloc, layout)?;
        for (slot, value) in values.iter().enumerate() {
            row.set(slot, *value);
        }
        Ok(row)
    }

    /// How many slots there are.
    pub fn len(&self) -> usize
        ensures { result ≡ length self.now }
    {
        self.layout.len()
    }

    /// The value of a slot.
    pub fn get(&self, slot: usize) -> Value
        requires { slot < length self.now }
        ensures { slice_get self.now slot ≡ Some result }
    {
        let place = self.layout.place(slot);
        value(place, &self.truths, &self.numbers)
    }

    /// Gives a slot another value of its kind.
    pub fn set(&mut self, slot: usize, value: Value)
        requires { IsSomeAnd (slice_get self.old slot)
            (λ was. is_number_of was ≡ is_number_of value) }
        ensures { self.new ≡ slice_set self.old slot value }
    {
        let place = self.layout.place(slot);
        put(place, value, &mut self.truths, &mut self.numbers);
    }

    /// The truth value at a place of its bank.
    #[inline(always)]
    pub fn truth(&self, place: usize) -> bool
        requires { place < truth_count (kinds_of self.now) }
        ensures { (slot : ℕ) → StandsAt (kinds_of self.now) slot (Truth place)
            → slice_get self.now slot ≡ Some (Bool result) }
    {
        truth(&self.truths, place)
    }

    /// The whole number at a place of its bank.
    #[inline(always)]
    pub fn number(&self, place: usize) -> i64
        requires { place < number_count (kinds_of self.now) }
        ensures { (slot : ℕ) → StandsAt (kinds_of self.now) slot (Number place)
            → slice_get self.now slot ≡ Some (Int result) }
    {
        number(&self.numbers, place)
    }

    /// Writes the truth value at a place of its bank.
    #[inline(always)]
    pub fn set_truth(&mut self, place: usize, truth: bool)
        requires { place < truth_count (kinds_of self.old) }
        ensures { (slot : ℕ) → StandsAt (kinds_of self.old) slot (Truth place)
            → self.new ≡ slice_set self.old slot (Bool truth) }
    {
        put_truth(&mut self.truths, place, truth);
    }

    /// Writes the whole number at a place of its bank.
    #[inline(always)]
    pub fn set_number(&mut self, place: usize, number: i64)
        requires { place < number_count (kinds_of self.old) }
        ensures { (slot : ℕ) → StandsAt (kinds_of self.old) slot (Number place)
            → self.new ≡ slice_set self.old slot (Int number) }
    {
        put_number(&mut self.numbers, place, number);
    }

    /// Takes over, from a row whose slots are of the same kinds, the values from a slot on. It
    /// takes no memory.
    pub fn copy_end(&mut self, other: &ValueRow, slot: usize)
        requires kinds { kinds_of self.old ≡ kinds_of other.now }
        requires there { slot ≤ length self.old }
        ensures { self.new ≡ take slot self.old ++ drop slot other.now }
    {
        let (truths, numbers) = self.layout.counts_before(slot);
        copy_truths(&mut self.truths, &other.truths, truths);
        copy_numbers(&mut self.numbers, &other.numbers, numbers);
    }

    /// Takes over the values of a row whose slots are of the same kinds as the first of these. It
    /// takes no memory.
    pub(crate) fn copy_start(&mut self, other: &ValueRow)
        requires { kinds_of other.now ≡ take (length other.now) (kinds_of self.old) }
        ensures kinds { kinds_of self.new ≡ kinds_of self.old }
        ensures start { take (length other.now) self.new ≡ other.now }
    {
        copy_words(&mut self.truths, &other.truths, other.truths.len());
        copy_first(&mut self.numbers, &other.numbers, other.numbers.len());
    }

    /// Takes over the first values of a row whose first slots are of the same kinds as these. It
    /// takes no memory.
    pub fn take_start(&mut self, other: &ValueRow)
        requires { kinds_of self.old ≡ take (length self.old) (kinds_of other.now) }
        ensures { self.new ≡ take (length self.old) other.now }
    {
        let truths = self.truths.len();
        let numbers = self.numbers.len();
        copy_words(&mut self.truths, &other.truths, truths);
        copy_first(&mut self.numbers, &other.numbers, numbers);
    }

    /// A row of slots of these types, of which the first have the values of this row, and each of
    /// the others has some value of its kind.
    pub fn longer(&self, types: &[IlType]) -> Result<ValueRow, AllocError>
        requires few { length types.now ≤ most_slots }
        requires kinds { kinds_of self.now ≡ take (length self.now) (kinds_of_types types.now) }
        ensures kinds { IfOk result (λ row. kinds_of row ≡ kinds_of_types types.now) }
        ensures start { IfOk result (λ row. take (length self.now) row ≡ self.now) }
    {
        let alloc = *self.truths.allocator();
        let layout = Arc::new(alloc, RowLayout::of(alloc, types)?)?;
        let mut row = ValueRow::at_first(alloc, layout)?;
        row.copy_start(self);
        Ok(row)
    }

    /// A copy of the row, which shares its layout.
    pub fn copy(&self) -> Result<ValueRow, AllocError>
        ensures { IfOk result (λ row. row ≡ self.now) }
    {
        Ok(ValueRow {
            layout: self.layout.clone()?,
            truths: self.truths.clone()?,
            numbers: self.numbers.clone()?,
        })
    }
}
