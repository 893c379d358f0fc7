//! What stands in banks.

ghost use Rattle.std.specs.Prelude.{◌≡◌, ◌≢◌, ℕ, ◌<◌, ◌≤◌, ◌/◌, ◌++◌, length, pos, take, drop};
ghost use Rattle.std.specs.Prelude.{slice_index_or, slice_set, ◌==◌};
ghost use Rattle.std.specs.Int.{bit_at};
ghost use Rattle.ilcells.specs.Cells.{is_number_of};
ghost use Rattle.ilcells.specs.Banks.{is_number_place, truth_at, value_at, HavePlace};
ghost use Rattle.ilcells.specs.declared.place.BankPlace.{BankPlace as AnyPlace};

use crate::place::BankPlace;
use iltypes::Value;

/// The truth value at a place of its bank, which has 64 to a word.
#[inline(always)]
pub(crate) fn truth(words: &[u64], place: usize) -> bool
    requires { place / 64 < length words.now }
    ensures { result ≡ truth_at words.now place }
{
    words[place / 64] >> (place % 64) & 1 == 1
}

/// The word with this bit at a place. It has no branch on the bit, which nothing foretells.
#[inline(always)]
fn with_bit(word: u64, place: usize, truth: bool) -> u64
    requires { place < 64 }
    ensures written { (bit_at result place == 1) ≡ truth }
    ensures others { (other : ℕ) → other < 64 → other ≢ place
        → bit_at result other ≡ bit_at word other }
{
    let bit = 1u64 << place;
    if truth { word | bit } else { word & !bit }
}

/// Writes the truth value at a place into its word.
#[inline(always)]
fn put_bit(words: &mut [u64], place: usize, truth: bool)
    requires { place / 64 < length words.old }
    ensures written { truth_at words.new place ≡ truth }
    ensures others { (other : ℕ) → other ≢ place
        → truth_at words.new other ≡ truth_at words.old other }
{
    words[place / 64] = with_bit(words[place / 64], place % 64, truth);
}

/// Writes the truth value at a place of its bank.
#[inline(always)]
pub(crate) fn put_truth(words: &mut Vec<u64>, place: usize, truth: bool)
    requires { place / 64 < length words.old.items }
    ensures written { truth_at words.new.items place ≡ truth }
    ensures others { (other : ℕ) → other ≢ place
        → truth_at words.new.items other ≡ truth_at words.old.items other }
    ensures long { length words.new.items ≡ length words.old.items }
{
    put_bit(words, place, truth);
}

/// The whole number at a place of its bank.
#[inline(always)]
pub(crate) fn number(numbers: &[i64], place: usize) -> i64
    requires { place < length numbers.now }
    ensures { result ≡ slice_index_or numbers.now place (pos 0) }
{
    numbers[place]
}

/// Writes the whole number at a place of its bank.
#[inline(always)]
pub(crate) fn put_number(numbers: &mut Vec<i64>, place: usize, number: i64)
    requires { place < length numbers.old.items }
    ensures { numbers.new.items ≡ slice_set numbers.old.items place number }
{
    numbers[place] = number;
}

/// The value at a place.
#[inline(always)]
pub(crate) fn value(place: BankPlace, truths: &[u64], numbers: &[i64]) -> Value
    requires { HavePlace place truths.now numbers.now }
    ensures { result ≡ value_at truths.now numbers.now place }
{
    match place {
        BankPlace::Truth(place) => Value::Bool(truth(truths, place as usize)),
        BankPlace::Number(place) => Value::Int(numbers[place as usize]),
    }
}

/// Writes the value at a place, which is of its bank.
#[inline(always)]
pub(crate) fn put(place: BankPlace, value: Value, truths: &mut Vec<u64>, numbers: &mut Vec<i64>)
    requires there { HavePlace place truths.old.items numbers.old.items }
    requires kind { is_number_place place ≡ is_number_of value }
    ensures written { value_at truths.new.items numbers.new.items place ≡ value }
    ensures others { (other : AnyPlace) → other ≢ place
        → value_at truths.new.items numbers.new.items other
        ≡ value_at truths.old.items numbers.old.items other }
    ensures truths { length truths.new.items ≡ length truths.old.items }
    ensures numbers { length numbers.new.items ≡ length numbers.old.items }
{
    match (place, value) {
        (BankPlace::Truth(place), Value::Bool(truth)) => put_truth(truths, place as usize, truth),
        (BankPlace::Number(place), Value::Int(number)) => numbers[place as usize] = number,
        _ => unreachable!(),
    }
}

/// Takes over the items of another list from a place on.
fn copy_tail<T: Copy>(items: &mut [T], others: &[T], place: usize)
    requires long { length others.now ≡ length items.old }
    requires there { place ≤ length items.old }
    ensures { items.new ≡ take place items.old ++ drop place others.now }
{
    items[place..].copy_from_slice(&others[place..]);
}

/// Takes over the first items of another list.
fn copy_head<T: Copy>(items: &mut [T], others: &[T], count: usize)
    requires mine { count ≤ length items.old }
    requires theirs { count ≤ length others.now }
    ensures { items.new ≡ take count others.now ++ drop count items.old }
{
    items[..count].copy_from_slice(&others[..count]);
}

/// Takes over the first words of another bank of truth values.
pub(crate) fn copy_words(words: &mut Vec<u64>, others: &[u64], count: usize)
    requires mine { count ≤ length words.old.items }
    requires theirs { count ≤ length others.now }
    ensures { words.new.items ≡ take count others.now ++ drop count words.old.items }
{
    copy_head(words, others, count);
}

/// Takes over the first numbers of another bank of whole numbers.
pub(crate) fn copy_first(numbers: &mut Vec<i64>, others: &[i64], count: usize)
    requires mine { count ≤ length numbers.old.items }
    requires theirs { count ≤ length others.now }
    ensures { numbers.new.items ≡ take count others.now ++ drop count numbers.old.items }
{
    copy_head(numbers, others, count);
}

/// Takes over the words of another bank from a place on. Of the word in which the place stands, the
/// bits before it stay.
fn copy_bits(words: &mut [u64], others: &[u64], place: usize)
    requires long { length others.now ≡ length words.old }
    requires there { place / 64 < length words.old }
    ensures before { (other : ℕ) → other < place
        → truth_at words.new other ≡ truth_at words.old other }
    ensures rest { (other : ℕ) → place ≤ other
        → truth_at words.new other ≡ truth_at others.now other }
{
    let rest = u64::MAX << (place % 64);
    let first = words[place / 64] & !rest | others[place / 64] & rest;
    copy_tail(words, others, place / 64);
    words[place / 64] = first;
}

/// Takes over the truth values of another bank from a place on.
pub(crate) fn copy_truths(words: &mut Vec<u64>, others: &[u64], place: usize)
    requires long { length others.now ≡ length words.old.items }
    requires there { place / 64 < length words.old.items }
    ensures before { (other : ℕ) → other < place
        → truth_at words.new.items other ≡ truth_at words.old.items other }
    ensures rest { (other : ℕ) → place ≤ other
        → truth_at words.new.items other ≡ truth_at others.now other }
    ensures long { length words.new.items ≡ length words.old.items }
{
    copy_bits(words, others, place);
}

/// Takes over the whole numbers of another bank from a place on.
pub(crate) fn copy_numbers(numbers: &mut Vec<i64>, others: &[i64], place: usize)
    requires long { length others.now ≡ length numbers.old.items }
    requires there { place ≤ length numbers.old.items }
    ensures { numbers.new.items ≡ take place numbers.old.items ++ drop place others.now }
{
    copy_tail(numbers, others, place);
}
