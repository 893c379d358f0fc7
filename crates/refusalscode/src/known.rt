//! What is known of values after words, and where two ways meet.

ghost use Rattle.std.specs.Prelude.{◌≡◌, ◌<◌, [], ◌∷◌, length, pos, slice_get, true};
ghost use Rattle.std.specs.Prelude.{IfOk, IfSome, None, OnOk, Some};
ghost use Rattle.ilcode.specs.Listings.{slots_end};
ghost use Rattle.ilverify.specs.Changes.{ways_of};
ghost use Rattle.ilverify.specs.Knowns.{IsKnown, known_of_type};
ghost use Rattle.refusalscode.specs.Codes.{few, many};

use ilcode::{Code, Target, Word, WordOperand};
use iltypes::{Function, IlType, IntegerType, Range, Value};
use ilverify::{Cause, Change, Changes, Entry, Known, Slots, after_word};
use std::alloc::AllocError;

/// `test_kept_after_a_load`: after a load the mark of the result before was kept.
pub fn loaded_constant_has_no_mark(
    code: &Code,
    place: usize,
    met: bool,
    entry: &Entry,
) -> Result<Changes, Cause>
    requires { place < length code.now.instructions }
    ensures { IfOk result (λ changes. IfSome (ways_of code.now entry.now changes).next
        (λ after. after.mark ≡ None)) }
{
    let word = Word::Load {
        negated: false,
        operand: WordOperand::Constant(0),
    };
    after_word(code, place, met, entry, word)
}

/// `mark_stays_after_give`: after GIVE the mark of the current result was kept.
pub fn give_removes_the_mark(
    code: &Code,
    place: usize,
    met: bool,
    entry: &Entry,
) -> Result<Changes, Cause>
    requires { place < length code.now.instructions }
    ensures { IfOk result (λ changes. IfSome (ways_of code.now entry.now changes).next
        (λ after. after.mark ≡ None)) }
{
    let word = Word::Give {
        operand: WordOperand::Constant(0),
        slot: 0,
    };
    after_word(code, place, met, entry, word)
}

/// `give_stores_to_the_next_slot`: GIVE wrote what is known of the slot behind its own.
pub fn give_leaves_the_next_slot(
    code: &Code,
    place: usize,
    met: bool,
    entry: &Entry,
) -> Result<Changes, Cause>
    requires { place < length code.now.instructions }
    ensures { IfOk result (λ changes. IfSome (ways_of code.now entry.now changes).next
        (λ after. slice_get after.slots 1 ≡ slice_get entry.now.slots 1)) }
{
    let word = Word::Give {
        operand: WordOperand::Constant(0),
        slot: 0,
    };
    after_word(code, place, met, entry, word)
}

/// `slot_keeps_its_range_after_a_store`: after a store the slot was known as before.
pub fn stored_slot_is_known_anew(
    code: &Code,
    place: usize,
    met: bool,
    entry: &Entry,
    before: Known,
    stored: Known,
) -> Result<Changes, Cause>
    requires place { place < length code.now.instructions }
    requires before { entry.now.slots ≡ before ∷ [] }
    requires stored { entry.now.result ≡ Some stored }
    ensures { IfOk result (λ changes. IfSome (ways_of code.now entry.now changes).next
        (λ after. after.slots ≡ stored ∷ [])) }
{
    let word = Word::Store {
        negated: false,
        variable: Target::Slot(0),
    };
    after_word(code, place, met, entry, word)
}

/// `callee_slot_keeps_its_range_over_a_call`: after a call the slots of the function were known as
/// before.
pub fn called_function_may_change_its_slots(
    code: &Code,
    entry: &mut Entry,
    declared: IlType,
    known: Known,
) -> Result<(), AllocError>
    requires types { code.now.slots ≡ declared ∷ declared ∷ [] }
    requires first { slots_end code.now 0 ≡ 0 }
    requires end { slots_end code.now 1 ≡ 2 }
    requires slots { entry.old.slots ≡ known ∷ known ∷ [] }
    ensures { OnOk result
        (entry.new.slots ≡ known_of_type declared ∷ known_of_type declared ∷ []) }
{
    Change::Return(0).apply(code, entry)
}

/// `conversion_unchecked`: a number might be converted to a type that lacks it.
pub fn number_beyond_the_type_is_refused() -> bool
    ensures { result ≡ true }
{
    let number = Known::Int(Range { lo: 0, hi: 300 });
    match number.after_function(Function::Convert(IntegerType::Usint)) {
        Ok(_) => false,
        Err(_) => true,
    }
}

/// `joined_slots_keep_the_narrower_ranges`: where two ways meet a slot was known by the narrower
/// range.
pub fn joined_slot_may_be_as_on_the_other_way(
    one: &Slots,
    other: &Slots,
) -> Result<Option<Slots>, AllocError>
    requires one { one.now ≡ few ∷ [] }
    requires other { other.now ≡ many ∷ [] }
    ensures { IfOk result (λ made. IfSome made (λ slots.
        IfSome (slice_get slots 0) (IsKnown (Value.Int (pos 5))))) }
{
    one.join(other)
}

/// `join_is_wider_than_both_ways`: where two ways meet numbers were held that are known on neither.
pub fn join_ends_where_a_way_ends() -> Option<Known>
    ensures { IfSome result (λ known. ¬ IsKnown (Value.Int (pos 0)) known) }
{
    let one = Known::Int(Range { lo: -5, hi: -3 });
    let other = Known::Int(Range { lo: -2, hi: -1 });
    one.join(other)
}
