//! Declarations and their faults.

ghost use Rattle.std.specs.Prelude.{◌≡◌, pos, None, Some};

use ildeclared::{
    DeclaredTypes, Found, NameCause, declared_type, fault_of, found_where, lesser_of,
};
use ilsource::{Declared, Name, Specification};
use iltypes::{IntegerType, Value};

/// `last_fault_reported`: of two faults the one that stands behind the other was reported.
pub fn first_of_two_faults_is_reported() -> Option<usize>
    ensures { result ≡ Some 1 }
{
    let first = Found {
        at: 1,
        cause: NameCause::Twice,
    };
    let last = Found {
        at: 2,
        cause: NameCause::Twice,
    };
    let reported = lesser_of(Some(first), Some(last))?;
    Some(reported.at)
}

/// `a_subrange_begins_with_0`: a variable of a subrange that lacks 0 began with 0.
pub fn subrange_begins_with_its_least_number(lower: &[u8], types: &DeclaredTypes) -> Option<Value>
    ensures { result ≡ Some (Value.Int (pos 3)) }
{
    let specification = Specification::Subrange {
        base: IntegerType::Int,
        low: 3,
        high: 9,
    };
    let declared = declared_type(lower, types, specification, None)?;
    Some(declared.initial)
}

/// `an_empty_subrange_accepted`: a subrange from 9 to 3 was no fault.
pub fn empty_subrange_is_a_fault(lower: &[u8], types: &DeclaredTypes, name: Name) -> Option<Found>
    ensures { result ≡ Some (record { at = name.from; cause = NameCause.BadDeclaration }) }
{
    let declared = Declared::Variables {
        specification: Specification::Subrange {
            base: IntegerType::Int,
            low: 9,
            high: 3,
        },
        initial: None,
    };
    fault_of(lower, types, &[name], declared, None)
}

/// `a_fault_found_again`: the fault that was found last was found once more.
pub fn fault_is_not_found_again() -> Option<Found>
    ensures { result ≡ None }
{
    let last = Found {
        at: 5,
        cause: NameCause::Twice,
    };
    found_where(true, last.at, last.cause, Some(last))
}

/// `one_fault_at_a_place`: a fault with a greater cause at the place of the last one was left out.
pub fn greater_cause_there_is_next() -> Option<Found>
    ensures { result ≡ Some (record { at = 5; cause = NameCause.BadDeclaration }) }
{
    let last = Found {
        at: 5,
        cause: NameCause::Twice,
    };
    found_where(true, 5, NameCause::BadDeclaration, Some(last))
}
