//! What is said of bad declarations.

use crate::said::{Row, Said, Slot, advice};
use crate::standing::FaultPlace;
use crate::tokens::type_behind;
use ilscope::{Found, NameCause};
use ilsource::{Constant, Declared, Specification};
use iltokens::{AddressKind, Keyword};
use std::alloc::AllocError;

/// What is said of a bad declaration of which nothing else is known.
const BAD_DECLARATION: Row = advice!("a bad declaration";
    "keep the limits within those of the type, the lower one first, and the\n\
        first value within them; a task has either SINGLE or INTERVAL, and a\n\
        priority of 0 to 65535";
    "n : USINT (0..254) := 0;");

/// What is said of a bad declaration, or of a call that does not fit it.
pub(crate) fn said_of_declaration(place: &FaultPlace) -> Result<Said, AllocError> {
    let kind = match place.address_named() {
        Some(address) => Some(address.kind),
        None => None,
    };
    let row = match (place.around.block_word(), place.declared()) {
        // A call: nothing else in a line is at fault so.
        _ if place.used.is_some() => {
            return Ok(Said::of(advice!("a call with too few or too many operands";
                "the current result goes to the first input: write an operand for each\n\
                    other one, in their order";
                "blend 100, 25"))
            .with_facts("its inputs ({c}): {i}\n", 0));
        }
        _ if place.is_behind(Keyword::Task) => of_task(place),
        (Some(Keyword::VarExternal), _) => return different(place),
        (Some(Keyword::Var), Some(Declared::Blocks(_))) => {
            advice!("a block instance in a function";
                "a function keeps nothing from call to call: declare the instance in the\n\
                    program, and hand in what it gives as an input";
                "VAR_INPUT pressed : BOOL; END_VAR")
        }
        _ if place.is_behind(Keyword::Function) && place.inputs().is_empty() => {
            advice!("a function without an input";
                "declare one at least: a call hands the current result to the first";
                "VAR_INPUT v : INT (0..254); END_VAR")
        }
        (Some(Keyword::VarGlobal), Some(declared)) => return Ok(of_declared(declared, kind)),
        (_, Some(declared)) => return Ok(of_declared(declared, None)),
        (_, None) => BAD_DECLARATION,
    };
    Ok(Said::of(row))
}

/// What is said of a task.
fn of_task(place: &FaultPlace) -> Row {
    let number = place.scope.task_number(place.name()).unwrap_or(0);
    let Some(task) = place.task(number) else {
        return BAD_DECLARATION;
    };
    match (task.single, task.interval) {
        (None, None) => advice!("a task that nothing starts";
            "write SINGLE with a trigger, or INTERVAL with a time, before PRIORITY";
            "TASK clock (INTERVAL := T#100ms, PRIORITY := 1);"),
        (Some(_), Some(_)) => advice!("a task with SINGLE and INTERVAL";
            "write one of the two: SINGLE for a task that events start, INTERVAL for one\n\
                that runs again and again";
            "TASK push (SINGLE := pressed, PRIORITY := 1);"),
        (None, Some(0)) => advice!("an interval of 0";
            "an interval is 1 ms or more";
            "TASK clock (INTERVAL := T#100ms, PRIORITY := 1);"),
        _ => advice!("a priority outside 0 to 65535";
            "write one of 0 to 65535; a task with 0 comes before all others";
            "TASK clock (INTERVAL := T#100ms, PRIORITY := 1);"),
    }
}

/// What is said of other variables, of a type, or of a function's result; of a global variable with
/// the kind of its address, if it has one.
fn of_declared(declared: Declared, kind: Option<AddressKind>) -> Said {
    let Declared::Variables {
        specification,
        initial,
    } = declared
    else {
        return Said::of(BAD_DECLARATION);
    };
    Said::of(match (specification, initial) {
        (Specification::Subrange { low, high, .. }, _) if low > high => {
            advice!("a range whose lower limit is above the upper one";
                "write the lower limit first";
                "level : INT (0..254);")
        }
        (Specification::Subrange { low, high, .. }, Some(Constant::Number(first)))
            if first < low || first > high => {
            return Said::of(advice!("{0} is outside {1}..{2}";
                "write a first value of the range, or a wider range";
                "level : USINT (0..254) := 100;"))
            .with_slots([Slot::Limit(first), Slot::Limit(low), Slot::Limit(high)]);
        }
        _ if matches!(kind, Some(AddressKind::InputBit)) => {
            advice!("a type that does not fit the address";
                "a trigger %IX is BOOL; what its source says is the information %IW, with\n\
                    128 and the number of the source";
                "sensor AT %IW0.128 : UINT (0..1023);")
        }
        _ if kind.is_some() => advice!("a type that does not fit the address";
            "a level %QB is USINT or a range of 0 to 255, an answer, an information and a\n\
                count %IW are numbers, a trigger %IX is BOOL";
            "lamp AT %QB0.5 : USINT (0..254);"),
        (Specification::Bool, Some(_)) => advice!("a first value that is not a truth value";
            "write TRUE, FALSE, 1 or 0";
            "is_on : BOOL := TRUE;"),
        (_, Some(Constant::Bool(_))) => advice!("a first value that is not a number";
            "write a number, or a time";
            "level : USINT (0..254) := 100;"),
        (Specification::Subrange { .. }, _) | (_, Some(_)) => {
            advice!("a range or a first value outside its type";
                "SINT is -128..127, INT -32768..32767, DINT -2147483648..2147483647, USINT\n\
                    0..255, UINT 0..65535 and UDINT 0..4294967295; a first value lies in the range";
                "level : USINT (0..254) := 100;")
        }
        _ => BAD_DECLARATION,
    })
}

/// What is said of a variable of VAR_EXTERNAL that has another type than the one of VAR_GLOBAL: the
/// line of that, and the type that it could have, if that fits its address.
fn different(place: &FaultPlace) -> Result<Said, AllocError> {
    let Some(global) = place.global_named() else {
        return Ok(Said::of(BAD_DECLARATION));
    };
    let at = global.name.from;
    let before = Found {
        at,
        cause: NameCause::NoTask,
    };
    let is_bad = match place.scope.next_fault(place.alloc, Some(before))? {
        Some(found) => found.at == at,
        None => false,
    };
    let said = if is_bad {
        Said::of(advice!("a type that is not that of VAR_GLOBAL";
            "the type in VAR_GLOBAL does not fit its address: write another one there,\n\
                and the same here";
            "lamp AT %QB0.5 : USINT (0..254);"))
    } else {
        let (from, to) = type_behind(place.spot.text, place.spot.at);
        let (first, last) = type_behind(place.spot.text, at);
        Said::of(advice!("a type that is not that of VAR_GLOBAL";
            "write the same type in both";
            "VAR_EXTERNAL lamp : USINT (0..254); END_VAR"))
        .put(from, to, "{0}", Slot::Part(first, last))
    };
    Ok(said.with_facts("in VAR_GLOBAL:\n{g}\n", at))
}
