//! What is said of a fault of names.

ghost use Rattle.std.specs.Prelude.{IfOk};
ghost use Rattle.explaincures.specs.Trying.{NamesOn, ShowsCure};

use crate::addresses::{said_of_address, said_of_input};
use crate::declarations::said_of_declaration;
use crate::said::{Change, Row, Said, Slot, advice};
use crate::standing::FaultPlace;
use crate::tokens::{Role, next_same, token_at, type_behind};
use crate::unknown_names::said_of_unknown;
use explaincures::{AskedText, FaultAnswer, Surroundings};
use ilscope::{NameCause, Scope, stored_globals, uses_of};
use ilsource::{Name, Operand, Purpose, Source, Symbol, Use};
use iltokens::Keyword;
use limits::{MOST_CALLS, MOST_FUNCTIONS, MOST_INPUTS};
use std::alloc::{AllocError, Global};

/// What is said of a cause at a place of a text with this source program, which stands on a line,
/// counted from 1. A change that is shown was tried: with it the text is accepted, or its names
/// have no fault up to the change and that line.
///
/// # Errors
///
/// The allocator is out of memory.
pub fn answer_name(
    alloc: Global,
    asked: &AskedText,
    source: &Source,
    line: usize,
    at: usize,
    cause: NameCause,
) -> Result<FaultAnswer, AllocError>
    ensures { IfOk result
        (ShowsCure asked.now.binding.now asked.now.text.now line NamesOn) }
{
    let scope = Scope::of(alloc, source, asked.binding)?;
    let place = FaultPlace::of(alloc, asked, &scope, at)?;
    place.answer(&said_of(&place, cause)?, line)
}

/// What is said of a cause at a place.
pub(crate) fn said_of(place: &FaultPlace, cause: NameCause) -> Result<Said, AllocError> {
    Ok(match cause {
        NameCause::Unknown => said_of_unknown(place),
        NameCause::Twice => {
            let facts = "first given in line {l}\n";
            said_before(place, given_twice(place), facts, Role::Given)
        }
        NameCause::UnknownLabel => unknown_label(place),
        NameCause::BackwardJump => {
            let row = advice!("a jump that does not lead forward";
                "put the label below the jump; what is to be done again is done in the\n\
                    next scan";
                "JMP below");
            said_before(place, row, LABEL_STANDS, Role::Label)
        }
        NameCause::BadAddress => said_of_address(place),
        NameCause::InputRangeTooSmall => {
            Said::of(advice!("a variable that lacks values of its input";
                "give it a type with all numbers of its address: answers are 0 to 258,\n\
                    information 0 to 1023, counts 0 to 65535";
                "answer AT %IW0.5 : UINT (0..258);"))
        }
        NameCause::WrittenTwice => written_twice(place)?,
        NameCause::WritesInput => writes_input(place),
        NameCause::NoTask => without_task(place),
        NameCause::TooMany => Said::of(too_many(place)?),
        NameCause::BadDeclaration => said_of_declaration(place)?,
    })
}

/// Where a label stands.
const LABEL_STANDS: &str = "the label stands in line {l}\n";

/// What is said of a label that is not there: where it stands in another program, if it does.
fn unknown_label(place: &FaultPlace) -> Said {
    let (spot, slots) = (&place.spot, [Slot::of(place.name()); 3]);
    match next_same(spot, 0, Role::Label) {
        // A name with a colon behind it is declared elsewhere.
        Some(label) if Surroundings::of(spot.text, label.from).is_in_body() => {
            Said::of(advice!("a label of another program or function";
                "a jump stays in its program or function: write a label further on in it";
                "{0}:"))
            .with_slots(slots)
            .with_facts(LABEL_STANDS, label.from)
        }
        _ => match next_same(spot, spot.found_to(), Role::Alone) {
            Some(alone) => Said::of(advice!("a label that stands without its colon";
                "write a colon behind it"; "skip:"))
            .with_facts("it stands in line {l}\n", alone.from)
            .with_change(Change::Put(alone.to, alone.to, ":")),
            None => Said::of(advice!("a label that does not exist";
                "write the label further on, or correct the name";
                "{0}:"))
            .with_slots(slots)
            .with_change(Change::Near),
        },
    }
}

/// What a row says of a name or an address, with the line in which it has a role before: first in
/// what is open there, or else anywhere.
fn said_before(place: &FaultPlace, row: Row, facts: &'static str, role: Role) -> Said {
    let said = Said::of(row);
    for start in [place.around.from, 0] {
        if let Some(found) = next_same(&place.spot, start, role) {
            if found.from < place.spot.at {
                return said.with_facts(facts, found.from);
            }
        }
    }
    said
}

/// What is said of a name or an address that is given twice.
fn given_twice(place: &FaultPlace) -> Row {
    let unit = place.around.unit_word();
    let is_shared = unit == Some(Keyword::Type)
        || unit == Some(Keyword::Program) && place.is_behind(Keyword::Program);
    if place.spot.token().starts_with(b"%") {
        advice!("an address that is given twice";
            "use the variable that has the address; each address has one name";
            "VAR_GLOBAL lamp AT %QB0.5 : USINT (0..254); END_VAR")
    } else if place.is_behind(Keyword::Function) || is_shared && place.function_named().is_some() {
        advice!("a name that a type, a function or a program above has";
            "give one of them another name: types, functions and programs share their\n\
                names; letter case does not tell names apart";
            "FUNCTION half2 : INT (0..127)")
    } else if place.is_in_function() && place.around.block.is_some() {
        advice!("a name that the function has already";
            "give one of them another name: the function, which its result is named\n\
                after, its inputs and its VAR all differ, whatever the letter case";
            "VAR_INPUT v, v2 : INT (0..254); END_VAR")
    } else {
        advice!("a name that is given twice";
            "give one of them another name; letter case does not tell names apart";
            "VAR lamp : BOOL; lamp2 : BOOL; END_VAR")
    }
}

/// What is said of a global variable that two tasks store to: the second of the instances that do
/// could have the task of the first.
fn written_twice(place: &FaultPlace) -> Result<Said, AllocError> {
    let said = Said::of(advice!("a global variable that two tasks store to";
        "give both program instances to one task, or let one task store to\n\
            another variable, which the other reads";
        "PROGRAM {0} WITH {1} : {2};"))
    .with_facts("stored in line {s}\n", 0);
    let mut task: Option<Name> = None;
    for one in place.instances() {
        if !is_stored_by(place, one.program)? {
            continue;
        }
        match (task, one.task) {
            (Some(first), Some(other)) if !first.is_same(other, place.spot.text) => {
                let slots = [Slot::of(one.name), Slot::of(first), Slot::of(one.program)];
                return Ok(said.with_slots(slots));
            }
            (None, its) => task = its,
            _ => {}
        }
    }
    Ok(said.with_slots([Slot::Word("b"), Slot::Word("fast"), Slot::Word("sw")]))
}

/// Whether a program stores to the global variable at the place.
fn is_stored_by(place: &FaultPlace, program: Name) -> Result<bool, AllocError> {
    let scope = place.scope;
    let global = scope.global_number(place.name()).unwrap_or(usize::MAX);
    let number = scope.program_number(program).unwrap_or(usize::MAX);
    if number >= scope.programs().len() {
        return Ok(false);
    }
    let stored = stored_globals(place.alloc, scope, number)?;
    Ok(stored.contains(&global))
}

/// What is said of a store that cannot be, or of a first value of an input.
fn writes_input(place: &FaultPlace) -> Said {
    match (place.symbol(), place.purpose(), place.address_named()) {
        (Some(_), _, _) if place.is_in_function() => {
            Said::of(advice!("a store to an input of the function";
                "an input keeps its argument: store to the result, which has the function's\n\
                    name, or to a variable of its VAR";
                "VAR rest : INT (0..254); END_VAR"))
        }
        (_, Some(Purpose::Pass), _) => Said::of(advice!("an output of a block in its call";
            "leave it out: an output is read behind the call, with a dot";
            "CAL count(PV := 5)\nLD count.CV\nST level")),
        (Some(Symbol::Port { block, port }), _, _) => {
            Said::of(advice!("a store to an output of a block";
                "its call alone writes an output: store to another variable";
                "ST lamp"))
            .with_slots([Slot::of(block), Slot::of(port), Slot::Nothing])
            .with_facts("{0}.{1} is an output of the block {0}\n", 0)
        }
        (Some(_), _, Some(address)) => said_of_input(Slot::of(place.name()), address),
        _ => with_first_value(place),
    }
}

/// What is said of an input of the buses that has a first value: it could have none.
fn with_first_value(place: &FaultPlace) -> Said {
    let (_, from) = type_behind(place.spot.text, place.spot.at);
    // Up to the semicolon.
    let mut to = from;
    for _ in 0..2 {
        to = match token_at(place.spot.text, to) {
            Some(found) => found.to,
            None => to,
        };
    }
    Said::of(advice!("a first value of an input of the buses";
        "an input is written by the buses alone: leave out := and its first value";
        "answer AT %IW0.5 : UINT (0..258);"))
    .with_change(Change::Put(from, to, ""))
}

/// What is said of an instance without a task: it could have the first.
fn without_task(place: &FaultPlace) -> Said {
    let said = Said::of(advice!("a program instance without a task";
        "write WITH and a task";
        "TASK clock (INTERVAL := T#100ms, PRIORITY := 1);\nPROGRAM hall WITH clock : light;"));
    let to = place.spot.found_to();
    match place.task(0) {
        Some(task) => said.put(to, to, " WITH {0}", Slot::of(task.name)),
        None => said,
    }
}

/// What is said of too much.
fn too_many(place: &FaultPlace) -> Result<Row, AllocError> {
    let is_function = place.is_behind(Keyword::Function);
    let number = place.scope.function_number(place.name()).unwrap_or(0);
    Ok(if place.is_behind(Keyword::Task) {
        advice!("the 17th task: there are at most 16";
            "give program instances of two tasks to one, and leave the other out";
            "PROGRAM hall WITH clock : light;\nPROGRAM stairs WITH clock : light;")
    } else if place.is_behind(Keyword::Program) && place.around.is_in_configuration() {
        advice!("the 65th program instance: there are at most 64";
            "write one program for two rooms, with a set of variables for each";
            "PROGRAM hall WITH clock : two_rooms;")
    } else if is_function && number >= MOST_FUNCTIONS {
        advice!("a function too many: a text has at most 64";
            "leave one out, or write one with an input more in place of two";
            "VAR_INPUT v : INT (0..254); is_upper : BOOL; END_VAR")
    } else if is_function && depth_of(place, number)? > MOST_CALLS {
        advice!("a function that is more than 8 deep";
            "at most 8 calls are open at once: let the program call one of them, and\n\
                hand in what it gives";
            "VAR_INPUT v, halved : INT (0..254); END_VAR")
    } else if is_input_too_many(place) {
        advice!("an input too many: a function has at most 16";
            "leave some out, or make two functions of it";
            "VAR_INPUT v : INT (0..254); END_VAR")
    } else {
        advice!("too much for one task";
            "a task has at most 4096 variables, 256 block instances, 65,536 words and\n\
                4096 constants: leave some out, or divide them among tasks";
            "TASK stairs (INTERVAL := T#1s, PRIORITY := 2);")
    })
}

/// Whether the input that a function has too many stands at the place.
fn is_input_too_many(place: &FaultPlace) -> bool {
    for function in place.scope.functions() {
        if let Some(input) = function.inputs().get(MOST_INPUTS) {
            if input.name.from == place.spot.at {
                return true;
            }
        }
    }
    false
}

/// How deep the function with a number is: one more than the deepest that it calls.
fn depth_of(place: &FaultPlace, number: usize) -> Result<usize, AllocError> {
    let mut depths: Vec<usize> = Vec::new(place.alloc);
    for function in place.scope.functions() {
        let uses = uses_of(place.alloc, function.function().lines())?;
        depths.push(depth_above(place, &uses, &depths))?;
    }
    Ok(depths.get(number).copied().unwrap_or(0))
}

/// How deep a function with these uses is, if the functions above it have these depths.
fn depth_above(place: &FaultPlace, uses: &[Use<Symbol>], depths: &[usize]) -> usize {
    let mut depth: usize = 1;
    for used in uses {
        if let Operand::Name(Symbol::Function(called)) = used.operand {
            let below = place.scope.function_number(called).unwrap_or(usize::MAX);
            let its = depths.get(below).copied().unwrap_or(0);
            depth = depth.max(its.saturating_add(1));
        }
    }
    depth
}
