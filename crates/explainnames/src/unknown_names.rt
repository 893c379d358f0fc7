//! What is said of names that are not declared: those that other languages have, and others by
//! where they stand, as ports, blocks, global variables and types.

use crate::name_habits::{is_among, name_habit};
use crate::said::{Change, Row, Said, Slot, advice};
use crate::standing::{FaultPlace, lines_at};
use crate::tokens::{Token, token_at, type_behind};
use explaincures::{Spot, content_len, is_of_group, meant_instruction, near_word, part};
use ilsource::{Declared, Name, Purpose, Specification};
use iltokens::{Keyword, KeywordGroup, keyword_of};

/// What is said of a name that is not declared. Where nothing else is known of it, another one may
/// be near.
pub(crate) fn said_of_unknown(place: &FaultPlace) -> Said {
    let spot = &place.spot;
    let is_alone = content_len(spot.rest()) == spot.token().len();
    // First on its line, or behind a label.
    let is_instruction = spot.is_first() || matches!(spot.front(), [.., b':'] | [.., b':', b' ']);
    if let Some((word, row)) = name_habit(spot.token(), is_instruction, is_alone) {
        return habitual(place, word, row);
    }
    let said = Said::of(unknown(place)).with_change(Change::Near);
    match place.used {
        Some(_) => said_in_line(place, is_alone).unwrap_or(said),
        None => said,
    }
}

/// What is said of a name in a line of instructions, where more is known of it.
fn said_in_line(place: &FaultPlace, is_alone: bool) -> Option<Said> {
    no_port(place)
        .or(other_kind(place))
        .or(of_function(place))
        .or(no_external(place))
        .or(of_conversion(place))
        .or(of_time(place))
        .or(blank_missing(place, is_alone))
        .or(of_result(place))
}

/// What is said of a name that is not declared, where nothing else is known of it: another one may
/// be near.
fn unknown(place: &FaultPlace) -> Row {
    let (from, to) = place.around.before;
    match (place.purpose(), place.around.block_word()) {
        (None, Some(_)) if place.spot.part(from, to).eq_ignore_ascii_case(b":") => {
            advice!("a type that is not declared";
                "correct the name, or declare the type above its use, in TYPE";
                "TYPE Level : USINT (0..254); END_TYPE")
        }
        (None, Some(Keyword::VarExternal)) => advice!("a variable that no VAR_GLOBAL has";
            "declare it in VAR_GLOBAL of the configuration, with the same type, or\n\
                correct the name";
            "VAR_GLOBAL lamp AT %QB0.5 : USINT (0..254); END_VAR"),
        (None, None) if place.around.is_in_configuration() => {
            advice!("a name that is not declared";
                "SINGLE names a variable of VAR_GLOBAL, WITH a task of the configuration, and\n\
                    behind the colon stands a program of the text";
                "TASK clock (INTERVAL := T#100ms, PRIORITY := 1);\n\
                    PROGRAM hall WITH clock : light;")
        }
        (Some(Purpose::Invoke), _) if is_conditional(place.spot.token()) => {
            advice!("no instruction, and no function that is declared above";
                "do you mean {m}? with C behind its word it is carried out\n\
                    where the result is TRUE, with CN where it is FALSE, and else always";
                "LD button\nJMPCN below\nLD 200\nST lamp\nbelow: LD level")
        }
        (Some(Purpose::Invoke), _) if instruction_asked(place.spot.token()).is_some() => {
            advice!("no instruction, and no function that is declared above";
                "do you mean {m}? else declare the function above the line that calls it";
                "LD level\nSUB 5\nST level")
        }
        (Some(Purpose::Invoke), _) => {
            advice!("no instruction, and no function that is declared above";
                "correct the name, or declare the function above the line that calls it; no\n\
                    function calls itself";
                "FUNCTION half : INT (0..127)")
        }
        (Some(_), _) if is_number_of_block(&place.spot) => advice!("a name that is not declared";
            "correct or declare the name, or write a number: ADR is 0 to 63 for a short\n\
                address, 64 to 79 for the groups 0 to 15, and 80 for all gear; CMD counts the\n\
                commands of the block from 0";
            "CAL all(ADR := 80, CMD := 0)"),
        (Some(_), _) if place.is_in_function() => {
            advice!("a name that the function does not have";
                "correct the name; a function has its inputs, its result and its VAR alone,\n\
                    so hand in what else it needs as an input";
                "VAR_INPUT lamp : USINT (0..254); END_VAR")
        }
        (Some(Purpose::Call), _) => advice!("a name that is not declared";
            "CAL names an instance of a function block: correct the name, or declare the\n\
                instance in VAR";
            "VAR rest : TON; END_VAR"),
        _ => advice!("a name that is not declared";
            "correct the name, or declare it in this program: its own variables in\n\
                VAR, those of the configuration in VAR_EXTERNAL";
            "VAR_EXTERNAL lamp : USINT (0..254); END_VAR"),
    }
}

/// The first instruction that may be meant by what was found, where none is plainly meant.
fn instruction_asked(found: &[u8]) -> Option<&'static str> {
    match near_word(found) {
        Some(_) => None,
        None => meant_instruction(found, 0),
    }
}

/// Instructions that have forms with C and CN.
const CONDITIONAL: &[KeywordGroup] = &[
    KeywordGroup::Jump,
    KeywordGroup::Call,
    KeywordGroup::Return,
];

/// Whether that has forms with C and CN.
fn is_conditional(found: &[u8]) -> bool {
    match instruction_asked(found) {
        Some(word) => is_of_group(word.as_bytes(), CONDITIONAL),
        None => false,
    }
}

/// Whether the address or the command of a block that sends is given by what was found.
fn is_number_of_block(spot: &Spot) -> bool {
    let front = spot.front().trim_ascii_end();
    let named = match front.strip_suffix(b":=".as_slice()) {
        Some(named) => named.trim_ascii_end(),
        None => return false,
    };
    let start = named.len().saturating_sub(3);
    is_among("ADR,CMD", part(named, start, named.len()))
}

/// What is said of a name that other languages have, for which a word stands, if one does. Where no
/// result stands before an instruction that has another word here, one of logic loads; where that
/// is not plain, no line is tried.
fn habitual(place: &FaultPlace, word: &'static str, row: Row) -> Said {
    if is_among("S,R", word.as_bytes()) && is_of_number(place) {
        return Said::of(OF_NUMBER).with_slots([Slot::Word(word); 3]);
    }
    let (load, before) = (load_of(word), word_before(place));
    // A row that names the word is that of an instruction, or a type, with another word here.
    let is_named = row.contains("{0}");
    let said = if is_named && !load.is_empty() && has_no_result(before) {
        Said::of(LOADED).with_slots([Slot::Word(load), Slot::Word(word), Slot::Nothing])
    } else {
        Said::of(row).with_slots([Slot::Word(word); 3])
    };
    if is_plain(word, load, before) || !is_named && !word.is_empty() {
        said.with_change(Change::Put(place.spot.at, place.spot.found_to(), "{0}"))
    } else {
        said
    }
}

/// What is said of a word for S or R before a number.
const OF_NUMBER: Row = advice!("an instruction that has another word here";
    "{0} acts on truth values alone, and a number stands behind it: load a\n\
        number, and store it with ST";
    "LD 0\nST lamp");

/// What is said of a word of logic where no result stands before it.
const LOADED: Row = advice!("an instruction that has another word here";
    "write {0}, since no result stands before it; else {1}";
    "LD button\nANDN off\nST light");

/// The word that loads in place of a word of logic; empty for another word.
fn load_of(word: &str) -> &'static str {
    let is_logic = is_of_group(word.as_bytes(), &[KeywordGroup::Logic]);
    match word.as_bytes() {
        [.., b'N'] if is_logic => "LDN",
        _ if is_logic => "LD",
        _ => "",
    }
}

/// Whether a word plainly stands for what was found, behind a line that begins with `before`.
fn is_plain(word: &str, load: &str, before: &[u8]) -> bool {
    if word.is_empty() {
        return false;
    }
    let is_free = load.is_empty() || is_of_group(before, TRUTHS);
    let is_load = is_of_group(word.as_bytes(), &[KeywordGroup::Load]);
    has_no_result(before) || is_free && !is_load
}

/// Whether a number of the program stands behind what was found.
fn is_of_number(place: &FaultPlace) -> bool {
    let Some(behind) = token_at(place.spot.text, place.spot.found_to()) else {
        return false;
    };
    let Token { from, to, .. } = behind;
    let Some(Declared::Variables { specification, .. } | Declared::External(specification)) =
        place.declared_as(Name { from, to }) else {
        return false;
    };
    matches!(
        specification,
        Specification::Integer(_) | Specification::Subrange { .. }
    )
}

/// The first word of the line of instructions before; END_VAR where there is none, and nothing
/// where what was found does not begin its own line.
fn word_before<'a>(place: &FaultPlace<'a, '_>) -> &'a [u8] {
    let spot = &place.spot;
    let mut before = None;
    for line in lines_at(place.scope.source(), spot.at) {
        if line.at < spot.at {
            before = Some(line.at);
        }
    }
    match before {
        _ if !spot.is_first() => b"",
        Some(at) => Spot::of(spot.text, at).first_word(),
        None => b"END_VAR",
    }
}

/// Whether a line begins with a word behind which an instruction has no result that it goes on with.
fn has_no_result(before: &[u8]) -> bool {
    let is_done = is_of_group(before, &[KeywordGroup::Store]) || is_of_group(before, CONDITIONAL);
    is_done || keyword_of(before) == Some(Keyword::EndVar)
}

/// With what a line begins that leaves a truth value that logic goes on with.
const TRUTHS: &[KeywordGroup] = &[
    KeywordGroup::Load,
    KeywordGroup::Logic,
    KeywordGroup::Complement,
];

/// What is said of a name that is declared as something else.
fn other_kind(place: &FaultPlace) -> Option<Said> {
    let spot = &place.spot;
    let is_block = matches!(place.declared_as(place.name())?, Declared::Blocks(_));
    let is_word = spot.first_word() == spot.token();
    let row = match (is_block, is_word) {
        (true, true) => advice!("a block instance where an instruction is asked for";
            "a line begins with an instruction: CAL calls the instance";
            "CAL rest(PT := T#3m)"),
        (true, false) => advice!("a block instance where a variable is asked for";
            "name one of its ports, behind a dot";
            "LD rest.Q"),
        (false, true) => advice!("a variable where an instruction is asked for";
            "a line begins with an instruction: LD loads the variable, ST stores to it";
            "LD light"),
        (false, false) => advice!("a variable where a block instance is asked for";
            "CAL names an instance of a function block, which VAR declares";
            "VAR rest : TON; END_VAR"),
    };
    let word = match is_word {
        true if is_block => "CAL ",
        true => "LD ",
        false => "",
    };
    Some(Said::of(row).put(spot.at, spot.at, word, Slot::Nothing))
}

/// What is said of a conversion from or to truth values.
fn of_conversion(place: &FaultPlace) -> Option<Said> {
    let (from, to) = (place.spot.at, place.spot.found_to());
    let front = place.spot.part(from, from.saturating_add(8));
    let end = place.spot.part(to.saturating_sub(8), to);
    if !front.eq_ignore_ascii_case(b"BOOL_TO_") && !end.eq_ignore_ascii_case(b"_TO_BOOL") {
        return None;
    }
    Some(Said::of(advice!("there is no conversion from or to BOOL";
        "a jump chooses a number by a truth value; a comparison, as NE 0, gives a\n\
            truth value for a number";
        "LD is_on\nJMPC bright\nLD 0\nJMP set\nbright: LD 254\nset: ST lamp")))
}

/// What is said of a time without its sign, and of a timer that is numbered.
fn of_time(place: &FaultPlace) -> Option<Said> {
    let (from, to) = (place.spot.at, place.spot.found_to());
    match place.spot.token() {
        word if !is_time(word) => None,
        [.., b'0'..=b'9'] => Some(Said::of(NUMBERED).with_change(Change::Near)),
        _ => {
            let row = advice!("a time without its #"; "a time begins with T#"; "T#100ms");
            let time = Slot::Part(from.saturating_add(1), to);
            Some(Said::of(row).put(from, to, "T#{0}", time))
        }
    }
}

/// What is said of a timer that is numbered.
const NUMBERED: Row = advice!("a timer as other languages have it";
    "a timer is an instance of TON with a name, which CAL calls; FALSE at its IN\n\
        resets it";
    "VAR rest : TON; END_VAR\nCAL rest(IN := pressed, PT := T#3m)\nLD rest.Q");

/// Whether a word is a T, a digit, and then digits and signs of times alone.
fn is_time(word: &[u8]) -> bool {
    let [b'T' | b't', b'0'..=b'9', rest @ ..] = word else {
        return false;
    };
    for byte in rest {
        if !byte.is_ascii_digit() && !b"_DHMS".contains(&byte.to_ascii_uppercase()) {
            return false;
        }
    }
    true
}

/// What is said of an instruction with its operand right behind it, a number or a name of the
/// program, and nothing else on its line.
fn blank_missing(place: &FaultPlace, is_alone: bool) -> Option<Said> {
    let spot = &place.spot;
    if !is_alone || spot.first_word() != spot.token() {
        return None;
    }
    let words = "LDN,LD,STN,ST,ANDN,AND,ORN,OR,XORN,XOR,ADD,SUB,MUL,DIV,MOD,GT,GE,EQ,NE,LE,LT";
    for word in words.split(',') {
        let behind = spot.at.saturating_add(word.len());
        if is_joined(place, word, behind) {
            let row = advice!("a blank is missing behind {0}";
                "an instruction and its operand have a blank between them";
                "LD lamp");
            return Some(Said::of(row).put(behind, behind, " ", Slot::Word(word)));
        }
    }
    None
}

/// Whether what was found begins with a word, behind which an operand stands.
fn is_joined(place: &FaultPlace, word: &str, behind: usize) -> bool {
    let spot = &place.spot;
    if !is_among(word, spot.part(spot.at, behind)) {
        return false;
    }
    let operand = Name {
        from: behind,
        to: spot.found_to(),
    };
    let is_number = matches!(spot.part(behind, operand.to), [b'0'..=b'9', ..]);
    is_number || place.declared_as(operand).is_some()
}

/// What is said of a function's result by a name that other languages have for it.
fn of_result(place: &FaultPlace) -> Option<Said> {
    let (from, to) = place.around.unit?.name?;
    if !place.is_in_function() || !is_among("result,value,out,output", place.spot.token()) {
        return None;
    }
    let row = advice!("a name that the function does not have";
        "the result has the name of the function";
        "ST half");
    let Name { from: at, to: end } = place.name();
    Some(Said::of(row).put(at, end, "{0}", Slot::Part(from, to)))
}

/// What is said of a function in a program, where no function can stand: without CAL, where nothing
/// stands behind it.
fn of_function(place: &FaultPlace) -> Option<Said> {
    place.function_named()?;
    match place.purpose()? {
        _ if place.is_in_function() => None,
        Purpose::Call => {
            let (from, _) = place.spot.first_place();
            let row = advice!("a function where a block instance is asked for";
                "a line begins with the function's name, without CAL: the current result is its\n\
                    first argument, and the others stand behind the name";
                "LD level\nhalf\nST level");
            Some(Said::of(row).with_change(Change::Put(from, place.spot.at, "")))
        }
        Purpose::Read => Some(Said::of(advice!("a function where a variable is asked for";
            "load the first argument, and write the function's name on a line of its own\n\
                below: what it gives is the current result then";
            "LD level\nhalf\nST level"))),
        _ => None,
    }
}

/// What is said of a port of a block instance.
fn no_port(place: &FaultPlace) -> Option<Said> {
    place.block_of_port()?;
    let row = advice!("a port that the block does not have"; "write one of its ports"; "LD rest.Q");
    Some(Said::of(row).with_facts("its ports: {p}\n", 0))
}

/// What is said of a global variable that the program does not name in VAR_EXTERNAL.
fn no_external(place: &FaultPlace) -> Option<Said> {
    let name = place.global_named()?.name;
    let (from, to) = type_behind(place.spot.text, name.from);
    let row = advice!("a global variable that the program does not name";
        "name it in VAR_EXTERNAL of this program, with its type";
        "VAR_EXTERNAL {0} : {1}; END_VAR");
    let slots = [Slot::of(name), Slot::Part(from, to), Slot::Nothing];
    Some(Said::of(row).with_slots(slots))
}
