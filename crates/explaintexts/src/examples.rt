//! What stands at a place where nothing is wrong: how it is written, and lines as they read.

use explaincures::{Spot, Surroundings, is_of_group, is_one_of, part};
use iltokens::{Keyword, KeywordGroup, Lexed, What, token};

/// A task and an instance of a program.
const BOTH: &str =
    "TASK clock (INTERVAL := T#100ms, PRIORITY := 1);\nPROGRAM hall WITH clock : light;";

/// How something is written, and lines of another text.
type Example = (&'static str, &'static str);

/// What stands at a place where nothing is wrong.
pub(crate) fn example_of(spot: &Spot, around: &Surroundings) -> Example {
    match (around.block_word(), around.unit_word()) {
        (Some(block), _) => of_block(block),
        (None, Some(Keyword::Configuration)) => in_configuration(spot, around),
        (None, Some(Keyword::Type)) => (
            "a declaration has a name, a colon, a type and a semicolon",
            "Level : USINT (0..254);",
        ),
        (None, Some(_)) if around.is_in_body() => in_body(spot.first_word()),
        (None, Some(_)) => (
            "a function has a name, a colon and the type of its result, and then\n\
                VAR_INPUT",
            "FUNCTION half : INT (0..127)\nVAR_INPUT v : INT (0..254); END_VAR",
        ),
        (None, None) => (
            "a text has types, functions and programs, and then at most one\n\
                configuration, which is its end",
            "PROGRAM stairs",
        ),
    }
}

/// What stands in a line of instructions that begins with this word.
fn in_body(word: &[u8]) -> Example {
    if is_of_group(word, &[KeywordGroup::Jump]) {
        (
            "a jump names a label, which stands further on with a colon behind it",
            "JMPC below\nLD 5\nbelow: ST level",
        )
    } else if is_of_group(word, &[KeywordGroup::Call]) {
        (
            "the inputs stand in parentheses, each with := and its value",
            "CAL rest(IN := pressed, PT := T#3m)",
        )
    } else if is_of_group(word, &[KeywordGroup::Limitation]) {
        (
            "LIMIT takes the lower limit, a comma and the upper one, and keeps the current\n\
                result between them",
            "LD level\nLIMIT 0, 200",
        )
    } else {
        (
            "an instruction stands on a line of its own, with its operand behind it",
            "LD lamp",
        )
    }
}

/// What stands in a block of variables.
fn of_block(word: Keyword) -> Example {
    match word {
        Keyword::VarGlobal => (
            "a declaration has a name, an address behind AT if need be, a colon, a type\n\
                and a semicolon",
            "lamp AT %QB0.5 : USINT (0..254);",
        ),
        Keyword::VarExternal => (
            "a declaration has one name, a colon, the type of VAR_GLOBAL and a semicolon,\n\
                and no value",
            "lamp : USINT (0..254);",
        ),
        Keyword::VarInput => (
            "a declaration has names, a colon, a type and a semicolon, and no value",
            "level, most : USINT (0..254);",
        ),
        _ => (
            "a declaration has names, a colon, a type, a first value if need be, and a\n\
                semicolon",
            "lamp, lamp2 : USINT (0..254) := 100;",
        ),
    }
}

/// What stands in a configuration, outside its variables.
fn in_configuration(spot: &Spot, around: &Surroundings) -> Example {
    let is_instance = is_one_of(spot.first_word(), &["PROGRAM"]);
    let front = part(spot.text, around.from, spot.at);
    if is_one_of(spot.token(), &["TASK"]) && has_word(front, Keyword::Program) {
        (
            "tasks stand before the programs: write this one above the first PROGRAM of the\n\
                configuration",
            BOTH,
        )
    } else if is_one_of(spot.first_word(), &["TASK"]) {
        (
            "a task has SINGLE with a trigger or INTERVAL with a time, and then PRIORITY",
            "TASK clock (INTERVAL := T#100ms, PRIORITY := 1);",
        )
    } else if is_instance && !has_word(front, Keyword::Task) {
        (
            "an instance has a name, a task behind WITH, and the name of its program; the\n\
                task stands above it",
            BOTH,
        )
    } else if is_instance {
        (
            "an instance has a name, a task behind WITH, and the name of its program",
            "PROGRAM hall WITH clock : light;",
        )
    } else {
        (
            "a configuration has VAR_GLOBAL first, then its tasks, then its programs",
            BOTH,
        )
    }
}

/// Whether a reserved word stands in a text.
fn has_word(text: &[u8], word: Keyword) -> bool {
    let mut at: usize = 0;
    for _ in 0..text.len() {
        if at >= text.len() {
            return false;
        }
        match token(text, at) {
            Lexed::Token { what, .. } if what == What::Keyword(word) => return true,
            Lexed::Token { to, .. } => at = to,
            _ => return false,
        }
    }
    false
}
