//! What people write who come from other languages: what is said of it, and how it is changed.

use crate::habit::{Habit, habits};
use crate::near_rows::{near_declarations, near_instructions, siemens_rows, word_rows};
use crate::said::{Row, advice};

pub(crate) const BASED: Row = advice!("a number of another base as other languages have it";
    "write 16# before hexadecimal digits, 8# before octal and 2# before binary ones";
    "LD 16#C8");

pub(crate) const DOTTED: Row = advice!("a time with a fraction";
    "write whole numbers with the units d, h, m, s and ms, in this order";
    "T#1s500ms");

pub(crate) const FRACTION: Row = advice!("a number with a fraction";
    "there are whole numbers alone: a multiplication and then a division stand\n\
        for a fraction";
    "MUL 35\nDIV 10");

pub(crate) const GROUPED: Row = advice!("a number with a dot or a comma in it";
    "digits stand together, or with _ between them: a thousand is 1000 or 1_000,\n\
        and one is 1";
    "LD 1_000");

pub(crate) const LOGIC_SIGN: Row = advice!("a sign that is not an operator";
    "operators are words, each on a line of its own: EQ, NE, GT, GE, LE and LT\n\
        compare, ADD, SUB, MUL, DIV and MOD calculate";
    "GT 100");

pub(crate) const NESTED_COMMENT: Row = advice!("a comment in a comment";
    "a comment ends at the first *) behind its (*: leave the inner one out";
    "(* the stairs *)");

const NAMED: Row = advice!("an address where a name is asked for";
    "give the address a name in VAR_GLOBAL, and write that name";
    "VAR_GLOBAL lamp AT %QB0.5 : USINT (0..254); END_VAR");

pub(crate) const PERCENT: Row = advice!("a percent sign";
    "a share of a value is a multiplication, and then a division; a level is a\n\
        number of 0 to 254";
    "MUL 50\nDIV 100");

pub(crate) const TRUTH_SIGN: Row = advice!("a sign that is not an operator";
    "operators are words: AND, OR, XOR and NOT combine truth values";
    "OR button");

pub(crate) const UNIT: Row = advice!("a time without T# before it";
    "a time begins with T#";
    "T#100ms");

/// Comments, arrays and quotes.
const QUOTES: &[Habit] = habits! {
    advice!("a line that ends with CR alone";
        "lines end with LF or with CR LF: save the file with one of these";
        "PROGRAM stairs") =>
        Anywhere "@ {}" ["\r"] Nothing;
    BASED =>
        Anywhere "<< {other} @ [ {} ] ~{hex}" ["$ &h"] Put("16#");
    advice!("a time with a sign";
        "a time has no sign: it says how long something lasts, from T#0s on";
        "T#5s") =>
        Anywhere "_@ -t#" Nothing, Anywhere "# {} ~{signed}" ["t# time#"] Nothing;
    advice!("a time with a blank in it"; "a time has no blanks"; "T#1s500ms") =>
        Anywhere "< [ {time} @ {digit} ]" Put("{0}{1}"),
        Anywhere "< {} ~@ {} [ _{value} ]" ["t time #"] Put("{2}");
    advice!("a rung of a ladder diagram";
        "LD loads the first contact, AND takes the next one in its row, OR that of a\n\
            branch, with an N where it is closed at rest; ST is the coil";
        "LD button\nANDN off\nST light") =>
        Anywhere "@ {}" ["--| --[ --( |-- [-- |-| -| -["] Nothing;
    advice!("a comment as other languages have it";
        "a comment begins with (* and ends with *)";
        "(* the stairs *)") =>
        Anywhere "@ [ {remark} ]" Put("(* {0} *)"),
        Anywhere "@ (plain) [ {braced} ]" Put("(* {0} *)"),
        Anywhere "@ [ {} {rest} ]" ["// --"] Put("(* {1} *)"),
        Anywhere "_@ [ {} _{rest} ]" ["#"] Put("(* {1} *)"),
        Anywhere "_@ [ {} (sole) {rest} ]" ["'"] Put("(* {1} *)"),
        Anywhere "^ @ [ {} {rest} ]" ["#"] Put("(* {1} *)"),
        Anywhere "@ {}" ["// /* --"] Nothing, Anywhere "@ (plain) {}" ["{"] Nothing;
    advice!("# before a name"; "write the name alone"; "LD level") =>
        Anywhere "_@ [ {} ] ~{name}" ["#"] Put("");
    NESTED_COMMENT =>
        Anywhere "@ *)" Nothing;
    advice!("a name in quotes"; "write the name alone; each name is declared"; "LD button") =>
        Anywhere "@ [ {} ~{name} ~\" ]" ["\""] Put("{1}");
    advice!("a range in square brackets";
        "a range stands in parentheses";
        "level : INT (0..100);") =>
        Anywhere "<< {integer} @ {}" ["["] Nothing;
    advice!("there are no arrays";
        "give each value a variable of its own";
        "VAR level1, level2 : USINT (0..254); END_VAR") =>
        Anywhere "<< array @" Nothing, Anywhere "@ (plain) {}" ["["] Nothing;
    GROUPED =>
        Anywhere "< {digit} ~@ ' ~{digit}" Nothing;
    advice!("a text in quotes";
        "there are truth values, whole numbers and times alone: write a number";
        "LD 5") =>
        Anywhere "@ {}" ["' \""] Nothing;
};

/// Statements of other languages.
const STATEMENTS: &[Habit] = habits! {
    advice!("a statement of Structured Text";
        "compare first, and then jump past what is not to be done: JMPC jumps where\n\
            the result is TRUE, JMPCN where it is FALSE";
        "LD lamp\nEQ 0\nJMPCN below") =>
        Anywhere "@ then" Nothing,
        Anywhere "^ {}" ["if elsif end_if case end_case"] Nothing;
    advice!("a loop";
        "jumps lead forward alone: what is to be done again is done in the next scan";
        "LD count\nADD 1\nST count") =>
        Anywhere "^ {}" ["for end_for while end_while repeat end_repeat until"]
        Nothing;
    advice!("a value behind S or R";
        "they take the name alone: where the current result is TRUE, S stores TRUE and\n\
            R stores FALSE";
        "LD button\nS lamp") =>
        Body "^ s {value} [ @ {} true ;? $ ]" [":= ="] Put(""),
        Body "^ r {value} [ @ {} false ;? $ ]" [":= ="] Put(""),
        Body "^ s {value} @ {}" [":= = true false"] Nothing,
        Body "^ r {value} @ {}" [":= = true false"] Nothing;
    advice!("an assignment of Structured Text";
        "load the value, and store it: each instruction has a line of its own";
        "LD lux\nLT 30\nAND door\nST light") =>
        Body "^ st? {target} {given} {value} {operator} {value} {operator}" Nothing,
        Body "^ st? {target} {given} {value} {operator} not" Nothing,
        Body "^ st? {target} {given} not {value} {operator}" Nothing,
        Body "^ st? {target} {given} (" Nothing;
    advice!("an assignment of Structured Text";
        "load the value, and store it: each instruction has a line of its own";
        "LD 200\nST lamp") =>
        Body "^ [ st? {target} {given} not {value} ;? $ ]" Put("LDN {2}\n{i}ST {0}"),
        Body "^ [ st? {target} {given} {value} ;? $ ]" Put("LD {2}\n{i}ST {0}"),
        Body "^ [ st? {target} {given} {value} {operator} {value} ;? $ ]"
        Put("LD {2}\n{i}{w} {4}\n{i}ST {0}"),
        Body "^ {target} :=" Nothing, Body "^ {name} @ {given}" Nothing, Body "@ :=" Nothing;
    advice!("a semicolon behind a label"; "a colon stands behind a label"; "below: LD lamp") =>
        Body "^ {jumped} @ [ ; ]" Put(":");
    advice!("a semicolon behind an instruction";
        "leave it out: an instruction ends with its line; what stands behind it has a\n\
            line of its own, or is a comment between (* and *)";
        "ST lamp  (* the lamp *)") =>
        Line "@ ; (text)" Nothing;
    advice!("a semicolon behind an instruction";
        "leave it out: an instruction ends with its line";
        "ST lamp") =>
        Line "@ ;" LeaveOut;
};

/// Declarations, where they cannot stand.
const DECLARATIONS: &[Habit] = habits! {
    advice!("VAR apart from its word";
        "write both as one word, with _ between them";
        "VAR_EXTERNAL lamp : USINT (0..254); END_VAR") =>
        Variables "% var [ _ ] {} @ {name}" ["external input global"] Put("_"),
        Anywhere "@ [ var _ ] {}" ["external input global"] Put("VAR_");
    advice!("variables behind the first instruction";
        "declare all of them above it, behind the line of PROGRAM or FUNCTION";
        "PROGRAM hall\nVAR count : UINT; END_VAR\nLD count") =>
        Body "@ {}" ["var var_external"] Nothing;
    advice!("an address for several names";
        "an address belongs to one name: give each name a declaration of its own";
        "lamp AT %QB0.5 : USINT (0..254); lamp2 AT %QB0.6 : USINT (0..254);") =>
        Global "<< {untyped} @ at" Nothing;
    advice!("an address behind the type";
        "the address stands behind the name, and the colon and the type behind it";
        "lamp AT %QB0.5 : USINT (0..254);") =>
        Global "@ at" Nothing;
    advice!("an address outside VAR_GLOBAL";
        "give the address in VAR_GLOBAL of the configuration, and name the variable in\n\
            VAR_EXTERNAL of the program";
        "VAR_EXTERNAL lamp : USINT (0..254); END_VAR") =>
        Variables "@ at" Nothing;
    advice!("a type before the name";
        "the name stands first, and the type behind a colon";
        "button : BOOL;") =>
        Variables "<< {begun} @ {type} {name}" Nothing;
    advice!("the type of a function before its name";
        "the name stands first, and the type of the result behind a colon";
        "FUNCTION half : INT (0..127)") =>
        Anywhere "<< function @ [ {type} {rest} ]" Put("{1} : {0}");
    advice!("a name that begins with a digit";
        "a name begins with a letter or _, here and wherever it is meant";
        "lamp2 : BOOL;") =>
        Variables "<< {begun} @ {digit}" Nothing, Variables "<< , @ {digit}" Nothing;
    advice!("a declaration without its type";
        "behind the names stand a colon and a type";
        "dusk : BOOL;") =>
        Variables "<< {untyped} @ ;" Nothing;
    advice!("a range with a minus in it";
        "a range has two dots between its ends";
        "lamp : USINT (0..254);") =>
        Range "<< {amount} @ [ - ] ~{digit}" Put("..");
    advice!("a first value of a block";
        "an instance has none: its inputs are given in the call, or stored before";
        "VAR rest : TON; END_VAR\nCAL rest(IN := pressed, PT := T#3m)") =>
        Variables "<< {block} @ (" Nothing, Variables "<< {block} @ :=" Nothing;
};

/// Lines of instructions, and words that end something.
const LINES: &[Habit] = habits! {
    advice!("a label behind an instruction";
        "a label stands first on its line";
        "ST lamp\nbelow: LD button") =>
        Body "< {word} [ @ ] {label}" Put("\n");
    advice!("a colon before a label"; "the colon stands behind the name"; "below: LD lamp") =>
        Body "^ @ [ : {rest} ]" Put("{0}:");
    advice!("a port without its instance";
        "a port stands behind the name of its instance and a dot";
        "LD rest.Q") =>
        Body "^ @ . ~{name}" Loaded, Body "<< ) @ . ~{name}" Loaded,
        Anywhere "_@ {}" [".q .et .cv"] Nothing;
    advice!("a port behind CAL";
        "CAL takes the name of an instance, and its inputs in parentheses; LD loads a port";
        "CAL edge(CLK := button)\nLD edge.Q") =>
        Body "^ {call} {name} @ ." Nothing;
    advice!("parentheses behind a port"; "a port is no call: leave them out"; "LD rest.Q") =>
        Body "<< {ported} @ [ () ]" Put("");
    advice!("two dots before a port"; "a port stands behind one dot"; "LD rest.Q") =>
        Body "<< {called} @ [ .. ]" Put(".");
    advice!("a sign twice"; "write it once"; "") =>
        Anywhere "< {} @ [ {} ]" ["&"] Put(""), Anywhere "< : @ [ : ]" Put("");
    advice!("a number first on its line";
        "a line begins with an instruction or with a label, which is a name with a colon\n\
            behind it";
        "below: LD lamp") =>
        Body "^ @ {digit}" Nothing;
    advice!("a name behind the word that ends it";
        "END_PROGRAM and the like stand alone: the name stands where it begins";
        "PROGRAM hall\nEND_PROGRAM") =>
        Anywhere "< {end} @ {name}" Nothing;
    advice!("a block where an instance of it is asked for";
        "declare an instance of the block in VAR, and write its name";
        "VAR rest : TON; END_VAR\nCAL rest(IN := pressed, PT := T#3m)") =>
        Body "@ {standard}" Nothing;
    advice!("a parenthesis as Siemens' lists have it";
        "write AND(, ANDN(, OR(, ORN( or XOR( with the first operand behind it";
        "LD button\nAND( light\nOR other\n)") =>
        Anywhere "^ {} @ (" ["u un a an o x xn"] Nothing;
    advice!("END apart from its word";
        "write both as one word, with _ between them";
        "END_PROGRAM") =>
        Anywhere "<< end [ @ ] {}" ["program function var type resource configuration"] Put("_");
};

/// Calls, parentheses and expressions.
const CALLS: &[Habit] = habits! {
    advice!("a call of a block without CAL";
        "CAL stands before the name of the instance";
        "CAL rest(IN := pressed, PT := T#3m)") =>
        Body "^ [ ] {called} @ (call) (" Put("CAL "),
        Body "^ [ {near} ] {called} @ (call) (" Put("{w}"), Body "<< {called} @ (call) (" Nothing;
    advice!("parentheses behind a name";
        "the operands of a function stand behind its name, without parentheses; the\n\
            first argument is the current result";
        "LD level\nhalf\nST level") =>
        Body "< {called} [ @ {inner} ]" Put(" {1}"), Body "<< {called} @ (" Nothing;
    advice!("a parenthesis behind LIMIT, MIN or MAX";
        "their operands stand behind the word, without a parenthesis; what is computed\n\
            has to be stored before";
        "LIMIT 0, 200") =>
        Anywhere "< {limiting} [ @ {inner} ]" Put(" {1}"),
        Anywhere "<< {limiting} @ (" Nothing;
    advice!("parentheses around an operand";
        "write the operand alone: a parenthesis stands behind an operator of two values";
        "LD button") =>
        Anywhere "< {single} [ @ {inner} ]" Put(" {1}"), Anywhere "< {single} @ (" Nothing;
    advice!("a comma too many"; "leave it out: no input stands behind it"; "") =>
        Anywhere "<< [ , ] @ )" Put("");
    advice!("-> before a port"; "a port stands behind a dot"; "LD rest.Q") =>
        Body "@ [ -> ]" Put(".");
    advice!("an expression for an input";
        "an input takes a variable, a port or a value: compute before the call, and\n\
            store to the input";
        "LD pressed\nAND door\nST rest.IN\nCAL rest(PT := T#3m)") =>
        Call "@ {}" ["and or xor not add sub mul div mod & = < > * / + -"] Nothing;
    advice!("there are no enumerations";
        "give each state a number, and say in a comment what it means";
        "state : USINT (0..2);  (* off, low, high *)") =>
        Anywhere "<< : @ (" Nothing;
};

/// Operands, and blocks of variables, where they cannot stand.
const OPERANDS: &[Habit] = habits! {
    NAMED =>
        Body "# (absolute)" Nothing;
    advice!("a bit of a number";
        "divide by 2 for each bit below it, and take what is left of a division by 2;\n\
            this is bit 3";
        "LD level\nDIV 8\nMOD 2\nEQ 1") =>
        Body "# {name} ~. ~@ {digit}" Nothing;
    advice!("a comma behind the word of an instruction";
        "leave it out: the operand stands behind a blank";
        "LD 150") =>
        Body "^ {with} [ @ , * ]" Put(" ");
    advice!("a number with a blank in it";
        "digits stand together, or with _ between them: a thousand is 1000 or 1_000";
        "LD 1_000") =>
        Anywhere "< [ {thousands} _@ (one) {group} ]" Put("{0}{1}"),
        Anywhere "^ ld {number} _@ {2}" Nothing;
    advice!("a store to two variables";
        "write it once for each, on a line of its own: the current result stays";
        "ST lamp\nST lamp2") =>
        Level "^ [ {store} {value} @ , {value} $ ]" Put("{0} {1}\n{i}{0} {2}"),
        Level "^ {store} {value} @ (list) ," Nothing,
        Level "^ {store} {value} _@ {operand}" Nothing;
    advice!("an instruction with two operands";
        "it takes one: the other value is the current result, which is loaded before";
        "LD level\nADD 10") =>
        Level "^ {with} {value} @ (list) ," Nothing, Level "^ {with} {value} _@ {operand}" Nothing;
    advice!("VAR_GLOBAL outside a configuration";
        "it stands in CONFIGURATION, before the tasks; a program names its variables in\n\
            VAR_EXTERNAL";
        "CONFIGURATION house\nVAR_GLOBAL lamp AT %QB0.5 : USINT (0..254); END_VAR") =>
        Outside "@ var_global" Nothing, Program "@ var_global" Nothing;
    advice!("a program with inputs";
        "nobody calls a program: share variables of VAR_GLOBAL, each named in\n\
            VAR_EXTERNAL, or declare its own in VAR";
        "VAR_EXTERNAL lamp : USINT (0..254); END_VAR") =>
        Program "@ var_input" Nothing;
    advice!("NOT with an operand";
        "NOT stands alone on its line and turns the current result round; LDN loads the\n\
            opposite of an operand, ANDN, ORN and XORN take it";
        "LDN button") =>
        Body "< not @ {operand}" Nothing;
    advice!("ABS with an operand";
        "ABS stands alone on its line, and takes the current result";
        "LD level\nABS") =>
        Body "< abs @ {operand}" Nothing;
    advice!("a return with an operand";
        "a return stands alone on its line; a function gives what was stored to its own\n\
            name";
        "ST half\nRET") =>
        Body "< {return} @ {operand}" Nothing;
    advice!("a function that shares variables";
        "a function sees its inputs and its own variables alone: the call hands in what\n\
            it needs";
        "VAR_INPUT level, most : USINT (0..254); END_VAR") =>
        Function "@ {}" ["var_external var_global"] Nothing;
};

/// Signs that stand for a comparison or a calculation, numbers and times.
const NUMBERS: &[Habit] = habits! {
    LOGIC_SIGN =>
        Body "^ @ [ {sign} ] _" Put("{w}"), Body "^ @ [ {} ] _" ["%"] Put("MOD"),
        Body "^ @ [ != ] _" Put("NE");
    BASED =>
        Anywhere "# [ {} ]" ["0x"] Put("16#"), Anywhere "# [ {} ]" ["0b"] Put("2#");
    DOTTED =>
        Anywhere "# {} ~{whole} [ ~. ~{1} ~s ]" ["t# time#"] Put("s{2}00ms"),
        Anywhere "# {} ~{whole} [ ~. ~{2} ~s ]" ["t# time#"] Put("s{2}0ms"),
        Anywhere "# {} ~{whole} [ ~. ~{3} ~s ]" ["t# time#"] Put("s{2}ms"),
        Anywhere "# (dotted) {}" ["t# time#"] Nothing,
        Anywhere "# {} ~{value} ~, ~{digit}" ["t# time#"] Nothing;
    advice!("a time with no unit, or with another one";
        "behind each number stands one of the units d, h, m, s and ms, in this order";
        "T#1m30s") =>
        Anywhere "# (unitless) {}" ["t# time#"] Nothing,
        Anywhere "# {digits} ~{}" ["min sec"] Nothing;
    advice!("a number with a type before it";
        "write the number alone: it takes the type of what it goes to";
        "LD 5") =>
        Anywhere "# [ {} ]"
            ["l# b# w# dw# int# usint# udint# uint# sint# dint# byte# word#"] Put("");
    advice!("a truth value with a type before it"; "write TRUE or FALSE alone"; "LD TRUE") =>
        Anywhere "# [ {} ]" ["bool#1 bool#true"] Put("TRUE"),
        Anywhere "# [ {} ]" ["bool#0 bool#false"] Put("FALSE"), Anywhere "# {}" ["bool#"] Nothing;
    FRACTION =>
        Anywhere "# {}" ["real# lreal#"] Nothing;
    PERCENT =>
        Anywhere "@ {} _" ["%"] Nothing, Anywhere "@ {} $" ["%"] Nothing;
    UNIT =>
        Anywhere "< [ {number} @ {} ] (closed)" ["ms s m h d"] Put("T#{0}{1}"),
        Anywhere "< [ {number} @ {} ] (closed)" ["min mins minute minutes"] Put("T#{0}m"),
        Anywhere "< [ {number} @ {} ] (closed)" ["sec secs second seconds"] Put("T#{0}s"),
        Anywhere "< [ {number} @ {} ] (closed)" ["hour hours"] Put("T#{0}h"),
        Anywhere "# [ ] {digits} ~{}" ["ms s m h d"] Put("T#"),
        Anywhere "# [ {} ]" ["s5time# s5t#"] Put("T#");
    advice!("a value where a name is asked for";
        "what stores takes the name of a variable: the value is loaded on the line\n\
            before";
        "LD 200\nST lamp") =>
        Anywhere "< {store} @ {constant}" Nothing,
        Anywhere "< {store} @ {truth}" Nothing;
};

/// Addresses, words that say more of variables, and blocks that are not there.
const ADDRESSES: &[Habit] = habits! {
    advice!("AT is missing before an address";
        "AT stands between the name and its address";
        "lamp AT %QB0.5 : USINT (0..254);") =>
        Global "<< {untyped} @ [ ] {}" ["%"] Put("AT ");
    NAMED =>
        Anywhere "# {address}" Nothing;
    advice!("an address that this language does not have";
        "a level is %QB with bus.address, an answer, an information or a count %IW,\n\
            a trigger %IX";
        "lamp AT %QB0.5 : USINT (0..254);") =>
        Anywhere "# {}" ["%"] Nothing;
    advice!("there is no RETAIN and no PERSISTENT";
        "leave it out: each variable keeps its value from scan to scan, and over a\n\
            restart where `dalictl live` has --keep FILE";
        "VAR count : UINT; END_VAR") =>
        Variables "<< (first) [ {} * ] @" ["retain non_retain persistent"] Put("");
    advice!("there is no CONSTANT";
        "leave it out: a variable that nothing stores to keeps its first value";
        "VAR most : USINT := 200; END_VAR") =>
        Variables "<< (first) [ {} * ] @" ["constant const"] Put("");
    advice!("a function block of your own";
        "write a program that has an instance for each, or a FUNCTION, which keeps\n\
            nothing";
        "PROGRAM corridor") =>
        Anywhere "@ {}" ["function_block end_function_block"] Nothing;
    advice!("a block of variables that this language does not have";
        "a function gives its result by its own name; a program shares variables of\n\
            VAR_GLOBAL, each named in VAR_EXTERNAL";
        "VAR_EXTERNAL lamp : USINT (0..254); END_VAR") =>
        Anywhere "@ {}" ["var_output var_in_out"] Nothing,
        Anywhere "^ {}" ["var_output var_in_out"] Nothing, Anywhere "^ [ var_temp ]" Put("VAR"),
        Anywhere "& {}" ["var_output var_in_out"] Nothing,
        Variables "% var {} @ {name}" ["output in_out"] Nothing;
    advice!("there is no VAR_TEMP";
        "write VAR; its variables keep their values from scan to scan, so store to them\n\
            before you load them";
        "VAR share : UINT; END_VAR") =>
        Anywhere "& [ var_temp ]" Put("VAR"), Variables "% var temp @ {name}" Nothing;
    advice!("there are no structures";
        "give each value a variable of its own";
        "VAR level : USINT (0..254); is_on : BOOL; END_VAR") =>
        Anywhere "<< struct @" Nothing;
    advice!("a declaration among instructions";
        "variables stand between VAR, VAR_INPUT or VAR_EXTERNAL and END_VAR, above the\n\
            first instruction";
        "VAR count : UINT; END_VAR\nLD count") =>
        Body "@ (declared)" Nothing;
};

/// Rows of comments, quotes and files.
fn quote_rows() -> &'static [Habit] {
    QUOTES
}

/// Rows of statements.
fn statement_rows() -> &'static [Habit] {
    STATEMENTS
}

/// Rows of declarations.
fn declaration_rows() -> &'static [Habit] {
    DECLARATIONS
}

/// Rows of lines.
fn line_rows() -> &'static [Habit] {
    LINES
}

/// Rows of calls.
fn call_rows() -> &'static [Habit] {
    CALLS
}

/// Rows of operands.
fn operand_rows() -> &'static [Habit] {
    OPERANDS
}

/// Rows of numbers.
fn number_rows() -> &'static [Habit] {
    NUMBERS
}

/// Rows of addresses.
fn address_rows() -> &'static [Habit] {
    ADDRESSES
}

/// Each table of habits, in the order in which they are asked. Each stands in a function of its
/// own, since what one function names is checked together, at the cost of its square.
pub(crate) fn table(number: usize) -> &'static [Habit] {
    match number {
        0 => near_declarations(),
        1 => near_instructions(),
        2 => word_rows(),
        3 => quote_rows(),
        4 => statement_rows(),
        5 => declaration_rows(),
        6 => line_rows(),
        7 => call_rows(),
        8 => operand_rows(),
        9 => number_rows(),
        10 => address_rows(),
        _ => siemens_rows(),
    }
}
