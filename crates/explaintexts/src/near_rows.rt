//! What is nearly right: a sign or a word too many, apart or in another place, a time or an address
//! in two words, or an expression where one operand stands; and what Siemens' lists have.

use crate::habit::{Habit, habits};
use crate::habit_rows::{LOGIC_SIGN, NESTED_COMMENT, TRUTH_SIGN, UNIT};
use crate::said::advice;

/// What is nearly right in comments, times, definitions, declarations and addresses.
const DECLARED: &[Habit] = habits! {
    NESTED_COMMENT => Anywhere "^ {opens} {opens} {closes} *) {closes}" Nothing;
    advice!("a unit that times do not have"; "the units are d, h, m, s and ms"; "T#1m30s") =>
        Anywhere "< {time} [ ~@ {} ]"
            ["in ins inute inutes ec ecs econd econds our ours r rs ay ays"] Put("");
    advice!("a time with its units in another order";
        "the units stand in this order, each once at most: d, h, m, s and ms";
        "T#2s500ms") => Anywhere "< {time} ~@ {digit}" Nothing;
    advice!("a time without its #"; "a time begins with T#"; "") =>
        Anywhere "< {} ~@ [ = ] ~{digit}" ["t time"] Put("#");
    UNIT =>
        Call "^ {call} {name} ( pt := * [ ] {digits} ~@ h" Put("T#"),
        Call "^ {call} {name} ( {front} , pt := * [ ] {digits} ~@ h" Put("T#"),
        Variables "^ var? {name} : time := * [ ] {digits} ~@ h" Put("T#"),
        Anywhere "^ task {name} ( interval := * [ ] {digits} ~@ h" Put("T#");
    advice!("a number with an h behind it";
        "hexadecimal digits stand behind 16#, and hours behind T#: 16#{0} or T#{0}h";
        "LD 16#C8") => Anywhere "# {digits} ~@ h" Nothing;
    advice!("a definition as C has it";
        "a value with a name is a variable with a first value, to which nothing stores";
        "VAR full : USINT := 254; END_VAR") => Anywhere "@ {} _" ["#define"] Nothing;
    advice!("a line as compilers of C read it";
        "there are none: a text is one file, and each line of it counts";
        "PROGRAM stairs") => Anywhere "@ {} _" ["#include #ifdef #ifndef #undef"] Nothing;
    advice!("a comma with no name behind it";
        "a comma stands between two names";
        "lamp, lamp2 : USINT (0..254);") => Declared "<< [ , ] @ :" Put("");
    advice!("a range without its two dots";
        "two dots stand between the ends of a range";
        "lamp : USINT (0..254);") => Declared "<< .. @ [ . ]" Put("");
    advice!("a range behind a type that has none";
        "BOOL has TRUE and FALSE, and TIME has all times; types of whole numbers have ranges";
        "lamp : USINT (0..254);") => Declared "<< {} [ @ {range} ]" ["bool time"] Put("");
    advice!("an address that is not one word";
        "bus and number stand behind %QB, %IW or %IX without a blank, with a dot between them";
        "lamp AT %QB0.5 : USINT (0..254);") =>
        Anywhere "@ {} [ _ ] {digit}" ["%qb %iw %ix"] Put(""),
        Anywhere "@ {} ~{digits} [ : ] ~{digit}" ["%qb %iw %ix"] Put("."),
        Anywhere "@ {} ~{digits} [ , ] ~{digit}" ["%qb %iw %ix"] Put(".");
    advice!("a declaration outside its block";
        "types stand between TYPE and END_TYPE, variables between VAR and END_VAR of a\n\
            program";
        "TYPE Level : USINT (0..254); END_TYPE") => Outside "@ {name} : _" Nothing;
};

/// What is nearly right among instructions.
const INSTRUCTIONS: &[Habit] = habits! {
    advice!("a ) for which no ( is open";
        "leave its line out: each ( has one )";
        "LD lux\nADD( lamp\nMUL 2\n)") => Level "^ @ )" Nothing;
    advice!("a label in parentheses";
        "labels stand outside parentheses alone: leave it out, or write it above the line\n\
            with the (";
        "below: LD lux\nADD( lamp\nMUL 2\n)") => Inside "^ {word} @ :" Nothing;
    advice!("a word before a label";
        "a label is a name alone, first on its line, with a colon behind it";
        "below: LD lamp") =>
        Body "^ [ {} _ ] {name} @ :" ["label"] Put(""), Body "^ {name} {name} ~@ : $" Nothing;
    advice!("{0} is no word of the language";
        "do you mean CAL, CALC or CALCN? with C behind its word a call is made\n\
            where the result is TRUE, with CN where it is FALSE, and else always";
        "CAL rest(IN := pressed, PT := T#3m)") =>
        Body "^ {calling} {called} @ (call) (" Nothing;
    advice!("a comma in parentheses";
        "in parentheses each instruction has a line of its own, without commas";
        "LD lux\nADD( lamp\nMUL 2\n)") => Inside "@ ," Nothing;
    advice!("a name with a - in it"; "a name has letters, digits and _"; "") =>
        Body "< {name} [ ~@ - ]" Put("_");
    advice!("a unit behind a number"; "a number has no unit"; "LT 30") =>
        Body "< {number} @ {}" ["lx lux w kw v a k c"] Nothing;
    advice!("an address where a name is asked for";
        "give the address a name in VAR_GLOBAL, and write that name; what other lists keep\n\
            in a flag is a variable of VAR here";
        "VAR_GLOBAL lamp AT %QB0.5 : USINT (0..254); END_VAR") =>
        Body "^ {word} {} @ {dotted}" ["e a i q m t z"] Nothing;
    advice!("a sign apart from its number"; "it stands right before the digits"; "ADD -5") =>
        Body "^ {with} @ [ - _ ] {word}" Put("-");
    advice!("a comparison by a word and a sign";
        "GE is greater or equal, and LE is less or equal";
        "GE 30") =>
        Body "^ [ gt ~@ {} ] {word}" ["== ="] Put("GE"),
        Body "^ [ lt ~@ {} ] {word}" ["== ="] Put("LE"),
        Body "^ {} @ = {word}" ["gt lt"] Nothing;
    advice!("a sign between an instruction and its operand";
        "the operand stands behind the instruction's word";
        "LD 150") => Body "^ {with} [ @ {} * ] {word}" [":= == = :"] Put(" ");
    advice!("there is no MOVE"; "load the value, and store it"; "LD 150\nST lamp") =>
        Body "^ [ {} {number} @ {name} ;? $ ]" ["mov move"] Put("LD {1}\n{i}ST {2}"),
        Body "^ {} {number} @ {name}" ["mov move"] Nothing;
    advice!("a title as Siemens' lists have it";
        "there are no networks: write a comment";
        "(* the stairs *)") => Body "^ [ title @ = {rest} ]" Put("(* {0} *)");
    advice!("an assignment of another language";
        "load the value, calculate, and store it: each instruction has a line of its own";
        "LD lamp\nADD 5\nST lamp") =>
        Body "^ [ {name} @ ++ ;? $ ]" Put("LD {0}\n{i}ADD 1\n{i}ST {0}"),
        Body "^ [ {name} @ -- ;? $ ]" Put("LD {0}\n{i}SUB 1\n{i}ST {0}"),
        Body "^ [ {name} @ {sign} ~= {value} ;? $ ]" Put("LD {0}\n{i}{w} {2}\n{i}ST {0}"),
        Body "^ {name} @ {sign} ~=" Nothing;
    advice!("{0} as an operand";
        "it works on the current result: load the first value, and write {0} on a line of\n\
            its own";
        "LD lamp\nMAX 150") =>
        Body "^ [ ld @ {function} ~( {value} , {value} ) $ ]" Put("LD {1}\n{i}{0} {2}"),
        Body "^ [ ld @ {function} ~( {value} ) $ ]" Put("LD {1}\n{i}{0}"),
        Body "^ ld @ {function} ~(" Nothing;
    advice!("an expression where one operand stands";
        "each operator has a line of its own";
        "LD lux\nLT 30") =>
        Body "^ [ ld (? {value} {operator} {value} )? ;? $ ]" Put("LD {0}\n{i}{w} {2}"),
        Body "^ [ {deferred} ( {value} {sign} {value} ) $ ]"
            Put("{0}( {1}\n{i}{w} {3}\n{i})");
};

/// Negations and second words behind the word of an instruction.
const WORDS: &[Habit] = habits! {
    advice!("{5} behind RETC";
        "write N behind the instruction's word: LDN, STN, ANDN, ORN, XORN, JMPCN, CALCN\n\
            or RETCN; for an input of a block, write LDN and ST before the call";
        "LDN button\nST rest.IN\nCAL rest(PT := T#3m)") =>
        Anywhere "< retc [ @ {not} $ ]" Put("N"), Anywhere "< retc @ {not}" Nothing;
    advice!("{5} before an operand";
        "write N behind the instruction's word: LDN, STN, ANDN, ORN, XORN, JMPCN, CALCN\n\
            or RETCN; for an input of a block, write LDN and ST before the call";
        "LDN button\nST rest.IN\nCAL rest(PT := T#3m)") =>
        Call "^ [ cal {name} ( {name} := @ {not} {value} ) ]"
            Put("LDN {3}\n{i}ST {0}.{1}\n{i}CAL {0}"),
        Call "^ [ cal {name} ( {name} := @ {not} {value} , * ]"
            Put("LDN {3}\n{i}ST {0}.{1}\n{i}CAL {0}("),
        Call "^ [ cal {name} ( {front} , {name} := @ {not} {value} , * ]"
            Put("LDN {4}\n{i}ST {0}.{2}\n{i}CAL {0}({1}, "),
        Call "^ [ cal {name} ( {front} , {name} := @ {not} {value} ]"
            Put("LDN {4}\n{i}ST {0}.{2}\n{i}CAL {0}({1}"),
        Anywhere "< {negatable} [ @ {not} * ] {value}" Put("N "),
        Anywhere "< ( * [ @ {not} {value} $ ]" Put("{1}\nNOT"),
        Anywhere "< {word} @ {not} {word}" Nothing;
    advice!("a function with its argument behind it";
        "a function stands on a line of its own: its first argument is the current\n\
            result";
        "LD level\nhalf") =>
        Body "^ [ ld {defined} @ {operand} $ ]" Put("LD {1}\n{i}{0}"),
        Body "^ [ ld {defined} @ {operand} {value} $ ]" Put("LD {1}\n{i}{0} {2}");
    advice!("a dot is missing"; "a port stands behind its instance and a dot"; "") =>
        Body "< [ {name} @ {port} ]" Put("{0}.{1}"),
        Body "< [ {name} @ , {port} ]" Put("{0}.{1}");
    advice!("a name with a blank in it"; "a name has no blanks"; "") =>
        Body "^ {with} {name} [ @ ] {operand}" Put("_");
};

/// What Siemens' lists have that is no name, other signs, and two names.
const SIEMENS: &[Habit] = habits! {
    advice!("an operator of Siemens' lists";
        "write its word, with the second value as its operand: ADD, SUB, MUL, DIV, EQ,\n\
            NE, GT, GE, LT or LE";
        "LD level\nADD change") =>
        Body "^ @ {}"
            ["+i +d +r -i -d -r *i *d *r /i /d /r ==i ==d <>i <>d >=i >=d <=i <=d >i >d <i <d"]
            Nothing;
    advice!("= as an instruction"; "write ST"; "ST lamp") =>
        Body "^ @ [ = ] _ (apart)" Put("ST");
    advice!("ON as an instruction"; "write ORN"; "ORN button") =>
        Body "^ @ on" Nothing;
    TRUTH_SIGN =>
        Body "^ @ [ {} ]" ["|| |"] Put("OR");
    advice!("a minus before a name";
        "SUB takes away what ADD would add; MUL -1 turns the sign of the current result";
        "LD level\nMUL -1") =>
        Anywhere "< {with} @ - ~{name}" Nothing;
    advice!("a sign in a declaration";
        "a declaration has names of letters, digits and _, a colon, a type, and behind :=\n\
            one number or truth value if need be: nothing is computed there";
        "lamp, lamp2 : USINT (0..254) := 100;") =>
        Declared "@ {}" ["= < > * /"] Nothing, Declared "@ {} (apart)" ["+ -"] Nothing;
    LOGIC_SIGN =>
        Anywhere "@ {}" ["= < > * /"] Nothing, Body "@ {}" ["+ - !="] Nothing;
    TRUTH_SIGN =>
        Body "@ |" Nothing;
    advice!("{0} before a name";
        "a declaration begins with the name; a colon and a type stand behind it, and :=\n\
            before a first value";
        "mode : USINT := 0;") => Variables "< {} @ {name}" ["let const"] Nothing;
    advice!("two names, or one with a blank in it";
        "a name has no blank: write {0}_{1}; or write a comma between two names";
        "hall_lamp : USINT (0..254);") => Variables "< {first} @ {name}" Nothing;
};

/// Rows of what is nearly right in declarations.
pub(crate) fn near_declarations() -> &'static [Habit] {
    DECLARED
}

/// Rows of what is nearly right among instructions.
pub(crate) fn near_instructions() -> &'static [Habit] {
    INSTRUCTIONS
}

/// Rows of negations and of second words.
pub(crate) fn word_rows() -> &'static [Habit] {
    WORDS
}

/// Rows of Siemens' lists, of other signs and of two names.
pub(crate) fn siemens_rows() -> &'static [Habit] {
    SIEMENS
}
