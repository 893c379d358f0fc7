//! Names that other languages have, and what to write in their place.

use crate::said::{Row, parted};

/// Rows of habits, each as one text with `|` between its parts: names, those that count only where
/// an instruction stands, and what is said of them. Before some names stands, with a colon, what to
/// write in their place.
macro_rules! habits {
    ($($names:literal, $instructions:literal =>
        $what:literal; $cure:literal; $line:literal;)+) => {
        &[$(concat!($names, "|", $instructions, "|", $what, "|", $cure, "|", $line)),+]
    };
}

/// Function blocks and types that other languages have.
const TYPES: &[Row] = habits! {
    "tof", "" => "there is no TOF, a delay at switching off";
        "start a TON with the opposite of the input, and switch off at its Q";
        "LD button\nS light\nLDN button\nST rest.IN\nCAL rest(PT := T#3m)\nLD rest.Q\nR light";
    "tp", "" => "there is no TP, a pulse";
        "set a variable at the edge of an R_TRIG, start a TON with it, and take it\n\
            back at the timer's Q";
        "CAL press(CLK := button)\nLD press.Q\nS light\nCAL rest(IN := light, PT := T#3m)\n\
            LD rest.Q\nR light";
    "rs,sr", "" => "there is no RS and no SR, a latch";
        "S and R are instructions: the one that stands last wins";
        "LD button\nS light\nLD off\nR light";
    "ctd,ctud", "" => "there is no counter that counts down";
        "take one off a variable at each edge, and keep it at 0 at least";
        "LD left\nSUB 1\nMAX 0\nST left";
    "f_trig", "" => "there is no F_TRIG, a falling edge";
        "hand the opposite of the input to an R_TRIG";
        "LDN button\nST release.CLK\nCAL release";
    "timer,s5time", "se,sd,sa,sf,sv,si,sp" => "a timer as other languages have it";
        "a timer is an instance of TON, which CAL calls: its Q is TRUE once IN has been\n\
            TRUE for PT";
        "VAR rest : TON; END_VAR\nCAL rest(IN := pressed, PT := T#3m)\nLD rest.Q";
    "DINT:real,lreal,float,double", "" => "there are no numbers with a fraction";
        "calculate in hundredths, with a DINT or a range of one";
        "VAR share : DINT (0..10000); END_VAR";
    "USINT:byte;UINT:word;UDINT:dword", "" => "there are no strings of bits";
        "write the type of whole numbers that has as many bits: USINT for BYTE, UINT\n\
            for WORD, UDINT for DWORD";
        "VAR level : USINT; END_VAR";
    "DINT:lint;UDINT:lword,ulint", "" => "there are no variables of 64 bits";
        "write DINT or UDINT, of 32 bits; the current result has 64";
        "VAR total : UDINT; END_VAR";
    "string,wstring,char", "" => "there are no texts";
        "give each state a number";
        "VAR state : USINT (0..3); END_VAR";
    "BOOL:boolean,bit;SINT:int8;INT:integer,int16;DINT:int32;USINT:uint8;UINT:uint16;\
        UDINT:uint32", "" => "a type that has another word here";
        "write {0}";
        "VAR button : BOOL; END_VAR";
    "date,tod,time_of_day,dt,date_and_time", "" => "there are no dates and no time of day";
        "count milliseconds with TON, or scans of a task with a long INTERVAL";
        "TASK minute (INTERVAL := T#1m, PRIORITY := 1);";
};

/// Statements and functions that other languages have.
const STATEMENTS: &[Row] = habits! {
    "if,else,end_if,elsif,case,end_case", "" => "a statement of Structured Text";
        "compare first, and then jump past what is not to be done: JMPC jumps where\n\
            the result is TRUE, JMPCN where it is FALSE";
        "LD lamp\nEQ 0\nJMPCN below";
    "for,end_for,while,end_while,repeat,until,end_repeat", "" => "a statement of Structured Text";
        "there are no loops: jumps lead forward alone, and what is to be done again is\n\
            done in the next scan";
        "LD count\nADD 1\nST count";
    "sel,mux", "" => "there is no such function";
        "load one value or the other behind a jump";
        "LD is_day\nJMPC bright\nLD 50\nJMP set\nbright: LD 200\nset: ST lamp";
    "shl,shr", "slw,srw,sld,srd" => "there are no shifts of bits";
        "one bit to the left is MUL 2, one to the right is DIV 2";
        "LD n\nMUL 2";
    "rol,ror", "" => "there are neither shifts nor rotations of bits";
        "nothing stands for a rotation; for a shift alone, one bit to the left is MUL 2,\n\
            one to the right is DIV 2";
        "LD n\nMUL 2";
    "", "len,left,right,mid,concat,insert,delete,replace,find" => "there are no texts";
        "what works on texts elsewhere is not there: give each state a number";
        "VAR state : USINT (0..3); END_VAR";
    "", "rem" => "a comment as other languages have it";
        "a comment begins with (* and ends with *)";
        "(* the stairs *)";
    "", "begin,end,network" => "a line that this language does not have";
        "leave it out: the instructions stand between the variables and END_PROGRAM or\n\
            END_FUNCTION";
        "VAR button, light : BOOL; END_VAR\nLD button\nST light\nEND_PROGRAM";
};

/// Instructions by the names that they have elsewhere, as in Siemens' lists. `set.` is SET with
/// nothing behind it.
const INSTRUCTIONS: &[Row] = habits! {
    "", "JMP:goto,jump;RET:return;LD:load;ST:store;S:set;R:reset" =>
        "no instruction of this language";
        "write the instruction's word";
        "LD button";
    "", "CAL:call" => "no instruction of this language";
        "CAL calls a block instance; a line that calls a function begins with its\n\
            name, and the current result is the first argument";
        "CAL rest(PT := T#3m)\nLD level\nhalf";
    "", "les" => "no instruction of this language";
        "do you mean LT, which is less, or LE, which is less or equal?";
        "LD level\nLT 5";
    "", "inc,dec" => "there is no INC and no DEC";
        "load the number, add 1 or take it off, and store it; MIN and MAX keep it\n\
            within its range";
        "LD lamp\nADD 1\nMIN 254\nST lamp";
    "", "ST:out,t;R:rst;NOT:inv;LDN:ldi,ldnot;ANDN:ani,andnot,an,un;ORN:ori,ornot;\
        XORN:xnor,xornot,xn;GE:gte;LE:lte;LD:l;AND:a,u;OR:o;XOR:x;JMP:ju,spa;JMPC:jc,spb;\
        JMPCN:jcn,spbn;RET:be,bea,beu;RETC:beb,bec;LD TRUE:set.;LD FALSE:clr;\
        MUL -1:neg,negi,negd" => "an instruction that has another word here";
        "write {0}";
        "LD button\nANDN off\nST light";
    "", "nand,nor" => "there are no NAND and no NOR";
        "write AND or OR, and NOT on a line of its own below it";
        "LD button\nAND other\nNOT";
    "", "sn,rn" => "S and R have no form with N";
        "they act where the result is TRUE: write NOT on a line of its own before them";
        "LD button\nNOT\nS light";
    "", "cmp,cp,jz,jnz,je,jne,jg,jl,jge,jle,jp,jm,jn,jo,jmpz,jmpnz,beq,bne,bz,bnz" =>
        "a comparison as machines have it";
        "EQ, NE, GT, GE, LE and LT compare, and leave TRUE or FALSE, which JMPC and\n\
            JMPCN look at";
        "LD level\nGT 5\nJMPC out";
    "", "move,mov" => "there is no MOVE"; "load the value, and store it"; "LD 200\nST lamp";
    "", "nop" => "there is no NOP";
        "leave the line out; a label may stand before any instruction, or before the end";
        "below: LD lamp";
    "", "fp,fn,ldp,andp,orp,pls,ldf,andf,orf,plf" => "an edge is no instruction";
        "an R_TRIG sees where its CLK becomes TRUE; hand it the opposite for a falling\n\
            edge";
        "CAL press(CLK := button)\nLD press.Q";
};

/// What to write in place of a name that is not declared and that other languages have, and what is
/// said of it; of instructions only where the name stands as one, alone on its line or not.
pub(crate) fn name_habit(
    found: &[u8],
    is_instruction: bool,
    is_alone: bool,
) -> Option<(&'static str, Row)> {
    let is_set = is_alone && found.eq_ignore_ascii_case(b"set");
    let found = if is_set { b"set.".as_slice() } else { found };
    habit_among(TYPES, found, is_instruction)
        .or(habit_among(STATEMENTS, found, is_instruction))
        .or(habit_among(INSTRUCTIONS, found, is_instruction))
}

/// The same of the first of some that has a name.
fn habit_among(habits: &[Row], found: &[u8], is_instruction: bool) -> Option<(&'static str, Row)> {
    for habit in habits {
        let (names, rest) = parted(*habit);
        let (instructions, row) = parted(rest);
        let word = match word_among(names, found) {
            None if is_instruction => word_among(instructions, found),
            word => word,
        };
        if let Some(word) = word {
            return Some((word, row));
        }
    }
    None
}

/// The word that stands before a name, if the name is one of these; no word where none stands
/// there.
fn word_among(named: &'static str, found: &[u8]) -> Option<&'static str> {
    for group in named.split(';') {
        let (word, names) = group.split_once(':').unwrap_or(("", group));
        if is_among(names, found) {
            return Some(word);
        }
    }
    None
}

/// Whether a name is one of these, in any letter case; they have commas between them.
pub(crate) fn is_among(names: &str, found: &[u8]) -> bool {
    for name in names.split(',') {
        if name.as_bytes().eq_ignore_ascii_case(found) {
            return true;
        }
    }
    false
}
