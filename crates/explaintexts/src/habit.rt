//! A row of what people write: how it looks, and how it is changed.

use crate::said::Row;

/// Something that people write and the language does not have: what is said of it, and how it may
/// be written, in forms of which each ends with `\x1e` ([`Form::of`]). A text has fewer steps to
/// prove than the parts of its rows one by one.
#[derive(Clone, Copy)]
pub(crate) struct Habit {
    pub row: Row,
    pub forms: &'static str,
}

/// Rows of habits: what is said, and behind `=>` where it stands, how the line looks, with which
/// words, and how it is changed.
macro_rules! habits {
    ($($row:expr => $($at:ident $pattern:literal $([$words:literal])?
        $fix:ident $(($with:literal))?),+;)+) => {
        &[$(Habit {
            row: $row,
            forms: concat!($(stringify!($at), "\x1f", $pattern, "\x1f" $(, $words)?, "\x1f",
                stringify!($fix), "\x1f" $(, $with)?, "\x1e"),+),
        }),+]
    };
}

pub(crate) use habits;

/// Where something stands, how the line looks there (`explainpatterns`), the words that may stand
/// in its slot for them, in small letters and with a blank between two, and how it is changed: with
/// what, where a text is put.
#[derive(Clone, Copy)]
pub(crate) struct Form {
    pub region: Region,
    pub pattern: &'static str,
    pub words: &'static str,
    pub fix: Fix,
    pub with: &'static str,
}

impl Form {
    /// The form of a text, which has `\x1f` between these five.
    pub(crate) fn of(text: &'static str) -> Option<Form> {
        Some(Form {
            region: named(REGIONS, field(text, 0))?,
            pattern: field(text, 1),
            words: field(text, 2),
            fix: named(FIXES, field(text, 3))?,
            with: field(text, 4),
        })
    }
}

/// The field of this number of a form.
fn field(form: &'static str, number: usize) -> &'static str {
    for (index, field) in form.split('\x1f').enumerate() {
        if index == number {
            return field;
        }
    }
    ""
}

/// What a name stands for in a table, if it is there.
fn named<T: Copy>(table: &[(&str, T)], name: &str) -> Option<T> {
    for (one, what) in table {
        if one.as_bytes() == name.as_bytes() {
            return Some(*what);
        }
    }
    None
}

/// Names in a table, each as it is spelled.
macro_rules! names {
    ($of:ident: $($name:ident),+) => { &[$((stringify!($name), $of::$name)),+] };
}

/// Where something stands that people write.
#[derive(Clone, Copy)]
pub(crate) enum Region {
    Anywhere,
    Body, // among instructions
    Line, // the same, and not in a call
    Call,
    Inside, // in parentheses of an operator
    Level, // among instructions, in no parentheses
    Variables, // in a block of variables
    Declared, // the same, or in one of types
    Global, // in VAR_GLOBAL
    Range, // in parentheses outside instructions
    Function,
    Program,
    Outside, // outside programs, functions and configurations
}

/// Regions by their names.
const REGIONS: &[(&str, Region)] = names! { Region: Anywhere, Body, Line, Call, Inside, Level,
    Variables, Declared, Global, Range, Function, Program, Outside };

/// How a text is changed to what is meant.
#[derive(Clone, Copy)]
pub(crate) enum Fix {
    Nothing,
    LeaveOut,
    Put, // a text in place of what stands between `[` and `]`
    Loaded, // with LD and the instance of the call before it
}

/// Fixes by their names.
const FIXES: &[(&str, Fix)] = names! { Fix: Nothing, LeaveOut, Put, Loaded };
