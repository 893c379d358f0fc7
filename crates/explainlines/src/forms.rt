//! The lines of bindings and scenarios, word by word.

use limits::{MOST_BUSES, MOST_TRIES};

/// What a word of a line may be.
#[derive(Clone, Copy)]
pub(crate) enum Field {
    /// A number: what it is called, and its least and greatest.
    Number(&'static str, u64, u64),
    /// `B.K`
    Place,
    /// One word of a list: what they are called, and the list.
    OneOf(&'static str, &'static str),
    /// Six hexadecimal digits.
    Frame,
}

/// The lines of a kind.
#[derive(Clone, Copy)]
pub(crate) struct Form {
    /// Their first word.
    pub word: &'static str,
    /// What stands behind it.
    pub fields: &'static [Field],
    /// One as it could read.
    pub line: &'static str,
}

/// A word that may follow on a line, what stands behind it, and whether it may come again.
#[derive(Clone, Copy)]
pub(crate) struct Part(pub &'static str, pub &'static [Field], pub bool);

const BUS: Field = Field::Number("bus", 0, MOST_BUSES as u64 - 1);

const SHORT: Field = Field::Number("short address", 0, 63);

const KIND: Field = Field::Number("instance type", 0, 31);

const INSTANCE: Field = Field::Number("instance number", 0, 31);

/// Lines with their words, each with one as it could read.
macro_rules! forms {
    ($($word:literal [$($field:expr),+] $line:literal;)+) => {
        &[$(Form { word: $word, fields: &[$($field),+], line: $line }),+]
    };
}

/// The lines of a binding.
pub(crate) const BINDING: &[Form] = forms! {
    "buses" [Field::Number("number of buses", 1, MOST_BUSES as u64)] "buses 1";
    "source" [Field::Place, Field::OneOf("event scheme",
        "instance, device, device-instance,\ndevice-group, instance-group")]
        "source 0.0 device-instance 5 2";
    "tries" [BUS, Field::Number("number of attempts", 1, MOST_TRIES as u64)] "tries 0 5";
};

/// The lines of a scenario.
pub(crate) const SCENARIO: &[Form] = forms! {
    "gear" [BUS, SHORT] "gear 0 5";
    "lampfailure" [BUS, SHORT] "lampfailure 0 5";
    "memory" [BUS, SHORT, Field::Number("bank", 0, 255), Field::Number("offset", 0, 255),
        Field::Number("value", 0, 255)] "memory 0 5 0 3 17";
    "device" [BUS, SHORT] "device 0 3";
    "instance" [BUS, SHORT, INSTANCE, KIND, Field::Number("event scheme", 0, 4),
        Field::Number("input value", 0, 255)] "instance 0 3 2 1 2 0";
    "reply" [BUS, Field::Number("number of the frame", 1, u64::MAX),
        Field::OneOf("fate of the frame", "lost, damaged, fault")] "reply 0 3 lost";
    "hearfault" [BUS] "hearfault 0";
    "tick" [Field::Number("moment", 0, u64::MAX)] "tick 1000";
    "ticks" [Field::Number("first moment", 0, u64::MAX), Field::Number("last moment", 0, u64::MAX),
        Field::Number("time from one to the next", 1, u64::MAX)] "ticks 0 60000 1000";
    "event" [BUS, Field::Frame] "event 0 048402";
};

const SCENE: Field = Field::Number("scene", 0, 15);

const SCENE_LEVEL: Field = Field::Number("level of the scene", 0, 255);

/// How control gear begins.
const GEAR_PARTS: &[Part] = &[
    Part("level", &[Field::Number("level", 0, 254)], false),
    Part("group", &[Field::Number("group", 0, 15)], true),
    Part("scene", &[SCENE, SCENE_LEVEL], true),
];

/// What may stand behind the fields of a line, in this order.
pub(crate) fn parts_of(form: &Form) -> &'static [Part] {
    if form.word == "gear" { GEAR_PARTS } else { &[] }
}

/// The fields behind one of a list's words: the numbers of a source, by its event scheme.
pub(crate) fn fields_behind(word: &[u8]) -> &'static [Field] {
    match word {
        b"instance" => &[KIND, INSTANCE],
        b"device" => &[SHORT, KIND],
        b"device-instance" => &[SHORT, INSTANCE],
        b"device-group" | b"instance-group" => &[Field::Number("group", 0, 31), KIND],
        _ => &[],
    }
}

/// The form of the lines of a file that begin with a word.
pub(crate) fn form_of(forms: &'static [Form], word: &[u8]) -> Option<&'static Form> {
    for form in forms {
        if form.word.as_bytes() == word {
            return Some(form);
        }
    }
    None
}
