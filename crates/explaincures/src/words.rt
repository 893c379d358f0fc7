//! The reserved words, by what they are.

use iltokens::{Keyword, KeywordGroup, keyword_of};

/// What may stand at a place of a text.
#[derive(Clone, Copy, PartialEq, Eq)]
pub enum Group {
    Name,
    Number,
    Time,
    Address,
    /// TRUE or FALSE.
    Truth,
    /// An instruction that may stand in parentheses.
    Operator,
    /// Another instruction.
    Outer,
    /// A type of whole numbers.
    Integer,
    /// BOOL or TIME.
    OtherType,
    Block,
    /// Another word.
    Word,
    Sign,
}

/// What is asked of the parser, in the order in which it is told: a group, how it is told in one
/// where all of it could stand there, and what is asked beside the reserved words of the group.
pub const ASKED: &[(Group, &str, &[&str])] = &[
    (Group::Name, "a name", &["a"]),
    (Group::Number, "a number", &["1"]),
    (Group::Time, "a time", &["T#1s"]),
    (Group::Address, "an address", &["%QB0.0"]),
    (Group::Truth, "", &[]),
    (Group::Operator, "an operator", &[]),
    (Group::Outer, "an instruction", &[]),
    (Group::OtherType, "", &[]),
    (Group::Integer, "a type of whole numbers", &[]),
    (Group::Block, "a function block", &[]),
    (Group::Word, "", &[]),
    (Group::Sign, "", &[",", ":", ";", ":=", ".", "..", "(", ")"]), // `&` is another word for AND
];

/// The group in which a reserved word is asked for; one conversion stands for all.
pub fn asked_group(word: Keyword) -> Option<Group> {
    match word.group() {
        KeywordGroup::Load
        | KeywordGroup::Logic
        | KeywordGroup::Complement
        | KeywordGroup::Arithmetic
        | KeywordGroup::Comparison
        | KeywordGroup::Extremum
        | KeywordGroup::Limitation
        | KeywordGroup::Magnitude => Some(Group::Operator),
        KeywordGroup::Conversion => (word == Keyword::IntToDint).then_some(Group::Operator),
        KeywordGroup::Store | KeywordGroup::Jump | KeywordGroup::Call | KeywordGroup::Return =>
            Some(Group::Outer),
        KeywordGroup::Truth => Some(Group::Truth),
        KeywordGroup::ElementaryType => Some(Group::OtherType),
        KeywordGroup::IntegerType => Some(Group::Integer),
        KeywordGroup::StandardBlock | KeywordGroup::RequestBlock => Some(Group::Block),
        KeywordGroup::Declaration => Some(Group::Word),
    }
}

/// Groups of instructions that a misspelled word may be meant for.
pub const INSTRUCTIONS: &[Group] = &[Group::Outer, Group::Operator];

/// Groups of other words that it may be meant for.
pub const SPELLED: &[Group] = &[
    Group::OtherType,
    Group::Truth,
    Group::Integer,
    Group::Block,
    Group::Word,
];

/// Whether a word is a reserved one of some groups.
pub fn is_of_group(word: &[u8], groups: &[KeywordGroup]) -> bool {
    match keyword_of(word) {
        Some(keyword) => groups.contains(&keyword.group()),
        None => false,
    }
}

/// Whether a word is one of some, in any letter case.
pub fn is_one_of(word: &[u8], words: &[&str]) -> bool {
    for one in words {
        if one.as_bytes().eq_ignore_ascii_case(word) {
            return true;
        }
    }
    false
}

/// How a sign is called.
pub fn sign_name(sign: &str) -> &str {
    match sign.as_bytes() {
        b"," => "a comma",
        b":" => "a colon",
        b";" => "a semicolon",
        b"." => "a dot",
        _ => sign,
    }
}
