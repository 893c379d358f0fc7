//! The words and options that commands take.

ghost use Rattle.std.specs.Prelude.{◌≡◌, false};
ghost use Rattle.clap.specs.Words.{rule_of};
ghost use Rattle.commandline.specs.CommandLine.{flag, option, optional};
ghost use Rattle.commandline.specs.Tables.{rule_of_word, with_numbers};

use clap::{Arg, ArgAction};
use std::alloc::Global;

/// A word or an option of a command: its name, for an option what the help calls its value, and at
/// the end what the help says of it.
#[derive(Clone, Copy)]
pub(crate) enum Word {
    /// A word that must be given.
    Wanted(&'static str, &'static str),
    /// A word that may be given.
    Optional(&'static str, &'static str),
    /// A whole number that must be given, from the one to the other.
    WantedNumber(&'static str, i64, i64, &'static str),
    /// A whole number that may be given, from the one to the other.
    OptionalNumber(&'static str, i64, i64, &'static str),
    /// An option with one value.
    Valued(&'static str, &'static str, &'static str),
    /// An option with one value that must be given.
    WantedValued(&'static str, &'static str, &'static str),
    /// An option with one value that must be given, once or several times.
    Repeated(&'static str, &'static str, &'static str),
    /// An option with one value that may be given several times.
    Listed(&'static str, &'static str, &'static str),
    /// An option with a whole number, from the one to the other.
    Number(&'static str, &'static str, i64, i64, &'static str),
    /// An option with no value.
    Flag(&'static str, &'static str),
}

/// The argument that takes this word.
pub(crate) fn argument<'a>(alloc: Global, word: Word) -> Arg<'a>
    ensures rule { rule_of result ≡ rule_of_word word }
    ensures local { result.global ≡ false }
{
    match word {
        Word::Wanted(id, help) => optional(alloc, id, help).required(true),
        Word::Optional(id, help) => optional(alloc, id, help),
        Word::WantedNumber(id, least, most, help) => {
            numbered(optional(alloc, id, help).required(true), least, most)
        }
        Word::OptionalNumber(id, least, most, help) => {
            numbered(optional(alloc, id, help), least, most)
        }
        Word::Valued(id, value, help) => option(alloc, id, value, help),
        Word::WantedValued(id, value, help) => option(alloc, id, value, help).required(true),
        Word::Repeated(id, value, help) => option(alloc, id, value, help)
            .required(true)
            .action(ArgAction::Append),
        Word::Listed(id, value, help) => {
            option(alloc, id, value, help).action(ArgAction::Append)
        }
        Word::Number(id, value, least, most, help) => {
            numbered(option(alloc, id, value, help), least, most)
        }
        Word::Flag(id, help) => flag(alloc, id, help),
    }
}

/// The argument, whose value is a whole number from the one to the other.
fn numbered(argument: Arg, least: i64, most: i64) -> Arg
    requires local { argument.global ≡ false }
    ensures rule { rule_of result ≡ with_numbers least most (rule_of argument.entry) }
    ensures local { result.global ≡ false }
{
    argument.value_parser(clap::value_parser!(u32).range(least..=most))
}

/// A word that may be given.
fn optional<'a>(alloc: Global, id: &'a str, help: &'a str) -> Arg<'a>
    ensures rule { rule_of result ≡ optional id.now }
    ensures local { result.global ≡ false }
{
    Arg::new(alloc, id).action(ArgAction::Set).help(help)
}

/// An option with one value.
fn option<'a>(alloc: Global, id: &'a str, value: &'a str, help: &'a str) -> Arg<'a>
    ensures rule { rule_of result ≡ option id.now }
    ensures local { result.global ≡ false }
{
    optional(alloc, id, help).long(id).value_name(value)
}

/// An option with no value.
fn flag<'a>(alloc: Global, id: &'a str, help: &'a str) -> Arg<'a>
    ensures rule { rule_of result ≡ flag id.now }
    ensures local { result.global ≡ false }
{
    Arg::new(alloc, id)
        .long(id)
        .action(ArgAction::SetTrue)
        .help(help)
}
