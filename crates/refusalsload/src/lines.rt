//! Words that spell no invocation.

ghost use Rattle.std.specs.Prelude.{◌≡◌, [], ◌∷◌, codes, map, string_bytes, IfErr, OnOk};
ghost use Rattle.clap.specs.Words.{kind_of};
ghost use Rattle.commandline.specs.CommandLine.{HasNoLog, NamesBindingTwice, NamesNoScenario};
ghost use Rattle.commandline.specs.CommandLine.{Spell, WritesOverInput};

use clap::Error;
use clap::error::ErrorKind;
use commandline::{Invocation, read};
use std::alloc::Global;

/// `a_code_file_is_written_over_the_binding`: words were taken by which the code file would be
/// written over the text or the binding.
pub fn input_is_not_written_over<'a>(
    alloc: Global,
    words: &'a [String],
) -> Result<Invocation<'a>, Error>
    requires { Spell WritesOverInput (map (λ word. string_bytes word) words.now) }
    ensures { OnOk result ⊥ }
{
    read(alloc, words)
}

/// `a_scenario_is_looked_at_without_its_binding`: `look` was taken with one word behind the text
/// and no `--bind`.
pub fn scenario_is_looked_at_with_its_binding<'a>(
    alloc: Global,
    words: &'a [String],
) -> Result<Invocation<'a>, Error>
    requires { Spell NamesNoScenario (map (λ word. string_bytes word) words.now) }
    ensures { OnOk result ⊥ }
{
    read(alloc, words)
}

/// `a_binding_is_named_twice`: a binding was taken by `--bind` and by a word too.
pub fn binding_is_named_once<'a>(
    alloc: Global,
    words: &'a [String],
) -> Result<Invocation<'a>, Error>
    requires { Spell NamesBindingTwice (map (λ word. string_bytes word) words.now) }
    ensures { OnOk result ⊥ }
{
    read(alloc, words)
}

/// `the_size_of_no_log_is_taken`: `live` was taken with the size of a log, and no log.
pub fn size_is_of_a_log<'a>(alloc: Global, words: &'a [String]) -> Result<Invocation<'a>, Error>
    requires { Spell (λ name found. (name ≡ codes "live") × HasNoLog found)
        (map (λ word. string_bytes word) words.now) }
    ensures { OnOk result ⊥ }
{
    read(alloc, words)
}

/// `the_greatest_information_is_1024`: an event had the information 1024.
pub fn information_has_10_bits<'a>(
    alloc: Global,
    words: &'a [String],
) -> Result<Invocation<'a>, Error>
    requires { map (λ word. string_bytes word) words.now ≡ codes "dalictl" ∷ codes "event"
        ∷ codes "BIND" ∷ codes "0.0" ∷ codes "1024" ∷ [] }
    ensures { OnOk result ⊥ }
{
    read(alloc, words)
}

/// `the_end_on_a_bus_that_goes_down_has_another_name`: `--end` was taken, by which nothing ends.
pub fn end_is_no_option<'a>(alloc: Global, words: &'a [String]) -> Result<Invocation<'a>, Error>
    requires { map (λ word. string_bytes word) words.now ≡ codes "dalictl" ∷ codes "live"
        ∷ codes "TEXT" ∷ codes "BIND" ∷ codes "--line" ∷ codes "0=PATH" ∷ codes "--end" ∷ [] }
    ensures { OnOk result ⊥ }
{
    read(alloc, words)
}

/// `one_thing_is_expected_or_watched_at_most`: two names to be watched were refused.
pub fn two_names_are_watched<'a>(
    alloc: Global,
    words: &'a [String],
) -> Result<Invocation<'a>, Error>
    requires { map (λ word. string_bytes word) words.now ≡ codes "dalictl" ∷ codes "play"
        ∷ codes "TEXT" ∷ codes "BIND" ∷ codes "DAY" ∷ codes "--watch" ∷ codes "A"
        ∷ codes "--watch" ∷ codes "B" ∷ [] }
    ensures { IfErr result (λ error. kind_of error ≡ ErrorKind.OutOfMemory) }
{
    read(alloc, words)
}
