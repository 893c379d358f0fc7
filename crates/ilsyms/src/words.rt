//! The words of a task.

ghost use Rattle.std.specs.Prelude.{◌≡◌, ◌<◌, All, IfOk, flat_map, length, map};
ghost use Rattle.limits.specs.Limits.{most_words};
ghost use Rattle.ilscope.specs.Declarations.{declared_programs};
ghost use Rattle.ilsyms.specs.FunctionSteps.{IsPast};
ghost use Rattle.ilsyms.specs.WordSteps.{places_at, places_of_program};

use crate::past::{Past, further};
use crate::tasks::TaskInstance;
use ilscope::Scope;
use ilsource::Program;
use limits::MOST_WORDS;
use std::alloc::{AllocError, Global};
use std::marker::Model;

/// The place of each word of a program, in order.
#[derive(Drop)]
pub(crate) struct WordPlaces {
    places: Vec<usize>,
}

impl Model for WordPlaces {
    ghost use Rattle.std.specs.Prelude.{ℕ, List};

    ghost Value = { List ℕ };

    ghost view = { λ w. w.places.items };
}

impl WordPlaces {
    ghost use Rattle.std.specs.Prelude.{◌≡◌, IfOk, flat_map};
    ghost use Rattle.ilsource.specs.Words.{places_in};

    /// Those of a program's lines.
    fn of(alloc: Global, program: &Program) -> Result<WordPlaces, AllocError>
        ensures { IfOk result (λ w. w ≡ flat_map places_in program.now.lines) }
    {
        let mut places = Vec::new(alloc);
        for line in program.lines() {
            line.push_places(&mut places)?;
        }
        Ok(WordPlaces { places })
    }

    /// The places, in order.
    fn as_slice(&self) -> &[usize]
        ensures value { result.now ≡ self.now }
    {
        &self.places
    }
}

/// The words of each program.
pub(crate) fn words_of_programs(
    alloc: Global,
    scope: &Scope<'_>,
) -> Result<Vec<WordPlaces>, AllocError>
    ensures { IfOk result (λ v.
        v.items ≡ map places_of_program (declared_programs scope.now.tree)) }
{
    let mut words = Vec::new(alloc);
    for program in scope.programs() {
        words.push(WordPlaces::of(alloc, program.program())?)?;
    }
    Ok(words)
}

/// The instruction with the word that exceeds the greatest number, or how many words are left,
/// among the words of the instances' programs, one instance after another.
pub(crate) fn word_past(words: &[WordPlaces], instances: &[TaskInstance]) -> Past
    requires { All (λ i. i.program < length words.now) instances.now }
    ensures { IsPast (flat_map (λ i. places_at words.now i.program) instances.now) most_words
        result }
{
    let mut past = Past::Left(MOST_WORDS);
    for instance in instances {
        past = further(past, words[instance.program].as_slice());
    }
    past
}
