//! What people write who come from other languages: which row is like what stands at a place.

ghost use Rattle.std.specs.Prelude.{IfOk, IfSome};
ghost use Rattle.explaintexts.specs.Readings.{ShowsReading};

use crate::habit::{Fix, Form, Habit, Region};
use crate::habit_rows::table;
use crate::said::{Change, Said};
use explaincures::{FaultAnswer, Surroundings, is_one_of};
use explainpatterns::{Likeness, Standing};
use iltokens::Keyword;
use std::alloc::{AllocError, Global};

/// The first answer of the rows of some tables.
pub(crate) fn habit_answer(
    alloc: Global,
    standing: &Standing,
    first: usize,
    last: usize,
) -> Result<Option<FaultAnswer>, AllocError>
    ensures { IfOk result (λ found. IfSome found (ShowsReading standing.now)) }
{
    for number in first..last {
        for habit in table(number) {
            if let Some(said) = habit.said(standing) {
                let answer = said.answer(alloc, standing)?;
                if answer.is_some() {
                    return Ok(answer);
                }
            }
        }
    }
    Ok(None)
}

impl Habit {
    /// What is said of it, where the line of a place is like it.
    fn said(&self, standing: &Standing) -> Option<Said> {
        for text in self.forms.split('\x1e') {
            let said = self.said_by(standing, text);
            if said.is_some() {
                return said;
            }
        }
        None
    }

    /// The same of one of its forms, with the change that is meant.
    fn said_by(&self, standing: &Standing, text: &'static str) -> Option<Said> {
        let form = Form::of(text)?;
        if !is_in(form.region, standing) {
            return None;
        }
        let like = Likeness::of(standing, form.pattern, form.words)?;
        let said = Said::like(self.row, like);
        Some(match form.fix {
            Fix::Nothing => said,
            Fix::LeaveOut => Said {
                change: Change::LeaveOut,
                ..said
            },
            Fix::Put => said.put(like.put, form.with),
            Fix::Loaded => loaded(said, standing),
        })
    }
}

/// LD with the instance of the call that ends before the place, with a name or a parenthesis.
fn loaded(said: Said, standing: &Standing) -> Said {
    let Standing { spot, around, .. } = standing;
    let name = match Surroundings::of(spot.text, around.before.0).parenthesis {
        Some(open) => Surroundings::of(spot.text, open).before,
        None => around.before,
    };
    let (from, to) = Surroundings::of(spot.text, name.0).before;
    let with = if spot.is_first() {
        "LD {0}"
    } else {
        "\nLD {0}"
    };
    if is_one_of(spot.part(from, to), &["CAL"]) {
        said.put_parts((spot.at, spot.at), with, [name; 2])
    } else {
        said
    }
}

/// Whether a place stands in a region.
fn is_in(region: Region, standing: &Standing) -> bool {
    let around = &standing.around;
    let is_in_body = around.is_in_body();
    let is_block = around.block.is_some();
    match region {
        Region::Anywhere => true,
        Region::Body => is_in_body,
        Region::Line => is_in_body && !standing.is_in_call(),
        Region::Call => standing.is_in_call(),
        Region::Inside => is_in_body && around.open > 0 && !standing.is_in_call(),
        Region::Level => is_in_body && around.open == 0,
        Region::Variables => is_block,
        Region::Declared => is_block || around.unit_word() == Some(Keyword::Type),
        Region::Global => around.block_word() == Some(Keyword::VarGlobal),
        Region::Range => !is_in_body && around.open > 0,
        Region::Function => around.unit_word() == Some(Keyword::Function),
        Region::Program => around.unit_word() == Some(Keyword::Program),
        Region::Outside => around.unit.is_none(),
    }
}
