//! Reading a file of kept values, line by line.

ghost use Rattle.std.specs.Prelude.{◌≡◌};
ghost use Rattle.livekeep.specs.KeptFiles.{after_head, has_name};

use crate::kept::Kept;
use crate::kept_at::KeptAt;
use crate::lines::{KeptLine, line_of};
use crate::stage::Stage;
use crate::value::KeptValue;
use std::alloc::{AllocError, Global};
use std::marker::Model;
use wordlines::{LineFault, LineState};

/// What the lines so far say.
#[derive(Drop)]
pub(crate) struct Reading {
    pub(crate) alloc: Global,
    pub(crate) stage: Stage,
    pub(crate) at: Option<KeptAt>,
    pub(crate) values: Vec<KeptValue>,
    /// The check sum that the last line gives, and 0 before it.
    pub(crate) sum: u64,
}

impl Model for Reading {
    ghost use Rattle.livekeep.specs.KeptFiles.{SoFar};

    ghost Value = { SoFar };

    ghost view = { λ r. record {
      stage = r.stage;
      at = r.at;
      values = r.values.items;
      sum = r.sum;
    } };
}

impl Reading {
    ghost use Rattle.std.specs.Prelude.{◌≡◌, ◌↔◌, IfOk, IsTrue, MatchOption};
    ghost use Rattle.wordlines.specs.LineRules.{Adds};
    ghost use Rattle.wordlines.specs.WordLines.{IsSkipped};
    ghost use Rattle.livekeep.specs.KeptFiles.{Follows, SaidLine, after, kept_rules, nothing};
    ghost use Rattle.livekeep.specs.KeptLines.{line_view};

    /// Before the first line.
    pub(crate) fn nothing(alloc: Global) -> Reading
        ensures { result ≡ nothing }
    {
        Reading {
            alloc,
            stage: Stage::Nothing,
            at: None,
            values: Vec::new(alloc),
            sum: 0,
        }
    }

    /// Whether a line may follow those so far.
    fn may_precede(&self, line: KeptLine<'_>) -> bool
        ensures { IsTrue result ↔ Follows self.now (line_view line.entry) }
    {
        match line {
            KeptLine::Head(_) => self.stage == Stage::Nothing,
            KeptLine::Digest => self.stage == Stage::Head,
            KeptLine::Entry { name, .. } => {
                self.stage == Stage::Values && !has_name(&self.values, name)
            }
            KeptLine::End(number) => {
                self.stage == Stage::Values && number == self.values.len() as u64
            }
            KeptLine::Sum(_) => self.stage == Stage::End && self.at.is_some(),
        }
    }

    /// What a line says, where it may follow those so far.
    fn next_line<'a>(&self, line: &'a [u8]) -> Option<KeptLine<'a>>
        requires { ¬ IsSkipped line.now }
        ensures { MatchOption result
            ((said : SaidLine) → ¬ Adds kept_rules self.now line.now said)
            (λ said. Adds kept_rules self.now line.now (line_view said)) }
    {
        let said = line_of(line)?;
        if self.may_precede(said) {
            Some(said)
        } else {
            None
        }
    }

    /// These lines and one more.
    fn with(self, line: KeptLine<'_>) -> Result<Reading, AllocError>
        ensures { IfOk result (λ more. more ≡ after self (line_view line.entry)) }
    {
        let mut reading = self;
        match line {
            KeptLine::Head(at) => {
                reading.stage = after_head(at);
                reading.at = at;
            }
            KeptLine::Digest => reading.stage = Stage::Values,
            KeptLine::Entry { name, value } => {
                let kept = KeptValue::new(reading.alloc, name, value)?;
                reading.values.push(kept)?;
            }
            KeptLine::End(_) => reading.stage = Stage::End,
            KeptLine::Sum(sum) => {
                reading.stage = Stage::Sum;
                reading.sum = sum;
            }
        }
        Ok(reading)
    }
}

impl LineState<Kept> for Reading {
    ghost use Rattle.std.specs.Prelude.{⊤};
    ghost use Rattle.livekeep.specs.KeptFiles.{SaidLine, kept_rules};

    ghost Entry = { SaidLine };

    ghost rules = { kept_rules };

    ghost IsKept = { λ _. ⊤ };

    fn after(self, line: &[u8]) -> Result<Option<Self>, LineFault<Kept>> {
        let Some(said) = self.next_line(line) else {
            return Ok(None);
        };
        match self.with(said) {
            Ok(next) => Ok(Some(next)),
            Err(_) => Err(LineFault::Memory),
        }
    }
}

/// What a head is followed by: the digest in version 1, and values since.
fn after_head(at: Option<KeptAt>) -> Stage
    ensures { result ≡ after_head at }
{
    match at {
        None => Stage::Head,
        Some(_) => Stage::Values,
    }
}

/// Whether one of the values is of this name.
pub(crate) fn has_name(values: &[KeptValue], name: &[u8]) -> bool
    ensures { result ≡ has_name values.now name.now }
{
    values.iter().any(|kept| kept.name() == name)
}
