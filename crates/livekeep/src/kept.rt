//! The values that were kept, and how a file of them is read.

ghost use Rattle.std.specs.Prelude.{◌≡◌, ◌≢◌, ◌↔◌, ◌++◌, ℕ, List, IfOk, IsTrue, MatchOption};
ghost use Rattle.livekeep.specs.Faults.{IsEnded, IsJudged};
ghost use Rattle.livekeep.specs.KeptFiles.{IsSummed};

use crate::fault::KeptFault;
use crate::kept_at::KeptAt;
use crate::reading::Reading;
use crate::stage::Stage;
use crate::sum::sum_of;
use crate::value::KeptValue;
use iltypes::Value;
use std::alloc::{AllocError, Global};
use std::marker::Model;
use wordlines::read_lines;

/// The values that were kept of a building's variables, each under a name of its own.
#[derive(Drop)]
pub struct Kept {
    at: Option<KeptAt>,
    values: Vec<KeptValue>,
}

impl Model for Kept {
    ghost use Rattle.livekeep.specs.KeptFiles.{KeptState, state_of};

    ghost Value = { KeptState };

    ghost view = { λ kept. state_of kept.at kept.values.items };
}

impl Kept {
    ghost use Rattle.std.specs.Prelude.{◌≡◌, IfErr, IfOk, Result};
    ghost use Rattle.livekeep.specs.KeptValues.{kept_under};
    ghost use Rattle.livekeep.specs.KeptFiles.{IsKeptFile, KeptState};
    ghost use Rattle.livekeep.specs.Faults.{IsReadAs, IsKeptFaultOrMemory};
    ghost use Rattle.livekeep.specs.declared.fault.KeptFault.{KeptFault};

    /// When the values were kept; none in a file of version 1.
    pub fn at(&self) -> Option<KeptAt>
        ensures value { result ≡ self.now.at }
    {
        self.at
    }

    /// The values, in the order of their lines.
    pub fn values(&self) -> &[KeptValue]
        ensures value { result.now ≡ self.now.values }
    {
        &self.values
    }

    /// The value that was kept under this name.
    pub fn under(&self, name: &[u8]) -> Option<Value>
        ensures value { result ≡ kept_under self.now.values name.now }
    {
        let kept = self.values.iter().find(|kept| kept.name() == name)?;
        Some(kept.value())
    }

    /// The values of a file: lines of words, of which `kept by dalictl live at` with the date and
    /// the moment comes first, then a name, `=` and a value on each line, then `end` with their
    /// number, and last `sum` with the check sum of all lines before it. In a file of version 1 the
    /// first line does not say when, a digest stands on the second, and `end` is last. Empty lines
    /// and lines that begin with `#` are skipped.
    ///
    /// # Errors
    ///
    /// There are no bytes, or they are no such file; or the allocator is out of memory.
    pub fn parse(alloc: Global, bytes: &[u8]) -> Result<Kept, KeptFault>
        // Values come only of a file of them.
        ensures kept { IfOk result (IsKeptFile bytes.now) }
        ensures fault { IfErr result (IsKeptFaultOrMemory bytes.now) }
        // Bytes are read as one thing at most, but for out of memory.
        ensures one { (a b : Result KeptState KeptFault) → IsReadAs bytes.now a
            → IsReadAs bytes.now b → a ≡ b }
    {
        if bytes.is_empty() {
            return Err(KeptFault::Empty);
        }
        let read = read_lines(Reading::nothing(alloc), bytes)?;
        kept_of(alloc, bytes, read)
    }
}

/// The values of a file whose lines were read to the end, where it is a whole one.
#[tactic(auto, using(crate::proofs::ReadFiles::whole_of))]
fn kept_of(alloc: Global, bytes: &[u8], read: Reading) -> Result<Kept, KeptFault>
    ensures { IsJudged bytes.now read result }
{
    if !is_ended(alloc, bytes, &read)? {
        return Err(KeptFault::Torn);
    }
    Ok(Kept {
        at: read.at,
        values: read.values,
    })
}

/// Whether lines that were read to the end are those of a whole file.
#[tactic(auto, using(crate::proofs::ReadFiles::ended_old, crate::proofs::ReadFiles::ended_early))]
fn is_ended(alloc: Global, bytes: &[u8], read: &Reading) -> Result<bool, AllocError>
    ensures { IfOk result (λ ended. IsTrue ended ↔ IsEnded bytes.now read.now) }
{
    match read.at {
        None => Ok(read.stage == Stage::End),
        Some(_) if read.stage == Stage::Sum => is_summed(alloc, bytes, read.sum),
        Some(_) => Ok(false),
    }
}

/// Whether bytes end with the line of this check sum, and it is that of all bytes before the line.
#[tactic(auto, using(crate::proofs::ReadFiles::none_summed, crate::proofs::ReadFiles::body_summed))]
fn is_summed(alloc: Global, bytes: &[u8], sum: u64) -> Result<bool, AllocError>
    ensures { IfOk result (λ summed. IsTrue summed ↔ IsSummed bytes.now sum) }
{
    let line = format!(in alloc; "sum {sum}\n")?;
    match before_line(bytes, line.as_bytes()) {
        Some(body) => Ok(sum_of(body) == sum),
        None => Ok(false),
    }
}

/// All bytes before this line, where they end with it.
fn before_line<'a>(bytes: &'a [u8], line: &[u8]) -> Option<&'a [u8]>
    ensures { MatchOption result ((body : List ℕ) → bytes.now ≢ body ++ line.now)
        (λ body. bytes.now ≡ body.now ++ line.now) }
{
    bytes.strip_suffix(line)
}
