//! Files that are read line by line.

ghost use Rattle.std.specs.Prelude.{◌≡◌, ◌↔◌, ℕ, Err};
ghost use Rattle.std.specs.Str.Lines.{lines};
ghost use Rattle.wordlines.specs.LineFiles.{AreBadAt, IsReport, IsTooLong, KeepSome, LeadTo};

use crate::fault::{LineCause, LineFault};
use crate::lines::{first_line, is_skipped};

/// What the lines of a file of what `Of` is lead to, one after another.
pub trait LineState<Of>: Sized + Drop {
    ghost use Rattle.std.specs.Prelude.{◌≡◌, IfErr, IfOk, MatchOption};
    ghost use Rattle.wordlines.specs.LineFiles.{AddsKept};
    ghost use Rattle.wordlines.specs.LineRules.{LineRules, Leads};
    ghost use Rattle.wordlines.specs.WordLines.{IsSkipped};

    ghost Entry: { Type 0 };

    ghost rules: { LineRules Entry Self };

    ghost IsKept: { Entry → Type 0 };

    /// What a line that is not skipped leads to, where it may stand there.
    ///
    /// # Errors
    ///
    /// Memory is refused only where the line adds an entry that is kept.
    fn after(self, line: &[u8]) -> Result<Option<Self>, LineFault<Of>>
        requires { ¬ IsSkipped line.now }
        ensures leads { IfOk result (λ after. MatchOption after
            ((next : Self) → ¬ Leads rules self line.now next) (Leads rules self line.now)) }
        ensures memory { IfErr result (λ fault. (fault ≡ LineFault.Memory)
            × AddsKept rules IsKept self line.now) };
}

/// What the lines of a file lead to, or the first bad line, or line 1 where there are more than
/// [`limits::MOST_BYTES`] bytes.
pub fn read_lines<Of, S: LineState<Of>>(start: S, bytes: &[u8]) -> Result<S, LineFault<Of>>
    ensures report { IsReport (LeadTo S.rules start bytes.now) (AreBadAt S.rules start bytes.now)
        (KeepSome S.rules start S.IsKept (lines bytes.now)) bytes.now result }
    ensures too_long { (line : ℕ) → (result ≡ Err (LineFault.At line LineCause.TooLong))
        ↔ IsTooLong bytes.now line }
{
    if limits::is_too_long(bytes) {
        return Err(LineFault::too_long());
    }
    let mut state = start;
    let mut rest = bytes;
    let mut number = 1;
    'lines: while !rest.is_empty() {
        let (line, after) = first_line(rest);
        if !is_skipped(line) {
            let Some(next) = state.after(line)? else {
                return Err(LineFault::bad_line(number));
            };
            state = next;
        }
        rest = after;
        number += 1;
    }
    Ok(state)
}
