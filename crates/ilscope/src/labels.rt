//! Labels of lines, looked up by hashing.

ghost use Rattle.std.specs.Prelude.{◌≡◌, IfOk, OnOk};
ghost use Rattle.ilsource.specs.Names.{folded};
ghost use Rattle.ildeclared.specs.Faults.{IsNextOf, OfCause};
ghost use Rattle.ildeclared.specs.declared.fault.NameCause.TheVariants.{Twice};
ghost use Rattle.ilscope.specs.Faults.{IsTwiceIn};
ghost use Rattle.ilscope.specs.UseFaults.{labels_of};
ghost use Rattle.ilscope.specs.Labels.{AreNumbered};
ghost use Rattle.ilscope.specs.LabelSteps.{IsKeptLabel, KeepsLabel};

use crate::scope::Scope;
use ildeclared::{Found, NameCause, Names, found_where, lesser_of};
use ilsource::{Line, Name, Symbol};
use std::alloc::{AllocError, Global};

/// Under each label of one program's lines the number of the first line that has it, and the next
/// fault after `after` of a label that is given again.
///
/// # Errors
///
/// The allocator is out of memory.
pub fn number_labels(
    alloc: Global,
    scope: &Scope<'_>,
    lines: &[Line<Symbol, Name>],
    after: Option<Found>,
) -> Result<(Names<usize>, Option<Found>), AllocError>
    ensures numbers { IfOk result (λ r. AreNumbered scope.now.tree.text lines.now r.0) }
    ensures twice { IfOk result (λ r.
        IsNextOf after (OfCause Twice
        (IsTwiceIn (folded scope.now.tree.text) (labels_of lines.now))) r.1) }
{
    let mut numbers = Names::new(alloc);
    let mut least = None;
    for (number, line) in lines.iter().enumerate() {
        let again = add_name(alloc, scope, &mut numbers, line.label, number, after)?;
        least = lesser_of(least, again);
    }
    Ok((numbers, least))
}

/// Adds a number under a name where there is one and it is new, and else gives the name's fault.
pub(crate) fn add_name(
    alloc: Global,
    scope: &Scope<'_>,
    numbers: &mut Names<usize>,
    name: Option<Name>,
    number: usize,
    after: Option<Found>,
) -> Result<Option<Found>, AllocError>
    ensures numbers { OnOk result
        (KeepsLabel scope.now.tree.text name number numbers.old numbers.new) }
    ensures twice { IfOk result (λ again. IsNextOf after
        (OfCause Twice (IsKeptLabel scope.now.tree.text numbers.old name)) again) }
{
    let Some(name) = name else {
        return Ok(None);
    };
    let is_new = numbers.add(alloc, scope.spelling(name), number)?;
    Ok(found_where(!is_new, name.from, NameCause::Twice, after))
}
