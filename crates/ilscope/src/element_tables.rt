//! What the elements of a text declare, with the numbers of its programs.

use crate::gathering::Gathering;
use crate::numbers::{element_given_twice, numbers_of_functions, numbers_of_programs};
use ildeclared::{Found, Names};
use ilsource::Element;
use std::alloc::{AllocError, Global};

/// What is gathered from all elements of a text, the numbers of its programs and of its functions,
/// and the next fault of a name of a type, a function or a program that is given again.
#[derive(Drop)]
pub(crate) struct ElementTables<'a> {
    pub(crate) gathering: Gathering<'a>,
    pub(crate) program_numbers: Names<usize>,
    pub(crate) function_numbers: Names<usize>,
    pub(crate) element_twice: Option<Found>,
}

impl<'a> ElementTables<'a> {
    ghost use Rattle.std.specs.Prelude.{IfOk, map};
    ghost use Rattle.ilsource.specs.Names.{text_of};
    ghost use Rattle.ildeclared.specs.Faults.{IsNextOf, OfCause};
    ghost use Rattle.ildeclared.specs.declared.fault.NameCause.TheVariants.{Twice};
    ghost use Rattle.ilscope.specs.Declarations.{name_of};
    ghost use Rattle.ilscope.specs.Faults.{IsTwiceIn};
    ghost use Rattle.ilscope.specs.ScopeSteps.{AreNumbersOf, IsGathered};

    /// The tables of all elements. `lower` is the text in lower case.
    pub(crate) fn of(
        alloc: Global,
        lower: &[u8],
        elements: &'a [Element],
        after: Option<Found>,
    ) -> Result<ElementTables<'a>, AllocError>
        ensures gathered { IfOk result (λ tables. IsGathered after lower.now elements.now
            tables.gathering.types tables.gathering.programs.items
            tables.gathering.variable_numbers.items tables.gathering.block_numbers.items
            tables.gathering.external_numbers.items tables.gathering.functions.items
            tables.gathering.own_numbers.items tables.gathering.least) }
        ensures programs { IfOk result (λ tables. AreNumbersOf (text_of lower.now)
            (map (λ p. p.program.name) tables.gathering.programs.items) tables.program_numbers) }
        ensures functions { IfOk result (λ tables. AreNumbersOf (text_of lower.now)
            (map (λ f. f.function.name) tables.gathering.functions.items)
            tables.function_numbers) }
        ensures twice { IfOk result (λ tables. IsNextOf after (OfCause Twice
            (IsTwiceIn (text_of lower.now) (map name_of elements.now))) tables.element_twice) }
    {
        let element_twice = element_given_twice(alloc, lower, elements, after)?;
        let gathering = Gathering::of(alloc, lower, elements, after)?;
        let program_numbers = numbers_of_programs(alloc, lower, &gathering.programs)?;
        let function_numbers = numbers_of_functions(alloc, lower, &gathering.functions)?;
        Ok(ElementTables {
            gathering,
            program_numbers,
            function_numbers,
            element_twice,
        })
    }
}
