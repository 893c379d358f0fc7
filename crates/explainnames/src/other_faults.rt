//! The faults of names of a text besides the one that is explained: no two at one place, and none
//! that only follows from another.

use crate::name_answers::said_of;
use crate::standing::FaultPlace;
use explaincures::AskedText;
use ilscope::{Found, NameCause, NameFault, Scope, report_of};
use ilsource::{Purpose, Source, Symbol};
use ilsyms::next_fault;
use std::alloc::{AllocError, Global};

/// How many faults are named at most.
const MOST_NAMED: usize = 20;

/// How many bytes of texts are gone over at most to count the faults that are not named: each of
/// them takes a pass over the text.
const MOST_READ: usize = 1_048_576;

/// The faults of names of a text besides the one that is explained.
#[derive(Drop)]
pub struct OtherFaults {
    /// The first of them, in the order of the text.
    pub named: Vec<NamedFault>,
    /// How many more were found.
    pub more: usize,
    /// Whether the text has others that were not looked at.
    pub is_cut: bool,
}

/// A fault of names with its place, of which line and column count from 1.
#[derive(Drop)]
pub struct NamedFault {
    pub line: usize,
    pub col: usize,
    pub cause: NameCause,
    /// What is wrong.
    pub what: String,
}

impl OtherFaults {
    /// Those of a text with this source program, behind the fault at a place.
    ///
    /// # Errors
    ///
    /// The allocator is out of memory.
    pub fn of(
        alloc: Global,
        asked: &AskedText,
        source: &Source,
        at: usize,
        cause: NameCause,
    ) -> Result<OtherFaults, AllocError> {
        let scope = Scope::of(alloc, source, asked.binding)?;
        let mut all = OtherFaults {
            named: Vec::new(alloc),
            more: 0,
            is_cut: false,
        };
        let mut told = Told {
            place: None,
            call: None,
        };
        let first = Found { at, cause };
        told.add(&FaultPlace::of(alloc, asked, &scope, at)?, first);
        let mut next = next_fault(alloc, &scope, Some(first))?;
        // How many faults are looked at.
        let most = (MOST_READ / asked.text.len().max(1)).max(MOST_NAMED);
        for _ in 0..most {
            let Some(found) = next else {
                break;
            };
            let place = FaultPlace::of(alloc, asked, &scope, found.at)?;
            if told.add(&place, found) {
                all.add(&place, found)?;
            }
            next = next_fault(alloc, &scope, Some(found))?;
        }
        all.is_cut = next.is_some();
        Ok(all)
    }

    /// One more: named where there is room.
    fn add(&mut self, place: &FaultPlace, found: Found) -> Result<(), AllocError> {
        if self.named.len() >= MOST_NAMED {
            self.more = self.more.saturating_add(1);
            return Ok(());
        }
        if let NameFault::At { line, col, cause } = report_of(place.asked.text, found) {
            let said = said_of(place, cause)?;
            let what = place.filled(&said, said.row.what)?;
            self.named.push(NamedFault {
                line,
                col,
                cause,
                what,
            })?;
        }
        Ok(())
    }
}

/// What was told of a text up to a place: where the last fault stands, and the last instruction
/// whose function there is not.
#[derive(Clone, Copy)]
struct Told {
    place: Option<usize>,
    call: Option<usize>,
}

impl Told {
    /// Tells of the next fault, and whether it is told. Left out is too much of something, and an
    /// operand of a function that there is not: such a line may be meant to be another instruction.
    fn add(&mut self, place: &FaultPlace, found: Found) -> bool {
        let instruction = match place.used {
            Some(used) => Some(used.at),
            None => None,
        };
        let is_known = self.place == Some(found.at)
            || instruction.is_some() && self.call == instruction
            || found.cause == NameCause::TooMany;
        if is_known || follows(place, found.cause) {
            return false;
        }
        self.place = Some(found.at);
        if let (Some(Purpose::Invoke), NameCause::Unknown) = (place.purpose(), found.cause) {
            self.call = instruction;
        }
        true
    }
}

/// Whether a fault only follows from one before it.
fn follows(place: &FaultPlace, cause: NameCause) -> bool {
    match (cause, place.symbol()) {
        (NameCause::Unknown, Some(Symbol::Block(block))) => place.has_unknown_type(block),
        // A call of what is no instance is at fault itself.
        (NameCause::Unknown, Some(Symbol::Port { block, .. })) => {
            let is_passed = matches!(place.purpose(), Some(Purpose::Pass));
            place.has_unknown_type(block) || is_passed && place.block_of_port().is_none()
        }
        (NameCause::BadDeclaration, Some(Symbol::Function(_))) => {
            place.function_named().is_some() && place.inputs().is_empty()
        }
        _ => false,
    }
}
