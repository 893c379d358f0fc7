//! What is there on a bus: a survey of its addresses, and whether there is gear without one.

ghost use Rattle.std.specs.Prelude.{IfErr, IfOk};
ghost use Rattle.commissioning.specs.Probing.{IsProbed, IsProbedInPart};

use crate::asking::AskFault;
use crate::surveys::{Survey, make_survey};
use crate::tables::Table;
use crate::unaddressed::ask_unaddressed;
use buslink::{Bus, Outcome};
use std::alloc::Global;
use std::io::Write;

/// What was found on a bus.
#[derive(Drop)]
pub struct Probed {
    /// What its gear and its devices were asked.
    pub survey: Survey,
    /// How the query ended whether there is gear without a short address.
    pub unaddressed: Outcome,
}

/// Makes a survey of a bus, and asks then by one frame whether there is gear without a short
/// address. What is there goes to the table at once, and how far it is to `progress`.
///
/// # Errors
///
/// The allocator is out of memory, or the interface failed at the last question. What was asked
/// then is the beginning of this.
pub fn probe<B: Bus, W: Write, P: Write>(
    alloc: Global,
    bus: &mut B,
    table: &mut Table<W>,
    progress: &mut P,
) -> Result<Probed, AskFault>
    ensures probed { IfOk result (λ probed. IsProbed probed (B.log bus.old) (B.log bus.new)) }
    ensures fault { IfErr result
        (λ fault. IsProbedInPart fault (B.log bus.old) (B.log bus.new)) }
{
    let survey = make_survey(alloc, bus, table, progress)?;
    let _told = writeln!(progress, "asking for gear without a short address");
    let unaddressed = ask_unaddressed(bus)?;
    Ok(Probed {
        survey,
        unaddressed,
    })
}
