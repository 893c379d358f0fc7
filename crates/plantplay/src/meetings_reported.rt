//! What is reported where a plant is not as it is expected to be.

ghost use Rattle.std.specs.Prelude.{◌<◌, length};

use crate::meeting::{is_known, is_spelled};
use crate::naming::is_named;
use commandoptions::ExpectedWord;
use ilplan::Plan;
use plant::Plant;
use std::io;
use std::io::Write;

/// Reports each name that is expected and that no global variable has.
///
/// # Errors
///
/// The writer's.
pub fn report_unknown<E: Write>(
    to: &mut E,
    plan: &Plan,
    expected: &[ExpectedWord],
) -> io::Result<()> {
    for word in expected {
        if !is_known(plan, word) {
            let name = word.name;
            writeln!(to, "error: no global variable {name}")?;
        }
    }
    Ok(())
}

/// Reports what is not as expected, with what is.
///
/// # Errors
///
/// The writer's.
pub fn report_unmet<E: Write>(
    to: &mut E,
    plant: &Plant,
    expected: &[ExpectedWord],
) -> io::Result<()> {
    let plan = plant.setup().plan();
    for word in expected {
        for global in 0..plan.globals() {
            report_unmet_by(to, plant, word, global)?;
        }
    }
    Ok(())
}

/// Reports the value of a global variable that has the name, and not the value that is expected.
fn report_unmet_by<E: Write>(
    to: &mut E,
    plant: &Plant,
    expected: &ExpectedWord,
    global: usize,
) -> io::Result<()>
    requires { global < length plant.now.plant.plan.globals }
{
    let name = plant.setup().plan().global_name(global);
    let shown = plant.value(global);
    let wanted = expected.value;
    if is_named(plant.setup().plan(), global, expected.name) && !is_spelled(wanted, shown) {
        writeln!(to, "expected {name} = {wanted}, it is {shown}")?;
    }
    Ok(())
}
