//! What reports of transactions write to the process image.

ghost use Rattle.std.specs.Prelude.{◌≡◌, ℕ, map};
ghost use Rattle.ilmachine.specs.Images.{ImageVariable, layout_of, value_of, blocks_of};
ghost use Rattle.plantevents.specs.Variables.{newest};
ghost use Rattle.plantbuses.specs.AnswerSteps.{answer_at};
ghost use Rattle.plant.specs.IndexSteps.{AreInputsOf};

use crate::inputs::give;
use buslink::Outcome;
use ilmachine::Image;
use ilplan::Plan;
use plantbuses::answer_to;
use plantevents::Origin;

/// Writes the answer that a transaction, which was made of this and sent on a bus, brought to the
/// input that is located there, if one is. It takes no memory.
pub(crate) fn write_answer(
    plan: &Plan,
    inputs: &[usize],
    image: &mut Image,
    bus: u8,
    origin: &Origin,
    outcome: Outcome,
)
    requires inputs { AreInputsOf plan.now bus inputs.now }
    requires types { image.old.types ≡ map (λ g. g.value_type) plan.now.globals }
    ensures layout { layout_of image.new ≡ layout_of image.old }
    ensures values { (v : ImageVariable) → value_of image.new v
        ≡ newest (answer_at plan.now bus origin.now outcome v) (value_of image.old v) }
    ensures blocks { (task : ℕ) → blocks_of image.new task ≡ blocks_of image.old task }
{
    for i in 0..inputs.len() {
        let global = inputs[i];
        let value = answer_to(plan, global, bus, origin, outcome);
        give(image, global, value);
    }
}
