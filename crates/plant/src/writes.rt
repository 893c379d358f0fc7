//! What scans write to the process image.

ghost use Rattle.std.specs.Prelude.{◌≡◌, ℕ, ◌∷◌, List, Some};
ghost use Rattle.ilmachine.specs.Images.{layout_of, verified_of};
ghost use Rattle.plantevents.specs.declared.event.Event.{Event};
ghost use Rattle.plantevents.specs.declared.event.Event.TheVariants.{Commit};
ghost use Rattle.plantevents.specs.Plants.{Plant as Made};
ghost use Rattle.plantevents.specs.Histories.{OpenScan};
ghost use Rattle.plantevents.specs.Histories as histories;
ghost use Rattle.plantbuses.specs.KeptSteps.{ImageFollows};

use ilmachine::Image;
use plantevents::{ScanResult, what_a_scan_writes};

/// Writes what a scan of a task came to: the global variables that the task stores, its own
/// variables and its block instances. It takes no memory.
pub(crate) fn write_scan(image: &mut Image, task: usize, scan: ScanResult)
    requires { verified_of (layout_of image.old) task ≡ Some scan.snapshot.verified }
    ensures { (p : Made) (w n : ℕ) (running : OpenScan) (h : List Event)
        → ImageFollows p h image.old → histories.scan w h ≡ Some running → running.task ≡ task
        → ImageFollows p (Commit w n scan ∷ h) image.new }
{
    let _own = image.externals(task);
    what_a_scan_writes();
    let (_snapshot, row, blocks) = scan.into_parts();
    image.commit(task, &row, blocks);
}
