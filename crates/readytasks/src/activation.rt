//! Whether a frame that was heard activates a task.
ghost use Rattle.std.specs.Prelude.{◌≡◌, [], Some, None, if◌then◌else◌};
ghost use Rattle.plantevents.specs.Readiness.{activates};
ghost use Rattle.readytasks.specs.TaskSets.{count_for};
ghost use Rattle.readytasks.specs.TaskSetSteps.{information_for};

use daliframe::Frame24;
use plantevents::Activator;

/// The information of a frame that was heard on a bus, 0 to 1023, where it activates such a task.
pub(crate) fn activation_by(activator: Option<Activator>, bus: u8, frame: Frame24) -> Option<u16>
    ensures value { result
        ≡ (if activates activator bus frame then Some (information_for activator frame) else None) }
{
    match activator {
        Some(
            Activator::Messages {
                bus: own,
                source,
                ..
            },
        ) if bus == own => source.information(frame),
        _ => None,
    }
}

/// What the count of its source begins at, if messages activate the task.
pub(crate) fn first_count(activator: Option<Activator>) -> u16
    ensures value { result ≡ count_for activator [] }
{
    match activator {
        Some(Activator::Messages { first, .. }) => first,
        _ => 0,
    }
}
