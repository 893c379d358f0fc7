//! Messages of sources.

ghost use Rattle.std.specs.Prelude.{◌≡◌, ◌+◌, ℕ, List, length, IsTrue, ◌↔◌, Some, None};
ghost use Rattle.std.specs.Prelude.{if◌then◌else◌, true, ◌∷◌, slice_index_or, ◌<◌, ◌≤◌, ◌≢◌};
ghost use Rattle.std.specs.Prelude.{IfSome};
ghost use Rattle.wordlines.specs.declared.sources.BoundSource.{BoundSource as Bound};
ghost use Rattle.ilplan.specs.declared.global.Global.{Global as GlobalVariable};
ghost use Rattle.plantevents.specs.declared.event.Event.{Event};
ghost use Rattle.plantevents.specs.declared.event.Event.TheVariants.{Heard};
ghost use Rattle.plantevents.specs.Histories.{message_count};
ghost use Rattle.plant.specs.IndexSteps.{numbers_on};
ghost use Rattle.plant.specs.KeptSteps.{IsCount, CountsFollow, source_in};

use daliframe::Frame24;
use wordlines::BoundSource;

/// The count of a source once this frame was heard on a bus.
fn count_after(bound: BoundSource, count: u16, bus: u8, frame: Frame24) -> u16
    ensures { (globals : List GlobalVariable) (h : List Event) → IsCount globals bound h count
        → IsCount globals bound (Heard bus frame ∷ h) result }
{
    if bus == bound.bus && bound.source.information(frame).is_some() {
        count.wrapping_add(1)
    } else {
        count
    }
}

/// Counts a frame that was heard on a bus for the source of this number, if it is a message of it.
fn count_for(sources: &[BoundSource], counts: &mut Vec<u16>, i: usize, bus: u8, frame: Frame24)
    requires known { i < length sources.now }
    requires each { length counts.old.items ≡ length sources.now }
    ensures count { length counts.new.items ≡ length counts.old.items }
    ensures here { (globals : List GlobalVariable) (h : List Event)
        → IsCount globals (source_in sources.now i) h (slice_index_or counts.old.items i 0)
        → IsCount globals (source_in sources.now i) (Heard bus frame ∷ h)
        (slice_index_or counts.new.items i 0) }
    ensures others { (k : ℕ) → k ≢ i
        → slice_index_or counts.new.items k 0 ≡ slice_index_or counts.old.items k 0 }
{
    counts[i] = count_after(sources[i], counts[i], bus, frame);
}

/// Counts a frame that was heard on a bus for each source that it is a message of. It goes over
/// the sources on the bus alone.
pub(crate) fn count_message(
    sources: &[BoundSource],
    numbers: &[usize],
    counts: &mut Vec<u16>,
    bus: u8,
    frame: Frame24,
)
    requires each { length counts.old.items ≡ length sources.now }
    requires bound { numbers.now ≡ numbers_on bus 0 sources.now }
    ensures count { length counts.new.items ≡ length counts.old.items }
    ensures follow { (globals : List GlobalVariable) (h : List Event)
        → CountsFollow globals sources.now h counts.old.items
        → CountsFollow globals sources.now (Heard bus frame ∷ h) counts.new.items }
{
    for number in numbers {
        count_for(sources, counts, *number, bus, frame);
    }
}
