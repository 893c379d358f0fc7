//! What a scenario scripts for a bus.
ghost use Rattle.std.specs.Prelude.{◌≡◌};
ghost use Rattle.simbus.specs.Simulated.{fate_at};

use wordlines::FrameFate;

/// What becomes of a frame that is sent, by its place.
#[derive(Clone, Copy)]
pub struct ScriptedReply {
    /// The place of the frame among those sent on the bus, from 1.
    pub place: u64,
    pub fate: FrameFate,
}

/// What becomes of the frame at this place.
pub(crate) fn fate_at(script: &[ScriptedReply], place: u64) -> Option<FrameFate>
    ensures { result ≡ fate_at script.now place }
{
    script
        .iter()
        .find(|reply| reply.place == place)
        .map(|reply| reply.fate)
}
