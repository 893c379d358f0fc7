//! What holds of every plant.

ghost use Rattle.std.specs.Prelude.{◌≡◌, true};
ghost use Rattle.plantevents.specs.declared.event.Event.{Event};
ghost use Rattle.plantevents.specs.declared.role.Role.{Role};
ghost use Rattle.plant.specs.Shown.{Shown, grown, reserving, is_full};

/// A plant whose history is full stays so, whatever happens, and whatever place is kept back.
pub fn fullness_never_stops()
    ensures event { (p : Shown) (e : Event) → is_full p ≡ true → is_full (grown p e) ≡ true }
    ensures place { (p : Shown) (r : Role) → is_full p ≡ true → is_full (reserving r p) ≡ true }
{}
