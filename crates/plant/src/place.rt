//! Places that are kept back.

ghost use Rattle.std.specs.Prelude.{◌≡◌, ◌+◌, ◌≤◌, ◌<◌, true, false, if◌then◌else◌, length};
ghost use Rattle.std.specs.Prelude.{slice_set, slice_index_or};
ghost use Rattle.limits.specs.Limits.{most_total};

/// Uses a place where one is kept back, which is then one of `kept` less.
pub(crate) fn use_place(place: &mut bool, kept: &mut u64)
    requires counted { (if place.old then 1 else 0) ≤ kept.old }
    ensures used { place.new ≡ false }
    ensures freed { kept.new + (if place.old then 1 else 0) ≡ kept.old }
{
    if *place {
        *kept -= 1;
    }
    *place = false;
}

/// Keeps a place back where none is, which is then one more of `kept`.
pub(crate) fn keep_place(place: &mut bool, kept: &mut u64)
    requires small { kept.old ≤ most_total }
    ensures kept { place.new ≡ true }
    ensures more { kept.new ≡ kept.old + (if place.old then 0 else 1) }
{
    if !*place {
        *kept += 1;
    }
    *place = true;
}

/// Uses the place that is kept back for a bus, if one is.
pub(crate) fn use_place_of(places: &mut Vec<bool>, bus: u8, kept: &mut u64)
    requires known { bus < length places.old.items }
    requires counted { (if slice_index_or places.old.items bus false then 1 else 0) ≤ kept.old }
    ensures used { places.new.items ≡ slice_set places.old.items bus false }
    ensures freed { kept.new + (if slice_index_or places.old.items bus false then 1 else 0)
        ≡ kept.old }
{
    use_place(&mut places[usize::from(bus)], kept);
}

/// Keeps a place back for a bus, if none is.
pub(crate) fn keep_place_of(places: &mut Vec<bool>, bus: u8, kept: &mut u64)
    requires known { bus < length places.old.items }
    requires small { kept.old ≤ most_total }
    ensures kept { places.new.items ≡ slice_set places.old.items bus true }
    ensures more { kept.new
        ≡ kept.old + (if slice_index_or places.old.items bus false then 0 else 1) }
{
    keep_place(&mut places[usize::from(bus)], kept);
}
