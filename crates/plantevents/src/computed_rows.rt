//! The questions on worked histories: each clause is one, proved by computing it.

ghost use Rattle.std.specs.Prelude.{◌≡◌, true, false, [], ◌∷◌, length, slice_get, Some, None};
ghost use Rattle.iltypes.specs.declared.value.Value.TheVariants.{Bool as truth};
ghost use Rattle.daliframe.specs.declared.forward.Frame.TheVariants.{Forward16};
ghost use Rattle.buslink.specs.declared.marks.Reply.TheVariants.{Quiet, Answer, Damaged};
ghost use Rattle.buslink.specs.declared.marks.Outcome.TheVariants.{Done, GaveUp};
ghost use Rattle.ilmachine.specs.Images.{Global, Own};
ghost use Rattle.plantevents.specs.declared.event.Origin.TheVariants.{Queued, Output};
ghost use Rattle.plantevents.specs.Plants.{activator};
ghost use Rattle.plantevents.specs.Histories.{moment, is_scanned, hand, is_down};
ghost use Rattle.plantevents.specs.Readiness.{pending, lost, ready, since};
ghost use Rattle.plantevents.specs.Variables.{value, snapshot_value, whole};
ghost use Rattle.plantevents.specs.Waiting.{waiting, dropped, owed, handouts};
ghost use Rattle.plantevents.specs.Legal.{AreLegal};
ghost use Rattle.plantevents.specs.LegalRows.{working_house, one_of_each};
ghost use Rattle.plantevents.specs.Rows.{house, house_from, overlapping, lit, second_turn};
ghost use Rattle.plantevents.specs.Rows.{crowded, pushes};
ghost use Rattle.plantevents.specs.Rows.{asking, answered, hand_lamp, lamp_on, hand_reading};
ghost use Rattle.plantevents.specs.Rows.{reading, read_frames, level, lost_bus, back};

/// A task reads its snapshot, and not what another task wrote while it was scanned.
fn overlapping_scans()
    ensures x { value house (Global 0) overlapping ≡ Some (whole 1) }
    ensures y { value house (Global 1) overlapping ≡ Some (whole 5) }
{}

/// Of 33 events the first is given up. The task takes the second, and the image has the last.
fn many_pushes()
    ensures lost { lost (activator house 2) 2 (pushes 33) ≡ 1 }
    ensures pending { length (pending (activator house 2) 2 (pushes 33)) ≡ 32 }
    ensures information { value house (Global 3) (pushes 33) ≡ Some (whole 33) }
    ensures count { value house (Global 4) (pushes 33) ≡ Some (whole 33) }
    ensures trigger { value house (Global 2) (pushes 33) ≡ Some (truth false) }
    ensures taken_trigger { snapshot_value house 2 (pushes 33) (Global 2) ≡ Some (truth true) }
    ensures taken_information { snapshot_value house 2 (pushes 33) (Global 3) ≡ Some (whole 2) }
    ensures taken_count { snapshot_value house 2 (pushes 33) (Global 4) ≡ Some (whole 2) }
    ensures others { snapshot_value house 2 (pushes 33) (Global 1) ≡ Some (whole 1) }
{}

/// A count goes on from the first value of its variable, and after 65,535 comes 0. What is no count
/// begins at 0.
fn counts_that_begin()
    ensures first { value (house_from 3) (Global 4) [] ≡ Some (whole 3) }
    ensures next { value (house_from 3) (Global 4) (pushes 1) ≡ Some (whole 4) }
    ensures taken { snapshot_value (house_from 3) 2 (pushes 1) (Global 4) ≡ Some (whole 4) }
    ensures last { value (house_from 65535) (Global 4) (pushes 1) ≡ Some (whole 0) }
    ensures taken_last { snapshot_value (house_from 65535) 2 (pushes 1) (Global 4)
        ≡ Some (whole 0) }
    ensures no_count { value (house_from 65536) (Global 4) (pushes 1) ≡ Some (whole 1) }
    ensures others { value (house_from 3) (Global 3) (pushes 1) ≡ Some (whole 1) }
{}

/// Who has been ready longest goes first.
fn turns()
    ensures is_ready { ready (activator house 0) 0 second_turn ≡ true }
    ensures first { since (activator house 0) 0 second_turn ≡ 4 }
    ensures second { since (activator house 1) 1 second_turn ≡ 0 }
    ensures no_push { ready (activator house 2) 2 second_turn ≡ false }
    ensures moment { moment second_turn ≡ 100 }
    ensures scanned { is_scanned 0 second_turn ≡ false }
{}

/// Of 65 requests of one class one is dropped.
fn crowd()
    ensures waiting { length (waiting house 0 4 crowded) ≡ 64 }
    ensures dropped { dropped house 0 4 crowded ≡ 1 }
    ensures others { waiting house 0 5 crowded ≡ [] }
{}

/// A level is owed until it is handed out, by the class of the task that stores it.
fn lamp()
    ensures write_of { value house (Global 5) lit ≡ Some (whole 200) }
    ensures own { value house (Own 2 0) lit ≡ Some (whole 9) }
    ensures read_only { value house (Global 1) lit ≡ Some (whole 1) }
    ensures after_offers { handouts house 0 lit
        ≡ record { origin = Output 5 200; transaction = lamp_on } ∷ [] }
    ensures other_class { owed house 0 4 lit ≡ [] }
    ensures handed { owed house 0 2 (hand_lamp ∷ lit) ≡ [] }
{}

/// A level that was handed out is owed again once its bus was down and came up.
fn lamp_again()
    ensures down { is_down 0 lost_bus ≡ true }
    ensures handed { owed house 0 2 lost_bus ≡ [] }
    ensures up { is_down 0 back ≡ false }
    ensures owed { owed house 0 2 back ≡ record { address = 5; level = 200 } ∷ [] }
{}

/// What may be handed out goes by class, and in a class requests before levels. A read goes last.
fn order()
    ensures first { slice_get (handouts house 0 asking) 0
        ≡ Some (record {
          origin = Output 5 0;
          transaction = record { frames = Forward16 0x0A00 ∷ []; first_priority = 2 };
        }) }
    ensures last { slice_get (handouts house 0 asking) 2
        ≡ Some (record { origin = Queued reading; transaction = read_frames }) }
    ensures handed { waiting house 0 5 (hand_reading ∷ asking) ≡ [] }
    ensures stays { waiting house 0 4 (hand_reading ∷ asking) ≡ level ∷ [] }
{}

/// An answer is written where the answers of its gear are located.
fn answers()
    ensures none_yet { value house (Global 6) asking ≡ Some (whole 258) }
    ensures none { value house (Global 6) (answered (Done Quiet)) ≡ Some (whole 256) }
    ensures byte { value house (Global 6) (answered (Done (Answer 7))) ≡ Some (whole 7) }
    ensures damaged { value house (Global 6) (answered (Done Damaged)) ≡ Some (whole 257) }
    ensures gave_up { value house (Global 6) (answered GaveUp) ≡ Some (whole 258) }
    ensures closed { hand 0 (answered GaveUp) ≡ None }
{}

/// There are legal histories with an event of each kind.
fn legal_history()
    ensures { AreLegal working_house one_of_each }
{}
