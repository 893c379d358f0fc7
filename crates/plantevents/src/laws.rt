//! What the questions mean, asked of a whole history.

ghost use Rattle.std.specs.Prelude.{◌≡◌, ◌≢◌, ◌↔◌, ◌⊎◌, ℕ, ◌≤◌, true, List, [], Option};
ghost use Rattle.std.specs.Prelude.{Some, None};
ghost use Rattle.std.specs.Prelude.{map, drop, length, slice_get, ◌+◌, ◌%◌, ◌^◌, ◌++◌, ◌∷◌};
ghost use Rattle.iltypes.specs.declared.value.Value.{Value};
ghost use Rattle.dalievent.specs.declared.messages.EventSource.{EventSource};
ghost use Rattle.gearcmd.specs.FrameLists.{FrameList, IsLegal};
ghost use Rattle.ilmachine.specs.Snapshots.{ScanStart};
ghost use Rattle.ilmachine.specs.Images.{Layout, TaskLayout, ImageVariable};
ghost use Rattle.ilmachine.specs.Scans.{Scan};
ghost use Rattle.ilmachine.specs.Verdicts.{Accepted};
ghost use Rattle.ilplan.specs.Plans.{PlannedTask, AreOrdered};
ghost use Rattle.ilplan.specs.declared.slot.Slot.{Slot};
ghost use Rattle.ilplan.specs.declared.global.Location.TheVariants.{Trigger};
ghost use Rattle.plantevents.specs.declared.activator.PendingEvent.{PendingEvent};
ghost use Rattle.plantevents.specs.declared.activator.Activator.{Activator};
ghost use Rattle.plantevents.specs.declared.activator.Activator.TheVariants.{Messages};
ghost use Rattle.plantevents.specs.declared.event.Event.{Event};
ghost use Rattle.plantevents.specs.declared.event.Event.TheVariants.{Heard, Commit, Hand, Up};
ghost use Rattle.plantevents.specs.declared.event.Origin.{Origin as OriginOf};
ghost use Rattle.plantevents.specs.declared.role.Role.{Role};
ghost use Rattle.plantevents.specs.declared.role.Role.TheVariants.{Worker, Bus, Clock};
ghost use Rattle.plantevents.specs.Plants.{Plant, task_at, source_at, trigger_of, activator};
ghost use Rattle.plantevents.specs.Slots.{IsSlotOf};
ghost use Rattle.plantevents.specs.Histories.{moment, scans, scan, is_scanned, hand, is_down};
ghost use Rattle.plantevents.specs.Histories.{sent_in, heard_in, downs_in, ups_in, given_in};
ghost use Rattle.plantevents.specs.Histories.{frames, heards, message_count, messages};
ghost use Rattle.plantevents.specs.Readiness.{ready, since, pending, lost, most_pending};
ghost use Rattle.plantevents.specs.Arrivals.{arrivals, GivesUp};
ghost use Rattle.plantevents.specs.Waiting.{OwedLevel, Handout, waiting, dropped};
ghost use Rattle.plantevents.specs.Waiting.{owed, handouts, classes};
ghost use Rattle.plantevents.specs.Fronts.{IsSince, IsScanned};
ghost use Rattle.plantevents.specs.Acceptances.{accepted_requests, handed_count, asked_count};
ghost use Rattle.plantevents.specs.Writes.{IsWrittenFrom, IsNotWritten, HasLast, HasFirst};
ghost use Rattle.plantevents.specs.Members.{Has, IsPendingEvent, IsOwed, IsFirstOwed};
ghost use Rattle.plantevents.specs.Members.{HasNothing, IsNextHandout, IsInPart};
ghost use Rattle.plantevents.specs.ComingUp.{IsOwedAnew, IsUnchanged};
ghost use Rattle.plantevents.specs.Legal.{AreLegal, IsTake, IsCommit};
ghost use Rattle.plantevents.specs.Parts.{Placed, part};
ghost use Rattle.plantevents.specs.Parts.{shown_moment, shown_scan, shown_hand, shown_down};
ghost use Rattle.plantevents.specs.Parts.{shown_sent, shown_heard, shown_downs, shown_ups, shown_given};

/// `since` is the least length from which on a task that is ready was ready without a break.
pub fn since_is_least()
    ensures { (a : Option Activator) (t : ℕ) (h : List Event)
        → ready a t h ≡ true → IsSince a t h (since a t h) }
{}

/// A task is marked as scanned exactly where a worker has a scan of it open.
pub fn what_is_scanned()
    ensures { (p : Plant) (t : ℕ) (h : List Event)
        → AreLegal p h → (is_scanned t h ≡ true) ↔ IsScanned t h }
{}

/// What waits for a class of a bus is what was accepted for it, in order, without as many first
/// ones as were handed out from there.
pub fn what_waits()
    ensures { (p : Plant) (b c : ℕ) (h : List Event)
        → AreLegal p h → waiting p b c h ≡ drop (handed_count b c h) (accepted_requests p b c h) }
{}

/// What a part shows by itself is so in the whole history: the moment, the scan that a worker has
/// open, the transaction that a bus has open, and whether a bus is down.
pub fn what_a_part_shows()
    ensures clock { (h : List Event) → moment h ≡ shown_moment (part Clock h) }
    ensures worker { (w : ℕ) (h : List Event) → scan w h ≡ shown_scan (part (Worker w) h) }
    ensures hand { (b : ℕ) (h : List Event) → hand b h ≡ shown_hand (part (Bus b) h) }
    ensures down { (b : ℕ) (h : List Event) → is_down b h ≡ shown_down (part (Bus b) h) }
{}

/// What a part shows of the links is so in the whole history: the frames that a bus sent by its
/// reports, those that were heard there, how often it went down and came up, and the moments of the
/// clock.
pub fn what_a_part_shows_of_links()
    ensures sent { (b : ℕ) (h : List Event) → sent_in b h ≡ shown_sent (part (Bus b) h) }
    ensures heard { (b : ℕ) (h : List Event) → heard_in b h ≡ shown_heard (part (Bus b) h) }
    ensures downs { (b : ℕ) (h : List Event) → downs_in b h ≡ shown_downs (part (Bus b) h) }
    ensures ups { (b : ℕ) (h : List Event) → ups_in b h ≡ shown_ups (part (Bus b) h) }
    ensures given { (h : List Event) → given_in h ≡ shown_given (part Clock h) }
{}

/// A history counts what it says that went over the links.
pub fn what_is_counted()
    ensures frames { (b : ℕ) (h : List Event) → frames b h ≡ length (sent_in b h) }
    ensures heards { (b : ℕ) (h : List Event) → heards b h ≡ length (heard_in b h) }
{}

/// In a legal history each scan that was committed came to what its task means of the snapshot that
/// it took, and each transaction that was handed out is legal.
pub fn what_is_in_a_legal_history()
    ensures commits { (p : Plant) (later front : List Event) (w n : ℕ) (r : Scan)
        → AreLegal p (later ++ Commit w n r ∷ front) → IsCommit p front w n r }
    ensures hands { (p : Plant) (later front : List Event) (b : ℕ) (s : OriginOf) (t : FrameList)
        → AreLegal p (later ++ Hand b s t ∷ front) → IsLegal t.frames t.first_priority }
{}

/// What a scan writes to a variable is the value of the slot from which the process image says that
/// it is written.
pub fn what_a_scan_writes()
    ensures { (layout : Layout) (t : ℕ) (task : TaskLayout) (v : ImageVariable) (slots : List Value)
        → slice_get layout.tasks t ≡ Some task → length task.externals ≤ length slots
        → IsWrittenFrom layout t task v slots ⊎ IsNotWritten layout t task v slots }
{}

/// The value of a variable is what was written to it last, or its initial value where nothing was.
pub fn the_last_write_counts()
    ensures { (p : Plant) (v : ImageVariable) (h : List Event) → HasLast p v h ⊎ HasFirst p v h }
{}

/// A count goes on: after one history and then another it is what the second one alone makes of the
/// count that the first one left. Where it begins at 0 it is the number of messages, modulo 65,536.
pub fn counts_go_on()
    ensures after { (first bus : ℕ) (source : EventSource) (later front : List Event)
        → message_count first bus source (later ++ front)
        ≡ message_count (message_count first bus source front) bus source later }
    ensures from_zero { (bus : ℕ) (source : EventSource) (h : List Event)
        → message_count 0 bus source h ≡ messages bus source h % 2 ^ 16 }
{}

/// A pending event of an event task is a message of its trigger's source, and has the information
/// and the count as they are just after it.
pub fn what_is_pending()
    ensures each { (p : Plant) (t bus number : ℕ) (source : EventSource) (h : List Event)
        (a : PendingEvent)
        → trigger_of p t ≡ Some (Trigger bus number) → source_at p bus number ≡ Some source
        → Has (pending (activator p t) t h) a → IsPendingEvent p bus number source h a }

    // They are all that arrived, in order, without as many first ones as were given up or taken.
    ensures order { (p : Plant) (bus first : ℕ) (source : EventSource) (t : ℕ) (h : List Event)
        → activator p t ≡ Some (Messages bus source first) → AreLegal p h
        → pending (Some (Messages bus source first)) t h
        ≡ drop (lost (Some (Messages bus source first)) t h + scans t h)
        (arrivals (Some (Messages bus source first)) h) }
    ensures few { (a : Option Activator) (t : ℕ) (h : List Event)
        → length (pending a t h) ≤ most_pending }
{}

/// An event of an event task is given up exactly where 32 later ones of the task came before it was
/// taken: where a message comes with which 32 came after the oldest that is left.
pub fn what_is_given_up()
    ensures { (p : Plant) (bus first : ℕ) (source : EventSource) (t b f : ℕ) (h : List Event)
        → activator p t ≡ Some (Messages bus source first) → AreLegal p h
        → (lost (Some (Messages bus source first)) t (Heard b f ∷ h)
        ≡ lost (Some (Messages bus source first)) t h + 1)
        ↔ GivesUp (Some (Messages bus source first)) t b f h }
{}

/// Each request is accepted or dropped.
pub fn requests_are_accepted_or_dropped()
    ensures { (p : Plant) (b c : ℕ) (h : List Event)
        → length (accepted_requests p b c h) + dropped p b c h ≡ asked_count p b c h }
{}

/// The owed levels of a class are those whose value differs from the level that was handed out
/// last.
pub fn what_is_owed()
    ensures each { (p : Plant) (b c : ℕ) (h : List Event) (o : OwedLevel)
        → Has (owed p b c h) o ↔ IsOwed p b c h o }
    ensures first { (p : Plant) (b c : ℕ) (h : List Event) (o : OwedLevel)
        → (slice_get (owed p b c h) 0 ≡ Some o) ↔ IsFirstOwed p b c h o }
{}

/// A bus that comes up again owes exactly each level whose value is not 255. The other buses owe
/// what they owed, and nothing else that a history says of variables, tasks and requests differs.
pub fn what_coming_up_changes()
    ensures owed { (p : Plant) (b c : ℕ) (h : List Event) (o : OwedLevel)
        → Has (owed p b c (Up b ∷ h)) o ↔ IsOwedAnew p b c h o }
    ensures others { (p : Plant) (b other c : ℕ) (h : List Event)
        → other ≢ b → owed p other c (Up b ∷ h) ≡ owed p other c h }
    ensures same { (p : Plant) (b : ℕ) (h : List Event) → IsUnchanged p h (Up b ∷ h) }
{}

/// In a legal history a bus that is down has no transaction open.
pub fn what_a_bus_has_open_that_is_down()
    ensures { (p : Plant) (b : ℕ) (h : List Event)
        → AreLegal p h → is_down b h ≡ true → hand b h ≡ None }
{}

/// What is handed to a bus first is of the least class that has anything: the oldest request, or
/// where none waits the owed level of the least address. There is nothing to be handed out where
/// no class has anything.
pub fn what_is_handed_out()
    ensures first { (p : Plant) (b : ℕ) (h : List Event) (x : Handout)
        → (slice_get (handouts p b h) 0 ≡ Some x) ↔ IsNextHandout p b h x }
    ensures nothing { (p : Plant) (b : ℕ) (h : List Event)
        → (handouts p b h ≡ []) ↔ ((c : ℕ) → Has classes c → HasNothing p b h c) }
{}

/// An event is in the part of the role that it comes from, at its place, and in no other.
pub fn each_event_is_in_one_part()
    ensures { (role : Role) (h : List Event) (x : Placed)
        → Has (part role h) x ↔ IsInPart role h x }
{}

/// Which task a worker takes, and with which snapshot, is determined.
pub fn one_take_is_legal()
    ensures { (p : Plant) (h : List Event) (w t u : ℕ) (s r : ScanStart)
        → IsTake p h w t s → IsTake p h w u r → (t ≡ u) × (s ≡ r) }
{}

/// Each slot of a task of the plan is that of its variable in the process image: the global one, or
/// one of the task's own, which has the slot's initial value at first.
pub fn slots_are_those_of_the_plan()
    ensures { (p : Plant) (t : ℕ) (task : PlannedTask) (code : Accepted) (number : ℕ) (s : Slot)
        → task_at p t ≡ Some task → slice_get p.codes t ≡ Some code
        → AreOrdered (map (λ slot. slot.variable) task.slots)
        → slice_get task.slots number ≡ Some s
        → IsSlotOf p t task number s.initial s.variable }
{}
