//! What is sent and heard on buses, and what the history says of that.

ghost use Rattle.std.specs.Prelude.{◌≡◌, ℕ, ◌<◌, ◌++◌, [], ◌∷◌, Err, IfOk, List, OnOk, false, length};
ghost use Rattle.std.specs.Prelude.{true, vec_len};
ghost use Rattle.buslink.specs.BusLog.{HasHeardAll, one_more};
ghost use Rattle.plantdriving.specs.Links.{AreLinked, log_of, logs};
ghost use Rattle.plantdriving.specs.Open.{HasNothingOpen};
ghost use Rattle.plantdriving.specs.Order.{with_events};
ghost use Rattle.plantdriving.specs.Quiet.{HasNoHandout, HasNoScan};
ghost use Rattle.gearcmd.specs.FrameLists.{FrameList};
ghost use Rattle.ilmachine.specs.Scans.{Scan};
ghost use Rattle.plantevents.specs.declared.event.Event.{Event};
ghost use Rattle.plantevents.specs.declared.event.Event.TheVariants.{Commit, Done, Hand};
ghost use Rattle.plantevents.specs.declared.event.Origin.{Origin};
ghost use Rattle.plantevents.specs.Histories.{is_down, sent_in};
ghost use Rattle.refusalsplant.specs.Hearings.{IsOfHearing};
ghost use Rattle.buslink.specs.Attempts.{ReportParts};

use buslink::Bus;
use plant::{CallError, CallRefusal, Order, Plant};
use plantdriving::{Halt, Observer, has_down, send_next, settle};
use plantevents::what_is_counted;
use std::alloc::Global;

/// `a_bus_goes_down_that_did_not_fail`: a bus went down whose interface had not failed.
pub fn bus_goes_down_only_where_it_failed<B: Bus, O: Observer<B>>(
    plant: &mut Plant,
    line: &mut B,
    observer: &mut O,
) -> Result<bool, Halt>
    requires { 0 < plant.old.plant.plan.buses }
    ensures { IfOk result (λ down. down ≡ true
        → (B.log line.new).failures ≡ one_more (B.log line.old).failures) }
{
    send_next(plant, 0, line, observer)?;
    Ok(plant.is_down(0))
}

/// `a_report_is_filed_and_nothing_sent`: the history had a report of frames that the bus had not
/// sent.
pub fn reported_frames_were_sent<B: Bus, O: Observer<B>>(
    plant: &mut Plant,
    line: &mut B,
    observer: &mut O,
) -> Result<(), Halt>
    requires { (B.log line.old).sent ≡ sent_in 0 plant.old.history }
    ensures { OnOk result ((B.log line.new).sent ≡ sent_in 0 plant.new.history) }
{
    send_next(plant, 0, line, observer)
}

/// `out_of_memory_where_the_plant_refuses`: the driving was out of memory where a bus is down.
pub fn refusal_is_not_out_of_memory<B: Bus, O: Observer<B>>(
    plant: &mut Plant,
    line: &mut B,
    observer: &mut O,
) -> Result<(), Halt>
    requires known { 0 < plant.old.plant.plan.buses }
    requires down { is_down 0 plant.old.history ≡ true }
    ensures { result ≡ Err (Halt.Refused CallRefusal.BusDown) }
{
    send_next(plant, 0, line, observer)
}

/// `a_bus_that_is_down_is_not_seen`: of a plant whose only bus is down no bus was down.
pub fn bus_that_is_down_is_seen(plant: &Plant) -> bool
    requires one { plant.now.plant.plan.buses ≡ 1 }
    requires down { is_down 0 plant.now.history ≡ true }
    ensures { result ≡ true }
{
    has_down(plant)
}

/// `a_round_with_a_scan_alone_is_the_last`: all was done, and a task was ready.
pub fn no_task_is_left<B: Bus, O: Observer<B>>(
    alloc: Global,
    plant: &mut Plant,
    lines: &mut Vec<B>,
    observer: &mut O,
) -> Result<Result<Order, CallError>, Halt>
    requires workers { 0 < plant.old.plant.workers }
    requires count { vec_len lines.old ≡ plant.old.plant.plan.buses }
    requires open { HasNothingOpen plant.old }
    ensures { IfOk result (λ taken. OnOk taken ⊥) }
{
    settle(alloc, plant, lines, observer)?;
    Ok(plant.take(alloc, 0))
}

/// `a_bus_is_asked_once`: all was done, and a bus that is up had not been heard to its end.
pub fn bus_is_heard_to_its_end<B: Bus, O: Observer<B>>(
    alloc: Global,
    plant: &mut Plant,
    lines: &mut Vec<B>,
    observer: &mut O,
) -> Result<bool, Halt>
    requires known { 0 < plant.old.plant.plan.buses }
    requires workers { 0 < plant.old.plant.workers }
    requires count { vec_len lines.old ≡ plant.old.plant.plan.buses }
    requires open { HasNothingOpen plant.old }
    ensures { IfOk result (λ down. down ≡ false
        → (log_of (logs B.log lines.new) 0).heard_none ≡ true) }
{
    settle(alloc, plant, lines, observer)?;
    Ok(plant.is_down(0))
}

/// An event that was invented: the history had a frame that its bus had not heard.
/// `a_frame_that_was_heard_is_not_noted`: it lacked one that its bus had heard.
pub fn heard_frames_are_in_the_history<B: Bus, O: Observer<B>>(
    alloc: Global,
    plant: &mut Plant,
    lines: &mut Vec<B>,
    observer: &mut O,
    firsts: &Vec<B>,
) -> Result<u64, Halt>
    requires known { 0 < plant.old.plant.plan.buses }
    requires workers { 0 < plant.old.plant.workers }
    requires count { vec_len lines.old ≡ plant.old.plant.plan.buses }
    requires open { HasNothingOpen plant.old }
    requires linked { AreLinked (logs B.log firsts.now) plant.old.history (logs B.log lines.old) }
    requires none { (log_of (logs B.log firsts.now) 0).heard ≡ [] }
    ensures { IfOk result (λ heards. heards ≡ length (log_of (logs B.log lines.new) 0).heard) }
{
    what_is_counted();
    settle(alloc, plant, lines, observer)?;
    Ok(plant.heards(0))
}

/// A mend that changes the log, `a_mend_hears`, `a_mend_takes_the_bus_up`,
/// `a_mend_forgets_the_failures`: to ask whether an interface answers again sent, heard or counted
/// something.
pub fn asking_changes_no_count<B: Bus>(line: &mut B) -> bool
    ensures sent { (B.log line.new).sent ≡ (B.log line.old).sent }
    ensures heard { (B.log line.new).heard ≡ (B.log line.old).heard }
    ensures hears { (B.log line.new).hears ≡ (B.log line.old).hears }
    ensures failures { (B.log line.new).failures ≡ (B.log line.old).failures }
    ensures mends { (B.log line.new).mends ≡ (B.log line.old).mends }
{
    line.mend()
}

/// `nothing_is_heard_first`: a task was scanned, and a frame that had come on bus 0 was not heard
/// yet. `buses_hear_in_reverse`: another bus was heard before it.
pub fn bus_0_is_heard_first<B: Bus, O: Observer<B>>(
    alloc: Global,
    plant: &mut Plant,
    lines: &mut Vec<B>,
    observer: &mut O,
    firsts: &Vec<B>,
) -> Result<(), Halt>
    requires known { 0 < plant.old.plant.plan.buses }
    requires workers { 0 < plant.old.plant.workers }
    requires count { vec_len lines.old ≡ plant.old.plant.plan.buses }
    requires open { HasNothingOpen plant.old }
    requires linked { AreLinked (logs B.log firsts.now) plant.old.history (logs B.log lines.old) }
    requires up { is_down 0 plant.old.history ≡ false }
    requires comes { ¬ HasHeardAll (log_of (logs B.log lines.old) 0) }
    ensures { OnOk result ((e : Event) (later : List Event)
        → plant.new.history ≡ later ++ e ∷ plant.old.history → IsOfHearing 0 e) }
{
    settle(alloc, plant, lines, observer)
}

/// `buses_send_in_reverse`, and a round that begins with bus 1: what was done first was sent on bus
/// 1, and something waited for bus 0.
pub fn bus_0_sends_before_bus_1<B: Bus, O: Observer<B>>(
    alloc: Global,
    plant: &mut Plant,
    lines: &mut Vec<B>,
    observer: &mut O,
) -> Result<(), Halt>
    requires known { 0 < plant.old.plant.plan.buses }
    requires workers { 0 < plant.old.plant.workers }
    requires count { vec_len lines.old ≡ plant.old.plant.plan.buses }
    requires open { HasNothingOpen plant.old }
    requires waits { ¬ HasNoHandout plant.old 0 }
    ensures { OnOk result ((origin : Origin) (sent : FrameList) (later : List Event)
        → ¬ (plant.new.history ≡ later ++ Hand 1 origin sent ∷ plant.old.history)) }
{
    settle(alloc, plant, lines, observer)
}

/// `buses_send_before_the_scans`: what was done first was sent on a bus, and a task was ready.
pub fn ready_task_is_scanned_first<B: Bus, O: Observer<B>>(
    alloc: Global,
    plant: &mut Plant,
    lines: &mut Vec<B>,
    observer: &mut O,
) -> Result<(), Halt>
    requires workers { 0 < plant.old.plant.workers }
    requires count { vec_len lines.old ≡ plant.old.plant.plan.buses }
    requires open { HasNothingOpen plant.old }
    requires ready { ¬ HasNoScan plant.old }
    ensures { OnOk result ((b : ℕ) (origin : Origin) (sent : FrameList) (later : List Event)
        → ¬ (plant.new.history ≡ later ++ Hand b origin sent ∷ plant.old.history)) }
{
    settle(alloc, plant, lines, observer)
}

/// `one_scan_a_round`: after a scan a bus sent, and another task was ready.
pub fn all_ready_tasks_are_scanned<B: Bus, O: Observer<B>>(
    alloc: Global,
    plant: &mut Plant,
    lines: &mut Vec<B>,
    observer: &mut O,
) -> Result<(), Halt>
    requires workers { 0 < plant.old.plant.workers }
    requires count { vec_len lines.old ≡ plant.old.plant.plan.buses }
    requires open { HasNothingOpen plant.old }
    ensures { OnOk result ((w number b : ℕ) (made : Scan) (origin : Origin) (sent : FrameList)
        (later earlier : List Event) → plant.new.history
        ≡ later ++ Hand b origin sent ∷ Commit w number made ∷ (earlier ++ plant.old.history)
        → HasNoScan (with_events plant.old (Commit w number made ∷ earlier))) }
{
    settle(alloc, plant, lines, observer)
}

/// `a_bus_sends_one_a_round`: after a transaction of bus 0 bus 1 sent, and more waited for bus 0.
pub fn bus_sends_all_that_waits<B: Bus, O: Observer<B>>(
    alloc: Global,
    plant: &mut Plant,
    lines: &mut Vec<B>,
    observer: &mut O,
) -> Result<(), Halt>
    requires known { 0 < plant.old.plant.plan.buses }
    requires workers { 0 < plant.old.plant.workers }
    requires count { vec_len lines.old ≡ plant.old.plant.plan.buses }
    requires open { HasNothingOpen plant.old }
    ensures { OnOk result ((number : ℕ) (report : ReportParts) (origin : Origin) (sent : FrameList)
        (later earlier : List Event) → plant.new.history
        ≡ later ++ Hand 1 origin sent ∷ Done 0 number report ∷ (earlier ++ plant.old.history)
        → HasNoHandout (with_events plant.old (Done 0 number report ∷ earlier)) 0) }
{
    settle(alloc, plant, lines, observer)
}
