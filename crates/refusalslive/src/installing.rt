//! What an installer's tools ask a bus, and how that ends.

ghost use Rattle.std.specs.Prelude.{◌≡◌, [], All, IfErr, IfOk, Ok, length};
ghost use Rattle.std.specs.Prelude.{replicate};

use buslink::{Bus, Mark, Outcome, Reply, Report};
use commissioning::{
    AskFault, Served, Shown, Survey, Table, ask, ask_unaddressed, blink, make_survey, serve_ask,
};
use daliframe::{Address, Frame, ShortAddress};
use gearcmd::Command;
use std::alloc::Global;
use std::io;
use std::io::Write;
use std::time::Clock as Timer;

/// `sent_as_a_cyclic_task_does`: a level that a person sends had the priority of a cyclic task.
pub fn level_of_a_person_has_priority_2<B: Bus>(
    bus: &mut B,
    address: ShortAddress,
    level: u8,
) -> Result<Report, AskFault>
    ensures { IfOk result (λ report. report.transaction.first_priority ≡ 2) }
{
    let address = Address::Short(address);
    ask(bus, Command::GearLevel { address, level })
}

/// `a_failure_is_served_as_done`: a request at which the interface failed was reported as done.
pub fn request_that_is_done_has_not_failed<B: Bus, W: Write>(
    bus: &mut B,
    command: Command,
    to: &mut W,
) -> io::Result<Served>
    requires { (B.log bus.old).failures ≡ 0 }
    ensures { result ≡ Ok Served.Done → (B.log bus.new).failures ≡ 0 }
{
    serve_ask(bus, command, to)
}

/// `the_query_to_all_tried_once`, `a_level_in_place_of_the_query_to_all`: the query to all was
/// given up after one loss, or another frame was sent.
pub fn lost_query_to_all_is_sent_three_times<B: Bus>(bus: &mut B) -> Result<Outcome, AskFault>
    requires { (B.log bus.old).sent ≡ [] }
    ensures { IfOk result (λ outcome. outcome ≡ Outcome.GaveUp → (B.log bus.new).sent
        ≡ replicate 3
        (record { frame = Frame.Forward16 0xFF96; priority = 5; mark = Mark.Lost })) }
{
    ask_unaddressed(bus)
}

/// `gear_of_63_addresses_asked`, `an_instance_that_is_silent_is_skipped`: of a bus where nothing
/// answers the last address was left out, or a device was asked for its second instance too.
pub fn silent_bus_is_asked_128_questions<B: Bus, W: Write, P: Write>(
    alloc: Global,
    bus: &mut B,
    table: &mut Table<W>,
    progress: &mut P,
) -> Result<Survey, AskFault>
    ensures { IfOk result (λ survey.
        All (λ a. a.outcome ≡ Outcome.Done Reply.Quiet) survey → length survey ≡ 128) }
{
    make_survey(alloc, bus, table, progress)
}

/// `a_stray_command_where_a_survey_fails`: behind the question at which the interface failed
/// another command was sent, at which it could fail again.
pub fn survey_fails_once<B: Bus, W: Write, P: Write>(
    alloc: Global,
    bus: &mut B,
    table: &mut Table<W>,
    progress: &mut P,
) -> Result<Survey, AskFault>
    requires { (B.log bus.old).failures ≡ 0 }
    ensures { IfErr result
        (λ fault. fault ≡ AskFault.Failed → (B.log bus.new).failures ≡ 1) }
{
    make_survey(alloc, bus, table, progress)
}

/// `a_stray_command_where_a_blink_fails`: behind the command at which the interface failed another
/// one was sent, at which it could fail again.
pub fn blink_fails_once<B: Bus, R: Timer>(
    bus: &mut B,
    address: ShortAddress,
    timer: &R,
) -> Result<Shown, AskFault>
    requires { (B.log bus.old).failures ≡ 0 }
    ensures { IfErr result
        (λ fault. fault ≡ AskFault.Failed → (B.log bus.new).failures ≡ 1) }
{
    blink(bus, address, timer)
}
