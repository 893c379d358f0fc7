//! Playing a scenario.

ghost use Rattle.std.specs.Prelude.{◌≡◌, [], IfErr, MatchResult, OnOk, map, nat_lt};
ghost use Rattle.wordlines.specs.Happenings.{happenings};
ghost use Rattle.plantevents.specs.Legal.{AreLegal};
ghost use Rattle.plantdriving.specs.Driven.{CannotGoOn, IsDriven};
ghost use Rattle.plantdriving.specs.Tellings.{HasToldAll, HasToldSome, TellsEach};
ghost use Rattle.plantplay.specs.Installations.{sim_log, stage_of};
ghost use Rattle.plantplay.specs.Stage.{Happens, HasSettled, IsPlayedAsFar, IsPlayedSomeFar};
ghost use Rattle.plantplay.specs.Stage.{IsPlayedTo, arriving};
ghost use Rattle.plantplay.specs.PlaySteps.{IsHalted, IsHaltedAt};

use crate::ending::{Ending, write_end};
use crate::installation::Installation;
use crate::lines::{FrameStyle, Lines};
use daliframe::BusNumber;
use plantdriving::{Halt, Observer};
use simbus::{Scenario, SimBus};
use std::alloc::Global;
use std::io;
use std::io::Write;
use wordlines::Happening;

/// Plays a scenario: its ticks and events in order, each with what follows from it, and writes a
/// line for each event of the history, with its frames in this style, then `limit` where the
/// history was full before the scenario's end, and what is left at the end; or `no memory` as the
/// last line where the allocator was out of memory.
///
/// # Errors
///
/// The writer's.
pub fn play<W: Write>(
    alloc: Global,
    out: &mut W,
    style: FrameStyle,
    installation: &mut Installation<SimBus>,
    scenario: &Scenario,
) -> io::Result<Ending>
    ensures played { MatchResult result
        (λ ending. IsPlayedTo ending (happenings scenario.now) (stage_of installation.old)
        (stage_of installation.new))
        (λ error. IsPlayedSomeFar (happenings scenario.now) (stage_of installation.old)
        (stage_of installation.new)) }
    ensures legal { AreLegal installation.new.plant.plant installation.new.plant.history }
{
    play_watched(alloc, out, style, &[], installation, scenario)
}

/// Plays a scenario as [`play`] does. Behind the line of each commit it writes one for each
/// variable of these names that has another value than was told last.
///
/// # Errors
///
/// The writer's, or that the values of variables have no memory.
pub fn play_watched<W: Write>(
    alloc: Global,
    out: &mut W,
    style: FrameStyle,
    watched: &[&str],
    installation: &mut Installation<SimBus>,
    scenario: &Scenario,
) -> io::Result<Ending>
    ensures played { MatchResult result
        (λ ending. IsPlayedTo ending (happenings scenario.now) (stage_of installation.old)
        (stage_of installation.new))
        (λ error. IsPlayedSomeFar (happenings scenario.now) (stage_of installation.old)
        (stage_of installation.new)) }
    ensures legal { AreLegal installation.new.plant.plant installation.new.plant.history }
{
    let played = play_lines(alloc, out, style, watched, installation, scenario);
    let _legal = installation.plant().len();
    let ending = played?;
    write_ending(out, ending, installation)?;
    Ok(ending)
}

/// Plays a scenario, and writes a line for each event of the history.
fn play_lines<W: Write>(
    alloc: Global,
    out: &mut W,
    style: FrameStyle,
    watched: &[&str],
    installation: &mut Installation<SimBus>,
    scenario: &Scenario,
) -> io::Result<Ending>
    ensures { MatchResult result
        (λ ending. IsPlayedTo ending (happenings scenario.now) (stage_of installation.old)
        (stage_of installation.new))
        (λ error. IsPlayedSomeFar (happenings scenario.now) (stage_of installation.old)
        (stage_of installation.new)) }
{
    match Lines::new(alloc, out, style, installation.plant(), watched) {
        Ok(mut lines) => play_on(alloc, installation, scenario, &mut lines),
        Err(_) => Ok(Ending::NoMemory),
    }
}

/// Writes how a play ended, and what is left then.
fn write_ending<W: Write>(
    out: &mut W,
    ending: Ending,
    installation: &Installation<SimBus>,
) -> io::Result<()> {
    match ending {
        Ending::Whole => {}
        Ending::Limit => writeln!(out, "limit")?,
        Ending::NoMemory => return writeln!(out, "no memory"),
    }
    write_end(out, installation.plant())
}

/// Plays a scenario: its ticks and events in order, each with what follows from it. An observer is
/// told each event of the history once, in order, with its place.
///
/// # Errors
///
/// The observer's: it was told a first part of the events.
pub fn play_on<O: Observer<SimBus>>(
    alloc: Global,
    installation: &mut Installation<SimBus>,
    scenario: &Scenario,
    observer: &mut O,
) -> io::Result<Ending>
    ensures played { MatchResult result
        (λ ending. IsPlayedTo ending (happenings scenario.now) (stage_of installation.old)
        (stage_of installation.new))
        (λ error. IsPlayedSomeFar (happenings scenario.now) (stage_of installation.old)
        (stage_of installation.new)) }
    ensures legal { AreLegal installation.new.plant.plant installation.new.plant.history }
    ensures told { MatchResult result
        (λ ending. HasToldAll installation.old.plant.history installation.new.plant.history
        (O.told observer.old) (O.told observer.new))
        (λ error. HasToldSome installation.old.plant.history installation.new.plant.history
        (O.told observer.old) (O.told observer.new)) }
{
    let played = installation.follow(alloc, scenario, observer);
    let _legal = installation.plant().len();
    match played {
        Ok(()) => Ok(Ending::Whole),
        Err(Halt::Refused(_)) => Ok(Ending::Limit),
        Err(Halt::Memory) => Ok(Ending::NoMemory),
        Err(Halt::Unwritten(error)) => Err(error),
    }
}

impl Installation<SimBus> {
    /// Plays what happens by a scenario, in the order of its lines.
    fn follow<O: Observer<SimBus>>(
        &mut self,
        alloc: Global,
        scenario: &Scenario,
        observer: &mut O,
    ) -> Result<(), Halt>
        ensures played { MatchResult result
            (λ done. IsPlayedAsFar (happenings scenario.now) [] (stage_of self.old) (stage_of self.new))
            (IsHalted (happenings scenario.now) (stage_of self.old) (stage_of self.new)) }
        ensures told { TellsEach self.old.plant self.new.plant (O.told observer.old)
            (O.told observer.new) result }
    {
        let mut happenings = scenario.happenings();
        for _ in scenario.lines() {
            match happenings.next() {
                Some(happening) => self.happen(alloc, happening, observer)?,
                None => return Ok(()),
            }
        }
        Ok(())
    }

    /// Plays what happens by one line, with all that follows from it. A line of a bus that is not
    /// there does nothing; a fault of hearing is met by the next call that hears.
    fn happen<O: Observer<SimBus>>(
        &mut self,
        alloc: Global,
        happening: Happening,
        observer: &mut O,
    ) -> Result<(), Halt>
        ensures happens { MatchResult result
            (λ done. Happens happening (stage_of self.old) (stage_of self.new))
            (IsHaltedAt happening (stage_of self.old) (stage_of self.new)) }
        ensures told { TellsEach self.old.plant self.new.plant (O.told observer.old)
            (O.told observer.new) result }
    {
        match happening {
            Happening::Tick { moment } => {
                self.plant.tick(moment, observer)?;
                self.settle(alloc, observer)
            }
            Happening::Event { bus, .. } => {
                if self.arrive(bus) {
                    self.settle(alloc, observer)
                } else {
                    Ok(())
                }
            }
            Happening::HearFault { bus } => {
                let _ = self.arrive(bus);
                Ok(())
            }
        }
    }

    /// Hears, scans and sends until nothing is left to do.
    fn settle<O: Observer<SimBus>>(&mut self, alloc: Global, observer: &mut O) -> Result<(), Halt>
        ensures driven { IsDriven self.old.plant self.new.plant (map sim_log self.old.lines.items)
            (map sim_log self.new.lines.items) }
        ensures settled { OnOk result (HasSettled (stage_of self.old) (stage_of self.new)) }
        ensures stops { IfErr result (CannotGoOn self.new.plant) }
        ensures told { TellsEach self.old.plant self.new.plant (O.told observer.old)
            (O.told observer.new) result }
    {
        self.plant.settle(alloc, &mut self.lines, observer)
    }

    /// What comes next on a bus comes now. Whether there is such a bus.
    fn arrive(&mut self, bus: BusNumber) -> bool
        ensures after { stage_of self.new ≡ arriving bus (stage_of self.old) }
        ensures there { result ≡ nat_lt bus self.old.plant.plant.plan.buses }
    {
        match self.lines.get_mut(usize::from(bus.number())) {
            Some(line) => {
                let _ = line.arrive();
                true
            }
            None => false,
        }
    }
}
