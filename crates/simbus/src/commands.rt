//! What an opcode commands control gear (IEC 62386-102, clause 11).
ghost use Rattle.std.specs.Prelude.{◌≡◌, ◌/◌, ◌%◌, ◌<◌};
ghost use Rattle.simbus.specs.Commands.{command_of, command_at, action_at, setting_at, query_at};
ghost use Rattle.simbus.specs.Commands.{level_query_at, group_query_at};

use std::marker::Model;

/// The number of a scene or of a group, 0 to 15.
#[derive(Clone, Copy)]
pub(crate) struct SceneOrGroup {
    number: u8,
}

impl Model for SceneOrGroup {
    ghost use Rattle.std.specs.Prelude.{ℕ, ◌<◌};

    ghost Value = { ℕ };

    ghost view = { λ n. n.number };

    ghost invariant = { λ n. n.number < 16 };

    ghost inverse = { λ n. record { number = n } };
}

impl SceneOrGroup {
    /// The number as an index.
    pub(crate) fn index(self) -> usize
        ensures value { result ≡ self }
        ensures range { self < 16 }
    {
        usize::from(self.number)
    }
}

/// A command that acts when it is sent once.
#[derive(Clone, Copy)]
pub(crate) enum GearAction {
    Off,
    StepUp,
    StepDown,
    RecallMaxLevel,
    RecallMinLevel,
    StepDownAndOff,
    OnAndStepUp,
    GoToLastActiveLevel,
    GoToScene(SceneOrGroup),
}

/// A command that acts when it is sent twice.
#[derive(Clone, Copy)]
pub(crate) enum Setting {
    Reset,
    StoreActualLevelInDtr0,
    SetScene(SceneOrGroup),
    RemoveFromScene(SceneOrGroup),
    AddToGroup(SceneOrGroup),
    RemoveFromGroup(SceneOrGroup),
}

/// A command that asks for an answer.
#[derive(Clone, Copy)]
pub(crate) enum Query {
    Status,
    ControlGearPresent,
    LampFailure,
    LampPowerOn,
    ContentDtr0,
    ContentDtr1,
    ActualLevel,
    MaxLevel,
    MinLevel,
    SceneLevel(SceneOrGroup),
    Groups0To7,
    Groups8To15,
    /// READ MEMORY LOCATION.
    Memory,
}

/// What an opcode commands.
#[derive(Clone, Copy)]
pub(crate) enum GearCommand {
    Act(GearAction),
    Set(Setting),
    Ask(Query),
    /// No simulated gear does anything with it.
    Nothing,
}

impl GearCommand {
    /// What an opcode commands.
    #[tactic(auto, unfolding(crate::specs::Commands::command_at))]
    pub(crate) fn of(opcode: u8) -> Self
        ensures { result ≡ command_of opcode }
    {
        let number = opcode % 16;
        let scene_or_group = SceneOrGroup { number };
        match opcode / 16 {
            0x0 => action_of(number),
            0x1 => GearCommand::Act(GearAction::GoToScene(scene_or_group)),
            0x2 => setting_of(number),
            0x4 => GearCommand::Set(Setting::SetScene(scene_or_group)),
            0x5 => GearCommand::Set(Setting::RemoveFromScene(scene_or_group)),
            0x6 => GearCommand::Set(Setting::AddToGroup(scene_or_group)),
            0x7 => GearCommand::Set(Setting::RemoveFromGroup(scene_or_group)),
            0x9 => query_of(number),
            0xA => level_query(number),
            0xB => GearCommand::Ask(Query::SceneLevel(scene_or_group)),
            0xC => group_query(number),
            _ => GearCommand::Nothing,
        }
    }
}

/// The opcodes 00 to 0F.
#[tactic(auto, unfolding(crate::specs::Commands::action_at))]
fn action_of(number: u8) -> GearCommand
    ensures { result ≡ action_at number }
{
    GearCommand::Act(match number {
        0x0 => GearAction::Off,
        0x3 => GearAction::StepUp,
        0x4 => GearAction::StepDown,
        0x5 => GearAction::RecallMaxLevel,
        0x6 => GearAction::RecallMinLevel,
        0x7 => GearAction::StepDownAndOff,
        0x8 => GearAction::OnAndStepUp,
        0xA => GearAction::GoToLastActiveLevel,
        _ => return GearCommand::Nothing,
    })
}

/// The opcodes 20 to 2F.
#[tactic(auto, unfolding(crate::specs::Commands::setting_at))]
fn setting_of(number: u8) -> GearCommand
    ensures { result ≡ setting_at number }
{
    match number {
        0x0 => GearCommand::Set(Setting::Reset),
        0x1 => GearCommand::Set(Setting::StoreActualLevelInDtr0),
        _ => GearCommand::Nothing,
    }
}

/// The opcodes 90 to 9F.
#[tactic(auto, unfolding(crate::specs::Commands::query_at))]
fn query_of(number: u8) -> GearCommand
    ensures { result ≡ query_at number }
{
    GearCommand::Ask(match number {
        0x0 => Query::Status,
        0x1 => Query::ControlGearPresent,
        0x2 => Query::LampFailure,
        0x3 => Query::LampPowerOn,
        0x8 => Query::ContentDtr0,
        0xC => Query::ContentDtr1,
        _ => return GearCommand::Nothing,
    })
}

/// The opcodes A0 to AF.
#[tactic(auto, unfolding(crate::specs::Commands::level_query_at))]
fn level_query(number: u8) -> GearCommand
    ensures { result ≡ level_query_at number }
{
    match number {
        0x0 => GearCommand::Ask(Query::ActualLevel),
        0x1 => GearCommand::Ask(Query::MaxLevel),
        0x2 => GearCommand::Ask(Query::MinLevel),
        _ => GearCommand::Nothing,
    }
}

/// The opcodes C0 to CF.
#[tactic(auto, unfolding(crate::specs::Commands::group_query_at))]
fn group_query(number: u8) -> GearCommand
    ensures { result ≡ group_query_at number }
{
    match number {
        0x0 => GearCommand::Ask(Query::Groups0To7),
        0x1 => GearCommand::Ask(Query::Groups8To15),
        0x5 => GearCommand::Ask(Query::Memory),
        _ => GearCommand::Nothing,
    }
}
