//! Simulated control gear.
ghost use Rattle.std.specs.Prelude.{◌≡◌};
ghost use Rattle.simbus.specs.Gears.{start_variables, at_level, to_level, after_action, with_scene};
ghost use Rattle.simbus.specs.Gears.{with_member, after_setting, is_addressed, after_command};
ghost use Rattle.simbus.specs.Gears.{after_fields};

use crate::commands::{GearAction, GearCommand, SceneOrGroup, Setting};
use daliframe::{Address, Fields16, ShortAddress};
use wordlines::GearStart;

/// The least level of simulated gear but for 0, which is off.
pub(crate) const MIN_LEVEL: u8 = 1;
/// The greatest level.
pub(crate) const MAX_LEVEL: u8 = 254;
/// No level: in a command to keep the one there is, in a scene that there is none.
const MASK: u8 = 255;

/// Simulated control gear, as a scenario declares it.
#[derive(Clone, Copy)]
pub struct Gear {
    pub address: ShortAddress,
    pub lamp_failure: bool,
    pub start: GearStart,
}

/// A byte of a memory bank of simulated control gear.
#[derive(Clone, Copy)]
pub struct MemoryByte {
    /// The gear.
    pub address: ShortAddress,
    pub bank: u8,
    pub offset: u8,
    pub value: u8,
}

/// The variables of control gear (IEC 62386-102, clause 10).
#[derive(Clone, Copy)]
pub struct GearVariables {
    /// The actual level: 0 off, else 1 to 254.
    pub level: u8,
    /// The last level that was not 0.
    pub last_active: u8,
    /// The level of each scene: 0 off, 1 to 254, 255 no level.
    pub scenes: [u8; 16],
    /// Whether the gear is a member of each group.
    pub groups: [bool; 16],
    pub dtr0: u8,
    pub dtr1: u8,
}

impl GearVariables {
    /// The variables of gear that no frame reached, which begins so.
    pub(crate) fn new(start: &GearStart) -> Self
        ensures { result ≡ start_variables start.now }
    {
        let level = start.level;
        GearVariables {
            level,
            last_active: if level == 0 { MAX_LEVEL } else { level },
            scenes: start.scenes,
            groups: start.groups,
            dtr0: 0,
            dtr1: 0,
        }
    }

    fn at_level(self, level: u8) -> Self
        ensures { result ≡ at_level level self }
    {
        let last_active = if level == 0 { self.last_active } else { level };
        GearVariables {
            level,
            last_active,
            ..self
        }
    }

    /// At this level, where it is one.
    fn to_level(self, level: u8) -> Self
        ensures { result ≡ to_level level self }
    {
        match level {
            MASK => self,
            0 => self.at_level(0),
            _ => self.at_level(level.clamp(MIN_LEVEL, MAX_LEVEL)),
        }
    }

    fn after_action(self, action: GearAction) -> Self
        ensures { result ≡ after_action action self }
    {
        match action {
            GearAction::Off => self.at_level(0),
            GearAction::StepUp if self.level == 0 => self,
            GearAction::OnAndStepUp if self.level == 0 => self.at_level(MIN_LEVEL),
            GearAction::StepUp | GearAction::OnAndStepUp => {
                self.at_level(self.level.saturating_add(1).min(MAX_LEVEL))
            }
            GearAction::StepDown if self.level == 0 => self,
            GearAction::StepDown => self.at_level((self.level - 1).max(MIN_LEVEL)),
            GearAction::StepDownAndOff => self.at_level(self.level.saturating_sub(1)),
            GearAction::RecallMaxLevel => self.at_level(MAX_LEVEL),
            GearAction::RecallMinLevel => self.at_level(MIN_LEVEL),
            GearAction::GoToLastActiveLevel => self.at_level(self.last_active),
            GearAction::GoToScene(scene) => self.to_level(self.scenes[scene.index()]),
        }
    }

    fn after_setting(self, setting: Setting) -> Self
        ensures { result ≡ after_setting setting self }
    {
        match setting {
            Setting::Reset => GearVariables {
                level: MAX_LEVEL,
                last_active: MAX_LEVEL,
                scenes: [MASK; 16],
                groups: [false; 16],
                ..self
            },
            Setting::StoreActualLevelInDtr0 => GearVariables {
                dtr0: self.level,
                ..self
            },
            Setting::SetScene(scene) => self.with_scene(scene, self.dtr0),
            Setting::RemoveFromScene(scene) => self.with_scene(scene, MASK),
            Setting::AddToGroup(group) => self.with_member(group, true),
            Setting::RemoveFromGroup(group) => self.with_member(group, false),
        }
    }

    fn with_scene(mut self, scene: SceneOrGroup, level: u8) -> Self
        ensures { result ≡ with_scene scene level self }
    {
        self.scenes[scene.index()] = level;
        self
    }

    fn with_member(mut self, group: SceneOrGroup, is_member: bool) -> Self
        ensures { result ≡ with_member group is_member self }
    {
        self.groups[group.index()] = is_member;
        self
    }

    fn after_command(self, command: GearCommand, is_pair: bool) -> Self
        ensures { result ≡ after_command is_pair command self }
    {
        match command {
            GearCommand::Act(action) => self.after_action(action),
            GearCommand::Set(setting) if is_pair => self.after_setting(setting),
            GearCommand::Set(_) | GearCommand::Ask(_) | GearCommand::Nothing => self,
        }
    }

    /// Whether the address is that of gear with this short address and these variables.
    pub(crate) fn is_addressed(&self, own: ShortAddress, address: Address) -> bool
        ensures { result ≡ is_addressed address own self.now }
    {
        match address {
            Address::Short(short) => short == own,
            Address::Group(group) => self.groups[usize::from(group.number())],
            Address::Broadcast => true,
        }
    }

    /// The variables of gear with this short address after a frame that says this, as the second of
    /// a pair or not.
    pub(crate) fn after_fields(self, own: ShortAddress, fields: &Fields16, is_pair: bool) -> Self
        ensures { result ≡ after_fields is_pair own fields.now self }
    {
        match fields {
            Fields16::Level { address, level } if self.is_addressed(own, *address) => {
                self.to_level(*level)
            }
            Fields16::Command { address, opcode } if self.is_addressed(own, *address) => {
                self.after_command(GearCommand::of(*opcode), is_pair)
            }
            Fields16::Dtr0 { value } => GearVariables {
                dtr0: *value,
                ..self
            },
            Fields16::Dtr1 { value } => GearVariables {
                dtr1: *value,
                ..self
            },
            Fields16::Level { .. } | Fields16::Command { .. } | Fields16::Other => self,
        }
    }
}
