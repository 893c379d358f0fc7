//! How a bus differs from what a text declares there.

use std::fmt;

/// What a text and its binding declare, or what is there.
#[derive(Clone, Copy)]
pub enum Member {
    /// The gear of a short address.
    Gear(u8),
    /// The device of a short address.
    Device(u8),
    /// An instance of a device.
    Instance { device: u8, instance: u8 },
}

impl fmt::Display for Member {
    ghost use Rattle.std.specs.Prelude.{Some};
    ghost use Rattle.commissioning.specs.Differences.{member_words};

    ghost output = { λ m. Some (member_words m) };

    fn fmt<W: fmt::Write>(&self, f: &mut fmt::Formatter<W>) -> fmt::Result {
        match self {
            Member::Gear(gear) => write!(f, "gear {gear}"),
            Member::Device(device) => write!(f, "device {device}"),
            Member::Instance { device, instance } => {
                write!(f, "device {device} instance {instance}")
            }
        }
    }
}

/// The level of gear, and the one that the text first sends.
#[derive(Clone, Copy)]
pub struct Levels {
    pub level: u8,
    pub first: u8,
}

impl fmt::Display for Levels {
    ghost use Rattle.std.specs.Prelude.{Some};
    ghost use Rattle.commissioning.specs.Differences.{level_words};

    ghost output = { λ l. Some (level_words l) };

    #[tactic(auto, unfolding(crate::specs::Differences::level_words))]
    fn fmt<W: fmt::Write>(&self, f: &mut fmt::Formatter<W>) -> fmt::Result {
        let Levels { level, first } = self;
        write!(f, "level {level}, and the text first sends {first}")
    }
}

/// A difference between what is there and what is declared.
#[derive(Clone, Copy)]
pub enum Difference {
    /// It is declared, and nothing answers there.
    Silent(Member),
    /// It is there, and nothing declares it.
    Undeclared(Member),
    /// The text has a level of this group, and no gear is in it.
    Empty(u8),
    /// Gear is at another level than the text first sends.
    OtherLevel { gear: u8, levels: Levels },
}

impl fmt::Display for Difference {
    ghost use Rattle.std.specs.Prelude.{Some};
    ghost use Rattle.commissioning.specs.Differences.{difference_words};

    ghost output = { λ d. Some (difference_words d) };

    fn fmt<W: fmt::Write>(&self, f: &mut fmt::Formatter<W>) -> fmt::Result {
        match self {
            Difference::Silent(member) => write!(f, "{member} is declared and silent"),
            Difference::Undeclared(member) => write!(f, "{member} is there and not declared"),
            Difference::Empty(group) => write!(f, "group {group} is declared and empty"),
            Difference::OtherLevel { gear, levels } => write!(f, "gear {gear} is at {levels}"),
        }
    }
}
