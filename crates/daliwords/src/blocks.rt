//! The blocks that make requests, and their names.
ghost use Rattle.std.specs.Prelude.{◌≡◌, MatchOption, option_map};
ghost use Rattle.std.specs.List.{find};
ghost use Rattle.daliwords.specs.Written.{block_of, block_name, is_named, IsNamed};
ghost use Rattle.daliwords.specs.declared.blocks.Block.{Block as Named};

use gearcmd::Command;
use std::fmt;

/// A block that makes requests.
#[derive(Clone, Copy, Debug, PartialEq, Eq)]
pub enum Block {
    GearLevel,
    GearDo,
    GearSet,
    GearPair,
    GearAsk,
    GearRead,
    DevDo,
    DevScheme,
    DevAsk,
}

/// The blocks, in the order of the language's table.
const ALL: &[Block] = &[
    Block::GearLevel,
    Block::GearDo,
    Block::GearSet,
    Block::GearPair,
    Block::GearAsk,
    Block::GearRead,
    Block::DevDo,
    Block::DevScheme,
    Block::DevAsk,
];

impl Block {
    /// The block that asks for this command.
    pub fn of(command: &Command) -> Self
        ensures { result ≡ block_of command.now }
    {
        match command {
            Command::GearLevel { .. } => Block::GearLevel,
            Command::GearDo { .. } => Block::GearDo,
            Command::GearSet { .. } => Block::GearSet,
            Command::GearPair { .. } => Block::GearPair,
            Command::GearAsk { .. } => Block::GearAsk,
            Command::GearRead { .. } => Block::GearRead,
            Command::DevDo { .. } => Block::DevDo,
            Command::DevScheme { .. } => Block::DevScheme,
            Command::DevAsk { .. } => Block::DevAsk,
        }
    }

    /// The block's name in a text.
    pub fn name(self) -> &'static str
        ensures { result.now ≡ block_name self }
    {
        match self {
            Block::GearLevel => "GEAR_LEVEL",
            Block::GearDo => "GEAR_DO",
            Block::GearSet => "GEAR_SET",
            Block::GearPair => "GEAR_PAIR",
            Block::GearAsk => "GEAR_ASK",
            Block::GearRead => "GEAR_READ",
            Block::DevDo => "DEV_DO",
            Block::DevScheme => "DEV_SCHEME",
            Block::DevAsk => "DEV_ASK",
        }
    }

    /// Whether this is the block's name, in any letter case.
    fn is_named(self, name: &str) -> bool
        ensures { result ≡ is_named name.now self }
    {
        self.name().eq_ignore_ascii_case(name)
    }

    /// The block of this name, in any letter case.
    pub fn of_name(name: &str) -> Option<Self>
        ensures { MatchOption result ((block : Named) → ¬ IsNamed block name.now)
            (λ block. IsNamed block name.now) }
    {
        first_named(name).copied()
    }
}

/// The first block of this name.
fn first_named(name: &str) -> Option<&'static Block>
    ensures { option_map (λ block. block.now) result ≡ find (is_named name.now) ALL.now }
{
    ALL.iter().find(|block| block.is_named(name))
}

/// The block's name.
impl fmt::Display for Block {
    ghost use Rattle.std.specs.Prelude.{Some};

    ghost output = { λ block. Some (block_name block) };

    fn fmt<W: fmt::Write>(&self, f: &mut fmt::Formatter<W>) -> fmt::Result {
        f.write_str(self.name())
    }
}
