//! The files of a scenario that is played or run: they are read, and judged.

ghost use Rattle.std.specs.Prelude.{IfErr, IfOk};
ghost use Rattle.wordlines.specs.Scenarios.{IsJudged};
ghost use Rattle.commandfiles.specs.Beginnings.{HasBegun};
ghost use Rattle.commandplays.specs.Plays.{AreGiven, IsSetupOf, IsTextStop, IsUnplayed};

use commandfiles::{Beginning, Disk, ReadFiles, Unserved, beginning_of, bytes_at, named_at};
use commandoptions::PlayFiles;
use simbus::{Scenario, ScenarioFault, parse};
use std::alloc::Global;
use std::marker::Model;
use textanswers::Stop;

/// What the files of a scenario hold that is played or run.
#[derive(Drop)]
pub(crate) struct Pages {
    pub binding: Vec<u8>,
    pub text: Vec<u8>,
    pub scenario: Vec<u8>,
    /// The file of kept values, where one is named.
    pub kept: Option<Vec<u8>>,
}

impl Model for Pages {
    ghost use Rattle.std.specs.Prelude.{option_map};
    ghost use Rattle.commandplays.specs.Plays.{PlayBytes};

    ghost Value = { PlayBytes };

    ghost view = { λ pages. record {
      binding = pages.binding.items;
      text = pages.text.items;
      scenario = pages.scenario.items;
      file = option_map (λ bytes. bytes.items) pages.kept;
    } };
}

impl Pages {
    /// What was read of the files at these paths.
    pub(crate) fn read_from<'a>(&'a self, files: PlayFiles<'a>) -> ReadFiles<'a> {
        ReadFiles::of_play(files, &self.binding, &self.text, &self.scenario)
    }
}

/// Reads the files that are named, the binding before the text, that before the scenario, and that
/// before the kept values.
///
/// # Errors
///
/// The first file that is not read.
pub(crate) fn read_pages<'a, D: Disk>(
    alloc: Global,
    disk: &D,
    files: PlayFiles<'a>,
) -> Result<Pages, Unserved<'a>>
    ensures given { IfOk result (AreGiven (D.gives disk.now) files.entry) }
    ensures unread { IfErr result (IsUnplayed (D.gives disk.now) (D.fails disk.now) files.entry) }
{
    Ok(Pages {
        binding: bytes_at(alloc, disk, files.binding)?,
        text: bytes_at(alloc, disk, files.text)?,
        scenario: bytes_at(alloc, disk, files.scenario)?,
        kept: named_at(alloc, disk, files.keep)?,
    })
}

/// The setup of the text under the binding, whose variables begin with the values of the file of
/// kept ones, where one is named that can be used.
///
/// # Errors
///
/// The binding's fault, else what stands against the text.
pub(crate) fn beginning_in(alloc: Global, pages: &Pages) -> Result<Beginning, Stop>
    ensures setup { IfOk result (λ begun. IsSetupOf pages.now begun.setup) }
    ensures stop { IfErr result (IsTextStop pages.now) }
{
    let begun = begun_in(alloc, pages)?;
    Ok(begun)
}

/// What a scenario begins with, by its files.
///
/// # Errors
///
/// Those of [`beginning_in`].
fn begun_in(alloc: Global, pages: &Pages) -> Result<Beginning, Stop>
    ensures begun { IfOk result (HasBegun pages.now.binding pages.now.text pages.now.file) }
    ensures stop { IfErr result (IsTextStop pages.now) }
{
    beginning_of(alloc, &pages.binding, &pages.text, pages.kept.as_ref())
}

/// The scenario that bytes spell.
///
/// # Errors
///
/// The first bad line, that there are too many bytes, or, where a statement is to be kept, that the
/// allocator is out of memory.
pub(crate) fn scenario_of(alloc: Global, bytes: &[u8]) -> Result<Scenario, ScenarioFault>
    ensures { IsJudged bytes.now result }
{
    parse(alloc, bytes)
}
