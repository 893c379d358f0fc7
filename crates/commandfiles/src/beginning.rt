//! What a building begins with.

ghost use Rattle.std.specs.Prelude.{◌≡◌, ℕ, List, Some, None, IfErr, IfOk, option_map};
ghost use Rattle.commandfiles.specs.Beginnings.{AreUsed, IsBegunUnder, IsKeepRead, IsKeepUnread};
ghost use Rattle.commandfiles.specs.Beginnings.{IsNotedUnder, IsNotedUsed, IsSetupUnder};
ghost use Rattle.commandfiles.specs.Beginnings.{IsStopUnder};

use crate::reading::{Disk, DiskFault};
use crate::serving::Unserved;
use ilcompile::Setup;
use jiff::Timestamp;
use livekeep::{Kept, KeptAt, KeptFault, LeftOut};
use std::alloc::{AllocError, Global};
use std::fmt;
use textanswers::{Stop, begin_kept, binding_of, check};

/// The setup that a building begins with.
#[derive(Drop)]
pub struct Beginning {
    pub setup: Setup,
    /// The values with which variables and block instances begin, where a file of them is used.
    pub kept: Option<Kept>,
    pub note: KeptNote,
}

impl Beginning {
    ghost use Rattle.std.specs.Prelude.{◌≡◌};
    ghost use Rattle.commandfiles.specs.Beginnings.{begins_at};

    /// The moment at which the clock begins, in milliseconds: that of the last tick before the
    /// values were kept, where their file says it, else 0.
    pub fn begins(&self) -> u64
        ensures value { result ≡ begins_at self.now.kept }
    {
        match &self.kept {
            Some(kept) => match kept.at() {
                Some(at) => at.moment,
                None => 0,
            },
            None => 0,
        }
    }
}

/// What became of a file of kept values.
#[derive(Drop)]
pub enum KeptNote {
    /// None was asked for, or none was read.
    NoFile,
    /// It is not used.
    Unused(KeptFault),
    /// It is used, but for these values. It says when they were kept, unless it is of version 1.
    Used(Option<KeptAt>, Vec<LeftOut>),
}

impl fmt::Display for KeptNote {
    fn fmt<W: fmt::Write>(&self, f: &mut fmt::Formatter<W>) -> fmt::Result {
        match self {
            KeptNote::NoFile => Ok(()),
            KeptNote::Unused(fault) => writeln!(f, "kept values not used: {fault}"),
            KeptNote::Used(at, left_out) => {
                match at {
                    Some(at) => writeln!(f, "kept values used, of {}", date_of(*at))?,
                    None => writeln!(f, "kept values used")?,
                }
                for left in left_out {
                    writeln!(f, "{left}")?;
                }
                Ok(())
            }
        }
    }
}

/// The date at which values were kept.
fn date_of(at: KeptAt) -> Timestamp {
    let seconds = i64::try_from(at.date).unwrap_or(0);
    Timestamp::from_second(seconds).unwrap_or_default()
}

/// The setup of a text under a binding.
///
/// # Errors
///
/// The binding's fault, else what stands against the text.
pub fn setup_of(alloc: Global, binding: &[u8], text: &[u8]) -> Result<Setup, Stop>
    ensures setup { IfOk result (IsSetupUnder binding.now text.now) }
    ensures stop { IfErr result (IsStopUnder binding.now text.now) }
{
    let binding = binding_of(alloc, Some(binding))?;
    check(alloc, &binding, text)
}

/// What the disk gives for the file of kept values, where one is named and there is one.
///
/// # Errors
///
/// It is there and cannot be read, or memory is refused while it is read.
pub fn kept_at<'a, D: Disk>(
    alloc: Global,
    disk: &D,
    path: Option<&'a str>,
) -> Result<Option<Vec<u8>>, Unserved<'a>>
    ensures read { IfOk result (λ file. IsKeepRead (D.gives disk.now) (D.fails disk.now)
        (option_map (λ path. path.now) path.entry) (option_map (λ bytes. bytes.items) file)) }
    ensures unread { IfErr result (IsKeepUnread (D.fails disk.now)
        (option_map (λ path. path.now) path.entry)) }
{
    let Some(path) = path else {
        return Ok(None);
    };
    match disk.read(alloc, path) {
        Ok(bytes) => Ok(Some(bytes)),
        Err(DiskFault::Absent) => Ok(None),
        Err(DiskFault::Memory) => Err(Unserved::NotRead {
            path,
            why: DiskFault::Memory,
        }),
        Err(DiskFault::Denied) => Err(Unserved::NotRead {
            path,
            why: DiskFault::Denied,
        }),
        Err(DiskFault::Folder) => Err(Unserved::NotRead {
            path,
            why: DiskFault::Folder,
        }),
        Err(DiskFault::Failed) => Err(Unserved::NotRead {
            path,
            why: DiskFault::Failed,
        }),
    }
}

/// The setup of a text under a binding, which begins with the values of a file of kept ones, where
/// there is one that can be used.
///
/// # Errors
///
/// The binding's fault, else what stands against the text.
pub fn beginning_of(
    alloc: Global,
    binding: &[u8],
    text: &[u8],
    file: Option<&Vec<u8>>,
) -> Result<Beginning, Stop>
    ensures begun { IfOk result (λ b. IsBegunUnder binding.now text.now b.kept b.setup) }
    ensures used { IfOk result (λ b.
        AreUsed (option_map (λ bytes. bytes.now.items) file.entry) b.kept) }
    ensures noted { IfOk result (λ b. IsNotedUnder binding.now text.now
        (option_map (λ bytes. bytes.now.items) file.entry) b.kept b.note) }
    ensures stop { IfErr result (IsStopUnder binding.now text.now) }
{
    let setup = setup_of(alloc, binding, text)?;
    let Some(bytes) = file else {
        return Ok(Beginning {
            setup,
            kept: None,
            note: KeptNote::NoFile,
        });
    };
    match Kept::parse(alloc, bytes) {
        Ok(kept) => Ok(begun_with(alloc, setup, kept)?),
        Err(KeptFault::Memory) => Err(Stop::Memory),
        Err(KeptFault::Empty) => Ok(without(setup, KeptNote::Unused(KeptFault::Empty))),
        Err(KeptFault::Torn) => Ok(without(setup, KeptNote::Unused(KeptFault::Torn))),
    }
}

/// The setup as it is, for this reason.
fn without(setup: Setup, note: KeptNote) -> Beginning
    ensures setup { result.setup ≡ setup }
    ensures kept { result.kept ≡ None }
    ensures note { result.note ≡ note }
{
    Beginning {
        setup,
        kept: None,
        note,
    }
}

/// The setup that begins with kept values.
///
/// # Errors
///
/// The allocator is out of memory.
fn begun_with(alloc: Global, setup: Setup, kept: Kept) -> Result<Beginning, AllocError>
    ensures begun { IfOk result (λ b. (binding text : List ℕ) → IsSetupUnder binding text setup
        → IsBegunUnder binding text b.kept b.setup) }
    ensures kept { IfOk result (λ b. b.kept ≡ Some kept) }
    ensures noted { IfOk result (λ b. IsNotedUsed kept setup.plan b.note) }
{
    let (setup, left_out) = begin_kept(alloc, setup, &kept)?;
    let note = KeptNote::Used(kept.at(), left_out);
    Ok(Beginning {
        setup,
        kept: Some(kept),
        note,
    })
}
