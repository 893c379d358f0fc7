//! The versions of code files.

ghost use Rattle.std.specs.Prelude.{◌≡◌};
ghost use Rattle.ilcodefile.specs.Faults.{version_in};
ghost use Rattle.ilcode.specs.Listings.{is_old};
ghost use Rattle.ilcodefile.specs.Files.{version};

use ilcode::{Code, FunctionBody};
use limits::{FEW_BUSES, MOST_BUSES};

/// The versions of code files.
#[derive(Clone, Copy)]
pub(crate) enum FileVersion {
    /// Of a code for few buses that has no functions.
    One,
    /// Of any other code: it has one count more, that of functions, and where these stand.
    Two,
}

/// The version of a code's file.
pub(crate) fn version_of(code: &Code) -> FileVersion
    ensures { result ≡ version code.now }
{
    if is_old(code.buses(), code.functions()) {
        FileVersion::One
    } else {
        FileVersion::Two
    }
}

/// Whether the buses are few and there are no functions.
pub(crate) fn is_old(buses: u8, functions: &[FunctionBody]) -> bool
    ensures { result ≡ is_old buses functions.now }
{
    buses <= FEW_BUSES && functions.is_empty()
}

/// The version of bytes that begin as a code file, as far as they go.
pub(crate) fn version_in(bytes: &[u8]) -> FileVersion
    ensures { result ≡ version_in bytes.now }
{
    match bytes.get(4) {
        Some(number) if *number == FileVersion::Two.number() => FileVersion::Two,
        _ => FileVersion::One,
    }
}

impl FileVersion {
    ghost use Rattle.std.specs.Prelude.{◌≡◌, ◌≤◌};
    ghost use Rattle.ilcodefile.specs.Faults.{head_size, most_buses_of};
    ghost use Rattle.ilcodefile.specs.Files.{magic, version_number};

    /// The number that a file of the version has.
    fn number(self) -> u8
        ensures { result ≡ version_number self }
    {
        match self {
            FileVersion::One => 1,
            FileVersion::Two => 2,
        }
    }

    /// What a file of the version begins with.
    pub(crate) fn magic(self) -> [u8; 5]
        ensures { result ≡ magic self }
    {
        [68, 76, 73, 76, self.number()]
    }

    /// How many bytes a file of the version has before its tables.
    pub(crate) fn head_size(self) -> usize
        ensures value { result ≡ head_size self }
        ensures least { 28 ≤ result }
        ensures most { result ≤ 32 }
    {
        match self {
            FileVersion::One => 28,
            FileVersion::Two => 32,
        }
    }

    /// The greatest number of buses of a file of the version.
    pub(crate) fn most_buses(self) -> u8
        ensures { result ≡ most_buses_of self }
    {
        match self {
            FileVersion::One => FEW_BUSES,
            FileVersion::Two => MOST_BUSES,
        }
    }
}
