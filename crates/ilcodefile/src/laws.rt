//! Laws of the definitions, each by the lemma that crates above cite.

ghost use Rattle.std.specs.Prelude.{◌≡◌};
ghost use Rattle.ilcode.specs.Listings.{Listing};
ghost use Rattle.ilcodefile.specs.Faults.{IsFile, IsFirst, IsReadAs};
ghost use Rattle.ilcodefile.specs.Files.{HasFile, file};
ghost use Rattle.ilcodefile.specs.declared.fault.FileCause.{FileCause as AnyCause};
ghost use Rattle.std.specs.Prelude.{ℕ, List};

use crate::decoding::decode;
use crate::encoding::encode;
use crate::fault::FileFault;
use ilcode::Code;
use std::alloc::Global;

/// A file has one code, and no fault stands against it; what is no file has one first fault at
/// most.
fn a_file_has_one_code()
    ensures one { (a b : Listing) → HasFile a → HasFile b → file a ≡ file b → a ≡ b }
    ensures no_fault { (bytes : List ℕ) (cause : AnyCause) → IsFile bytes
        → ¬ IsFirst bytes cause }
    ensures one_fault { (bytes : List ℕ) (a b : AnyCause) → IsFirst bytes a → IsFirst bytes b
        → a ≡ b }
{}

/// What was written of a code is read as that code, unless memory runs out: by the contracts of
/// `encode` and `decode` alone.
fn read_again(alloc: Global, code: &Code) -> Result<Code, FileFault>
    ensures { IsReadAs code.now result }
{
    let bytes = encode(alloc, code)?;
    decode(alloc, &bytes)
}
