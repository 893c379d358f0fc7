//! Parts in a row.

ghost use Rattle.std.specs.Prelude.{◌≡◌, length, IfOk, MatchOption};
ghost use Rattle.std.specs.List.{AllZip};
ghost use Rattle.ilverify.specs.ChunkSteps.{AreChunks, whole};
ghost use Rattle.ilverify.specs.Joins.{AreJoins, Each, IsHeld};

use crate::chunk::Chunk;
use crate::known::Known;
use std::alloc::{AllocError, Global};

/// The parts of the list.
pub(crate) fn cut(alloc: Global, items: &[Known]) -> Result<Vec<Chunk>, AllocError>
    ensures full { IfOk result (λ v. AreChunks v.items) }
    ensures all { IfOk result (λ v. whole v.items ≡ items.now) }
{
    let mut made = Vec::new(alloc);
    for k in 0..items.len() / 64 {
        made.push(Chunk::new(alloc, &items[k * 64..k * 64 + 64])?)?;
    }
    let from = items.len() / 64 * 64;
    if from < items.len() {
        made.push(Chunk::new(alloc, &items[from..])?)?;
    }
    Ok(made)
}

/// The same parts, shared.
pub(crate) fn share_each(alloc: Global, chunks: &[Chunk]) -> Result<Vec<Chunk>, AllocError>
    ensures { IfOk result (λ v. v.items ≡ chunks.now) }
{
    let mut made = Vec::with_capacity(alloc, chunks.len())?;
    for chunk in chunks {
        made.push(chunk.share()?)?;
    }
    Ok(made)
}

/// The parts of what is known where two ways meet, of parts as long on either; `None` where nothing
/// holds both of some.
pub(crate) fn join_each(
    alloc: Global,
    ones: &[Chunk],
    others: &[Chunk],
) -> Result<Option<Vec<Chunk>>, AllocError>
    requires { AllZip (λ one other. length one ≡ length other) ones.now others.now }
    ensures { IfOk result (λ made. MatchOption made
        (¬ AllZip (AllZip IsHeld) ones.now others.now)
        (λ v. Each AreJoins ones.now others.now v.items)) }
{
    let mut made = Vec::with_capacity(alloc, ones.len())?;
    for i in 0..ones.len() {
        let Some(part) = ones[i].join(alloc, &others[i])? else {
            return Ok(None);
        };
        made.push(part)?;
    }
    Ok(Some(made))
}
