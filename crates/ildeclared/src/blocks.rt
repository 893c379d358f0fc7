//! The block instances of a program.

ghost use Rattle.std.specs.Prelude.{◌≡◌, ◌++◌, IfOk, OnOk, map};
ghost use Rattle.ildeclared.specs.Declarations.{block, blocks_of};

use crate::block::DeclaredBlock;
use ilblocks::BlockKind;
use ilsource::{Declared, Name, Program};
use std::alloc::{AllocError, Global};

/// A program's block instances, in declared order.
pub fn blocks_of(alloc: Global, program: &Program) -> Result<Vec<DeclaredBlock>, AllocError>
    ensures { IfOk result (λ v. v.items ≡ blocks_of program.now) }
{
    let mut blocks = Vec::new(alloc);
    for declaration in program.declarations() {
        if let Declared::Blocks(kind) = declaration.declared_kind() {
            add_blocks(&mut blocks, kind, declaration.names())?;
        }
    }
    Ok(blocks)
}

/// Adds the block instances of one declaration.
fn add_blocks(
    blocks: &mut Vec<DeclaredBlock>,
    kind: BlockKind,
    names: &[Name],
) -> Result<(), AllocError>
    ensures { OnOk result (blocks.new.items ≡ blocks.old.items ++ map (block kind) names.now) }
{
    for name in names {
        blocks.push(DeclaredBlock { name: *name, kind })?;
    }
    Ok(())
}

/// The names of some block instances.
pub fn block_names(alloc: Global, blocks: &[DeclaredBlock]) -> Result<Vec<Name>, AllocError>
    ensures { IfOk result (λ v. v.items ≡ map (λ block. block.name) blocks.now) }
{
    blocks.iter().map(|block| block.name).collect(alloc)
}
