//! The block instances of a task.

ghost use Rattle.std.specs.Prelude.{◌≡◌, ◌+◌, ◌++◌, ◌∷◌, [], IfOk, List, OnOk, take};
ghost use Rattle.limits.specs.Limits.{most_blocks};
ghost use Rattle.ilplan.specs.declared.instance.FunctionBlock.{FunctionBlock};
ghost use Rattle.ilsyms.specs.TaskSteps.{AreThere, instances_of};
ghost use Rattle.ilsyms.specs.Tasks.{instance_named};
ghost use Rattle.ilsyms.specs.Variables.{blocks_in, blocks_of};

use crate::tasks::{TaskInstance, program_of};
use ilplan::FunctionBlock;
use ilscope::{ProgramScope, Scope};
use ilsource::Name;
use limits::MOST_BLOCKS;
use std::alloc::{AllocError, Global};

/// The block instances of the instances: those of each, in declared order. Of more than the
/// greatest number one more than that are given.
pub(crate) fn blocks_of(
    alloc: Global,
    scope: &Scope<'_>,
    instances: &[TaskInstance],
) -> Result<Vec<FunctionBlock>, AllocError>
    requires { AreThere scope.now.tree instances.now }
    ensures { IfOk result (λ v. v.items ≡ take (most_blocks + 1)
        (blocks_of (instances_of scope.now.tree instances.now))) }
{
    let mut blocks = Vec::new(alloc);
    for instance in instances {
        add_blocks(
            &mut blocks,
            instance.name,
            program_of(scope, instance.program),
        )?;
    }
    Ok(blocks)
}

/// Adds the block instances of an instance of a program.
fn add_blocks(
    blocks: &mut Vec<FunctionBlock>,
    instance: Name,
    program: &ProgramScope<'_>,
) -> Result<(), AllocError>
    ensures { OnOk result ((all : List FunctionBlock)
        → blocks.old.items ≡ take (most_blocks + 1) all
        → blocks.new.items ≡ take (most_blocks + 1)
        (all ++ blocks_in (instance_named instance program.now))) }
{
    if blocks.len() > MOST_BLOCKS {
        return Ok(());
    }
    for block in program.blocks() {
        let one = FunctionBlock {
            instance,
            name: block.name,
            kind: block.kind,
        };
        add_block(blocks, one)?;
    }
    Ok(())
}

/// Adds a block instance, where there are not too many already.
fn add_block(blocks: &mut Vec<FunctionBlock>, block: FunctionBlock) -> Result<(), AllocError>
    ensures { OnOk result ((all : List FunctionBlock)
        → blocks.old.items ≡ take (most_blocks + 1) all
        → blocks.new.items ≡ take (most_blocks + 1) (all ++ block ∷ [])) }
{
    if blocks.len() <= MOST_BLOCKS {
        blocks.push(block)?;
    }
    Ok(())
}
