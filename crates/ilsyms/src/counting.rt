//! The different constants of a task.

use crate::needs::Needs;
use crate::tasks::{TaskInstance, program_of};
use ilplan::Constants;
use ilscope::{Scope, uses_of};
use ilsource::{Operand, Symbol, Use};
use limits::MOST_CONSTANTS;
use std::alloc::{AllocError, Global};

/// The different constants of some uses, and the place of the use that makes them too many.
#[derive(Drop)]
pub(crate) struct Counted {
    pub(crate) constants: Constants,
    pub(crate) excess: Option<usize>,
}

impl Counted {
    ghost use Rattle.std.specs.Prelude.{[], ◌∷◌, ◌++◌, List, IfOk, OnOk, flat_map};
    ghost use Rattle.ilsource.specs.declared.uses.Use.{Use};
    ghost use Rattle.ilsource.specs.declared.symbol.Symbol.{Symbol};
    ghost use Rattle.ilscope.specs.Uses.{uses_of};
    ghost use Rattle.ilsyms.specs.CountingSteps.{AreCounted};
    ghost use Rattle.ilsyms.specs.FunctionSteps.{marked};
    ghost use Rattle.ilsyms.specs.TaskSteps.{AreThere, instances_of};
    ghost use Rattle.ilsyms.specs.Variables.{lines_of};

    /// Those of the lines of the instances' programs, and then of the functions that are used. The
    /// lines of a program are read once, however many of the instances are its own: it has no
    /// constant that was not counted.
    pub(crate) fn of(
        alloc: Global,
        scope: &Scope<'_>,
        instances: &[TaskInstance],
        used: &[bool],
        needs: &[Needs],
    ) -> Result<Counted, AllocError>
        requires { AreThere scope.now.tree instances.now }
        ensures { IfOk result (λ c. AreCounted
            (uses_of (lines_of (instances_of scope.now.tree instances.now))
            ++ flat_map (λ one. one.uses) (marked used.now needs.now)) c.constants c.excess) }
    {
        let mut counted = Counted::of_programs(alloc, scope, instances)?;
        counted.add_functions(used, needs)?;
        Ok(counted)
    }

    /// Counts what the functions that are used use.
    fn add_functions(&mut self, used: &[bool], needs: &[Needs]) -> Result<(), AllocError>
        ensures { OnOk result ((before : List (Use Symbol))
            → AreCounted before self.old.constants self.old.excess
            → AreCounted (before ++ flat_map (λ one. one.uses) (marked used.now needs.now))
            self.new.constants self.new.excess) }
    {
        for (is_used, one) in used.iter().zip(needs) {
            if *is_used {
                self.add_uses(one.uses())?;
            }
        }
        Ok(())
    }

    /// Those of the lines of the instances' programs.
    fn of_programs(
        alloc: Global,
        scope: &Scope<'_>,
        instances: &[TaskInstance],
    ) -> Result<Counted, AllocError>
        requires { AreThere scope.now.tree instances.now }
        ensures { IfOk result (λ c. AreCounted
            (uses_of (lines_of (instances_of scope.now.tree instances.now)))
            c.constants c.excess) }
    {
        let mut counted = Counted {
            constants: Constants::new(alloc),
            excess: None,
        };
        let mut seen = vec![in alloc; false; scope.programs().len()]?;
        for instance in instances {
            if !seen[instance.program] {
                seen[instance.program] = true;
                let program = program_of(scope, instance.program);
                let uses = uses_of(alloc, program.program().lines())?;
                counted.add_uses(&uses)?;
            }
        }
        Ok(counted)
    }

    /// Counts some uses more.
    fn add_uses(&mut self, uses: &[Use<Symbol>]) -> Result<(), AllocError>
        ensures { OnOk result ((before : List (Use Symbol))
            → AreCounted before self.old.constants self.old.excess
            → AreCounted (before ++ uses.now) self.new.constants self.new.excess) }
    {
        for used in uses {
            self.add(*used)?;
        }
        Ok(())
    }

    /// Counts one use more.
    fn add(&mut self, used: Use<Symbol>) -> Result<(), AllocError>
        ensures { OnOk result ((before : List (Use Symbol))
            → AreCounted before self.old.constants self.old.excess
            → AreCounted (before ++ used ∷ []) self.new.constants self.new.excess) }
    {
        let Operand::Constant(value) = used.operand else {
            return Ok(());
        };
        let known = self.constants.len();
        self.constants.add(value)?;
        if known == MOST_CONSTANTS && known < self.constants.len() {
            self.excess = Some(used.at);
        }
        Ok(())
    }
}
