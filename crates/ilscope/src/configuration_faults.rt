//! The faults of a configuration, of what names it, and of functions as such.

ghost use Rattle.std.specs.Prelude.{◌≡◌};

use crate::configuration::{declared_globals, instance_names, instances_of, tasks_of};
use crate::functions::bad_functions;
use crate::numbers::numbers_of;
use crate::other_types::other_externals;
use crate::tables::Tables;
use crate::tasks::{bad_tasks, no_triggers, without_task};
use crate::unknown::{unknown_externals, unknown_programs, unknown_tasks, unknown_triggers};
use ildeclared::{
    Found, addresses_of, bad_addresses, badly_located, fault_of_globals, inputs_given,
    inputs_too_small, lesser_of, twice_addresses,
};
use ilsource::DirectAddress;
use std::alloc::{AllocError, Global};
use wordlines::Binding;

impl<'a> Tables<'a> {
    ghost use Rattle.std.specs.Prelude.{◌≡◌, ◌⊎◌, IfOk};
    ghost use Rattle.ildeclared.specs.Faults.{IsNextOf, OfCause};
    ghost use Rattle.ildeclared.specs.declared.fault.NameCause.TheVariants.{BadAddress, Unknown};
    ghost use Rattle.ildeclared.specs.declared.fault.NameCause.TheVariants.{BadDeclaration, Twice};
    ghost use Rattle.ilscope.specs.Configured.{addresses_of};
    ghost use Rattle.ilscope.specs.Faults.{IsBadAddress, IsNoTrigger};
    ghost use Rattle.ilscope.specs.ScopeSteps.{IsBadInConfiguration, IsFaultInGlobals};
    ghost use Rattle.ilscope.specs.ScopeSteps.{IsFaultOfConfiguration, IsFaultOfInput};
    ghost use Rattle.ilscope.specs.ScopeSteps.{IsTwiceInConfiguration, IsUnknownNamed};

    /// The next fault after `after` of the configuration, with located variables looked up in
    /// `binding`.
    pub(crate) fn fault_of_configuration(
        &self,
        alloc: Global,
        binding: &Binding,
        after: Option<Found>,
    ) -> Result<Option<Found>, AllocError>
        ensures { IfOk result (λ least. IsNextOf after
            (IsFaultOfConfiguration (record { tree = self.now; wiring = binding.now })) least) }
    {
        let declared = lesser_of(self.fault_in_globals(after), self.unknown_name(after));
        let stated = lesser_of(self.given_twice(alloc, after)?, self.bad_declaration(after));
        let located = lesser_of(
            self.bad_address(alloc, binding, after)?,
            self.fault_of_input(after),
        );
        let lacking = without_task(instances_of(self.source), after);
        let rest = lesser_of(stated, lesser_of(located, lacking));
        Ok(lesser_of(declared, rest))
    }

    /// The next fault after `after` of what global variables are declared as.
    fn fault_in_globals(&self, after: Option<Found>) -> Option<Found>
        ensures { IsNextOf after (IsFaultInGlobals self.now) result }
    {
        fault_of_globals(
            &self.lower,
            &self.types,
            declared_globals(self.source),
            after,
        )
    }

    /// The next name of a global variable, a task or a program that there is not.
    fn unknown_name(&self, after: Option<Found>) -> Option<Found>
        ensures { IsNextOf after (OfCause Unknown (IsUnknownNamed self.now)) result }
    {
        let lower = self.lower.as_slice();
        let instances = instances_of(self.source);
        let external = unknown_externals(
            lower,
            &self.global_numbers,
            self.programs.as_slice(),
            after,
        );
        let trigger = unknown_triggers(lower, &self.global_numbers, tasks_of(self.source), after);
        let task = unknown_tasks(lower, &self.task_numbers, instances, after);
        let program = unknown_programs(lower, &self.program_numbers, instances, after);
        lesser_of(external, lesser_of(trigger, lesser_of(task, program)))
    }

    /// The next program instance or address that is given again.
    fn given_twice(&self, alloc: Global, after: Option<Found>) -> Result<Option<Found>, AllocError>
        ensures { IfOk result (λ least.
            IsNextOf after (OfCause Twice (IsTwiceInConfiguration self.now)) least) }
    {
        let names = instance_names(alloc, instances_of(self.source))?;
        let (_, instance) = numbers_of(alloc, self.lower.as_slice(), names.as_slice(), after)?;
        let addresses = self.addresses(alloc)?;
        let address = twice_addresses(alloc, addresses.as_slice(), after)?;
        Ok(lesser_of(instance, address))
    }

    /// Where global variables are located, in declared order.
    fn addresses(&self, alloc: Global) -> Result<Vec<DirectAddress>, AllocError>
        ensures { IfOk result (λ v. v.items ≡ addresses_of self.now) }
    {
        addresses_of(alloc, self.globals.as_slice())
    }

    /// The next external of another type, variable that does not fit its address, bad task, or
    /// function without an input or with a block instance.
    fn bad_declaration(&self, after: Option<Found>) -> Option<Found>
        ensures { IsNextOf after (OfCause BadDeclaration (IsBadInConfiguration self.now)) result }
    {
        let lower = self.lower.as_slice();
        let external = other_externals(
            lower,
            &self.global_numbers,
            self.value_types.as_slice(),
            self.programs.as_slice(),
            after,
        );
        let located = badly_located(lower, &self.types, declared_globals(self.source), after);
        let task = bad_tasks(tasks_of(self.source), after);
        let function = bad_functions(self.functions.as_slice(), after);
        lesser_of(external, lesser_of(located, lesser_of(task, function)))
    }

    /// The next address that is not there, or SINGLE on a variable that is no trigger.
    fn bad_address(
        &self,
        alloc: Global,
        binding: &Binding,
        after: Option<Found>,
    ) -> Result<Option<Found>, AllocError>
        ensures { IfOk result (λ least. IsNextOf after (OfCause BadAddress
            (λ at. IsBadAddress self.now binding.now at ⊎ IsNoTrigger self.now at)) least) }
    {
        let addresses = self.addresses(alloc)?;
        let address = bad_addresses(binding, addresses.as_slice(), after);
        let trigger = no_triggers(
            self.lower.as_slice(),
            &self.global_numbers,
            self.globals.as_slice(),
            tasks_of(self.source),
            after,
        );
        Ok(lesser_of(address, trigger))
    }

    /// The next input whose variable lacks values of it or is given an initial value.
    fn fault_of_input(&self, after: Option<Found>) -> Option<Found>
        ensures { IsNextOf after (IsFaultOfInput self.now) result }
    {
        let globals = declared_globals(self.source);
        let small = inputs_too_small(self.lower.as_slice(), &self.types, globals, after);
        lesser_of(small, inputs_given(globals, after))
    }
}
