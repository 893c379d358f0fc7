//! What the configuration of a text declares, with the numbers of its names.

use crate::configuration::declared_globals;
use crate::numbers::{numbers_of_globals, numbers_of_tasks};
use ildeclared::{
    DeclaredGlobal, DeclaredTypes, Found, Names, globals_of, lesser_of, value_types_of,
};
use ilsource::Source;
use iltypes::IlType;
use std::alloc::{AllocError, Global};

/// The global variables with their value types, the numbers of global variables and tasks, and the
/// next fault of a name of these that is given again.
#[derive(Drop)]
pub(crate) struct ConfigurationTables {
    pub(crate) globals: Vec<DeclaredGlobal>,
    pub(crate) value_types: Vec<Option<IlType>>,
    pub(crate) global_numbers: Names<usize>,
    pub(crate) task_numbers: Names<usize>,
    pub(crate) configured_twice: Option<Found>,
}

impl ConfigurationTables {
    ghost use Rattle.std.specs.Prelude.{◌≡◌, IfOk, flat_map, map};
    ghost use Rattle.ilsource.specs.Names.{text_of};
    ghost use Rattle.ildeclared.specs.Faults.{IsNextOf, OfCause};
    ghost use Rattle.ildeclared.specs.Globals.{globals_in, value_types_in};
    ghost use Rattle.ildeclared.specs.Kept.{types_in};
    ghost use Rattle.ildeclared.specs.declared.fault.NameCause.TheVariants.{Twice};
    ghost use Rattle.ilscope.specs.Configured.{declared_globals_of, task_declarations};
    ghost use Rattle.ilscope.specs.ScopeSteps.{AreNumbersOf, IsGlobalOrTaskTwice};

    /// The tables of a source program's configuration below these types. `lower` is its text in
    /// lower case.
    pub(crate) fn of(
        alloc: Global,
        lower: &[u8],
        types: &DeclaredTypes,
        source: &Source,
        after: Option<Found>,
    ) -> Result<ConfigurationTables, AllocError>
        ensures globals { IfOk result (λ tables. tables.globals.items
            ≡ flat_map (globals_in (types_in lower.now types.now))
            (declared_globals_of source.now)) }
        ensures value_types { IfOk result (λ tables. tables.value_types.items
            ≡ flat_map (value_types_in (types_in lower.now types.now))
            (declared_globals_of source.now)) }
        ensures global_numbers { IfOk result (λ tables. AreNumbersOf (text_of lower.now)
            (map (λ g. g.name) tables.globals.items) tables.global_numbers) }
        ensures task_numbers { IfOk result (λ tables. AreNumbersOf (text_of lower.now)
            (map (λ t. t.name) (task_declarations source.now)) tables.task_numbers) }
        ensures twice { IfOk result (λ tables. IsNextOf after (OfCause Twice
            (IsGlobalOrTaskTwice (text_of lower.now) tables.globals.items
            (task_declarations source.now))) tables.configured_twice) }
    {
        let declared = declared_globals(source);
        let globals = globals_of(alloc, lower, types, declared)?;
        let value_types = value_types_of(alloc, lower, types, declared)?;
        let (global_numbers, globals_twice) = numbers_of_globals(alloc, lower, &globals, after)?;
        let (task_numbers, tasks_twice) = numbers_of_tasks(alloc, lower, source, after)?;
        let configured_twice = lesser_of(globals_twice, tasks_twice);
        Ok(ConfigurationTables {
            globals,
            value_types,
            global_numbers,
            task_numbers,
            configured_twice,
        })
    }
}
