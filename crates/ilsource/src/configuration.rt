//! Configurations.

use crate::address::DirectAddress;
use crate::declaration::{Constant, Specification};
use crate::name::Name;
use std::marker::Model;

/// `name (AT address | {"," name}) ":" specification [":=" constant] ";"`, in VAR_GLOBAL: global
/// variables that are declared together (IEC 61131-3, 2.4.3).
#[derive(Drop)]
pub struct GlobalDeclaration {
    names: Vec<Name>,
    address: Option<DirectAddress>,
    specification: Specification,
    initial: Option<Constant>,
}

impl Model for GlobalDeclaration {
    ghost use Rattle.ilsource.specs.Configurations.{DeclaredGlobals};

    ghost Value = { DeclaredGlobals };

    ghost view = { λ d. record {
      names = d.names.items;
      address = d.address;
      specification = d.specification;
      initial = d.initial;
    } };
}

impl GlobalDeclaration {
    ghost use Rattle.std.specs.Prelude.{◌≡◌};
    ghost use Rattle.ilsource.specs.Configurations.{DeclaredGlobals, globals_of};

    /// The declaration of these names; one with an address has one name.
    pub fn new(
        names: Vec<Name>,
        address: Option<DirectAddress>,
        specification: Specification,
        initial: Option<Constant>,
    ) -> GlobalDeclaration
        ensures { result ≡ globals_of names.items address specification initial }
    {
        GlobalDeclaration {
            names,
            address,
            specification,
            initial,
        }
    }

    /// The names, in the order in which they are written.
    pub fn names(&self) -> &[Name]
        ensures value { result.now ≡ self.now.names }
    {
        &self.names
    }

    /// Where the variable is located, if it is.
    pub fn address(&self) -> Option<DirectAddress>
        ensures value { result ≡ self.now.address }
    {
        self.address
    }

    /// The type, as it is written.
    pub fn specification(&self) -> Specification
        ensures value { result ≡ self.now.specification }
    {
        self.specification
    }

    /// The initial value that is written.
    pub fn initial(&self) -> Option<Constant>
        ensures value { result ≡ self.now.initial }
    {
        self.initial
    }
}

/// `TASK name (SINGLE := .., INTERVAL := .., PRIORITY := ..);` (IEC 61131-3, 2.7.2).
#[derive(Clone, Copy)]
pub struct TaskDeclaration {
    pub name: Name,
    /// The variable of SINGLE.
    pub single: Option<Name>,
    /// The duration of INTERVAL, in milliseconds.
    pub interval: Option<u32>,
    pub priority: i64,
}

/// `PROGRAM name [WITH task] : program;`: an instance of a program (IEC 61131-3, 2.7.2).
#[derive(Clone, Copy)]
pub struct InstanceDeclaration {
    pub name: Name,
    /// The name after WITH.
    pub task: Option<Name>,
    /// The name of the program that it is an instance of.
    pub program: Name,
}

/// `CONFIGURATION .. END_CONFIGURATION` (IEC 61131-3, 2.7.1). Its own name and those of its
/// resource say nothing.
#[derive(Drop)]
pub struct Configuration {
    globals: Vec<GlobalDeclaration>,
    tasks: Vec<TaskDeclaration>,
    instances: Vec<InstanceDeclaration>,
}

impl Model for Configuration {
    ghost use Rattle.ilsource.specs.Configurations.{Configured};

    ghost Value = { Configured };

    ghost view = { λ c. record {
      globals = c.globals.items;
      tasks = c.tasks.items;
      instances = c.instances.items;
    } };
}

impl Configuration {
    ghost use Rattle.std.specs.Prelude.{◌≡◌};
    ghost use Rattle.ilsource.specs.Configurations.{Configured, configured_of};

    /// The configuration of these declarations.
    pub fn new(
        globals: Vec<GlobalDeclaration>,
        tasks: Vec<TaskDeclaration>,
        instances: Vec<InstanceDeclaration>,
    ) -> Configuration
        ensures { result ≡ configured_of globals.items tasks.items instances.items }
    {
        Configuration {
            globals,
            tasks,
            instances,
        }
    }

    /// The declarations of all its VAR_GLOBAL blocks, in the order in which they are written.
    pub fn globals(&self) -> &[GlobalDeclaration]
        ensures value { result.now ≡ self.now.globals }
    {
        &self.globals
    }

    /// The tasks, in order.
    pub fn tasks(&self) -> &[TaskDeclaration]
        ensures value { result.now ≡ self.now.tasks }
    {
        &self.tasks
    }

    /// The instances of programs, in order.
    pub fn instances(&self) -> &[InstanceDeclaration]
        ensures value { result.now ≡ self.now.instances }
    {
        &self.instances
    }
}
