//! Houses of any size: their texts, bindings and scenarios.

use ilcompile::Setup;
use plantload::load;
use simbus::{Scenario, parse};
use std::alloc::{AllocError, Global};
use std::test::Fail;
use wordlines::Binding;

/// A house with a lamp on each bus. Each bus belongs to a task, and a scan stores to its lamps how
/// many scans there were.
#[derive(Clone, Copy)]
pub struct House {
    pub buses: u8,
    pub tasks: u8,
    /// An event comes on each bus, and each task is started by that of one of the last buses. Else
    /// the tasks are cyclic, each 100 ms.
    pub has_events: bool,
    /// The level of each lamp at first. 255 is not sent.
    pub level: u8,
    /// The clock has the given number of moments, 100 ms apart.
    pub moments: u16,
}

impl House {
    /// Writes the program of a task.
    fn write_program(self, text: &mut String, task: u8) -> Result<(), AllocError> {
        write!(text, "PROGRAM p{task}\nVAR_EXTERNAL\n")?;
        self.write_of(text, task, "", " : USINT;")?;
        text.push_str("END_VAR\nVAR n : UINT (0..99); END_VAR\nLD n\nADD 1\nMIN 99\nST n\n")?;
        self.write_of(text, task, "ST ", "")?;
        text.push_str("END_PROGRAM\n")
    }

    /// Writes a line for each lamp of a task, with these words round its name.
    fn write_of(
        self,
        text: &mut String,
        task: u8,
        before: &str,
        after: &str,
    ) -> Result<(), AllocError> {
        for bus in 0..self.buses {
            if bus.checked_rem(self.tasks) == Some(task) {
                write!(text, "{before}l{bus}{after}\n")?;
            }
        }
        Ok(())
    }

    /// The bus whose event starts a task.
    fn bus_of(self, task: u8) -> u8 {
        self.buses.saturating_sub(1).saturating_sub(task)
    }

    /// Writes the global variables: the lamps, and the events that start tasks.
    fn write_globals(self, text: &mut String) -> Result<(), AllocError> {
        let level = self.level;
        for bus in 0..self.buses {
            write!(text, "l{bus} AT %QB{bus}.5 : USINT := {level};\n")?;
        }
        if self.has_events {
            for task in 0..self.tasks {
                let bus = self.bus_of(task);
                write!(text, "e{task} AT %IX{bus}.0 : BOOL;\n")?;
            }
        }
        Ok(())
    }

    /// Writes a task.
    fn write_task(self, text: &mut String, task: u8) -> Result<(), AllocError> {
        if self.has_events {
            write!(text, "TASK t{task} (SINGLE := e{task}, PRIORITY := 1);\n")
        } else {
            write!(text, "TASK t{task} (INTERVAL := T#100ms, PRIORITY := 1);\n")
        }
    }

    /// The text of the house.
    fn text(self, alloc: Global) -> Result<String, AllocError> {
        let mut text = String::new(alloc);
        for task in 0..self.tasks {
            self.write_program(&mut text, task)?;
        }
        text.push_str("CONFIGURATION c\nVAR_GLOBAL\n")?;
        self.write_globals(&mut text)?;
        text.push_str("END_VAR\n")?;
        for task in 0..self.tasks {
            self.write_task(&mut text, task)?;
        }
        for task in 0..self.tasks {
            write!(text, "PROGRAM i{task} WITH t{task} : p{task};\n")?;
        }
        text.push_str("END_CONFIGURATION\n")?;
        Ok(text)
    }

    /// The binding of the house, with a source for each bus.
    fn binding(self, alloc: Global) -> Result<String, AllocError> {
        let mut text = String::new(alloc);
        write!(text, "buses {}\n", self.buses)?;
        for bus in 0..self.buses {
            write!(text, "source {bus}.0 device-instance 5 2\n")?;
        }
        Ok(text)
    }

    /// What happens in the house.
    fn events(self, alloc: Global) -> Result<String, AllocError> {
        let mut text = String::new(alloc);
        if self.has_events {
            for bus in 0..self.buses {
                write!(text, "event {bus} 0A8809\n")?;
            }
        }
        for moment in 0..self.moments {
            write!(text, "tick {moment}00\n")?;
        }
        Ok(text)
    }

    /// The setup of the house.
    pub fn setup(self, alloc: Global) -> Result<Setup, Fail> {
        let binding = self.binding(alloc)?;
        let Ok(binding) = Binding::parse(alloc, binding.as_bytes()) else {
            return Err(Fail::new("the binding is refused"));
        };
        let text = self.text(alloc)?;
        match load(alloc, text.as_bytes(), &binding) {
            Ok(setup) => Ok(setup),
            Err(_) => Err(Fail::new("the text is refused")),
        }
    }

    /// The scenario of the house.
    pub fn scenario(self, alloc: Global) -> Result<Scenario, Fail> {
        let text = self.events(alloc)?;
        match parse(alloc, text.as_bytes()) {
            Ok(scenario) => Ok(scenario),
            Err(_) => Err(Fail::new("the scenario is refused")),
        }
    }
}
