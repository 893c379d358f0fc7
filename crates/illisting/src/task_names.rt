//! What the words of a task's code name.

ghost use Rattle.std.specs.Prelude.{◌<◌, length};

use crate::words::Part;
use ilcode::{Code, WordOperand};
use ilplan::{DeclaredName, Plan, SlotName, Task, UserFunction};
use ilsource::Name;
use iltypes::Value;
use std::alloc::{AllocError, Global};

/// A task's code with what its words name: the task's variables and block instances, and the
/// functions that the code has, with their variables.
#[derive(Clone, Copy)]
pub struct TaskNames<'a> {
    pub plan: &'a Plan,
    /// The task's number in the plan.
    pub task: usize,
    pub code: &'a Code,
    /// For each function of the code its number in the plan ([`functions_in`]).
    pub functions: &'a [usize],
}

/// The functions that a task's code has, by their numbers in the plan: those that it uses.
///
/// # Errors
///
/// The allocator is out of memory.
pub fn functions_in(alloc: Global, plan: &Plan, task: usize) -> Result<Vec<usize>, AllocError>
    requires { task < length plan.now.tasks }
{
    let used = plan.used_functions(alloc, task)?;
    let mut functions = Vec::new(alloc);
    for (number, is_used) in used.iter().enumerate() {
        if *is_used {
            functions.push(number)?;
        }
    }
    Ok(functions)
}

impl<'a> TaskNames<'a> {
    /// The constant that a part of a word is.
    pub(crate) fn value_of(&self, part: Part) -> Option<Value> {
        match part {
            Part::Operand(WordOperand::Constant(number)) => {
                self.code.constants().get(usize::from(number)).copied()
            }
            _ => None,
        }
    }

    /// The name of what a part of a word names, ports aside.
    pub(crate) fn find(&self, part: Part) -> Option<SlotName<'a>> {
        let name = match part {
            Part::Operand(WordOperand::Slot(slot)) => return self.slot(usize::from(slot)),
            Part::Operand(WordOperand::Port { block, .. }) | Part::Block(block) => {
                let found = self.task()?.blocks().get(usize::from(block))?;
                return Some(self.named(Some(found.instance), found.name));
            }
            Part::Function(function) => self.function(function)?.name(),
            Part::Caller(caller) => match caller.checked_sub(self.code.starts().len()) {
                Some(function) => self.function(function)?.name(),
                None => self.task()?.instances().get(caller)?.name(),
            },
            _ => return None,
        };
        Some(self.named(None, name))
    }

    /// The port that a part of a word names.
    pub(crate) fn port_of(&self, part: Part) -> Option<DeclaredName<'static>> {
        let Part::Operand(WordOperand::Port { port, block }) = part else {
            return None;
        };
        let found = self.task()?.blocks().get(usize::from(block))?;
        let port = found.kind.ports().get(usize::from(port))?;
        Some(DeclaredName {
            bytes: port.name.spelling(),
        })
    }

    /// The task.
    fn task(&self) -> Option<&'a Task> {
        if self.task < self.plan.tasks() {
            Some(self.plan.task(self.task))
        } else {
            None
        }
    }

    /// The function of this number in the code.
    fn function(&self, function: usize) -> Option<&'a UserFunction> {
        self.plan.functions().get(*self.functions.get(function)?)
    }

    /// The name of the variable in a slot: `instance.variable`, `function.variable`, and of a
    /// global variable its name alone. A function's result has the function's name.
    fn slot(&self, slot: usize) -> Option<SlotName<'a>> {
        let plan = self.plan;
        if self.task < plan.tasks() && slot < plan.task(self.task).slots().len() {
            return Some(plan.slot_name(self.task, slot));
        }
        for (number, body) in self.code.functions().iter().enumerate() {
            if slot < self.code.slots_end(number.saturating_add(1)) {
                let function = self.function(number)?;
                let name = name_in(function, slot.saturating_sub(body.first))?;
                return Some(self.named(Some(function.name()), name));
            }
        }
        None
    }

    /// A name as declared, behind that of the program instance or the function that it stands in.
    fn named(&self, outer: Option<Name>, name: Name) -> SlotName<'a> {
        SlotName {
            instance: match outer {
                Some(outer) => Some(self.declared(outer)),
                None => None,
            },
            variable: self.declared(name),
        }
    }

    /// A name as declared.
    fn declared(&self, name: Name) -> DeclaredName<'a> {
        DeclaredName {
            bytes: name.text(self.plan.text()),
        }
    }
}

/// The name of a function's variable of this number: its inputs count first, then its result and
/// its VAR.
pub fn name_in(function: &UserFunction, own: usize) -> Option<Name> {
    match own.checked_sub(function.inputs().len()) {
        Some(other) => Some(function.variables().get(other)?.name),
        None => Some(function.inputs().get(own)?.name),
    }
}
