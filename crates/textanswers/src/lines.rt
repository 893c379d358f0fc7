//! The lines that answers are printed as.

ghost use Rattle.std.specs.Prelude.{Some};
ghost use Rattle.textanswers.specs.Printed.{printed_task, printed_scan, printed_variable};

use ilplan::SlotName;
use iltypes::Value;
use std::fmt;

/// An accepted task: the words of its code, and the greatest number of them in a scan.
#[derive(Clone, Copy)]
pub struct TaskLine<'a> {
    pub name: &'a str,
    pub words: usize,
    pub bound: u32,
}

/// A scan, counted from 0: its steps, and the greatest number of them.
#[derive(Clone, Copy)]
pub struct ScanLine {
    pub number: usize,
    pub steps: u32,
    pub bound: u32,
}

/// A variable with its value.
#[derive(Clone, Copy)]
pub struct VariableLine<'a> {
    pub name: SlotName<'a>,
    pub value: Value,
}

impl fmt::Display for TaskLine<'_> {
    ghost output = { λ line. Some (printed_task line.name.now line.words line.bound) };

    fn fmt<W: fmt::Write>(&self, f: &mut fmt::Formatter<W>) -> fmt::Result {
        write!(
            f,
            "task {} words {} bound {}",
            self.name, self.words, self.bound
        )
    }
}

impl fmt::Display for ScanLine {
    ghost output = { λ line. Some (printed_scan line.number line.steps line.bound) };

    fn fmt<W: fmt::Write>(&self, f: &mut fmt::Formatter<W>) -> fmt::Result {
        write!(
            f,
            "scan {} steps {} bound {}",
            self.number, self.steps, self.bound
        )
    }
}

impl fmt::Display for VariableLine<'_> {
    ghost use Rattle.std.specs.Prelude.{Some, option_map};

    ghost output = { λ line. Some (printed_variable
        (option_map (λ name. name.bytes.now) line.name.instance) line.name.variable.bytes.now
        line.value) };

    fn fmt<W: fmt::Write>(&self, f: &mut fmt::Formatter<W>) -> fmt::Result {
        write!(f, "{} = {}", self.name, self.value)
    }
}
