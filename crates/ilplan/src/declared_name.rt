//! Names as they are printed.

use std::fmt;

/// A name, as declared.
#[derive(Clone, Copy)]
pub struct DeclaredName<'a> {
    /// Its bytes in the text.
    pub bytes: &'a [u8],
}

/// Each byte as the character of its code: names are ASCII.
impl fmt::Display for DeclaredName<'_> {
    ghost use Rattle.std.specs.Prelude.{Some};
    ghost use Rattle.ilplan.specs.Printed.{printed_name};

    ghost output = { λ n. Some (printed_name n.bytes.now) };

    fn fmt<W: fmt::Write>(&self, f: &mut fmt::Formatter<W>) -> fmt::Result {
        for byte in self.bytes {
            write!(f, "{}", char::from(*byte))?;
        }
        Ok(())
    }
}

/// The name of a slot, as declared: `instance.variable`, and of a global variable its name alone.
#[derive(Clone, Copy)]
pub struct SlotName<'a> {
    /// The program instance's, where it is a variable of one.
    pub instance: Option<DeclaredName<'a>>,
    pub variable: DeclaredName<'a>,
}

impl fmt::Display for SlotName<'_> {
    ghost use Rattle.std.specs.Prelude.{Some, option_map};
    ghost use Rattle.ilplan.specs.Printed.{printed_slot};

    ghost output = { λ n. Some (printed_slot (option_map (λ name. name.bytes.now) n.instance)
        n.variable.bytes.now) };

    fn fmt<W: fmt::Write>(&self, f: &mut fmt::Formatter<W>) -> fmt::Result {
        match self.instance {
            Some(instance) => write!(f, "{instance}.{}", self.variable),
            None => write!(f, "{}", self.variable),
        }
    }
}
