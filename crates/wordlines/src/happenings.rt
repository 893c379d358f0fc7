//! What happens on the buses of a scenario.

ghost use Rattle.std.specs.Prelude.{◌≡◌};
ghost use Rattle.wordlines.specs.Happenings.{happening_of};

use crate::statements::Statement;
use daliframe::{BusNumber, Frame24};
use std::marker::Model;

/// What happens by a line of a scenario.
#[derive(Clone, Copy)]
pub enum Happening {
    /// The clock comes to this moment, in milliseconds.
    Tick { moment: u64 },
    /// A frame of a control device comes on a bus.
    Event { bus: BusNumber, frame: Frame24 },
    /// The next hear on a bus fails.
    HearFault { bus: BusNumber },
}

/// What happens on the buses of a scenario and is still to be read, in order.
#[derive(Drop)]
pub struct Happenings<'a> {
    rest: &'a [Statement],
}

impl<'a> Model for Happenings<'a> {
    ghost use Rattle.std.specs.Prelude.{List};
    ghost use Rattle.wordlines.specs.Happenings.{happenings};
    ghost use Rattle.wordlines.specs.declared.happenings.Happening.{Happening};

    ghost Value = { List Happening };

    ghost view = { λ h. happenings h.rest.now };
}

impl<'a> Happenings<'a> {
    ghost use Rattle.std.specs.Prelude.{◌≡◌, ◌∷◌, [], MatchOption};
    ghost use Rattle.wordlines.specs.Happenings.{happenings};

    /// What happens by these statements.
    pub(crate) fn of(statements: &'a [Statement]) -> Self
        ensures { result ≡ happenings statements.now }
    {
        Happenings { rest: statements }
    }

    /// Takes what happens next, where anything is left.
    pub fn next(&mut self) -> Option<Happening>
        ensures { MatchOption result ((self.old ≡ []) × (self.new ≡ []))
            (λ happening. self.old ≡ happening ∷ self.new) }
    {
        while let [statement, rest @ ..] = self.rest {
            self.rest = rest;
            if let Some(happening) = happening_of(statement) {
                return Some(happening);
            }
        }
        None
    }
}

/// What happens by a statement.
fn happening_of(statement: &Statement) -> Option<Happening>
    ensures { result ≡ happening_of statement.now }
{
    match *statement {
        Statement::Tick { moment } => Some(Happening::Tick { moment }),
        Statement::Event { bus, frame } => Some(Happening::Event { bus, frame }),
        Statement::HearFault { bus } => Some(Happening::HearFault { bus }),
        _ => None,
    }
}
