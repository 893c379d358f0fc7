//! Parentheses that are open, as far as they are known.

ghost use Rattle.std.specs.Prelude.{◌≡◌, [], ◌∷◌, drop, length, slice_get, IfOk, OnErr};
ghost use Rattle.std.specs.Prelude.{OnOk};

use crate::known::Known;
use iltypes::Operator;
use std::alloc::{AllocError, Global};
use std::marker::Model;

/// An open parenthesis (IEC 61131-3, 3.2.2): the operator before it, and what is known of the
/// result that the operator waits with.
#[derive(Clone, Copy)]
pub struct KnownOpened {
    pub operator: Operator,
    pub saved: Known,
}

/// The parentheses that are open, the innermost first.
#[derive(Drop)]
pub struct OpenParentheses {
    items: Vec<KnownOpened>,
}

impl Model for OpenParentheses {
    ghost use Rattle.std.specs.Prelude.{List, reverse};
    ghost use Rattle.ilverify.specs.declared.nesting.KnownOpened.{KnownOpened};

    ghost Value = { List KnownOpened };

    ghost view = { λ n. reverse n.items.items };
}

impl OpenParentheses {
    /// Nothing is open.
    pub fn new(alloc: Global) -> OpenParentheses
        ensures { result ≡ [] }
    {
        OpenParentheses {
            items: Vec::new(alloc),
        }
    }

    /// How many parentheses are open.
    pub fn len(&self) -> usize
        ensures { result ≡ length self.now }
    {
        self.items.len()
    }

    /// The innermost, where something is open.
    pub fn innermost(&self) -> Option<KnownOpened>
        ensures value { result ≡ slice_get self.now 0 }
    {
        self.items.last().copied()
    }

    /// One more is open.
    pub fn open(&mut self, opened: KnownOpened) -> Result<(), AllocError>
        ensures ok { OnOk result (self.new ≡ opened ∷ self.old) }
        ensures err { OnErr result (self.new ≡ self.old) }
    {
        self.items.push(opened)?;
        Ok(())
    }

    /// The innermost, where something is open, is open no more.
    pub fn close(&mut self)
        ensures { self.new ≡ drop 1 self.old }
    {
        let _ = self.items.pop();
    }

    /// The same.
    pub fn share(&self) -> Result<OpenParentheses, AllocError>
        ensures { IfOk result (λ nesting. nesting ≡ self.now) }
    {
        Ok(OpenParentheses {
            items: self.items.clone()?,
        })
    }
}
