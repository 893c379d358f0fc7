//! The pass as its callers see it: what is known before the word that comes.

ghost use Rattle.std.specs.Prelude.{◌≡◌, ◌<◌, ◌≤◌, length, IfOk, Option, Some, option_copied};
ghost use Rattle.ilverify.specs.declared.entry.Entry.{Entry};
ghost use Rattle.ilverify.specs.BeforeWords.{IsKnownBefore};

use crate::entry::Entry;
use crate::pass::begin;
use ilcode::Code;
use std::alloc::{AllocError, Global};
use std::marker::Model;

/// One pass forward over the words of a code, before the word that comes.
#[derive(Drop)]
pub struct Pass<'c> {
    pub(crate) code: &'c Code,
    pub(crate) place: usize,
    pub(crate) pending: Vec<Option<Entry>>,
}

impl<'c> Model for Pass<'c> {
    ghost use Rattle.std.specs.Prelude.{◌≤◌, length, None, get_or};
    ghost use Rattle.ilverify.specs.BeforeWords.{BeforeWord};
    ghost use Rattle.ilverify.specs.PassSteps.{IsFound};

    ghost Value = { BeforeWord };

    ghost view = { λ p. record {
      code = p.code.now;
      place = p.place;
      entry = get_or p.pending.items p.place None;
    } };

    ghost invariant = { λ p. IsFound p.code.now p.place p.pending.items
        × (p.place ≤ length p.code.now.instructions) };
}

impl<'c> Pass<'c> {
    /// The pass before the first word of a code.
    ///
    /// # Errors
    ///
    /// The allocator is out of memory.
    pub fn begin(alloc: Global, code: &'c Code) -> Result<Pass<'c>, AllocError>
        ensures code { IfOk result (λ pass. pass.code ≡ code.now) }
        ensures first { IfOk result (λ pass. pass.place ≡ 0) }
    {
        let pending = begin(alloc, code)?;
        Ok(Pass {
            code,
            place: 0,
            pending,
        })
    }

    /// The place of the word that comes, counted from 0; that behind the last word where none
    /// comes.
    pub fn place(&self) -> usize
        ensures value { result ≡ self.now.place }
        ensures within { result ≤ length self.now.code.instructions }
    {
        self.place
    }

    /// What is known before the word that comes; nothing where no scan reaches it.
    pub fn entry(&self) -> Option<&Entry>
        ensures value { option_copied result ≡ self.now.entry }
        ensures known { self.now.place < length self.now.code.instructions → IsKnownBefore self.now }
        // No other could be known there.
        ensures one { (other : Option Entry) → IsKnownBefore (record self.now { entry = other })
            → other ≡ self.now.entry }
    {
        match self.pending.get(self.place) {
            Some(entry) => entry.as_ref(),
            None => None,
        }
    }
}
