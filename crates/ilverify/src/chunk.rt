//! A part of what is known of the slots, which several entries may share.

ghost use Rattle.std.specs.Prelude.{◌≡◌, ◌<◌, length, slice_get, slice_set, Some};
ghost use Rattle.std.specs.Prelude.{IfOk, OnOk, OnErr, MatchOption};
ghost use Rattle.std.specs.List.{AllZip};

use crate::joins::{are_within, joins};
use crate::known::Known;
use std::alloc::{AllocError, Global};
use std::marker::Model;
use std::rc::Rc;

/// What is known of some slots in a row.
#[derive(Drop)]
pub(crate) struct Chunk {
    items: Rc<Vec<Known>>,
}

impl Model for Chunk {
    ghost use Rattle.std.specs.Prelude.{List};
    ghost use Rattle.ilverify.specs.declared.known.Known.{Known};

    ghost Value = { List Known };

    ghost view = { λ c. c.items.value.items };
}

impl Chunk {
    ghost use Rattle.ilverify.specs.Joins.{AreJoins, IsHeld};

    /// The same as the list.
    pub(crate) fn new(alloc: Global, items: &[Known]) -> Result<Chunk, AllocError>
        ensures { IfOk result (λ c. c ≡ items.now) }
    {
        let items = Vec::from_slice(alloc, items)?;
        Ok(Chunk {
            items: Rc::new(alloc, items)?,
        })
    }

    /// What is known of the slot that stands there.
    pub(crate) fn get(&self, at: usize) -> Known
        requires { at < length self.now }
        ensures { slice_get self.now at ≡ Some result }
    {
        self.items[at]
    }

    /// The slot that stands there is known so from now on. Only a part that no other entry shares
    /// is changed: else a copy of it.
    pub(crate) fn set(&mut self, at: usize, known: Known) -> Result<(), AllocError>
        requires { at < length self.old }
        ensures ok { OnOk result (self.new ≡ slice_set self.old at known) }
        ensures err { OnErr result (self.new ≡ self.old) }
    {
        let items = Rc::make_mut(&mut self.items)?;
        items[at] = known;
        Ok(())
    }

    /// The same, shared.
    pub(crate) fn share(&self) -> Result<Chunk, AllocError>
        ensures { IfOk result (λ c. c ≡ self.now) }
    {
        Ok(Chunk {
            items: self.items.clone()?,
        })
    }

    /// What is known where two ways meet, of as many slots on either, shared with the way that says
    /// the less, if one says no more than the other; `None` where nothing holds both.
    pub(crate) fn join(&self, alloc: Global, other: &Chunk) -> Result<Option<Chunk>, AllocError>
        requires { length self.now ≡ length other.now }
        ensures { IfOk result (λ made. MatchOption made
            (¬ AllZip IsHeld self.now other.now)
            (λ c. AreJoins self.now other.now c)) }
    {
        if are_within(&other.items, &self.items) {
            return Ok(Some(self.share()?));
        }
        if are_within(&self.items, &other.items) {
            return Ok(Some(other.share()?));
        }
        let Some(items) = joins(alloc, &self.items, &other.items)? else {
            return Ok(None);
        };
        Ok(Some(Chunk {
            items: Rc::new(alloc, items)?,
        }))
    }
}
