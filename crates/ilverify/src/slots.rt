//! What is known of each slot, in parts that entries share.

ghost use Rattle.std.specs.Prelude.{◌≡◌, ◌+◌, map, slice_get, slice_set, IfOk, OnErr, OnOk};
ghost use Rattle.std.specs.Prelude.{MatchOption};
ghost use Rattle.std.specs.List.{AllZip};

use crate::chunk::Chunk;
use crate::chunks::{cut, join_each, share_each};
use crate::known::Known;
use iltypes::IlType;
use std::alloc::{AllocError, Global};
use std::marker::Model;

/// What is known of each variable of a task, by the number of its slot. Thousands of these are
/// kept at a time, and most of them differ from another in a few slots: so they stand in parts of
/// 64, and what has no change is shared.
#[derive(Drop)]
pub struct Slots {
    alloc: Global,
    chunks: Vec<Chunk>,
    len: usize,
}

impl Model for Slots {
    ghost use Rattle.std.specs.Prelude.{List, ◌≡◌, length};
    ghost use Rattle.ilverify.specs.declared.known.Known.{Known};
    ghost use Rattle.ilverify.specs.ChunkSteps.{AreChunks, whole};

    ghost Value = { List Known };

    ghost view = { λ s. whole s.chunks.items };

    ghost invariant = { λ s. AreChunks s.chunks.items × (s.len ≡ length (whole s.chunks.items)) };
}

impl Slots {
    ghost use Rattle.ilverify.specs.Knowns.{known_of_type};
    ghost use Rattle.ilverify.specs.Joins.{AreJoins, IsHeld};
    ghost use Rattle.ilverify.specs.Rules.{reset};

    /// What is known at first: that each value is of the slot's type.
    pub fn new(alloc: Global, types: &[IlType]) -> Result<Slots, AllocError>
        ensures { IfOk result (λ slots. slots ≡ map known_of_type types.now) }
    {
        let mut items = Vec::with_capacity(alloc, types.len())?;
        for declared in types {
            items.push(Known::of(*declared))?;
        }
        Ok(Slots {
            alloc,
            chunks: cut(alloc, &items)?,
            len: types.len(),
        })
    }

    /// What is known of the slot, where there is one.
    pub fn get(&self, slot: usize) -> Option<Known>
        ensures value { result ≡ slice_get self.now slot }
    {
        if slot < self.len {
            Some(self.chunks[slot / 64].get(slot % 64))
        } else {
            None
        }
    }

    /// The slot, where there is one, is known so from now on.
    pub fn set(&mut self, slot: usize, known: Known) -> Result<(), AllocError>
        ensures ok { OnOk result (self.new ≡ slice_set self.old slot known) }
        ensures err { OnErr result (self.new ≡ self.old) }
    {
        if slot < self.len {
            self.chunks[slot / 64].set(slot % 64, known)
        } else {
            Ok(())
        }
    }

    /// The slot, where there is one, is known by its type from now on. Where it is known so
    /// already, its part stays shared.
    fn declare(&mut self, types: &[IlType], slot: usize) -> Result<(), AllocError>
        ensures ok { OnOk result (self.new ≡ reset slot (slot + 1) types.now self.old) }
        ensures err { OnErr result (self.new ≡ self.old) }
    {
        let Some(declared) = type_at(types, slot) else {
            return Ok(());
        };
        self.declare_as(slot, declared)
    }

    /// The slot, where there is one, is known by this type from now on.
    fn declare_as(&mut self, slot: usize, declared: IlType) -> Result<(), AllocError>
        ensures ok { OnOk result (self.new ≡ slice_set self.old slot (known_of_type declared)) }
        ensures err { OnErr result (self.new ≡ self.old) }
    {
        match self.get(slot) {
            Some(known) if known.says(declared) => Ok(()),
            _ => self.set(slot, Known::of(declared)),
        }
    }

    /// The same, but for the slots from one number on and up to another, which are known by their
    /// types.
    fn declared(&self, types: &[IlType], from: usize, to: usize) -> Result<Slots, AllocError>
        ensures { IfOk result (λ slots. slots ≡ reset from to types.now self.now) }
    {
        let mut slots = self.share()?;
        for slot in from..to {
            slots.declare(types, slot)?;
        }
        Ok(slots)
    }

    /// The slots from one number on and up to another are known by their types from now on.
    pub fn reset(&mut self, types: &[IlType], from: usize, to: usize) -> Result<(), AllocError>
        ensures ok { OnOk result (self.new ≡ reset from to types.now self.old) }
        ensures err { OnErr result (self.new ≡ self.old) }
    {
        *self = self.declared(types, from, to)?;
        Ok(())
    }

    /// The same, shared.
    pub fn share(&self) -> Result<Slots, AllocError>
        ensures { IfOk result (λ slots. slots ≡ self.now) }
    {
        Ok(Slots {
            alloc: self.alloc,
            chunks: share_each(self.alloc, &self.chunks)?,
            len: self.len,
        })
    }

    /// What is known of each slot on either way, where two ways meet; `None` where nothing holds
    /// both, or there are more slots on one.
    pub fn join(&self, other: &Slots) -> Result<Option<Slots>, AllocError>
        ensures { IfOk result (λ made. MatchOption made
            (¬ AllZip IsHeld self.now other.now)
            (λ slots. AreJoins self.now other.now slots)) }
    {
        if self.len != other.len {
            return Ok(None);
        }
        let Some(chunks) = join_each(self.alloc, &self.chunks, &other.chunks)? else {
            return Ok(None);
        };
        Ok(Some(Slots {
            alloc: self.alloc,
            chunks,
            len: self.len,
        }))
    }
}

/// The type of the slot, where there is one.
fn type_at(types: &[IlType], slot: usize) -> Option<IlType>
    ensures { result ≡ slice_get types.now slot }
{
    types.get(slot).copied()
}
