//! What is kept under the names or the labels of a text.

use indexmap::IndexMap;
use std::alloc::{AllocError, Global};
use std::marker::Model;

/// What is kept under different names in lower case, found by hashing.
#[derive(Drop)]
pub struct Names<T> {
    entries: IndexMap<Vec<u8>, T>,
}

impl<T> Model for Names<T> {
    ghost use Rattle.std.specs.Prelude.{map};
    ghost use Rattle.ildeclared.specs.Kept.{Kept};

    ghost Value = { Kept T };

    ghost view = { λ n. map (λ entry. (entry.0.items, entry.1)) n.entries.entries };
}

impl<T: Copy> Names<T> {
    ghost use Rattle.std.specs.Prelude.{◌≡◌, ◌↔◌, [], ◌∷◌, ◌++◌, bytes_eq};
    ghost use Rattle.std.specs.Prelude.{None, OnErr, OnOk, IfOk, IsNone, IsTrue};
    ghost use Rattle.std.specs.Map.{lookup};
    ghost use Rattle.ildeclared.specs.Kept.{KeepsToo};

    /// Nothing.
    pub fn new(alloc: Global) -> Names<T>
        ensures { result ≡ [] }
    {
        Names {
            entries: IndexMap::new(alloc),
        }
    }

    /// What is kept under the name `key`, which is in lower case.
    pub fn get(&self, key: &[u8]) -> Option<T>
        ensures { result ≡ lookup (bytes_eq key.now) self.now }
    {
        self.entries.get(key).copied()
    }

    /// Keeps `value` under the name `key`, which is in lower case, where the name is new, and says
    /// whether it was.
    pub fn add(&mut self, alloc: Global, key: &[u8], value: T) -> Result<bool, AllocError>
        ensures kept { OnOk result (KeepsToo key.now value self.old self.new) }
        ensures new { IfOk result (λ new.
            IsTrue new ↔ IsNone (lookup (bytes_eq key.now) self.old)) }
        ensures err { OnErr result (self.new ≡ self.old) }
    {
        if self.get(key).is_some() {
            return Ok(false);
        }
        self.push(alloc, key, value)?;
        Ok(true)
    }

    /// Keeps `value` under the name `key`, which is new.
    fn push(&mut self, alloc: Global, key: &[u8], value: T) -> Result<(), AllocError>
        requires { lookup (bytes_eq key.now) self.old ≡ None }
        ensures ok { OnOk result (KeepsToo key.now value self.old self.new) }
        ensures err { OnErr result (self.new ≡ self.old) }
    {
        self.entries.insert(Vec::from_slice(alloc, key)?, value)?;
        Ok(())
    }
}
