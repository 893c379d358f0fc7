//! A set of addresses of levels.
ghost use Rattle.std.specs.Prelude.{◌≡◌, ◌≢◌, ℕ, ◌<◌, ◌≤◌, MatchOption};
ghost use Rattle.std.specs.Int.{bit_at};
ghost use Rattle.plantbuses.specs.AddressSets.{IsLeast, HasNone, one_if};

use std::marker::Model;

/// A set of addresses, 0 to 80, each a bit.
#[derive(Clone, Copy)]
pub(crate) struct AddressSet {
    bits: u128,
}

impl Model for AddressSet {
    ghost use Rattle.std.specs.Prelude.{ℕ};
    ghost use Rattle.plantbuses.specs.AddressSets.{HasNoOther};

    ghost Value = { ℕ };

    ghost view = { λ s. s.bits };

    ghost invariant = { λ s. HasNoOther s.bits };

    ghost inverse = { λ bits. record { bits = bits } };
}

impl AddressSet {
    /// No address.
    pub fn new() -> AddressSet
        ensures none { (a : ℕ) → bit_at result a ≡ 0 }
    {
        AddressSet { bits: 0 }
    }

    /// Puts an address in, or takes it out.
    pub fn note(&mut self, address: u8, is_in: bool)
        requires address { address ≤ 80 }
        ensures here { bit_at self.new address ≡ one_if is_in }
        ensures others { (a : ℕ) → a < 128 → a ≢ address
            → bit_at self.new a ≡ bit_at self.old a }
    {
        let bit = 1u128 << address;
        if is_in {
            self.bits |= bit;
        } else {
            self.bits &= !bit;
        }
    }

    /// The least address.
    pub fn least(&self) -> Option<u8>
        ensures least { MatchOption result (HasNone self.now) (IsLeast self.now) }
    {
        if self.bits == 0 {
            return None;
        }
        Some(self.bits.trailing_zeros() as u8)
    }
}
