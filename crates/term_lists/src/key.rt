// Module monomials.
ghost use Rattle.std.specs.Prelude.{◌≡◌, ◌≤◌, ◌↔◌, IsTrue, IsOk, IfOk, length};

use crate::NoMemory;
use monomial_orders::Mono;
use std::alloc::Global;

/// A module monomial: a monomial at a position of a free module, counted from 0, of which the first is the greatest.
pub struct Key {
    pub position: u64,
    pub monomial: Mono,
}

// By hand, so that each drop of one is a call.
impl Drop for Key {
    fn drop(self) {
        let Key {
            position: _,
            monomial: _,
        } = self;
    }
}

impl Key {
    /// The monomial alone, without taking memory.
    pub fn into_monomial(self) -> Mono
        ensures { result ≡ self.monomial }
    {
        let Key {
            position: _,
            monomial,
        } = self;
        monomial
    }

    /// The same key again. `NoMemory` over more than 16 variables alone.
    pub fn try_copy(&self, alloc: Global) -> Result<Key, NoMemory>
        ensures ok { IfOk result (λ key. key ≡ self.now) }
        ensures no_memory { length self.now.monomial.exponents ≤ 16 → IsOk result }
    {
        Ok(Key {
            position: self.position,
            monomial: self.monomial.try_copy(alloc)?,
        })
    }

    /// Are the two one key? No memory.
    pub fn equal(&self, other: &Key) -> bool
        ensures { IsTrue result ↔ (self.now ≡ other.now) }
    {
        if self.position != other.position {
            return false;
        }
        self.monomial.equal(&other.monomial)
    }
}
