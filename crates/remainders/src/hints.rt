// Hints of keys by what each variable adds to them.
use module_vectors::{Frame, Key, NoMemory, Ring};
use monomial_orders::Mono;
use std::alloc::Global;

// Of lower degrees no digit of a hint overflows.
const LOW_DEGREE: u128 = 64;

/// The hint of the key 1, and what a step of the position and each variable add to it: of keys of low degree hints are linear, but for
/// bits that a position pushes out.
pub(crate) struct KeyHints {
    first: u64,
    position: u64,
    variables: Vec<u64>,
}

// By hand, so that each drop of one is a call.
impl Drop for KeyHints {
    fn drop(self) {
        let KeyHints {
            first: _,
            position: _,
            variables: _,
        } = self;
    }
}

impl KeyHints {
    /// The hints of this ring.
    pub(crate) fn of(alloc: Global, ring: &Ring) -> Result<KeyHints, NoMemory> {
        let count = ring.weights.len();
        let mut key = Key {
            position: 0,
            monomial: Mono::unit(alloc, count)?,
        };
        let first = ring.hint(&key);
        key.position = 1;
        let position = ring.hint(&key).wrapping_sub(first);
        key.position = 0;
        let mut variables = Vec::with_capacity(alloc, count)?;
        for i in 0..count {
            key.monomial = Mono::variable(alloc, &ring.weights, i)?;
            variables.push(ring.hint(&key).wrapping_sub(first))?;
        }
        Ok(KeyHints {
            first,
            position,
            variables,
        })
    }

    /// The hint of a key, mostly.
    pub(crate) fn hint(&self, ring: &Ring, key: &Key) -> u64 {
        if key.monomial.degree() >= LOW_DEGREE {
            return ring.hint(key);
        }
        let mut sum = self
            .first
            .wrapping_add(self.position.wrapping_mul(key.position));
        let exponents = key.monomial.exponents();
        for i in 0..exponents.len().min(self.variables.len()) {
            sum = sum.wrapping_add(self.variables[i].wrapping_mul(u64::from(exponents[i])));
        }
        sum
    }
}
