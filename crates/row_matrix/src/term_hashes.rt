// The hashes of the keys of a vector's terms.
ghost use Rattle.std.specs.Prelude.{◌≡◌, ◌<◌, [], length, IfOk};
ghost use Rattle.row_matrix.specs.Told.{AreHashesOf};

use crate::hash_of_key;
use module_vectors::{Key, NoMemory};
use std::alloc::Global;
use std::marker::Model;

/// The hashes of the keys of terms, in their order, and a position and a degree that are no less than that of each key.
pub struct TermHashes {
    hashes: Vec<u64>,
    position: u64,
    degree: u128,
}

// By hand, so that each drop of one is a call.
impl Drop for TermHashes {
    fn drop(self) {
        let TermHashes {
            hashes: _,
            position: _,
            degree: _,
        } = self;
    }
}

impl Model for TermHashes {
    ghost use Rattle.std.specs.Prelude.{◌<◌};
    ghost use Rattle.row_matrix.specs.Told.{HashesShown};

    ghost Value = { HashesShown };

    ghost view = { λ h. record { hashes = h.hashes.items; position = h.position; degree = h.degree } };

    ghost invariant = { λ h. h.degree < 4294967296 };
}

impl TermHashes {
    /// Those of no terms.
    pub fn new(alloc: Global) -> TermHashes
        ensures { result.hashes ≡ [] }
    {
        TermHashes {
            hashes: Vec::new(alloc),
            position: 0,
            degree: 0,
        }
    }

    /// Those of the keys of these terms.
    pub fn of(alloc: Global, terms: &[(Key, u32)]) -> Result<TermHashes, NoMemory>
        ensures { IfOk result (λ h. AreHashesOf h terms.now) }
    {
        let mut hashes = Vec::with_capacity(alloc, terms.len())?;
        let mut position = 0;
        let mut degree = 0;
        for term in terms {
            let key = &term.0;
            key.monomial.bounds();
            hashes.push_reserved(hash_of_key(key));
            position = key.position.max(position);
            degree = key.monomial.degree().max(degree);
        }
        Ok(TermHashes {
            hashes,
            position,
            degree,
        })
    }

    /// How many terms there are.
    pub fn len(&self) -> usize
        ensures { result ≡ length self.now.hashes }
    {
        self.hashes.len()
    }

    /// The hashes.
    pub(crate) fn hashes(&self) -> &[u64]
        ensures { result.now ≡ self.now.hashes }
    {
        &self.hashes
    }

    /// No position is greater.
    pub(crate) fn position(&self) -> u64
        ensures { result ≡ self.now.position }
    {
        self.position
    }

    /// No degree is greater.
    pub(crate) fn degree(&self) -> u128
        ensures value { result ≡ self.now.degree }
        ensures small { result < 4294967296 }
    {
        self.degree
    }
}
