// How a product of too great a degree was met.
ghost use Rattle.std.specs.Prelude.{◌≡◌};
ghost use Rattle.module_vectors.specs.declared.trail.WorkStop.TheVariants.{Memory};

use crate::{NoMemory, Ring, Vect, VectList};
use monomial_orders::Mono;
use std::alloc::{AllocError, AllocFailed};

/// Where the first product of a trail comes from.
#[derive(Clone, Copy, Debug, PartialEq, Eq)]
pub enum TrailStart {
    /// Its lead is the least common multiple of the leads of these two members.
    Pair(u64, u64),
    /// Its lead is a monomial of the trail's vector.
    Term,
    /// It is the only product, by a monomial of the trail's vector.
    Product,
}

/// A chain of products of terms and members that leads to one of a degree above 65,535.
pub struct KeptTrail {
    /// The ring in which the products were made.
    pub ring: Ring,
    /// The rank and the generators of the run, and 0 and none outside a run.
    pub rank: u128,
    pub generators: VectList,
    /// In a resolution the columns of the maps that induce the order of the leads; else none.
    pub below: Vec<VectList>,
    pub start: TrailStart,
    /// What was divided or multiplied; zero where the trail starts with a pair.
    pub vector: Vect,
    pub members: VectList,
    /// Each (k, t) stands for the product of the monomial t and member k.
    pub products: Vec<(u64, Mono)>,
    /// A monomial of the last product's member, too great for the last t.
    pub last: Mono,
}

impl KeptTrail {
    /// The products, and the monomial that is too great for the last of them.
    pub fn into_chain(self) -> (Vec<(u64, Mono)>, Mono)
        ensures products { result.0 ≡ self.products }
        ensures last { result.1 ≡ self.last }
    {
        let KeptTrail {
            ring: _,
            rank: _,
            generators: _,
            below: _,
            start: _,
            vector: _,
            members: _,
            products,
            last,
        } = self;
        (products, last)
    }
}

// By hand, so that each drop of one is a call.
impl Drop for KeptTrail {
    fn drop(self) {
        let KeptTrail {
            ring: _,
            rank: _,
            generators: _,
            below: _,
            start: _,
            vector: _,
            members: _,
            products: _,
            last: _,
        } = self;
    }
}

/// Why a piece of work was not done.
#[derive(Drop)]
pub enum WorkStop {
    /// There was no memory.
    Memory,
    /// A product of a degree above 65,535 was needed.
    Degree(KeptTrail),
}

impl From<AllocError> for WorkStop {
    ghost from_gives = { λ _ stop. stop ≡ Memory };

    fn from(_error: AllocError) -> WorkStop {
        WorkStop::Memory
    }
}

impl<T: Drop> From<AllocFailed<T>> for WorkStop {
    ghost from_gives = { λ _ stop. stop ≡ Memory };

    fn from(_error: AllocFailed<T>) -> WorkStop {
        WorkStop::Memory
    }
}

impl From<NoMemory> for WorkStop {
    ghost from_gives = { λ _ stop. stop ≡ Memory };

    fn from(_error: NoMemory) -> WorkStop {
        WorkStop::Memory
    }
}
