// What the members of a run share.
ghost use Rattle.member_products.specs.Generators.{AreGenerators};
ghost use Rattle.member_products.specs.Propositions.{AreGenerators-prop};

use module_vectors::{Ring, VectList};

/// The ring, the rank of the free module and the generators of a run. The generators are vectors of this ring, in its own
/// order, with positions below the rank.
pub struct Shared {
    pub ring: Ring,
    pub rank: u128,
    pub generators: VectList,
    pub ghost vectors: { AreGenerators ring rank generators } by { AreGenerators-prop ring rank generators },
}

// By hand, so that each drop of one is a call.
impl Drop for Shared {
    fn drop(self) {
        let Shared {
            ring: _,
            rank: _,
            generators: _,
        } = self;
    }
}
