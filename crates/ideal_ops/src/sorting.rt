// A list in the order of another ring.
ghost use Rattle.std.specs.Prelude.{◌≡◌, IfOk};
ghost use Rattle.formal_sums.specs.FormalSums.{Each};
ghost use Rattle.term_lists.specs.Rings.{ring_comparison, variables};
ghost use Rattle.term_lists.specs.Vectors.{AreTermsOver, IsVectorOver, StandsFor, sum_of, sums_of};
ghost use Rattle.syzygy_engine.specs.Runs.{AreVectorsFor};

use module_vectors::{NoMemory, Ring, Vect, VectList};
use std::alloc::Global;

/// The vector in the ring's own order, whatever the order of its terms.
pub(crate) fn sorted_vector(alloc: Global, ring: &Ring, v: &Vect) -> Result<Vect, NoMemory>
    requires { AreTermsOver ring.now v.now }
    ensures vector { IfOk result (IsVectorOver ring.now (ring_comparison ring.now)) }
    ensures sum { IfOk result (λ u. StandsFor ring.now u (sum_of (variables ring.now) v.now)) }
{
    Vect::from_terms(alloc, ring, v.try_copy(alloc)?.into_terms())
}

/// The vectors of the list in the ring's own order.
pub(crate) fn sorted_list(alloc: Global, ring: &Ring, list: &VectList) -> Result<VectList, NoMemory>
    requires { Each (AreTermsOver ring.now) list.now }
    ensures { IfOk result (AreVectorsFor ring.now (sums_of (variables ring.now) list.now)) }
{
    let mut sorted = Vec::with_capacity(alloc, list.len())?;
    for v in list.as_slice() {
        sorted.push(sorted_vector(alloc, ring, v)?)?;
    }
    Ok(VectList::from_vec(sorted))
}
