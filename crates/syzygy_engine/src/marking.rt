// The list of the run: each vector with a mark of its own.
ghost use Rattle.std.specs.Prelude.{◌≡◌, ◌<◌, ◌++◌, ◌∷◌, [], IfOk};
ghost use Rattle.monomials.specs.Exponents.{unit};
ghost use Rattle.term_lists.specs.Rings.{ring_comparison, variables};
ghost use Rattle.term_lists.specs.Vectors.{AreTermsOver, AreVectorsOver, IsVectorOver, StandsFor, sum_of};
ghost use Rattle.syzygy_engine.specs.Marking.{AreMarked, position_ring};

use module_vectors::{Key, NoMemory, Ring, Vect, VectList};
use monomial_orders::{ModOrder, Mono};
use std::alloc::Global;

/// The first position behind those of this rank: that of the first mark.
pub fn first_mark(rank: u128) -> u64
    requires { rank < 9223372036854775808 }
    ensures { result ≡ rank }
{
    rank as u64
}

/// The ring with its order of monomials, position over term.
pub fn by_position(alloc: Global, ring: &Ring) -> Result<Ring, NoMemory>
    ensures { IfOk result (λ r. r ≡ position_ring ring.now) }
{
    Ok(Ring {
        modulus: ring.modulus,
        vars: ring.vars.try_copy(alloc)?,
        order: ring.order,
        module_order: ModOrder::Pot,
        weights: ring.weights.try_copy(alloc)?,
    })
}

// The terms of a vector again, with room for one more.
fn terms_with_room(alloc: Global, v: &Vect) -> Result<Vec<(Key, u32)>, NoMemory>
    ensures { IfOk result (λ terms. terms.items ≡ v.now) }
{
    let mut terms = Vec::with_capacity(alloc, v.terms().len() + 1)?;
    for term in v.terms() {
        terms.push((term.0.try_copy(alloc)?, term.1))?;
    }
    Ok(terms)
}

// The terms of a vector, and behind them 1 at this position: each is copied once.
fn marked_terms(
    alloc: Global,
    ring: &Ring,
    v: &Vect,
    position: u64,
) -> Result<Vec<(Key, u32)>, NoMemory>
    requires { AreTermsOver ring.now v.now }
    ensures terms { IfOk result (λ terms. AreTermsOver ring.now terms.items) }
    ensures sum { let n = variables ring.now in IfOk result (λ terms. sum_of n terms.items ≡ sum_of n v.now ++ ((position, unit n), 1) ∷ []) }
{
    ring.modulus.domain();
    let mut terms = terms_with_room(alloc, v)?;
    let key = Key {
        position,
        monomial: Mono::unit(alloc, ring.vars.len())?,
    };
    terms.push((key, 1))?;
    Ok(terms)
}

// The vector with 1 at this position added to it.
fn marked_vector(alloc: Global, ring: &Ring, v: &Vect, position: u64) -> Result<Vect, NoMemory>
    requires { AreTermsOver ring.now v.now }
    ensures vector { IfOk result (IsVectorOver ring.now (ring_comparison ring.now)) }
    ensures sum { let n = variables ring.now in IfOk result (λ u. StandsFor ring.now u (sum_of n v.now ++ ((position, unit n), 1) ∷ [])) }
{
    let terms = marked_terms(alloc, ring, v, position)?;
    Vect::from_terms(alloc, ring, terms)
}

/// The vectors of the list, each with 1 at a position of its own from `rank` on. `by_position` is the ring, position over
/// term.
pub(crate) fn marked_list(
    alloc: Global,
    ring: &Ring,
    by_position: &Ring,
    rank: u64,
    list: &VectList,
) -> Result<VectList, NoMemory>
    requires by_position { by_position.now ≡ position_ring ring.now }
    requires vectors { AreVectorsOver ring.now (ring_comparison ring.now) list.now }
    requires room { rank < 9223372036854775808 }
    ensures { IfOk result (AreMarked ring.now rank list.now) }
{
    let mut marked = Vec::with_capacity(alloc, list.len())?;
    for i in 0..list.len() {
        let v = &list.as_slice()[i];
        marked.push(marked_vector(alloc, by_position, v, rank + i as u64)?)?;
    }
    Ok(VectList::from_vec(marked))
}
