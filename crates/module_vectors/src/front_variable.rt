// One more variable in front.
ghost use Rattle.std.specs.Prelude.{◌≡◌, ◌<◌, ◌++◌, ◌∷◌, [], IfOk, IfErr, OnOk, length, slice_index};
ghost use Rattle.monomials.specs.Exponents.{exponents_of};
ghost use Rattle.formal_sums.specs.FormalSums.{Each, scale};
ghost use Rattle.term_lists.specs.FrontVariables.{HaveNoFront, with_front, without_front};
ghost use Rattle.term_lists.specs.Rings.{ring_comparison, variables};
ghost use Rattle.term_lists.specs.Stops.{Fits, ScaledStops};
ghost use Rattle.term_lists.specs.Vectors.{AreTermsOver, IsMonomialOver, IsVectorOver, StandsFor, sum_of};

use crate::{Frame, Key, NoMemory, Ring, Vect, VectStop};
use monomial_orders::Mono;
use std::alloc::Global;
use term_lists::scaled_terms;

// The terms in one more variable, which they have not.
fn terms_with_front(alloc: Global, terms: &[(Key, u32)]) -> Result<Vec<(Key, u32)>, NoMemory>
    ensures { IfOk result (λ more. more.items ≡ with_front terms.now) }
{
    let mut more = Vec::with_capacity(alloc, terms.len())?;
    for term in terms {
        let monomial = term.0.monomial.with_front(alloc)?;
        let position = term.0.position;
        more.push_reserved((Key { position, monomial }, term.1));
    }
    Ok(more)
}

// The term without the first variable, which it has not. It is moved.
fn term_without_front(alloc: Global, term: (Key, u32)) -> Result<(Key, u32), NoMemory>
    requires variables { 0 < length term.0.monomial.exponents }
    requires none { slice_index term.0.monomial.exponents 0 ≡ 0 }
    ensures { IfOk result (λ t. t ∷ [] ≡ without_front (term ∷ [])) }
{
    let (key, residue) = term;
    let position = key.position;
    let monomial = key.into_monomial().without_front(alloc)?;
    Ok((Key { position, monomial }, residue))
}

// The terms without the first variable, which they have not. They are moved.
fn terms_without_front(alloc: Global, terms: Vec<(Key, u32)>) -> Result<Vec<(Key, u32)>, NoMemory>
    requires variables { Each (λ t. 0 < length t.0.monomial.exponents) terms.items }
    requires none { HaveNoFront terms.items }
    ensures { IfOk result (λ fewer. fewer.items ≡ without_front terms.items) }
{
    let mut fewer = Vec::with_capacity(alloc, terms.len())?;
    for term in terms {
        fewer.push(term_without_front(alloc, term)?)?;
    }
    Ok(fewer)
}

// The terms of the one list, which are moved, and then those of the other.
fn followed(
    alloc: Global,
    first: Vec<(Key, u32)>,
    more: &[(Key, u32)],
) -> Result<Vec<(Key, u32)>, NoMemory>
    ensures { IfOk result (λ all. all.items ≡ first.items ++ more.now) }
{
    let mut all = first;
    all.reserve(more.len())?;
    for term in more {
        all.push((term.0.try_copy(alloc)?, term.1))?;
    }
    Ok(all)
}

impl Vect {
    /// The vector as one of the ring `front`, which has one more variable in front. Each monomial has that with the exponent 0.
    pub fn with_front(alloc: Global, front: &Ring, v: &Vect) -> Result<Vect, NoMemory>
        requires { AreTermsOver front.now (with_front v.now) }
        ensures vector { IfOk result (λ u. IsVectorOver front.now (ring_comparison front.now) u) }
        ensures sum { IfOk result (λ u. StandsFor front.now u (sum_of (variables front.now) (with_front v.now))) }
    {
        Vect::from_terms(alloc, front, terms_with_front(alloc, v.terms())?)
    }

    /// A vector of the ring with one more variable in front, which it has not, as one of this ring: its terms are moved, each
    /// without its first exponent, and sorted where this ring's order is another.
    pub fn without_front(alloc: Global, ring: &Ring, v: Vect) -> Result<Vect, NoMemory>
        requires variables { Each (λ t. 0 < length t.0.monomial.exponents) v }
        requires none { HaveNoFront v }
        requires terms { AreTermsOver ring.now (without_front v) }
        ensures vector { IfOk result (λ u. IsVectorOver ring.now (ring_comparison ring.now) u) }
        ensures sum { IfOk result (λ u. StandsFor ring.now u (sum_of (variables ring.now) (without_front v))) }
    {
        Vect::from_terms(alloc, ring, terms_without_front(alloc, v.into_terms())?)
    }

    /// c t v + v, for a residue c that is not 0 and a monomial t: the terms of c t v and then those of v, so that nothing is
    /// sorted where all of c t v are above all of v.
    ///
    /// `Degree` exactly where t times a monomial of v has a degree above 65,535; it carries the two. `Memory` where there
    /// is none.
    pub fn multiple_and_itself<F: Frame>(
        alloc: Global,
        frame: &F,
        c: u32,
        t: &Mono,
        v: &Vect,
    ) -> Result<Vect, VectStop>
        requires nonzero { 0 < c }
        requires factor { c < (F.over frame.now).modulus.value }
        requires variables { IsMonomialOver (F.over frame.now) t.now }
        requires vector { IsVectorOver (F.over frame.now) (F.compare frame.now) v.now }
        ensures vector { IfOk result (λ u. IsVectorOver (F.over frame.now) (F.compare frame.now) u) }
        ensures sum { let n = variables (F.over frame.now) in
            IfOk result (λ u. StandsFor (F.over frame.now) u (scale c (exponents_of n t.now.exponents) (sum_of n v.now) ++ sum_of n v.now)) }
        ensures fits { OnOk result (Fits t.now v.now) }
        ensures stop { IfErr result (ScaledStops c t.now v.now) }
    {
        let multiple = scaled_terms(alloc, frame, c, t, v.terms())?;
        let terms = followed(alloc, multiple, v.terms())?;
        Ok(Vect::from_terms(alloc, frame, terms)?)
    }
}
