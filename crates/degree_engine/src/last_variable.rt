// One more variable at the end, and 1 put for it.
ghost use Rattle.std.specs.Prelude.{◌≡◌, ◌+◌, ◌++◌, ◌∷◌, [], IfOk, length, suc, take};
ghost use Rattle.term_lists.specs.Rings.{ring_comparison, variables};
ghost use Rattle.term_lists.specs.Vectors.{AreTermsOver, AreVectorsOver, IsMonomialOver, IsVectorOver, sum_of};
ghost use Rattle.homogeneous_laws.specs.Homogeneous.{dehomogenised};
ghost use Rattle.degree_engine.specs.LastVariables.{AreAtOne, HasOneDegree, IsAtOne, IsWithLast};

use crate::attempt::Unanswered;
use module_vectors::{Key, Names, NoMemory, Ring, Vect, VectList};
use monomial_orders::{Mono, Weights};
use std::alloc::Global;

// The names, and one more behind them: h', which is no name that a script can give.
fn names_with_last(alloc: Global, names: &Names) -> Result<Names, NoMemory>
    ensures { IfOk result (λ more. length more ≡ suc (length names.now)) }
{
    let mut more = Vec::with_capacity(alloc, names.len().saturating_add(1))?;
    for name in names.as_slice() {
        more.push(String::from_str(alloc, name)?)?;
    }
    more.push(String::from_str(alloc, "h'")?)?;
    Ok(Names::from_vec(more))
}

// The weights with the weight 1 for one more variable at the end.
fn weights_with_last(alloc: Global, weights: &Weights) -> Result<Weights, NoMemory>
    ensures { IfOk result (λ more. more ≡ weights.now ++ 1 ∷ []) }
{
    let mut more = Vec::with_capacity(alloc, weights.len().saturating_add(1))?;
    more.extend_from_slice(weights.as_slice())?;
    more.push(1)?;
    Ok(Weights::from_vec(more))
}

/// The ring with one more variable at the end, of weight 1, by the same orders.
pub(crate) fn ring_with_last(alloc: Global, ring: &Ring) -> Result<Ring, NoMemory>
    ensures { IfOk result (IsWithLast ring.now) }
{
    let vars = names_with_last(alloc, &ring.vars)?;
    let weights = weights_with_last(alloc, &ring.weights)?;
    Ok(Ring {
        modulus: ring.modulus,
        vars,
        order: ring.order,
        module_order: ring.module_order,
        weights,
    })
}

// The power of the last variable that takes the first degree to the other.
fn power_between(low: u128, high: u128) -> Result<u16, Unanswered>
    ensures { IfOk result (λ power. low + power ≡ high) }
{
    if high < low {
        return Err(Unanswered::Other);
    }
    match u16::try_from(high - low) {
        Ok(power) => Ok(power),
        Err(_great) => Err(Unanswered::Other),
    }
}

// The exponents, and this one behind them.
fn with_last(alloc: Global, exponents: &[u16], last: u16) -> Result<Vec<u16>, Unanswered>
    ensures { IfOk result (λ more. more.items ≡ exponents.now ++ last ∷ []) }
{
    let mut more = Vec::with_capacity(alloc, exponents.len().saturating_add(1))?;
    more.extend_from_slice(exponents)?;
    more.push(last)?;
    Ok(more)
}

// The monomial times the power of the last variable that gives it this degree.
fn raised_monomial(
    alloc: Global,
    _ring: &Ring,
    more: &Ring,
    degree: u128,
    m: &Mono,
) -> Result<Mono, Unanswered>
    requires more { IsWithLast _ring.now more.now }
    requires monomial { IsMonomialOver _ring.now m.now }
    ensures monomial { IfOk result (IsMonomialOver more.now) }
    ensures at_one { IfOk result (λ r. take (variables _ring.now) r.exponents ≡ m.now.exponents) }
    ensures degree { IfOk result (λ r. r.degree ≡ degree) }
{
    let power = power_between(m.degree(), degree)?;
    let exponents = with_last(alloc, m.exponents(), power)?;
    Ok(Mono::from_exponents(alloc, &more.weights, &exponents)?)
}

// The greatest degree of a term.
fn top_degree(terms: &[(Key, u32)]) -> u128 {
    let mut top = 0;
    for term in terms {
        top = top.max(term.0.monomial.degree());
    }
    top
}

// The terms, each times the power of the last variable that gives it the greatest degree.
fn raised_terms(
    alloc: Global,
    ring: &Ring,
    more: &Ring,
    terms: &[(Key, u32)],
) -> Result<Vec<(Key, u32)>, Unanswered>
    requires more { IsWithLast ring.now more.now }
    requires vector { IsVectorOver ring.now (ring_comparison ring.now) terms.now }
    ensures terms { IfOk result (λ raised. AreTermsOver more.now raised.items) }
    ensures at_one { let n = variables ring.now in
        IfOk result (λ raised. dehomogenised (sum_of (suc n) raised.items) ≡ sum_of n terms.now) }
    ensures degree { IfOk result (λ raised. HasOneDegree raised.items) }
{
    let degree = top_degree(terms);
    let mut raised = Vec::with_capacity(alloc, terms.len())?;
    for term in terms {
        let monomial = raised_monomial(alloc, ring, more, degree, &term.0.monomial)?;
        let position = term.0.position;
        raised.push_reserved((Key { position, monomial }, term.1));
    }
    Ok(raised)
}

// The vector homogenised, as one of the ring `more`.
fn raised_vector(alloc: Global, ring: &Ring, more: &Ring, v: &Vect) -> Result<Vect, Unanswered>
    requires more { IsWithLast ring.now more.now }
    requires vector { IsVectorOver ring.now (ring_comparison ring.now) v.now }
    ensures vector { IfOk result (IsVectorOver more.now (ring_comparison more.now)) }
    ensures at_one { IfOk result (λ u. IsAtOne ring.now u v.now) }
{
    ring.modulus.domain();
    let terms = raised_terms(alloc, ring, more, v.terms())?;
    Ok(Vect::from_terms(alloc, more, terms)?)
}

/// The vectors homogenised, as vectors of the ring `more`.
pub(crate) fn raised_list(
    alloc: Global,
    ring: &Ring,
    more: &Ring,
    list: &VectList,
) -> Result<VectList, Unanswered>
    requires more { IsWithLast ring.now more.now }
    requires vectors { AreVectorsOver ring.now (ring_comparison ring.now) list.now }
    ensures vectors { IfOk result (AreVectorsOver more.now (ring_comparison more.now)) }
    ensures at_one { IfOk result (λ raised. AreAtOne ring.now raised list.now) }
{
    let mut vectors = Vec::with_capacity(alloc, list.len())?;
    for v in list.as_slice() {
        vectors.push_reserved(raised_vector(alloc, ring, more, v)?);
    }
    Ok(VectList::from_vec(vectors))
}

// The monomial without the last variable.
fn lowered_monomial(alloc: Global, ring: &Ring, _more: &Ring, m: &Mono) -> Result<Mono, Unanswered>
    requires more { IsWithLast ring.now _more.now }
    requires monomial { IsMonomialOver _more.now m.now }
    ensures monomial { IfOk result (IsMonomialOver ring.now) }
    ensures at_one { IfOk result (λ r. r.exponents ≡ take (variables ring.now) m.now.exponents) }
{
    let (exponents, _) = m.exponents().split_at(ring.vars.len());
    Ok(Mono::from_exponents(alloc, &ring.weights, exponents)?)
}

// The terms with 1 for the last variable.
fn lowered_terms(
    alloc: Global,
    ring: &Ring,
    more: &Ring,
    terms: &[(Key, u32)],
) -> Result<Vec<(Key, u32)>, Unanswered>
    requires more { IsWithLast ring.now more.now }
    requires vector { IsVectorOver more.now (ring_comparison more.now) terms.now }
    ensures terms { IfOk result (λ lowered. AreTermsOver ring.now lowered.items) }
    ensures at_one { let n = variables ring.now in
        IfOk result (λ lowered. sum_of n lowered.items ≡ dehomogenised (sum_of (suc n) terms.now)) }
{
    let mut lowered = Vec::with_capacity(alloc, terms.len())?;
    for term in terms {
        let monomial = lowered_monomial(alloc, ring, more, &term.0.monomial)?;
        let position = term.0.position;
        lowered.push_reserved((Key { position, monomial }, term.1));
    }
    Ok(lowered)
}

// The vector of the ring `more` with 1 for the last variable.
fn lowered_vector(alloc: Global, ring: &Ring, more: &Ring, v: &Vect) -> Result<Vect, Unanswered>
    requires more { IsWithLast ring.now more.now }
    requires vector { IsVectorOver more.now (ring_comparison more.now) v.now }
    ensures vector { IfOk result (IsVectorOver ring.now (ring_comparison ring.now)) }
    ensures at_one { IfOk result (IsAtOne ring.now v.now) }
{
    let terms = lowered_terms(alloc, ring, more, v.terms())?;
    Ok(Vect::from_terms(alloc, ring, terms)?)
}

/// The vectors of the ring `more` with 1 for the last variable.
pub(crate) fn lowered_list(
    alloc: Global,
    ring: &Ring,
    more: &Ring,
    list: &VectList,
) -> Result<VectList, Unanswered>
    requires more { IsWithLast ring.now more.now }
    requires vectors { AreVectorsOver more.now (ring_comparison more.now) list.now }
    ensures vectors { IfOk result (AreVectorsOver ring.now (ring_comparison ring.now)) }
    ensures at_one { IfOk result (λ lowered. AreAtOne ring.now list.now lowered) }
{
    let mut vectors = Vec::with_capacity(alloc, list.len())?;
    for v in list.as_slice() {
        vectors.push_reserved(lowered_vector(alloc, ring, more, v)?);
    }
    Ok(VectList::from_vec(vectors))
}
