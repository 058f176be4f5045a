// Products of two polynomials.
ghost use Rattle.std.specs.Prelude.{◌≡◌, ◌+◌, ◌≤◌, ℕ, IfOk, IfErr, IfSome, OnOk, OnErr, OnSome, Err};
ghost use Rattle.formal_sums.specs.FormalSums.{product};
ghost use Rattle.term_lists.specs.Rings.{variables};
ghost use Rattle.term_lists.specs.Vectors.{sum_of, IsVectorOver, StandsFor, HasPositions};
ghost use Rattle.sparse_poly.specs.Degrees.{IsWithinDegree};
ghost use Rattle.sparse_poly.specs.Multiples.{AreTermMultiples, exchanged};
ghost use Rattle.sparse_poly.specs.Stops.{ProductFits, PolynomialProductStops};

use crate::digits::top_degree;
use module_vectors::{Frame, Key, NoMemory, Product, Room, Vect, VectStop};
use std::alloc::Global;
use term_tables::multiply;

/// The product of two polynomials. `Degree` exactly where a monomial of `a` and one of `b` have degrees that sum to
/// more than 65,535; it carries two such.
pub fn mul<F: Frame>(alloc: Global, frame: &F, a: &Vect, b: &Vect) -> Result<Vect, VectStop>
    requires left { IsVectorOver (F.over frame.now) (F.compare frame.now) a.now }
    requires right { IsVectorOver (F.over frame.now) (F.compare frame.now) b.now }
    requires left_polynomial { HasPositions 1 a.now }
    requires right_polynomial { HasPositions 1 b.now }
    ensures vector { IfOk result (λ v. IsVectorOver (F.over frame.now) (F.compare frame.now) v) }
    ensures polynomial { IfOk result (λ v. HasPositions 1 v) }
    ensures product { let n = variables (F.over frame.now) in IfOk result (λ v. StandsFor (F.over frame.now) v (product (sum_of n a.now) (sum_of n b.now))) }
    ensures fits { OnOk result (ProductFits a.now b.now) }
    ensures stop { IfErr result (PolynomialProductStops a.now b.now) }
    ensures within { (d e : ℕ) → IsWithinDegree d a.now → IsWithinDegree e b.now → IfOk result (IsWithinDegree (d + e)) }
    ensures memory { (d e : ℕ) → IsWithinDegree d a.now → IsWithinDegree e b.now → d + e ≤ 65535 → OnErr result (result ≡ Err VectStop.Memory) }
{
    let mut room = Room::new(alloc);
    mul_in(alloc, frame, &mut room, a, b)
}

/// The product of two polynomials, in the room that is there. `Degree` exactly where a monomial of `a` and one of `b` have degrees that sum to
/// more than 65,535; it carries two such.
pub(crate) fn mul_in<F: Frame>(
    alloc: Global,
    frame: &F,
    room: &mut Room,
    a: &Vect,
    b: &Vect,
) -> Result<Vect, VectStop>
    requires left { IsVectorOver (F.over frame.now) (F.compare frame.now) a.now }
    requires right { IsVectorOver (F.over frame.now) (F.compare frame.now) b.now }
    requires left_polynomial { HasPositions 1 a.now }
    requires right_polynomial { HasPositions 1 b.now }
    ensures vector { IfOk result (λ v. IsVectorOver (F.over frame.now) (F.compare frame.now) v) }
    ensures polynomial { IfOk result (λ v. HasPositions 1 v) }
    ensures product { let n = variables (F.over frame.now) in IfOk result (λ v. StandsFor (F.over frame.now) v (product (sum_of n a.now) (sum_of n b.now))) }
    ensures fits { OnOk result (ProductFits a.now b.now) }
    ensures stop { IfErr result (PolynomialProductStops a.now b.now) }
    ensures within { (d e : ℕ) → IsWithinDegree d a.now → IsWithinDegree e b.now → IfOk result (IsWithinDegree (d + e)) }
    ensures memory { (d e : ℕ) → IsWithinDegree d a.now → IsWithinDegree e b.now → d + e ≤ 65535 → OnErr result (result ≡ Err VectStop.Memory) }
{
    // One product for each term of the shorter factor: so fewer vectors are merged.
    if a.terms().len() <= b.terms().len() {
        mul_terms(alloc, frame, room, a, b)
    } else {
        match mul_terms(alloc, frame, room, b, a) {
            Ok(v) => Ok(v),
            Err(stop) => Err(exchange(stop)),
        }
    }
}

/// The product of two polynomials by a table of coefficients; `None` where degrees may sum to more than 65,535, or a table does not
/// serve.
fn by_table<F: Frame>(
    alloc: Global,
    frame: &F,
    a: &Vect,
    b: &Vect,
) -> Result<Option<Vect>, NoMemory>
    requires left { IsVectorOver (F.over frame.now) (F.compare frame.now) a.now }
    requires right { IsVectorOver (F.over frame.now) (F.compare frame.now) b.now }
    ensures vector { IfOk result (λ o. IfSome o (λ v. IsVectorOver (F.over frame.now) (F.compare frame.now) v)) }
    ensures product { let n = variables (F.over frame.now) in
        IfOk result (λ o. IfSome o (λ v. StandsFor (F.over frame.now) v (product (sum_of n a.now) (sum_of n b.now)))) }
    ensures fits { IfOk result (λ o. OnSome o (ProductFits a.now b.now)) }
{
    if top_degree(a.terms()).saturating_add(top_degree(b.terms())) > 65535 {
        return Ok(None);
    }
    multiply(alloc, frame, a.terms(), b.terms())
}

/// The product of two polynomials, by a table where one serves, or else as the sum of the products of each term of `a` with `b`.
fn mul_terms<F: Frame>(
    alloc: Global,
    frame: &F,
    room: &mut Room,
    a: &Vect,
    b: &Vect,
) -> Result<Vect, VectStop>
    requires left { IsVectorOver (F.over frame.now) (F.compare frame.now) a.now }
    requires right { IsVectorOver (F.over frame.now) (F.compare frame.now) b.now }
    ensures vector { IfOk result (λ v. IsVectorOver (F.over frame.now) (F.compare frame.now) v) }
    ensures product { let n = variables (F.over frame.now) in IfOk result (λ v. StandsFor (F.over frame.now) v (product (sum_of n a.now) (sum_of n b.now))) }
    ensures fits { OnOk result (ProductFits a.now b.now) }
    ensures stop { IfErr result (PolynomialProductStops a.now b.now) }
{
    match by_table(alloc, frame, a, b) {
        Ok(Some(v)) => return Ok(v),
        Ok(None) => {}
        Err(_) => return Err(VectStop::Memory),
    }
    match multiples(alloc, a.terms(), b) {
        Ok(products) => Vect::sum_of_products_in(alloc, frame, room, &products),
        Err(_) => Err(VectStop::Memory),
    }
}

/// The products of the terms and `v`.
fn multiples<'a>(
    alloc: Global,
    terms: &'a [(Key, u32)],
    v: &'a Vect,
) -> Result<Vec<Product<'a>>, NoMemory>
    ensures { IfOk result (λ products. AreTermMultiples v.now terms.now products.items) }
{
    let mut products = Vec::with_capacity(alloc, terms.len())?;
    for term in terms {
        products.push(Product {
            residue: term.1,
            monomial: &term.0.monomial,
            vector: v,
        })?;
    }
    Ok(products)
}

/// The stop with its two monomials exchanged.
fn exchange(stop: VectStop) -> VectStop
    ensures { result ≡ exchanged stop }
{
    match stop {
        VectStop::Memory => VectStop::Memory,
        VectStop::Degree(s, t) => VectStop::Degree(t, s),
    }
}
