// Sums of products of a list's vectors.
ghost use Rattle.std.specs.Prelude.{◌≡◌, ◌<◌, ◌↔◌, IsTrue, IfOk, IfErr, IfNone, IfSome, length, map};
ghost use Rattle.formal_sums.specs.FormalSums.{Each};
ghost use Rattle.formal_sums.specs.Combinations.{combination};
ghost use Rattle.term_lists.specs.Rings.{ring_comparison, variables};
ghost use Rattle.term_lists.specs.Stops.{Fits, HasMonomial, IsTooGreat};
ghost use Rattle.term_lists.specs.Vectors.{AreVectorsOver, IsMonomialOver, IsVectorOver, StandsFor, sums_of};
ghost use Rattle.module_vectors.specs.Products.{AreProducts, sum_of_product_list};
ghost use Rattle.vector_division.specs.Reductions.{cofactors_of, term_of};
ghost use Rattle.s_vectors.specs.Parts.{GreatStops, IsGreatProduct, IsPart, PartsStop};
ghost use Rattle.s_vectors.specs.declared.sums.SumStop.TheVariants.{Memory};

use module_vectors::{NoMemory, Product, Ring, Vect, VectStop, Vectors};
use monomial_orders::Mono;
use std::alloc::Global;
use vector_division::ScaledProduct;

// The greatest degree of a monomial.
const MAX_DEGREE: u128 = 65535;

/// Why there is no such sum.
#[derive(Drop)]
pub(crate) enum SumStop {
    Memory,
    /// The part with this number has a product of too great a degree with this monomial of its vector.
    Degree(usize, Mono),
}

impl From<NoMemory> for SumStop {
    ghost from_gives = { λ _ stop. stop ≡ Memory };

    fn from(_error: NoMemory) -> SumStop {
        SumStop::Memory
    }
}

// The products of the parts and their vectors.
fn products_of<'a, L: Vectors>(
    alloc: Global,
    parts: &'a [ScaledProduct],
    list: &'a L,
) -> Result<Vec<Product<'a>>, NoMemory>
    requires { Each (λ q. q.index < length (L.listed list.now)) parts.now }
    ensures { IfOk result (λ products. AreProducts (L.listed list.now) (map term_of parts.now) products.items) }
{
    let mut products = Vec::with_capacity(alloc, parts.len())?;
    for part in parts {
        let vector = list.at(part.index as usize);
        products.push_reserved(Product {
            residue: part.residue,
            monomial: &part.monomial,
            vector,
        });
    }
    Ok(products)
}

// Is the product of the two of too great a degree?
fn is_too_great(a: &Mono, b: &Mono) -> bool
    ensures { IsTrue result ↔ IsTooGreat a.now b.now }
{
    let degree = b.degree();
    degree > MAX_DEGREE || a.degree() > MAX_DEGREE - degree
}

// A monomial of the vector that is too great for t.
fn find_monomial<'a>(t: &Mono, v: &'a Vect) -> Option<&'a Mono>
    ensures none { IfNone result (Fits t.now v.now) }
    ensures some { IfSome result (λ m. HasMonomial v.now m.now × IsTooGreat t.now m.now) }
{
    for term in v.terms() {
        if is_too_great(t, &term.0.monomial) {
            return Some(&term.0.monomial);
        }
    }
    None
}

// The number of a product of too great a degree, and the monomial of its vector.
fn find_product<'a>(products: &[Product<'a>]) -> Option<(usize, &'a Mono)>
    ensures none { IfNone result (Each (λ x. Fits x.monomial.now x.vector.now) products.now) }
    ensures some { IfSome result (λ f. IsGreatProduct products.now f.0 f.1.now) }
{
    for (i, product) in products.iter().enumerate() {
        if let Some(monomial) = find_monomial(product.monomial, product.vector) {
            return Some((i, monomial));
        }
    }
    None
}

// The stop by a product of too great a degree, which there must be.
fn great_stop(alloc: Global, products: &[Product<'_>]) -> SumStop
    requires { Each (λ x. Fits x.monomial.now x.vector.now) products.now → ⊥ }
    ensures { GreatStops products.now result }
{
    match find_product(products) {
        Some((number, monomial)) => match monomial.try_copy(alloc) {
            Ok(monomial) => SumStop::Degree(number, monomial),
            Err(NoMemory) => SumStop::Memory,
        },
        None => unreachable!(),
    }
}

// The sum of these products.
fn sum_products(alloc: Global, ring: &Ring, products: &[Product<'_>]) -> Result<Vect, SumStop>
    requires factors { Each (λ x. (x.residue < ring.now.modulus.value) × IsMonomialOver ring.now x.monomial.now) products.now }
    requires vectors { Each (λ x. IsVectorOver ring.now (ring_comparison ring.now) x.vector.now) products.now }
    ensures vector { IfOk result (IsVectorOver ring.now (ring_comparison ring.now)) }
    ensures sum { IfOk result (λ v. StandsFor ring.now v (sum_of_product_list (variables ring.now) products.now)) }
    ensures stop { IfErr result (GreatStops products.now) }
{
    match Vect::sum_of_products(alloc, ring, products) {
        Ok(v) => Ok(v),
        Err(VectStop::Memory) => Err(SumStop::Memory),
        Err(VectStop::Degree(_, _)) => Err(great_stop(alloc, products)),
    }
}

/// The sum of the parts' products, each of residue, monomial and the vector of the list with the part's index.
pub(crate) fn sum_of_parts<L: Vectors>(
    alloc: Global,
    ring: &Ring,
    parts: &[ScaledProduct],
    list: &L,
) -> Result<Vect, SumStop>
    requires parts { Each (IsPart (variables ring.now) ring.now.weights ring.now.modulus.value (length (L.listed list.now))) parts.now }
    requires list { AreVectorsOver ring.now (ring_comparison ring.now) (L.listed list.now) }
    ensures vector { IfOk result (IsVectorOver ring.now (ring_comparison ring.now)) }
    ensures sum { let n = variables ring.now in
        IfOk result (λ v. StandsFor ring.now v (combination (sums_of n (L.listed list.now)) (cofactors_of n parts.now))) }
    ensures stop { IfErr result (PartsStop (L.listed list.now) parts.now) }
{
    let products = products_of(alloc, parts, list)?;
    sum_products(alloc, ring, &products)
}
