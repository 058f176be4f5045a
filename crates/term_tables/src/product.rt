// Products of two polynomials.
ghost use Rattle.std.specs.Prelude.{ℕ, ◌≡◌, ◌<◌, ◌≤◌, ◌+◌, ◌*◌, true, false, IfOk, IfSome, length};
ghost use Rattle.residues.specs.Residues.{IsCongruent};
ghost use Rattle.formal_sums.specs.FormalSums.{Each, IsSame, product};
ghost use Rattle.term_lists.specs.Rings.{variables};
ghost use Rattle.term_lists.specs.Vectors.{AreTermsOver, IsVectorOver, StandsFor, sum_of};
ghost use Rattle.term_tables.specs.Digits.{ArePacked, EachPair, packed_sum};
ghost use Rattle.term_tables.specs.Tables.{ranked_sum};

use crate::packing::{packed_terms, raise_limits, top_number};
use crate::slots::slots_of;
use crate::table::add_products;
use crate::unpacking::{ranked_slots, ranked_terms, sorted_terms, unpacked_terms};
use module_vectors::{Frame, Key, NoMemory, Ring, Vect};
use std::alloc::Global;
use zp_field::Modulus;

// As many products of terms as make a table worth its while.
const LEAST_PRODUCTS: usize = 1000;

// As many places as a table may have, 32 MiB.
const MOST_PLACES: usize = 4194304;

/// The least number that is a multiple of the modulus and not below a product of two residues.
fn square(modulus: &Modulus) -> u64
    ensures multiple { IsCongruent modulus.now.value result 0 }
    ensures great { (a b : ℕ) → a < modulus.now.value → b < modulus.now.value → a * b ≤ result }
    ensures half { result < 9223372036854775808 }
    ensures positive { 0 < result }
{
    modulus.domain();
    u64::from(modulus.value()) * u64::from(modulus.value())
}

/// How many places a table of these products needs; `None` where they are too many, or more than four for each product.
fn places_of(left: &[(usize, u32)], right: &[(usize, u32)]) -> Option<usize>
    ensures { IfSome result (λ places. EachPair (λ s t. s.0 + t.0 < places) left.now right.now) }
{
    let last = top_number(left).checked_add(top_number(right))?;
    let products = left.len().saturating_mul(right.len());
    if last < MOST_PLACES.min(products.saturating_mul(4)) {
        Some(last + 1)
    } else {
        None
    }
}

/// The ranked terms of the product, by a table with so many places.
fn by_places(
    alloc: Global,
    ring: &Ring,
    bases: &[(u16, u16)],
    left: &[(usize, u32)],
    right: &[(usize, u32)],
    places: usize,
) -> Result<Vec<(u64, usize, u32)>, NoMemory>
    requires left { ArePacked true bases.now ring.now.modulus.value left.now }
    requires right { ArePacked false bases.now ring.now.modulus.value right.now }
    requires places { EachPair (λ s t. s.0 + t.0 < places) left.now right.now }
    ensures residues { IfOk result (λ v. Each (λ t. t.2 < ring.now.modulus.value) v.items) }
    ensures sum { (n : ℕ) → IfOk result (λ v.
        IsSame ring.now.modulus.value (ranked_sum n bases.now v.items) (product (packed_sum n bases.now left.now) (packed_sum n bases.now right.now))) }
{
    let mut sums = vec![in alloc; 0; places]?;
    add_products(square(&ring.modulus), &mut sums, left, right);
    ranked_terms(alloc, ring, bases, &sums)
}

/// The same by slots for the numbers that occur; `None` where they do not serve.
fn by_slots(
    alloc: Global,
    ring: &Ring,
    bases: &[(u16, u16)],
    left: &[(usize, u32)],
    right: &[(usize, u32)],
) -> Result<Option<Vec<(u64, usize, u32)>>, NoMemory>
    requires left { ArePacked true bases.now ring.now.modulus.value left.now }
    requires right { ArePacked false bases.now ring.now.modulus.value right.now }
    ensures residues { IfOk result (λ o. IfSome o (λ v. Each (λ t. t.2 < ring.now.modulus.value) v.items)) }
    ensures sum { (n : ℕ) → IfOk result (λ o. IfSome o (λ v.
        IsSame ring.now.modulus.value (ranked_sum n bases.now v.items) (product (packed_sum n bases.now left.now) (packed_sum n bases.now right.now)))) }
{
    let Some(slots) = slots_of(alloc, square(&ring.modulus), left, right)? else {
        return Ok(None);
    };
    Ok(Some(ranked_slots(alloc, ring, bases, &slots)?))
}

/// The ranked terms of the product of packed terms; `None` where no table serves.
fn ranked_product(
    alloc: Global,
    ring: &Ring,
    bases: &[(u16, u16)],
    left: &[(usize, u32)],
    right: &[(usize, u32)],
) -> Result<Option<Vec<(u64, usize, u32)>>, NoMemory>
    requires left { ArePacked true bases.now ring.now.modulus.value left.now }
    requires right { ArePacked false bases.now ring.now.modulus.value right.now }
    ensures residues { IfOk result (λ o. IfSome o (λ v. Each (λ t. t.2 < ring.now.modulus.value) v.items)) }
    ensures sum { (n : ℕ) → IfOk result (λ o. IfSome o (λ v.
        IsSame ring.now.modulus.value (ranked_sum n bases.now v.items) (product (packed_sum n bases.now left.now) (packed_sum n bases.now right.now)))) }
{
    let Some(places) = places_of(left, right) else {
        return by_slots(alloc, ring, bases, left, right);
    };
    Ok(Some(by_places(alloc, ring, bases, left, right, places)?))
}

/// The same of terms that are not packed yet.
fn ranked_product_of_terms(
    alloc: Global,
    ring: &Ring,
    bases: &[(u16, u16)],
    a: &[(Key, u32)],
    b: &[(Key, u32)],
) -> Result<Option<Vec<(u64, usize, u32)>>, NoMemory>
    requires left { Each (λ t. t.1 < ring.now.modulus.value) a.now }
    requires right { Each (λ t. t.1 < ring.now.modulus.value) b.now }
    ensures residues { IfOk result (λ o. IfSome o (λ v. Each (λ t. t.2 < ring.now.modulus.value) v.items)) }
    ensures sum { (n : ℕ) → IfOk result (λ o. IfSome o (λ v.
        IsSame ring.now.modulus.value (ranked_sum n bases.now v.items) (product (sum_of n a.now) (sum_of n b.now)))) }
{
    let Some(left) = packed_terms(alloc, bases, true, a)? else {
        return Ok(None);
    };
    let Some(right) = packed_terms(alloc, bases, false, b)? else {
        return Ok(None);
    };
    ranked_product(alloc, ring, bases, &left, &right)
}

/// Ranked terms as terms, nearly in the ring's order; `None` where a degree is above 65,535.
fn terms_of(
    alloc: Global,
    ring: &Ring,
    bases: &[(u16, u16)],
    terms: Vec<(u64, usize, u32)>,
) -> Result<Option<Vec<(Key, u32)>>, NoMemory>
    requires bases { length bases.now ≡ length ring.now.weights }
    requires residues { Each (λ t. t.2 < ring.now.modulus.value) terms.items }
    ensures over { IfOk result (λ o. IfSome o (λ v. AreTermsOver ring.now v.items)) }
    ensures sum { (n : ℕ) → IfOk result (λ o. IfSome o (λ v. IsSame ring.now.modulus.value (sum_of n v.items) (ranked_sum n bases.now terms.items))) }
{
    unpacked_terms(alloc, ring, bases, &sorted_terms(terms))
}

/// The limits of each variable's exponents in the terms of two factors.
fn bases_of(
    alloc: Global,
    ring: &Ring,
    a: &[(Key, u32)],
    b: &[(Key, u32)],
) -> Result<Vec<(u16, u16)>, NoMemory>
    ensures { IfOk result (λ bases. length bases.items ≡ length ring.now.weights) }
{
    let mut bases = vec![in alloc; (0, 0); ring.weights.len()]?;
    raise_limits(&mut bases, true, a);
    raise_limits(&mut bases, false, b);
    Ok(bases)
}

/// The product of two polynomials by a table; `None` where a table does not serve: for few products, where the exponents reach far
/// beyond the number of products, or where a product of two monomials would have a degree above 65,535.
pub fn multiply<F: Frame>(
    alloc: Global,
    frame: &F,
    a: &[(Key, u32)],
    b: &[(Key, u32)],
) -> Result<Option<Vect>, NoMemory>
    requires left { IsVectorOver (F.over frame.now) (F.compare frame.now) a.now }
    requires right { IsVectorOver (F.over frame.now) (F.compare frame.now) b.now }
    ensures vector { IfOk result (λ o. IfSome o (λ v. IsVectorOver (F.over frame.now) (F.compare frame.now) v)) }
    ensures product { let n = variables (F.over frame.now) in
        IfOk result (λ o. IfSome o (λ v. StandsFor (F.over frame.now) v (product (sum_of n a.now) (sum_of n b.now)))) }
{
    if a.len().saturating_mul(b.len()) < LEAST_PRODUCTS {
        return Ok(None);
    }
    let ring = frame.ring();
    let bases = bases_of(alloc, ring, a, b)?;
    let Some(ranked) = ranked_product_of_terms(alloc, ring, &bases, a, b)? else {
        return Ok(None);
    };
    let Some(terms) = terms_of(alloc, ring, &bases, ranked)? else {
        return Ok(None);
    };
    Ok(Some(Vect::from_terms(alloc, frame, terms)?))
}
