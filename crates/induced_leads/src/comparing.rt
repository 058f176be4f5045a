// Comparisons of products of a monomial and what the leads below make of it; none of the products is made.
ghost use Rattle.std.specs.Prelude.{◌≡◌, ◌<◌, ◌≤◌, ◌^◌, length, slice_index};
ghost use Rattle.monomials.specs.Exponents.{exponents_of};
ghost use Rattle.monomials.specs.Weights.{weighted_degree};
ghost use Rattle.orders.specs.MonomialOrders.{first_variables, lex, reverse_lex};
ghost use Rattle.orders.specs.WeightedOrders.{weighted_grevlex};
ghost use Rattle.monomial_orders.specs.Comparisons.{comparison};
ghost use Rattle.monomial_orders.specs.Differences.{EndsDifferences};
ghost use Rattle.monomial_orders.specs.Kept.{AreWeights};
ghost use Rattle.term_lists.specs.Rings.{variables};
ghost use Rattle.term_lists.specs.Vectors.{IsMonomialOver};
ghost use Rattle.induced_leads.specs.Heads.{AreSummands, IsHeadOver, summed};

use crate::head::Head;
use module_vectors::Ring;
use monomial_orders::{Mono, Order};
use std::cmp::Ordering;

// An exponent of the product.
fn place(a: &[u16], e: &[u64], k: usize) -> u64
    requires summands { AreSummands (length a.now) a.now e.now }
    requires place { k < length a.now }
    ensures sum { result ≡ slice_index (summed a.now e.now) k }
    ensures low { result < 2 ^ 49 }
{
    u64::from(a[k]) + e[k]
}

// By the first exponent that differs.
fn compare_first(a: &[u16], e: &[u64], b: &[u16], f: &[u64]) -> Ordering
    requires left { AreSummands (length a.now) a.now e.now }
    requires right { AreSummands (length a.now) b.now f.now }
    ensures { let n = length a.now in result ≡ lex (exponents_of n (summed a.now e.now)) (exponents_of n (summed b.now f.now)) }
{
    for k in 0..a.len() {
        let left = place(a, e, k);
        let right = place(b, f, k);
        if left != right {
            return left.cmp(&right);
        }
    }
    Ordering::Equal
}

// Of the first m exponents, how many there are up to and with the last that differs: 0 where none does.
fn differing(a: &[u16], e: &[u64], b: &[u16], f: &[u64], m: usize) -> usize
    requires left { AreSummands (length a.now) a.now e.now }
    requires right { AreSummands (length a.now) b.now f.now }
    requires inside { m ≤ length a.now }
    ensures { EndsDifferences m (summed a.now e.now) (summed b.now f.now) result }
{
    let mut n = m;
    while n > 0 {
        let left = place(a, e, n - 1);
        let right = place(b, f, n - 1);
        if left != right {
            return n;
        }
        n -= 1;
    }
    0
}

// By the last exponent that differs: the smaller one is the greater.
fn compare_last(a: &[u16], e: &[u64], b: &[u16], f: &[u64]) -> Ordering
    requires left { AreSummands (length a.now) a.now e.now }
    requires right { AreSummands (length a.now) b.now f.now }
    ensures { let n = length a.now in result ≡ reverse_lex (exponents_of n (summed a.now e.now)) (exponents_of n (summed b.now f.now)) }
{
    let n = differing(a, e, b, f, a.len());
    if n == 0 {
        return Ordering::Equal;
    }
    let left = place(a, e, n - 1);
    let right = place(b, f, n - 1);
    right.cmp(&left)
}

// The degree of the product's first n exponents by the weights.
fn total(weights: &[u8], a: &[u16], e: &[u64], n: usize) -> u128
    requires summands { AreSummands (length weights.now) a.now e.now }
    requires positive { AreWeights weights.now }
    requires inside { n ≤ length a.now }
    ensures { result ≡ weighted_degree weights.now (first_variables n (exponents_of (length a.now) (summed a.now e.now))) }
{
    let mut degree: u128 = 0;
    for k in 0..n {
        degree += u128::from(weights[k]) * u128::from(place(a, e, k));
    }
    degree
}

// By the degree of the first k exponents by the weights, then by the last of these that differs. Only those up to that one are
// summed: the others add the same to both degrees.
fn compare_front(weights: &[u8], k: usize, a: &[u16], e: &[u64], b: &[u16], f: &[u64]) -> Ordering
    requires left { AreSummands (length weights.now) a.now e.now }
    requires right { AreSummands (length weights.now) b.now f.now }
    requires positive { AreWeights weights.now }
    ensures { let n = length a.now in
        result ≡ weighted_grevlex weights.now (first_variables k (exponents_of n (summed a.now e.now)))
        (first_variables k (exponents_of n (summed b.now f.now))) }
{
    let n = differing(a, e, b, f, k.min(a.len()));
    if n == 0 {
        return Ordering::Equal;
    }
    let left = place(a, e, n - 1);
    let right = place(b, f, n - 1);
    match total(weights, a, e, n).cmp(&total(weights, b, f, n)) {
        Ordering::Equal => right.cmp(&left),
        other => other,
    }
}

// The degree of the product of a monomial and the head's.
fn product_degree(ring: &Ring, a: &Mono, e: &Head) -> u128
    requires monomial { IsMonomialOver ring.now a.now }
    requires head { IsHeadOver (variables ring.now) ring.now.weights e.now }
    ensures { let n = variables ring.now in
        result ≡ weighted_degree ring.now.weights (exponents_of n (summed a.now.exponents e.now.exponents.items)) }
{
    let _ring = ring;
    a.degree() + e.degree
}

// By the degrees, then by the last exponent that differs.
fn compare_graded(ring: &Ring, a: &Mono, e: &Head, b: &Mono, f: &Head) -> Ordering
    requires left { IsMonomialOver ring.now a.now }
    requires right { IsMonomialOver ring.now b.now }
    requires left_head { IsHeadOver (variables ring.now) ring.now.weights e.now }
    requires right_head { IsHeadOver (variables ring.now) ring.now.weights f.now }
    ensures { let n = variables ring.now in result ≡ weighted_grevlex ring.now.weights
        (exponents_of n (summed a.now.exponents e.now.exponents.items)) (exponents_of n (summed b.now.exponents f.now.exponents.items)) }
{
    match product_degree(ring, a, e).cmp(&product_degree(ring, b, f)) {
        Ordering::Equal => compare_last(a.exponents(), &e.exponents, b.exponents(), &f.exponents),
        other => other,
    }
}

/// Compares the products of the monomials and those of the heads, by the ring's order of monomials.
pub(crate) fn compare_products(ring: &Ring, a: &Mono, e: &Head, b: &Mono, f: &Head) -> Ordering
    requires left { IsMonomialOver ring.now a.now }
    requires right { IsMonomialOver ring.now b.now }
    requires left_head { IsHeadOver (variables ring.now) ring.now.weights e.now }
    requires right_head { IsHeadOver (variables ring.now) ring.now.weights f.now }
    ensures { let n = variables ring.now in result ≡ comparison ring.now.order ring.now.weights n
        (exponents_of n (summed a.now.exponents e.now.exponents.items)) (exponents_of n (summed b.now.exponents f.now.exponents.items)) }
{
    match &ring.order {
        Order::Lex => compare_first(a.exponents(), &e.exponents, b.exponents(), &f.exponents),
        Order::Grevlex => compare_graded(ring, a, e, b, f),
        // Once the first variables are the same, all compare as the others do.
        Order::Elim(k) => match compare_front(
            ring.weights.as_slice(),
            *k as usize,
            a.exponents(),
            &e.exponents,
            b.exponents(),
            &f.exponents,
        ) {
            Ordering::Equal => compare_graded(ring, a, e, b, f),
            other => other,
        },
    }
}
