// The division of an S-vector by the members.
ghost use Rattle.std.specs.Prelude.{◌≡◌, ◌<◌, ◌+◌, ◌++◌, ℕ, List, IfOk, IfErr, OnOk, length, map, take};
ghost use Rattle.formal_sums.specs.FormalSums.{Each, Key as KeyOf};
ghost use Rattle.term_lists.specs.Rings.{variables};
ghost use Rattle.term_lists.specs.Vectors.{key_of};
ghost use Rattle.term_lists.specs.declared.key.Key.{Key as KeyValue};
ghost use Rattle.term_lists.specs.declared.ring.Ring.{Ring as RingValue};
ghost use Rattle.vector_division.specs.Divisions.{DivisionStops};
ghost use Rattle.vector_division.specs.Reductions.{unscaled};
ghost use Rattle.basis_core.specs.Members.{MemberShown};
ghost use Rattle.basis_core.specs.Rows.{vectors_in};
ghost use Rattle.s_vectors.specs.Divided.{AreOfPair, HasKeysMet, IsDivided, IsTopVector, negated};
ghost use Rattle.s_vectors.specs.Parts.{PartsStop};
ghost use Rattle.s_vectors.specs.Solutions.{IsSolvedPair};
ghost use Rattle.s_vectors.specs.PairProducts.{ArePairProducts, PairStops};

use crate::pairs::pair_parts;
use crate::stops::{Chain, PairStop, without_residues};
use crate::sums::{SumStop, sum_of_parts};
use basis_core::{Members, quotient_products};
use member_products::Reduct;
use module_vectors::{NoMemory, Ring, Vect, WorkStop};
use monomial_orders::Mono;
use pair_criteria::Pair;
use std::alloc::Global;
use std::collections::VecDeque;
use vector_division::{ScaledProduct, reduce};
use zp_field::Modulus;

/// What the division of an S-vector brings: the products that were made, and what is left as a row, unless it is zero.
#[derive(Drop)]
pub(crate) struct Division {
    pub(crate) products: Vec<(u64, Mono)>,
    pub(crate) row: Option<Reduct>,
}

// The products of the first parts, up to the one with this number.
fn products_to(
    alloc: Global,
    parts: Vec<ScaledProduct>,
    number: usize,
) -> Result<Vec<(u64, Mono)>, NoMemory>
    ensures { IfOk result (λ products. number < length parts.items → products.items ≡ map unscaled (take (number + 1) parts.items)) }
{
    let mut parts = parts;
    if number < parts.len() {
        parts.truncate(number + 1);
    }
    without_residues(alloc, parts)
}

// The stop where the sum of the parts stopped.
fn stop_of_sum(alloc: Global, parts: Vec<ScaledProduct>, stop: SumStop) -> PairStop
    ensures { (n : ℕ) (ws : List ℕ) (ms : List MemberShown) (k : KeyOf n) → ArePairProducts n ws (vectors_in ms) k (map unscaled parts.items)
        → PartsStop (vectors_in ms) parts.items stop → PairStops n ws ms k result }
{
    match stop {
        SumStop::Memory => PairStop::Memory,
        SumStop::Degree(number, last) => match products_to(alloc, parts, number) {
            Ok(products) => PairStop::Degree(Chain { products, last }),
            Err(NoMemory) => PairStop::Memory,
        },
    }
}

// The products of the parts and later ones.
fn products_before(
    alloc: Global,
    parts: Vec<ScaledProduct>,
    later: Vec<(u64, Mono)>,
) -> Result<Vec<(u64, Mono)>, NoMemory>
    ensures { IfOk result (λ products. products.items ≡ map unscaled parts.items ++ later.items) }
{
    let mut later = later;
    let mut products = without_residues(alloc, parts)?;
    products.append(&mut later)?;
    Ok(products)
}

// The stop where the division of a vector with these parts stopped.
fn stop_of_division(alloc: Global, parts: Vec<ScaledProduct>, stop: WorkStop) -> PairStop
    ensures { (ring : RingValue) (ms : List MemberShown) (k : KeyOf (variables ring)) (v : List (KeyValue × ℕ)) → 0 < length parts.items
        → ArePairProducts (variables ring) ring.weights (vectors_in ms) k (map unscaled parts.items)
        → HasKeysMet (variables ring) v (vectors_in ms) (map unscaled parts.items) → DivisionStops ring v (vectors_in ms) stop → PairStops (variables ring) ring.weights ms k result }
{
    match stop {
        WorkStop::Memory => PairStop::Memory,
        WorkStop::Degree(trail) => {
            let (products, last) = trail.into_chain();
            match products_before(alloc, parts, products) {
                Ok(products) => PairStop::Degree(Chain { products, last }),
                Err(NoMemory) => PairStop::Memory,
            }
        }
    }
}

// Puts the quotients' products behind the parts, to be taken away.
fn take_quotients(
    modulus: &Modulus,
    parts: &mut Vec<ScaledProduct>,
    quotients: Vec<ScaledProduct>,
) -> Result<(), NoMemory>
    requires { Each (λ q. q.residue < modulus.now.value) quotients.items }
    ensures { OnOk result (parts.new.items ≡ parts.old.items ++ map (negated modulus.now.value) quotients.items) }
{
    let mut rest = VecDeque::from_vec(quotients);
    while let Some(quotient) = rest.pop_front() {
        parts.push(ScaledProduct {
            index: quotient.index,
            residue: modulus.neg(quotient.residue),
            monomial: quotient.monomial,
        })?;
    }
    Ok(())
}

// What is left becomes a row, the sum of the parts' products.
fn make_row(
    alloc: Global,
    ring: &Ring,
    members: &Members,
    pair: &Pair,
    parts: Vec<ScaledProduct>,
    vector: Vect,
) -> Result<Division, NoMemory>
    requires over { ring.now ≡ members.now.shared.ring }
    requires pair { AreOfPair members.now pair.now }
    requires divided { IsDivided members.now pair.now parts.items vector }
    requires some { 0 < length vector }
    ensures { IfOk result (IsSolvedPair members.now pair.now) }
{
    members.kept();
    let _pair = pair;
    let products = quotient_products(alloc, ring, &parts)?;
    let row = Reduct { vector, products };
    Ok(Division {
        products: without_residues(alloc, parts)?,
        row: Some(row),
    })
}

// What is left becomes a row unless it is zero.
fn make_division(
    alloc: Global,
    ring: &Ring,
    members: &Members,
    pair: &Pair,
    parts: Vec<ScaledProduct>,
    vector: Vect,
) -> Result<Division, NoMemory>
    requires over { ring.now ≡ members.now.shared.ring }
    requires pair { AreOfPair members.now pair.now }
    requires divided { IsDivided members.now pair.now parts.items vector }
    ensures { IfOk result (IsSolvedPair members.now pair.now) }
{
    members.kept();
    if vector.terms().is_empty() {
        return Ok(Division {
            products: without_residues(alloc, parts)?,
            row: None,
        });
    }
    make_row(alloc, ring, members, pair, parts, vector)
}

// Divides the S-vector, the sum of these two parts, which is not zero.
fn divide_vector(
    alloc: Global,
    ring: &Ring,
    members: &Members,
    pair: &Pair,
    parts: Vec<ScaledProduct>,
    vector: &Vect,
) -> Result<Division, PairStop>
    requires over { ring.now ≡ members.now.shared.ring }
    requires pair { AreOfPair members.now pair.now }
    requires some { 0 < length vector.now }
    requires top { IsTopVector members.now pair.now parts.items vector.now }
    ensures solved { IfOk result (IsSolvedPair members.now pair.now) }
    ensures stop { let n = variables ring.now in IfErr result (PairStops n ring.now.weights members.now.list (key_of n pair.now.lcm)) }
{
    members.kept();
    let mut parts = parts;
    let reduction = match reduce(alloc, ring, vector, members) {
        Ok(reduction) => reduction,
        Err(stop) => return Err(stop_of_division(alloc, parts, stop)),
    };
    take_quotients(&ring.modulus, &mut parts, reduction.quotients)?;
    let division = make_division(alloc, ring, members, pair, parts, reduction.rest)?;
    Ok(division)
}

// Divides the S-vector, the sum of these two parts, unless it is zero.
fn divide_top(
    alloc: Global,
    ring: &Ring,
    members: &Members,
    pair: &Pair,
    parts: Vec<ScaledProduct>,
    vector: &Vect,
) -> Result<Division, PairStop>
    requires over { ring.now ≡ members.now.shared.ring }
    requires pair { AreOfPair members.now pair.now }
    requires top { IsTopVector members.now pair.now parts.items vector.now }
    ensures solved { IfOk result (IsSolvedPair members.now pair.now) }
    ensures stop { let n = variables ring.now in IfErr result (PairStops n ring.now.weights members.now.list (key_of n pair.now.lcm)) }
{
    members.kept();
    if vector.terms().is_empty() {
        return Ok(Division {
            products: without_residues(alloc, parts)?,
            row: None,
        });
    }
    divide_vector(alloc, ring, members, pair, parts, vector)
}

// The S-vector of the pair, divided: `ring` is that of the members.
fn divide_over(
    alloc: Global,
    ring: &Ring,
    members: &Members,
    pair: &Pair,
) -> Result<Division, PairStop>
    requires over { ring.now ≡ members.now.shared.ring }
    requires pair { AreOfPair members.now pair.now }
    ensures solved { IfOk result (IsSolvedPair members.now pair.now) }
    ensures stop { let n = variables ring.now in IfErr result (PairStops n ring.now.weights members.now.list (key_of n pair.now.lcm)) }
{
    members.kept();
    let parts = pair_parts(alloc, ring, members, pair)?;
    match sum_of_parts(alloc, ring, &parts, members) {
        Ok(vector) => divide_top(alloc, ring, members, pair, parts, &vector),
        Err(stop) => Err(stop_of_sum(alloc, parts, stop)),
    }
}

/// Divides the pair's S-vector by the members, greatest term first. What is left becomes a row with the products that
/// make it, unless it is zero. IVA chapter 2, section 7.
pub(crate) fn divide_pair(
    alloc: Global,
    members: &Members,
    pair: &Pair,
) -> Result<Division, PairStop>
    requires pair { AreOfPair members.now pair.now }
    ensures solved { IfOk result (IsSolvedPair members.now pair.now) }
    ensures stop { let n = variables members.now.shared.ring in
        IfErr result (PairStops n members.now.shared.ring.weights members.now.list (key_of n pair.now.lcm)) }
{
    divide_over(alloc, members.ring(), members, pair)
}
