// What the positions of the cofactors of a map's columns are compared by.
ghost use Rattle.std.specs.Prelude.{◌≡◌, ◌<◌, ◌^◌, ◌++◌, ◌∷◌, [], ℕ, List, IfOk, length, slice_index};
ghost use Rattle.monomials.specs.Exponents.{exponents_of};
ghost use Rattle.monomials.specs.Weights.{weighted_degree};
ghost use Rattle.bases.specs.Leads.{head_key};
ghost use Rattle.monomial_orders.specs.Kept.{AreWeights};
ghost use Rattle.term_lists.specs.Rings.{variables};
ghost use Rattle.term_lists.specs.Vectors.{sum_of};
ghost use Rattle.term_lists.specs.declared.key.Key.{Key as KeyValue};
ghost use Rattle.resolution_maps.specs.Inducing.{Columns};
ghost use Rattle.induced_leads.specs.Heads.{AreHeads, AreExponentSums, IsHead, IsLeadOf, IsLow};

use module_vectors::{NoMemory, Ring, Vect, VectList};
use std::alloc::Global;

// The bounds of the exponents and the degree of a head: they leave room for a monomial more. A head above them, which
// more than 65,537 maps would take, is not made.
const MAX_EXPONENT: u64 = 1 << 48;

const MAX_DEGREE: u128 = 1 << 100;

/// Where the leads of the maps take a position: the position and the monomial at the bottom, the monomial's degree, and
/// the positions on the way, the lowest first.
pub(crate) struct Head {
    pub(crate) position: u64,
    pub(crate) exponents: Vec<u64>,
    pub(crate) degree: u128,
    pub(crate) way: Vec<u64>,
}

// By hand, so that each drop of one is a call.
impl Drop for Head {
    fn drop(self) {
        let Head {
            position: _,
            exponents: _,
            degree: _,
            way: _,
        } = self;
    }
}

/// Where the leads of maps take each position of the cofactors of the last one's columns: the head of each position that has a
/// column, and the one of all later positions.
pub struct Heads {
    pub(crate) each: Vec<Head>,
    pub(crate) past: Head,
}

// By hand, so that each drop of one is a call.
impl Drop for Heads {
    fn drop(self) {
        let Heads { each: _, past: _ } = self;
    }
}

impl Heads {
    /// The head of a position.
    pub(crate) fn at(&self, position: u64) -> &Head
        ensures { (n : ℕ) (ws : List ℕ) (maps : Columns) → AreHeads n ws maps self.now → IsHead n ws maps position result.now }
    {
        if position < self.each.len() as u64 {
            &self.each[position as usize]
        } else {
            &self.past
        }
    }
}

// The exponent at this place, 0 past the end.
fn small_at(a: &[u16], k: usize) -> u64
    ensures is { result ≡ slice_index a.now k }
    ensures low { result < 65536 }
{
    if k < a.len() { u64::from(a[k]) } else { 0 }
}

fn large_at(e: &[u64], k: usize) -> u64
    ensures { result ≡ slice_index e.now k }
{
    if k < e.len() { e[k] } else { 0 }
}

// The sums of the first n exponents, place by place.
fn add_exponents(alloc: Global, n: usize, a: &[u16], e: &[u64]) -> Result<Vec<u64>, NoMemory>
    requires { (k : ℕ) → slice_index e.now k < 2 ^ 48 }
    ensures sums { IfOk result (λ r. AreExponentSums n a.now e.now r.items) }
    ensures low { IfOk result (λ r. (k : ℕ) → slice_index r.items k < 2 ^ 48) }
{
    let mut exponents = Vec::with_capacity(alloc, n)?;
    for k in 0..n {
        let sum = small_at(a, k) + large_at(e, k);
        if sum >= MAX_EXPONENT {
            return Err(NoMemory);
        }
        exponents.push(sum)?;
    }
    Ok(exponents)
}

// The degree by the weights.
fn degree_of(weights: &[u8], e: &[u64]) -> u128
    requires variables { length weights.now ≡ length e.now }
    requires positive { AreWeights weights.now }
    requires low { (k : ℕ) → slice_index e.now k < 2 ^ 48 }
    ensures { result ≡ weighted_degree weights.now (exponents_of (length e.now) e.now) }
{
    let mut degree: u128 = 0;
    for k in 0..e.len() {
        degree += u128::from(weights[k]) * u128::from(e[k]);
    }
    degree
}

// The exponents of a lead above a head's, and their degree.
fn lift_exponents(
    alloc: Global,
    ring: &Ring,
    a: &[u16],
    e: &[u64],
) -> Result<(Vec<u64>, u128), NoMemory>
    requires { (k : ℕ) → slice_index e.now k < 2 ^ 48 }
    ensures sums { IfOk result (λ r. AreExponentSums (variables ring.now) a.now e.now r.0.items) }
    ensures low { IfOk result (λ r. IsLow r.0.items r.1) }
    ensures degree { let n = variables ring.now in IfOk result (λ r. r.1 ≡ weighted_degree ring.now.weights (exponents_of n r.0.items)) }
{
    let weights = ring.weights.as_slice();
    let exponents = add_exponents(alloc, weights.len(), a, e)?;
    let degree = degree_of(weights, &exponents);
    if degree >= MAX_DEGREE {
        return Err(NoMemory);
    }
    Ok((exponents, degree))
}

// The position and the exponents of the lead; those of 1 at the first position where the vector is zero.
fn lead_parts(v: &Vect) -> (u64, &[u16])
    ensures { (n : ℕ) → head_key (sum_of n v.now) ≡ (result.0, exponents_of n result.1.now) }
{
    match v.lead() {
        Some(lead) => (lead.key.position, lead.key.monomial.exponents()),
        None => (0, &[]),
    }
}

// The head of a position of the first map's cofactors, by its lead.
fn first_head(
    alloc: Global,
    ring: &Ring,
    position: u64,
    exponents: &[u16],
) -> Result<Head, NoMemory>
    ensures { (F : List (List (KeyValue × ℕ))) (i : ℕ) → IsLeadOf (variables ring.now) F i position exponents.now
        → IfOk result (IsHead (variables ring.now) ring.now.weights (F ∷ []) i) }
{
    let (exponents, degree) = lift_exponents(alloc, ring, exponents, &[])?;
    Ok(Head {
        position,
        exponents,
        degree,
        way: Vec::new(alloc),
    })
}

// The head of a position of a later map's cofactors, by its lead and the head of the lead's position.
fn next_head(
    alloc: Global,
    ring: &Ring,
    below: &Heads,
    position: u64,
    exponents: &[u16],
) -> Result<Head, NoMemory>
    requires { (maps : Columns) × AreHeads (variables ring.now) ring.now.weights maps below.now }
    ensures { (maps : Columns) (F : List (List (KeyValue × ℕ))) (i : ℕ)
        → AreHeads (variables ring.now) ring.now.weights maps below.now → IsLeadOf (variables ring.now) F i position exponents.now
        → IfOk result (IsHead (variables ring.now) ring.now.weights (maps ++ F ∷ []) i) }
{
    let head = below.at(position);
    let (exponents, degree) = lift_exponents(alloc, ring, exponents, &head.exponents)?;
    let mut way = Vec::with_capacity(alloc, head.way.len() + 1)?;
    for place in &head.way {
        way.push(*place)?;
    }
    way.push(position)?;
    Ok(Head {
        position: head.position,
        exponents,
        degree,
        way,
    })
}

/// The heads of the positions of the first map's cofactors.
pub(crate) fn first_heads(alloc: Global, ring: &Ring, columns: &VectList) -> Result<Heads, NoMemory>
    ensures { IfOk result (AreHeads (variables ring.now) ring.now.weights (columns.now ∷ [])) }
{
    let mut each = Vec::with_capacity(alloc, columns.len())?;
    for v in columns.as_slice() {
        let (position, exponents) = lead_parts(v);
        each.push(first_head(alloc, ring, position, exponents)?)?;
    }
    Ok(Heads {
        each,
        past: first_head(alloc, ring, 0, &[])?,
    })
}

/// The heads of the positions of the next map's cofactors.
pub(crate) fn next_heads(
    alloc: Global,
    ring: &Ring,
    below: &Heads,
    columns: &VectList,
) -> Result<Heads, NoMemory>
    requires { (maps : Columns) × AreHeads (variables ring.now) ring.now.weights maps below.now }
    ensures { (maps : Columns) → AreHeads (variables ring.now) ring.now.weights maps below.now
        → IfOk result (AreHeads (variables ring.now) ring.now.weights (maps ++ columns.now ∷ [])) }
{
    let mut each = Vec::with_capacity(alloc, columns.len())?;
    for v in columns.as_slice() {
        let (position, exponents) = lead_parts(v);
        each.push(next_head(alloc, ring, below, position, exponents)?)?;
    }
    Ok(Heads {
        each,
        past: next_head(alloc, ring, below, 0, &[])?,
    })
}
