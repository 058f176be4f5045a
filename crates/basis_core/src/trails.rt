// How a Put came to a product of too great a degree.
ghost use Rattle.std.specs.Prelude.{ℕ, ◌≡◌, ◌<◌, ◌++◌, ◌∷◌, [], IfOk, IfSome, IfNone, OnOk, false, length, reverse, take, true};
ghost use Rattle.monomials.specs.Exponents.{exponents_of, unit};
ghost use Rattle.formal_sums.specs.FormalSums.{Each, shift};
ghost use Rattle.term_lists.specs.Rings.{variables};
ghost use Rattle.term_lists.specs.Vectors.{IsMonomialOver, key_of};
ghost use Rattle.module_vectors.specs.Trails.{IsInProduct, IsKeptProduct, kept_product_lead, kept_at};
ghost use Rattle.pair_criteria.specs.declared.pair.Pair.{Pair as PairValue};
ghost use Rattle.pair_criteria.specs.Traces.{AreTraced};
ghost use Rattle.basis_core.specs.Chains.{IsTracedTo};
ghost use Rattle.basis_core.specs.Jobs.{pairs_of};
ghost use Rattle.basis_core.specs.Makings.{TrailEndsAs, StopsAt, StopsOne};
ghost use Rattle.basis_core.specs.Members.{AreMonic};
ghost use Rattle.basis_core.specs.Rows.{vectors_in};
ghost use Rattle.basis_core.specs.Stops.{IsTrailBy};
ghost use Rattle.pair_criteria.specs.Pairs.{IsLcmOf};

use crate::copies::trail_over;
use crate::members::Members;
use crate::outcome::Outcome;
use crate::row_division::{RowStop, RowTrail};
use module_vectors::{KeptTrail, Key, NoMemory, TrailStart, Vect, Vectors, WorkStop};
use monomial_orders::Mono;
use pair_criteria::Pair;
use std::alloc::Global;

// Is t times the key the same as u times the other one?
fn same_product(t: &Mono, key: &Key, u: &Mono, other: &Key) -> bool
    requires left { length key.now.monomial.exponents ≡ length t.now.exponents }
    requires right { length u.now.exponents ≡ length t.now.exponents }
    requires other { length other.now.monomial.exponents ≡ length t.now.exponents }
    ensures same { let n = length t.now.exponents in
        result ≡ true → shift (exponents_of n t.now.exponents) (key_of n key.now) ≡ shift (exponents_of n u.now.exponents) (key_of n other.now) }
    ensures apart { let n = length t.now.exponents in
        result ≡ false → shift (exponents_of n t.now.exponents) (key_of n key.now) ≡ shift (exponents_of n u.now.exponents) (key_of n other.now) → ⊥ }
{
    if key.position != other.position {
        return false;
    }
    let first = t.exponents();
    let second = key.monomial.exponents();
    let third = u.exponents();
    let fourth = other.monomial.exponents();
    for i in 0..first.len() {
        if first[i] as u32 + second[i] as u32 != third[i] as u32 + fourth[i] as u32 {
            return false;
        }
    }
    true
}

// Is the lead of the product `of` a key of the product `product`?
fn is_in_product(members: &Members, of: &(u64, Mono), product: &(u64, Mono)) -> bool
    requires nonzero { Each (λ m. 0 < length m.vector) members.now.list }
    requires of { IsKeptProduct (variables members.now.shared.ring) members.now.shared.ring.weights (vectors_in members.now.list) of.now }
    requires product { IsKeptProduct (variables members.now.shared.ring) members.now.shared.ring.weights (vectors_in members.now.list) product.now }
    ensures met { let n = variables members.now.shared.ring in result ≡ true → IsInProduct n (vectors_in members.now.list) (kept_product_lead n (vectors_in members.now.list) of.now) product.now }
    ensures apart { let n = variables members.now.shared.ring in result ≡ false → IsInProduct n (vectors_in members.now.list) (kept_product_lead n (vectors_in members.now.list) of.now) product.now → ⊥ }
{
    members.kept();
    let lead = &members.at(of.0 as usize).terms()[0].0;
    for term in members.at(product.0 as usize).terms() {
        if same_product(&of.1, lead, &product.1, &term.0) {
            return true;
        }
    }
    false
}

// The pair whose lcm is the lead of the product, if there is one.
fn find_pair<'a>(
    members: &Members,
    pairs: &'a [Pair],
    one: &Mono,
    product: &(u64, Mono),
) -> Option<&'a Pair>
    requires nonzero { Each (λ m. 0 < length m.vector) members.now.list }
    requires product { IsKeptProduct (variables members.now.shared.ring) members.now.shared.ring.weights (vectors_in members.now.list) product.now }
    requires variables { length one.now.exponents ≡ variables members.now.shared.ring }
    requires unit { let n = variables members.now.shared.ring in exponents_of n one.now.exponents ≡ unit n }
    requires pairs { Each (λ x. IsMonomialOver members.now.shared.ring x.lcm.monomial) pairs.now }
    ensures some { let n = variables members.now.shared.ring in IfSome result (λ x. IsLcmOf n pairs.now (kept_product_lead n (vectors_in members.now.list) product.now) x.now) }
    ensures none { let n = variables members.now.shared.ring in IfNone result ((x : PairValue) → IsLcmOf n pairs.now (kept_product_lead n (vectors_in members.now.list) product.now) x → ⊥) }
{
    members.kept();
    let lead = &members.at(product.0 as usize).terms()[0].0;
    for pair in pairs {
        if same_product(&product.1, lead, one, &pair.lcm) {
            return Some(pair);
        }
    }
    None
}

// The first product that has the lead of the one with this index, which there must be.
fn find_earlier(members: &Members, all: &[(u64, Mono)], at: usize) -> usize
    requires nonzero { Each (λ m. 0 < length m.vector) members.now.list }
    requires all { Each (IsKeptProduct (variables members.now.shared.ring) members.now.shared.ring.weights (vectors_in members.now.list)) all.now }
    requires within { at < length all.now }
    requires some { let n = variables members.now.shared.ring in (j : ℕ) × (j < at)
        × IsInProduct n (vectors_in members.now.list) (kept_product_lead n (vectors_in members.now.list) (kept_at all.now at)) (kept_at all.now j) }
    ensures earlier { result < at }
    ensures met { let n = variables members.now.shared.ring in IsInProduct n (vectors_in members.now.list)
        (kept_product_lead n (vectors_in members.now.list) (kept_at all.now at)) (kept_at all.now result) }
{
    let of = &all[at];
    for j in 0..at {
        if is_in_product(members, of, &all[j]) {
            return j;
        }
    }
    at
}

// A product again.
fn copy_product(alloc: Global, product: &(u64, Mono)) -> Result<(u64, Mono), NoMemory>
    ensures { IfOk result (λ s. s ≡ product.now) }
{
    Ok((product.0, product.1.try_copy(alloc)?))
}

// Appends a copy of the product.
fn push_product(
    alloc: Global,
    products: &mut Vec<(u64, Mono)>,
    product: &(u64, Mono),
) -> Result<(), NoMemory>
    ensures { OnOk result (products.new.items ≡ products.old.items ++ (product.now ∷ [])) }
{
    let copy = copy_product(alloc, product)?;
    products.push(copy)?;
    Ok(())
}

// Puts products behind the last one, each the first that has the lead of the one before, until one has the lead of a pair,
// whose indices it gives.
fn trace_to_pair(
    alloc: Global,
    members: &Members,
    pairs: &[Pair],
    one: &Mono,
    all: &[(u64, Mono)],
    chain: &mut Vec<(u64, Mono)>,
) -> Result<(u64, u64), NoMemory>
    requires nonzero { Each (λ m. 0 < length m.vector) members.now.list }
    requires variables { length one.now.exponents ≡ variables members.now.shared.ring }
    requires unit { let n = variables members.now.shared.ring in exponents_of n one.now.exponents ≡ unit n }
    requires pairs { Each (λ x. IsMonomialOver members.now.shared.ring x.lcm.monomial) pairs.now }
    requires all { Each (IsKeptProduct (variables members.now.shared.ring) members.now.shared.ring.weights (vectors_in members.now.list)) all.now }
    requires some { 0 < length all.now }
    requires traced { AreTraced (variables members.now.shared.ring) (vectors_in members.now.list) pairs.now all.now }
    requires none { chain.old.items ≡ [] }
    ensures { let n = variables members.now.shared.ring in IfOk result (λ r.
        IsTracedTo n members.now.shared.ring.weights (vectors_in members.now.list) pairs.now all.now (reverse chain.new.items) r.0 r.1) }
{
    let mut at = all.len() - 1;
    loop {
        let product = &all[at];
        push_product(alloc, chain, product)?;
        if let Some(pair) = find_pair(members, pairs, one, product) {
            return Ok((pair.i, pair.j));
        }
        at = find_earlier(members, all, at);
    }
}

// A chain of products that goes from a pair to the last one.
fn trace_back(
    alloc: Global,
    members: &Members,
    pairs: &[Pair],
    all: &[(u64, Mono)],
) -> Result<(Vec<(u64, Mono)>, u64, u64), NoMemory>
    requires nonzero { Each (λ m. 0 < length m.vector) members.now.list }
    requires pairs { Each (λ x. IsMonomialOver members.now.shared.ring x.lcm.monomial) pairs.now }
    requires all { Each (IsKeptProduct (variables members.now.shared.ring) members.now.shared.ring.weights (vectors_in members.now.list)) all.now }
    requires some { 0 < length all.now }
    requires traced { AreTraced (variables members.now.shared.ring) (vectors_in members.now.list) pairs.now all.now }
    ensures { let n = variables members.now.shared.ring in IfOk result (λ r.
        IsTracedTo n members.now.shared.ring.weights (vectors_in members.now.list) pairs.now all.now r.0.items r.1 r.2) }
{
    let one = Mono::unit(alloc, all[0].1.variables())?;
    let mut chain = Vec::new(alloc);
    let (i, j) = trace_to_pair(alloc, members, pairs, &one, all, &mut chain)?;
    chain.reverse();
    Ok((chain, i, j))
}

// Appends copies of the products.
fn push_products(
    alloc: Global,
    all: &mut Vec<(u64, Mono)>,
    products: &[(u64, Mono)],
) -> Result<(), NoMemory>
    ensures { OnOk result (all.new.items ≡ all.old.items ++ products.now) }
{
    for product in products {
        push_product(alloc, all, product)?;
    }
    Ok(())
}

// The products of the outcome and those of a division behind them.
fn gather_products(
    alloc: Global,
    products: &[(u64, Mono)],
    taken: &[(u64, Mono)],
) -> Result<Vec<(u64, Mono)>, NoMemory>
    ensures { IfOk result (λ all. all.items ≡ products.now ++ taken.now) }
{
    let mut all = Vec::new(alloc);
    push_products(alloc, &mut all, products)?;
    push_products(alloc, &mut all, taken)?;
    Ok(all)
}

// The trail of a row's division, which the products of the outcome lead to.
fn put_trail(
    alloc: Global,
    members: &Members,
    outcome: &Outcome,
    trail: RowTrail,
) -> Result<KeptTrail, NoMemory>
    requires shared { outcome.now.job.shared ≡ members.now.shared }
    requires monic { AreMonic members.now.shared members.now.list }
    requires base { outcome.now.job.members ≡ take (length outcome.now.job.members) members.now.list }
    requires row { StopsOne (variables members.now.shared.ring) members.now.shared.ring.weights members.now.list outcome.now.rows (RowStop.Degree trail) }
    ensures trail { IfOk result (IsTrailBy members.now.shared members.now.list (pairs_of outcome.now.job.pairs)) }
    ensures ends { IfOk result (TrailEndsAs (variables members.now.shared.ring) trail.products.items) }
{
    // What holds of members, outcome, job and rows: by it each product has its lead from a pair or an earlier product.
    members.kept();
    outcome.kept();
    let job = outcome.job();
    job.kept();
    let all = gather_products(alloc, outcome.products(), &trail.products)?;
    let (products, i, j) = trace_back(alloc, members, job.pairs(), &all)?;
    let start = TrailStart::Pair(i, j);
    let kept = trail_over(
        alloc,
        members,
        start,
        Vect::zero(alloc),
        products,
        trail.last,
    )?;
    Ok(kept)
}

/// The stop of a Put whose row stopped. Where it has no memory for the trail it says so.
pub(crate) fn put_stop(
    alloc: Global,
    members: &Members,
    outcome: &Outcome,
    stop: RowStop,
) -> WorkStop
    requires shared { outcome.now.job.shared ≡ members.now.shared }
    requires monic { AreMonic members.now.shared members.now.list }
    requires base { outcome.now.job.members ≡ take (length outcome.now.job.members) members.now.list }
    requires row { StopsOne (variables members.now.shared.ring) members.now.shared.ring.weights members.now.list outcome.now.rows stop }
    ensures { StopsAt members.now.shared members.now.list outcome.now stop result }
{
    match stop {
        RowStop::Memory => WorkStop::Memory,
        RowStop::Degree(trail) => match put_trail(alloc, members, outcome, trail) {
            Ok(trail) => WorkStop::Degree(trail),
            Err(NoMemory) => WorkStop::Memory,
        },
    }
}
