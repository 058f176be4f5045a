// The products of a job's pairs.
ghost use Rattle.std.specs.Prelude.{◌≡◌, ◌<◌, ◌≤◌, ◌+◌, ◌*◌, List, [], ℕ, Bool, Contains, IsTrue, false, true, length, get_or, IfErr, OnOk};
ghost use Rattle.monomials.specs.Exponents.{Divides, exponents_of};
ghost use Rattle.formal_sums.specs.FormalSums.{Each};
ghost use Rattle.term_lists.specs.Rings.{variables};
ghost use Rattle.term_lists.specs.Vectors.{IsMonomialOver};
ghost use Rattle.module_vectors.specs.Trails.{lead_at};
ghost use Rattle.vector_division.specs.Progress.{AreWeighed};
ghost use Rattle.symbolic_prep.specs.Hashed.{AreHashed};
ghost use Rattle.symbolic_prep.specs.Plans.{HasPairProducts, IsLaterPlan, IsMemberPair, IsPlan, IsTopProduct};
ghost use Rattle.pair_criteria.specs.Traces.{AreTraced};
ghost use Rattle.symbolic_prep.specs.Traces.{PlanStops};

use crate::plan::{Plan, add_product};
use crate::stop::PlanStop;
use module_vectors::{Ring, Vectors};
use monomial_orders::Mono;
use pair_criteria::{Pair, factor_of};
use std::alloc::Global;

// The product of this member and this monomial is among those from the number `first` on.
fn has_product(products: &[(u64, Mono)], first: usize, member: u64, t: &Mono) -> bool
    ensures { IsTrue result → Contains products.now (member, t.now) }
{
    for k in first..products.len() {
        let product = &products[k];
        if product.0 == member {
            if product.1.equal(t) {
                return true;
            }
        }
    }
    false
}

// Puts the product of a pair's member that has the lcm as its lead behind the other rows, unless it is there: then it is
// among those from the number `first` on, since those of one lcm stand together.
fn add_top<L: Vectors>(
    alloc: Global,
    ring: &Ring,
    members: &L,
    _pairs: &[Pair],
    plan: &mut Plan,
    pair: &Pair,
    member: u64,
    first: usize,
) -> Result<(), PlanStop>
    requires lcm { IsMonomialOver ring.now pair.now.lcm.monomial }
    requires member { member < length (L.listed members.now) }
    requires some { 0 < length (get_or (L.listed members.now) member []) }
    requires position { (lead_at (variables ring.now) (L.listed members.now) member).0 ≡ pair.now.lcm.position }
    requires divides { let n = variables ring.now in Divides (lead_at n (L.listed members.now) member).1 (exponents_of n pair.now.lcm.monomial.exponents) }
    requires pair { Contains _pairs.now pair.now }
    requires weighed { AreWeighed (variables ring.now) ring.now.weights (L.listed members.now) }
    requires plan { IsPlan (variables ring.now) ring.now.weights (L.listed members.now)
        plan.old.keys plan.old.rows.items plan.old.products.items plan.old.led.items }
    requires traced { AreTraced (variables ring.now) (L.listed members.now) _pairs.now plan.old.products.items }
    requires hashed { AreHashed (L.listed members.now) plan.old.hashes.items }
    ensures hashed { OnOk result (AreHashed (L.listed members.now) plan.new.hashes.items) }
    ensures later { OnOk result (IsLaterPlan (variables ring.now) ring.now.weights (L.listed members.now)
        plan.old.keys plan.old.products.items plan.old.led.items
        plan.new.keys plan.new.rows.items plan.new.products.items plan.new.led.items) }
    ensures top { OnOk result ((number : ℕ) × IsTopProduct (variables ring.now) (L.listed members.now) plan.new.products.items
        pair.now.lcm member number) }
    ensures traced { OnOk result (AreTraced (variables ring.now) (L.listed members.now) _pairs.now plan.new.products.items) }
    ensures one { OnOk result (length plan.new.rows.items ≤ length plan.old.rows.items + 1) }
    ensures stop { IfErr result (PlanStops (variables ring.now) ring.now.weights (L.listed members.now) _pairs.now plan.new.products.items) }
{
    let t = factor_of(alloc, ring, &pair.lcm, members.at(member as usize))?;
    if has_product(&plan.products, first, member, &t) {
        return Ok(());
    }
    match add_product(alloc, ring, members, plan, member, t) {
        Ok(()) => Ok(()),
        Err(stop) => Err(stop),
    }
}

// Has the pair with this number another least common multiple than the one before it?
fn starts_lcm(pairs: &[Pair], i: usize) -> bool
    requires { i < length pairs.now }
{
    if i == 0 {
        return true;
    }
    !pairs[i - 1].lcm.equal(&pairs[i].lcm)
}

/// Puts both products of each pair behind the other rows, those of one least common multiple once each where its pairs
/// stand together.
pub(crate) fn add_pairs<L: Vectors>(
    alloc: Global,
    ring: &Ring,
    members: &L,
    pairs: &[Pair],
    plan: &mut Plan,
) -> Result<(), PlanStop>
    requires weighed { AreWeighed (variables ring.now) ring.now.weights (L.listed members.now) }
    requires pairs { Each (IsMemberPair (variables ring.now) ring.now.weights (L.listed members.now)) pairs.now }
    requires plan { IsPlan (variables ring.now) ring.now.weights (L.listed members.now)
        plan.old.keys plan.old.rows.items plan.old.products.items plan.old.led.items }
    requires traced { AreTraced (variables ring.now) (L.listed members.now) pairs.now plan.old.products.items }
    requires hashed { AreHashed (L.listed members.now) plan.old.hashes.items }
    ensures hashed { OnOk result (AreHashed (L.listed members.now) plan.new.hashes.items) }
    ensures later { OnOk result (IsLaterPlan (variables ring.now) ring.now.weights (L.listed members.now)
        plan.old.keys plan.old.products.items plan.old.led.items
        plan.new.keys plan.new.rows.items plan.new.products.items plan.new.led.items) }
    ensures pairs { OnOk result (Each (HasPairProducts (variables ring.now) (L.listed members.now) plan.new.products.items) pairs.now) }
    ensures traced { OnOk result (AreTraced (variables ring.now) (L.listed members.now) pairs.now plan.new.products.items) }
    ensures count { OnOk result (length plan.new.rows.items ≤ length plan.old.rows.items + 2 * length pairs.now) }
    ensures stop { IfErr result (PlanStops (variables ring.now) ring.now.weights (L.listed members.now) pairs.now plan.new.products.items) }
{
    let mut first = 0;
    for i in 0..pairs.len() {
        if starts_lcm(pairs, i) {
            first = plan.products.len();
        }
        let pair = &pairs[i];
        match add_top(alloc, ring, members, pairs, plan, pair, pair.i, first) {
            Ok(()) => {}
            Err(stop) => return Err(stop),
        }
        match add_top(alloc, ring, members, pairs, plan, pair, pair.j, first) {
            Ok(()) => {}
            Err(stop) => return Err(stop),
        }
    }
    Ok(())
}
