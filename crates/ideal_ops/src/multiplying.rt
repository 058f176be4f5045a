// The product of an ideal and a module.
ghost use Rattle.std.specs.Prelude.{◌≡◌, ◌<◌, ◌≤◌, ◌∷◌, [], IfErr, IfOk, OnOk, get_or, length, map};
ghost use Rattle.formal_sums.specs.FormalSums.{Each, FormalSum, product};
ghost use Rattle.formal_sums.specs.Combinations.{IsMember};
ghost use Rattle.operation_laws.specs.Operations.{products_of};
ghost use Rattle.term_lists.specs.Rings.{ring_comparison, variables};
ghost use Rattle.term_lists.specs.Vectors.{AreVectorsOver, HasPositions, IsVectorOver, StandsFor, sum_of, sums_of};
ghost use Rattle.module_vectors.specs.ProductStops.{CombinationStops};
ghost use Rattle.module_vectors.specs.declared.trail.TrailStart.TheVariants.{Product};
ghost use Rattle.risen_counts.specs.Counts.{RoseAtMost};
ghost use Rattle.groebner_iface.specs.Calls.{CallStops};
ghost use Rattle.syzygy_engine.specs.Answers.{IsBasisOfThose};
ghost use Rattle.syzygy_engine.specs.Runs.{AreVectorsFor};
ghost use Rattle.ideal_ops.specs.Products.{IsProductRun, IsProductTrail, IsTrailOfProducts, IsTrailOfRow, WorkStops};

use groebner_iface::{Groebner, OpStop};
use module_vectors::{
    KeptTrail, NoMemory, Ring, TrailStart, Vect, VectList, VectStop, WorkStop, lawful_setting,
};
use monomial_orders::Mono;
use risen_counts::counted_times;
use std::alloc::Global;
use std::sync::Wait;
use std::thread::Threads;
use syzygy_engine::followed;

// The ring and the vector again.
fn copy_parts(alloc: Global, ring: &Ring, b: &Vect) -> Result<(Ring, Vect), NoMemory>
    ensures { IfOk result (λ parts. (parts.0 ≡ ring.now) × (parts.1 ≡ b.now)) }
{
    let copied_ring = ring.try_copy(alloc)?;
    let vector = b.try_copy(alloc)?;
    Ok((copied_ring, vector))
}

// The product of this monomial and the member with this index.
fn one_product(alloc: Global, index: usize, s: Mono) -> Result<Vec<(u64, Mono)>, NoMemory>
    ensures { IfOk result (λ products. products.items ≡ (index, s) ∷ []) }
{
    let mut products = Vec::new(alloc);
    products.push((index as u64, s))?;
    Ok(products)
}

// The trail of the product of a monomial of b and one of the member with this index.
fn trail_of(
    alloc: Global,
    ring: &Ring,
    b: &Vect,
    members: VectList,
    index: usize,
    s: Mono,
    t: Mono,
) -> Result<KeptTrail, NoMemory>
    ensures of { IfOk result (λ r. (r.ring ≡ ring.now) × (r.rank ≡ 0) × (r.generators ≡ []) × (r.below.items ≡ [])
        × (r.start ≡ Product) × (r.vector ≡ b.now) × (r.members ≡ members)) }
    ensures step { IfOk result (λ r. (r.products.items ≡ (index, s) ∷ []) × (r.last ≡ t)) }
{
    let products = one_product(alloc, index, s)?;
    let (copied_ring, vector) = copy_parts(alloc, ring, b)?;
    Ok(KeptTrail {
        ring: copied_ring,
        rank: 0,
        generators: VectList::new(alloc),
        below: Vec::new(alloc),
        start: TrailStart::Product,
        vector,
        members,
        products,
        last: t,
    })
}

/// The stop of the product of b and the member with this index, with its trail.
pub(crate) fn stop_of(
    alloc: Global,
    ring: &Ring,
    b: &Vect,
    members: VectList,
    index: usize,
    stop: VectStop,
) -> WorkStop
    requires b { IsVectorOver ring.now (ring_comparison ring.now) b.now }
    requires b_positions { HasPositions 1 b.now }
    requires members { AreVectorsOver ring.now (ring_comparison ring.now) members }
    requires index { index < length members }
    requires stop { CombinationStops b.now (get_or members index [] ∷ []) stop }
    ensures { WorkStops (IsProductTrail ring.now b.now members index) result }
{
    match stop {
        VectStop::Memory => WorkStop::Memory,
        VectStop::Degree(s, t) => match trail_of(alloc, ring, b, members, index, s, t) {
            Ok(trail) => WorkStop::Degree(trail),
            Err(_none) => WorkStop::Memory,
        },
    }
}

// The same of a list that is copied.
fn stop_in(
    alloc: Global,
    ring: &Ring,
    b: &Vect,
    list: &VectList,
    index: usize,
    stop: VectStop,
) -> WorkStop
    requires b { IsVectorOver ring.now (ring_comparison ring.now) b.now }
    requires b_positions { HasPositions 1 b.now }
    requires list { AreVectorsOver ring.now (ring_comparison ring.now) list.now }
    requires index { index < length list.now }
    requires stop { CombinationStops b.now (get_or list.now index [] ∷ []) stop }
    ensures { WorkStops (IsProductTrail ring.now b.now list.now index) result }
{
    match VectList::copy_of(alloc, list) {
        Ok(members) => stop_of(alloc, ring, b, members, index, stop),
        Err(_none) => WorkStop::Memory,
    }
}

// The list of this vector alone.
fn alone(alloc: Global, c: &Vect) -> Result<VectList, NoMemory>
    ensures { IfOk result (λ list. list ≡ c.now ∷ []) }
{
    let copy = c.try_copy(alloc)?;
    let mut list = VectList::new(alloc);
    list.push(copy)?;
    Ok(list)
}

// b times the member with this index, for a polynomial b.
fn times(
    alloc: Global,
    ring: &Ring,
    b: &Vect,
    right: &VectList,
    index: usize,
) -> Result<Vect, WorkStop>
    requires b { IsVectorOver ring.now (ring_comparison ring.now) b.now }
    requires b_positions { HasPositions 1 b.now }
    requires right { AreVectorsOver ring.now (ring_comparison ring.now) right.now }
    requires index { index < length right.now }
    ensures vector { IfOk result (IsVectorOver ring.now (ring_comparison ring.now)) }
    ensures product { let n = variables ring.now in
        IfOk result (λ v. StandsFor ring.now v (product (sum_of n b.now) (sum_of n (get_or right.now index [])))) }
    ensures stop { IfErr result (WorkStops (IsProductTrail ring.now b.now right.now index)) }
{
    let one = alone(alloc, &right.as_slice()[index])?;
    match Vect::combine(alloc, ring, b, &one) {
        Ok(v) => Ok(v),
        Err(stop) => Err(stop_in(alloc, ring, b, right, index, stop)),
    }
}

// b times each member.
fn row(alloc: Global, ring: &Ring, b: &Vect, right: &VectList) -> Result<VectList, WorkStop>
    requires b { IsVectorOver ring.now (ring_comparison ring.now) b.now }
    requires b_positions { HasPositions 1 b.now }
    requires right { AreVectorsOver ring.now (ring_comparison ring.now) right.now }
    ensures list { let n = variables ring.now in
        IfOk result (AreVectorsFor ring.now (map (product (sum_of n b.now)) (sums_of n right.now))) }
    ensures stop { IfErr result (WorkStops (IsTrailOfRow ring.now b.now right.now)) }
{
    let mut list = Vec::new(alloc);
    for j in 0..right.len() {
        let v = match times(alloc, ring, b, right, j) {
            Ok(v) => v,
            Err(stop) => return Err(stop),
        };
        list.push(v)?;
    }
    Ok(VectList::from_vec(list))
}

// The products of the members, those of the first list outermost.
fn products(
    alloc: Global,
    ring: &Ring,
    left: &VectList,
    right: &VectList,
) -> Result<VectList, WorkStop>
    requires left { AreVectorsOver ring.now (ring_comparison ring.now) left.now }
    requires left_positions { Each (HasPositions 1) left.now }
    requires right { AreVectorsOver ring.now (ring_comparison ring.now) right.now }
    ensures list { let n = variables ring.now in
        IfOk result (AreVectorsFor ring.now (products_of (sums_of n left.now) (sums_of n right.now))) }
    ensures stop { IfErr result (WorkStops (IsTrailOfProducts ring.now left.now right.now)) }
{
    let mut list = VectList::new(alloc);
    for i in 0..left.len() {
        let b = &left.as_slice()[i];
        let more = match row(alloc, ring, b, right) {
            Ok(more) => more,
            Err(stop) => return Err(stop),
        };
        list = followed(list, more)?;
    }
    Ok(list)
}

/// The reduced basis of the product of an ideal and a module of this rank: one run, on the products of their members
/// (IVA chapter 4, section 3).
///
/// `Pairs` and `Degree` are the run's, which the engine counted and kept; `Trail` comes with that of the product of two
/// members, whose vector is that of the first list and whose members are the second list; `Memory` where there is none.
pub fn product<R: Threads + Wait + Sync, B: Groebner>(
    rt: &R,
    alloc: Global,
    engine: &mut B,
    ring: &Ring,
    rank: u128,
    left: &VectList,
    right: &VectList,
) -> Result<VectList, OpStop>
    requires left { AreVectorsOver ring.now (ring_comparison ring.now) left.now }
    requires left_positions { Each (HasPositions 1) left.now }
    requires right { AreVectorsOver ring.now (ring_comparison ring.now) right.now }
    requires right_positions { Each (HasPositions rank) right.now }
    ensures basis { let n = variables ring.now in IfOk result
        (IsBasisOfThose ring.now rank (IsMember ring.now.modulus.value (products_of (sums_of n left.now) (sums_of n right.now)))) }
    ensures same { OnOk result ((B.stops engine.new ≡ B.stops engine.old) × (B.stopped engine.new ≡ B.stopped engine.old)) }
    ensures stop { IfErr result (CallStops (IsProductRun ring.now rank left.now right.now) (IsTrailOfProducts ring.now left.now right.now)
        (B.stops engine.old) (B.stops engine.new) (B.stopped engine.old) (B.stopped engine.new)) }
    ensures later { B.stops engine.old ≤ B.stops engine.new }
    ensures runs { RoseAtMost 1 (B.runs engine.old) (B.runs engine.new) }
    ensures settings { B.settings engine.new ≡ B.settings engine.old }
{
    counted_times();
    lawful_setting(ring);
    let list = match products(alloc, ring, left, right) {
        Ok(list) => list,
        Err(stop) => return Err(OpStop::from(stop)),
    };
    match engine.reduced(rt, alloc, ring, rank, &list) {
        Ok(basis) => Ok(basis),
        Err(stop) => Err(OpStop::from(stop)),
    }
}
