// The canonical resolution of a module.
ghost use Rattle.std.specs.Prelude.{◌≡◌, ◌<◌, ◌≤◌, ◌++◌, ◌∷◌, [], ℕ, List, IfErr, IfOk, IfSome, OnOk, length, map, replicate};
ghost use Rattle.formal_sums.specs.FormalSums.{Each};
ghost use Rattle.bases.specs.Bases.{IsReducedBasis};
ghost use Rattle.resolution_laws.specs.Resolutions.{IsCanonical, IsCanonicalStart};
ghost use Rattle.term_lists.specs.Rings.{ring_comparison, setting, variables};
ghost use Rattle.term_lists.specs.Vectors.{AreVectorsOver, HasPositions, IsMonomialOver, key_of, sums_of};
ghost use Rattle.term_lists.specs.declared.key.Key.{Key as KeyValue};
ghost use Rattle.resolution_maps.specs.Inducing.{Columns, maps_of};
ghost use Rattle.resolution_maps.specs.Resolved.{AreJoined, AreVectorsThrough, HavePositions, ResolutionStops, columns_of};
ghost use Rattle.induced_leads.specs.Heads.{AreHeads};
ghost use Rattle.induced_leads.specs.Spans.{IsIndexOf};
ghost use Rattle.induced_leads.specs.PairLeads.{ArePairLeads, IsBase};
ghost use Rattle.schreyer_resolution.specs.Columns.{AreColumnsTo, ColumnStops, IsAbove};
ghost use Rattle.schreyer_resolution.specs.Progress.{AreResolvedTo, IsNextMap, IsTopMap};

use crate::column::column;
use crate::shared::shared_columns;
use crate::sorting::sorted_columns;
use induced_leads::{Heads, Induced, LeadIndex, index_leads, pair_leads};
use module_vectors::{Frame, Key, NoMemory, Ring, VectList, WorkStop, lawful_setting};
use resolution_maps::{Resolution, joined_maps, positions_of_zero};
use std::alloc::Global;

// The columns with these leads, each by a division of its own, which has the trail where a product is too great.
fn divided_columns<F: Frame>(
    alloc: Global,
    frame: &F,
    induced: &Induced<'_>,
    below: &[VectList],
    columns: &VectList,
    index: &LeadIndex,
    keys: &[Key],
) -> Result<VectList, WorkStop>
    requires over { induced.now.ring ≡ F.over frame.now }
    requires above { IsAbove (F.over frame.now) (F.compare frame.now) columns.now induced.now }
    requires vectors { AreVectorsOver (F.over frame.now) (F.compare frame.now) columns.now }
    requires base { IsBase (F.over frame.now) (F.compare frame.now) columns.now }
    requires index { IsIndexOf columns.now index.now }
    requires monomials { Each (λ k. IsMonomialOver (F.over frame.now) k.monomial) keys.now }
    requires pairs { let n = variables (F.over frame.now) in ArePairLeads (sums_of n columns.now) (map (key_of n) keys.now) }
    ensures columns { IfOk result (AreColumnsTo (F.over frame.now) (F.compare frame.now) columns.now induced.now keys.now (length keys.now)) }
    ensures stop { IfErr result (ColumnStops (F.over frame.now) below.now columns.now) }
{
    let mut next = Vec::new(alloc);
    for key in keys {
        let made = match column(alloc, frame, induced, below, columns, index, key) {
            Ok(made) => made,
            Err(stop) => return Err(stop),
        };
        next.push(made)?;
    }
    Ok(VectList::from_vec(next))
}

// The columns with these leads.
fn columns_at<F: Frame>(
    alloc: Global,
    frame: &F,
    induced: &Induced<'_>,
    below: &[VectList],
    columns: &VectList,
    keys: &[Key],
) -> Result<VectList, WorkStop>
    requires over { induced.now.ring ≡ F.over frame.now }
    requires above { IsAbove (F.over frame.now) (F.compare frame.now) columns.now induced.now }
    requires vectors { AreVectorsOver (F.over frame.now) (F.compare frame.now) columns.now }
    requires base { IsBase (F.over frame.now) (F.compare frame.now) columns.now }
    requires monomials { Each (λ k. IsMonomialOver (F.over frame.now) k.monomial) keys.now }
    requires pairs { let n = variables (F.over frame.now) in ArePairLeads (sums_of n columns.now) (map (key_of n) keys.now) }
    ensures columns { IfOk result (AreColumnsTo (F.over frame.now) (F.compare frame.now) columns.now induced.now keys.now (length keys.now)) }
    ensures stop { IfErr result (ColumnStops (F.over frame.now) below.now columns.now) }
{
    let index = index_leads(alloc, columns.as_slice())?;
    match shared_columns(alloc, frame, induced, columns, &index, keys) {
        Some(next) => Ok(next),
        None => divided_columns(alloc, frame, induced, below, columns, &index, keys),
    }
}

// The order that the columns of these maps induce, by the heads of the maps where they are at hand.
fn order_by<'a>(
    alloc: Global,
    ring: &'a Ring,
    maps: &'a [VectList],
    heads: Option<Heads>,
) -> Result<Induced<'a>, NoMemory>
    requires some { 0 < length maps.now }
    requires heads { IfSome heads (AreHeads (variables ring.now) ring.now.weights maps.now) }
    ensures ring { IfOk result (λ f. f.ring ≡ ring.now) }
    ensures maps { IfOk result (λ f. f.maps ≡ maps.now) }
{
    match heads {
        Some(heads) => Ok(Induced::by_heads(ring, maps, heads)),
        None => Induced::through(alloc, ring, maps),
    }
}

// The next map above one that stands on no other, and the heads of that one.
fn second_map(
    alloc: Global,
    ring: &Ring,
    maps: &[VectList],
    columns: &VectList,
    heads: &mut Option<Heads>,
) -> Result<VectList, WorkStop>
    requires maps { maps.now ≡ columns.now ∷ [] }
    requires top { IsTopMap ring.now [] columns.now }
    ensures next { IfOk result (IsNextMap ring.now [] columns.now) }
    ensures heads { OnOk result (IfSome heads.new (AreHeads (variables ring.now) ring.now.weights maps.now)) }
    ensures stop { IfErr result (ColumnStops ring.now [] columns.now) }
{
    lawful_setting(ring);
    let keys = pair_leads(alloc, ring, columns)?;
    let induced = Induced::through(alloc, ring, maps)?;
    let next = columns_at(alloc, ring, &induced, &[], columns, &keys);
    *heads = Some(induced.into_heads());
    next
}

// The next map above one that stands on others, and the heads of all these.
fn later_map(
    alloc: Global,
    ring: &Ring,
    maps: &[VectList],
    below: &[VectList],
    columns: &VectList,
    heads: &mut Option<Heads>,
) -> Result<VectList, WorkStop>
    requires maps { maps.now ≡ below.now ++ columns.now ∷ [] }
    requires some { 0 < length below.now }
    requires top { IsTopMap ring.now below.now columns.now }
    requires heads { IfSome heads.old (AreHeads (variables ring.now) ring.now.weights below.now) }
    ensures next { IfOk result (IsNextMap ring.now below.now columns.now) }
    ensures heads { OnOk result (IfSome heads.new (AreHeads (variables ring.now) ring.now.weights maps.now)) }
    ensures stop { IfErr result (ColumnStops ring.now below.now columns.now) }
{
    let frame = order_by(alloc, ring, below, heads.take())?;
    lawful_setting(&frame);
    let keys = pair_leads(alloc, &frame, columns)?;
    let induced = Induced::above(alloc, ring, maps, &frame, columns)?;
    let next = columns_at(alloc, &frame, &induced, below, columns, &keys);
    *heads = Some(induced.into_heads());
    next
}

// The next map above one and those that it stands on, if any, and the heads of all these.
fn map_above(
    alloc: Global,
    ring: &Ring,
    maps: &[VectList],
    below: &[VectList],
    columns: &VectList,
    heads: &mut Option<Heads>,
) -> Result<VectList, WorkStop>
    requires maps { maps.now ≡ below.now ++ columns.now ∷ [] }
    requires top { IsTopMap ring.now below.now columns.now }
    requires heads { IfSome heads.old (AreHeads (variables ring.now) ring.now.weights below.now) }
    ensures next { IfOk result (IsNextMap ring.now below.now columns.now) }
    ensures heads { OnOk result (IfSome heads.new (AreHeads (variables ring.now) ring.now.weights maps.now)) }
    ensures stop { IfErr result (ColumnStops ring.now below.now columns.now) }
{
    if below.is_empty() {
        second_map(alloc, ring, maps, columns, heads)
    } else {
        later_map(alloc, ring, maps, below, columns, heads)
    }
}

// The next map, and the heads of those that it stands on. The heads of all of these but the last one may be at hand.
fn next_map(
    alloc: Global,
    ring: &Ring,
    maps: &[VectList],
    heads: &mut Option<Heads>,
) -> Result<VectList, WorkStop>
    requires some { 0 < length maps.now }
    requires top { (below : Columns) (last : List (List (KeyValue × ℕ))) → maps.now ≡ below ++ last ∷ [] → IsTopMap ring.now below last }
    requires heads { (below : Columns) (last : List (List (KeyValue × ℕ))) → maps.now ≡ below ++ last ∷ []
        → IfSome heads.old (AreHeads (variables ring.now) ring.now.weights below) }
    ensures next { (below : Columns) (last : List (List (KeyValue × ℕ))) → maps.now ≡ below ++ last ∷ []
        → IfOk result (IsNextMap ring.now below last) }
    ensures heads { OnOk result (IfSome heads.new (AreHeads (variables ring.now) ring.now.weights maps.now)) }
    ensures stop { (below : Columns) (last : List (List (KeyValue × ℕ))) → maps.now ≡ below ++ last ∷ []
        → IfErr result (ColumnStops ring.now below last) }
{
    match maps.split_last() {
        Some((columns, below)) => map_above(alloc, ring, maps, below, columns, heads),
        None => unreachable!(),
    }
}

// The first map alone.
fn first_maps(
    alloc: Global,
    ring: &Ring,
    rank: u128,
    reduced: &VectList,
) -> Result<Vec<VectList>, NoMemory>
    requires vectors { AreVectorsOver ring.now (ring_comparison ring.now) reduced.now }
    requires positions { Each (HasPositions rank) reduced.now }
    requires basis { let n = variables ring.now in
        IsReducedBasis (setting ring.now n (ring_comparison ring.now n) rank) (sums_of n reduced.now) (sums_of n reduced.now) }
    requires some { 0 < length reduced.now }
    ensures resolved { IfOk result (λ maps. AreResolvedTo ring.now rank reduced.now maps.items) }
    ensures one { IfOk result (λ maps. length maps.items ≡ 1) }
{
    let first = sorted_columns(alloc, ring, rank, reduced)?;
    let mut maps = Vec::new(alloc);
    maps.push(first)?;
    Ok(maps)
}

// The first map and those that come behind it, as far as there are `count` maps.
fn start_behind(
    alloc: Global,
    ring: &Ring,
    rank: u128,
    reduced: &VectList,
    count: u128,
    first: Vec<VectList>,
) -> Result<Vec<VectList>, WorkStop>
    requires positions { Each (HasPositions rank) reduced.now }
    requires resolved { AreResolvedTo ring.now rank reduced.now first.items }
    requires one { length first.items ≡ 1 }
    requires some { 0 < count }
    ensures start { let n = variables ring.now in
        IfOk result (λ maps. IsCanonicalStart (setting ring.now n (ring_comparison ring.now n) rank) (sums_of n reduced.now) count (maps_of n maps.items)) }
    ensures vectors { IfOk result (λ maps. AreVectorsThrough ring.now [] maps.items) }
    ensures positions { IfOk result (λ maps. HavePositions rank maps.items) }
    ensures stop { IfErr result (ResolutionStops ring.now rank reduced.now) }
{
    let _rank = rank;
    let _reduced = reduced;
    let mut maps = first;
    let mut heads: Option<Heads> = None;
    for _ in 1..count {
        let next = match next_map(alloc, ring, &maps, &mut heads) {
            Ok(next) => next,
            Err(stop) => return Err(stop),
        };
        if next.is_empty() {
            return Ok(maps);
        }
        maps.push(next)?;
    }
    Ok(maps)
}

// The columns of the first `count` maps.
fn start_maps(
    alloc: Global,
    ring: &Ring,
    rank: u128,
    reduced: &VectList,
    count: u128,
) -> Result<Vec<VectList>, WorkStop>
    requires vectors { AreVectorsOver ring.now (ring_comparison ring.now) reduced.now }
    requires positions { Each (HasPositions rank) reduced.now }
    requires basis { let n = variables ring.now in
        IsReducedBasis (setting ring.now n (ring_comparison ring.now n) rank) (sums_of n reduced.now) (sums_of n reduced.now) }
    ensures start { let n = variables ring.now in
        IfOk result (λ maps. IsCanonicalStart (setting ring.now n (ring_comparison ring.now n) rank) (sums_of n reduced.now) count (maps_of n maps.items)) }
    ensures vectors { IfOk result (λ maps. AreVectorsThrough ring.now [] maps.items) }
    ensures positions { IfOk result (λ maps. HavePositions rank maps.items) }
    ensures stop { IfErr result (ResolutionStops ring.now rank reduced.now) }
{
    if count == 0 {
        return Ok(Vec::new(alloc));
    }
    if reduced.is_empty() {
        return Ok(Vec::new(alloc));
    }
    let first = first_maps(alloc, ring, rank, reduced)?;
    start_behind(alloc, ring, rank, reduced, count, first)
}

/// The first `count` maps of the canonical resolution that `resolve` answers, or all of them where it has fewer. No map behind
/// these is computed (Eisenbud, section 15.5).
///
/// `Degree` and `Memory` as there.
pub fn resolve_to(
    alloc: Global,
    ring: &Ring,
    rank: u128,
    reduced: &VectList,
    count: u128,
) -> Result<Resolution, WorkStop>
    requires vectors { AreVectorsOver ring.now (ring_comparison ring.now) reduced.now }
    requires positions { Each (HasPositions rank) reduced.now }
    requires basis { let n = variables ring.now in
        IsReducedBasis (setting ring.now n (ring_comparison ring.now n) rank) (sums_of n reduced.now) (sums_of n reduced.now) }
    ensures start { let n = variables ring.now in
        IfOk result (λ r. IsCanonicalStart (setting ring.now n (ring_comparison ring.now n) rank) (sums_of n reduced.now) count (maps_of n (columns_of r))) }
    ensures length { 0 < variables ring.now → IfOk result (λ r. length r.maps.items ≤ variables ring.now) }
    ensures vectors { IfOk result (λ r. AreVectorsThrough ring.now [] (columns_of r)) }
    ensures places { IfOk result (λ r. r.positions.items ≡ replicate rank 0) }
    ensures joined { IfOk result (λ r. AreJoined ring.now r.positions.items r.maps.items) }
    ensures stop { IfErr result (ResolutionStops ring.now rank reduced.now) }
{
    lawful_setting(ring);
    let columns = match start_maps(alloc, ring, rank, reduced, count) {
        Ok(columns) => columns,
        Err(stop) => return Err(stop),
    };
    let positions = positions_of_zero(alloc, rank)?;
    let maps = joined_maps(alloc, ring, &positions, columns)?;
    Ok(Resolution { positions, maps })
}

/// The canonical resolution of the free module of this rank modulo the module of `reduced`, a reduced Gröbner basis: its
/// first map has the columns of that basis, and each further one the reduced basis of the kernel of the one before, in the
/// order that its leads induce. Columns stand by lead position ascending, then by lex-descending lead monomial. Over n
/// variables, n at least 1, there are at most n maps (Eisenbud, section 15.5).
///
/// `Degree` comes with a trail that begins with a pair of columns of one of its maps; `Memory` where there is none, and where
/// the degree of a column is 2^32 or more.
pub fn resolve(
    alloc: Global,
    ring: &Ring,
    rank: u128,
    reduced: &VectList,
) -> Result<Resolution, WorkStop>
    requires vectors { AreVectorsOver ring.now (ring_comparison ring.now) reduced.now }
    requires positions { Each (HasPositions rank) reduced.now }
    requires basis { let n = variables ring.now in
        IsReducedBasis (setting ring.now n (ring_comparison ring.now n) rank) (sums_of n reduced.now) (sums_of n reduced.now) }
    ensures canonical { let n = variables ring.now in
        IfOk result (λ r. IsCanonical (setting ring.now n (ring_comparison ring.now n) rank) (sums_of n reduced.now) (maps_of n (columns_of r))) }
    ensures length { 0 < variables ring.now → IfOk result (λ r. length r.maps.items ≤ variables ring.now) }
    ensures vectors { IfOk result (λ r. AreVectorsThrough ring.now [] (columns_of r)) }
    ensures places { IfOk result (λ r. r.positions.items ≡ replicate rank 0) }
    ensures joined { IfOk result (λ r. AreJoined ring.now r.positions.items r.maps.items) }
    ensures stop { IfErr result (ResolutionStops ring.now rank reduced.now) }
{
    lawful_setting(ring);
    let count = ring.vars.len() as u128 + 2;
    resolve_to(alloc, ring, rank, reduced, count)
}
