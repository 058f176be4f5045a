// Columns in their order.
ghost use Rattle.std.specs.Prelude.{◌≡◌, ◌<◌, [], IfOk, length};
ghost use Rattle.formal_sums.specs.FormalSums.{Each};
ghost use Rattle.bases.specs.Bases.{IsReducedBasis};
ghost use Rattle.resolution_laws.specs.Resolutions.{IsCanonicalMap};
ghost use Rattle.term_lists.specs.Rings.{ring_comparison, setting, variables};
ghost use Rattle.term_lists.specs.Vectors.{AreVectorsOver, HasPositions, sums_of};
ghost use Rattle.schreyer_resolution.specs.Progress.{IsTopMap};
ghost use Rattle.schreyer_resolution.specs.Sorting.{by_place, lead_place};

use module_vectors::{NoMemory, Ring, Vect, VectList, lawful_setting};
use std::alloc::Global;
use std::cmp::Ordering;

// The position and the exponents of the lead; 0 and none where there is none.
fn place(v: &Vect) -> (u64, &[u16])
    ensures position { result.0 ≡ (lead_place v.now).0 }
    ensures exponents { result.1.now ≡ (lead_place v.now).1 }
{
    match v.lead() {
        Some(lead) => (lead.key.position, lead.key.monomial.exponents()),
        None => (0, &[]),
    }
}

// By lead position, then by lex-descending lead monomial.
fn compare_places(a: &Vect, b: &Vect) -> Ordering
    ensures { result ≡ by_place a.now b.now }
{
    let left = place(a);
    let right = place(b);
    match left.0.cmp(&right.0) {
        Ordering::Equal => right.1.cmp(left.1),
        other => other,
    }
}

/// The members of a reduced basis, by lead position ascending and then by lex-descending lead monomial.
pub(crate) fn sorted_columns(
    alloc: Global,
    ring: &Ring,
    rank: u128,
    reduced: &VectList,
) -> Result<VectList, NoMemory>
    requires vectors { AreVectorsOver ring.now (ring_comparison ring.now) reduced.now }
    requires positions { Each (HasPositions rank) reduced.now }
    requires basis { let n = variables ring.now in
        IsReducedBasis (setting ring.now n (ring_comparison ring.now n) rank) (sums_of n reduced.now) (sums_of n reduced.now) }
    requires some { 0 < length reduced.now }
    ensures top { IfOk result (IsTopMap ring.now []) }
    ensures positions { IfOk result (Each (HasPositions rank)) }
    ensures canonical { let n = variables ring.now in
        IfOk result (λ columns. IsCanonicalMap (setting ring.now n (ring_comparison ring.now n) rank) (sums_of n reduced.now) (sums_of n columns)) }
{
    lawful_setting(ring);
    let _rank = rank;
    let mut columns = VectList::copy_of(alloc, reduced)?.into_vec();
    columns.sort_unstable_by(|a, b| compare_places(a, b));
    Ok(VectList::from_vec(columns))
}
