// The trail of a column that is not cleared.
ghost use Rattle.std.specs.Prelude.{◌<◌, ◌≡◌, ◌++◌, ◌∷◌, [], IfOk, OnOk, get_or, length};
ghost use Rattle.minimal_laws.specs.Cancellation.{component};
ghost use Rattle.monomial_orders.specs.Kept.{Monomial};
ghost use Rattle.term_lists.specs.Rings.{ring_comparison, variables};
ghost use Rattle.term_lists.specs.Stops.{HasMonomial, IsTooGreat};
ghost use Rattle.term_lists.specs.Vectors.{AreVectorsOver, IsVectorOver, sum_of};
ghost use Rattle.column_passes.specs.Clearing.{ClearingStops, IsMonomialAt};
ghost use Rattle.minimal_betti.specs.Stopping.{IsKeptInRow, at_zero};
ghost use Rattle.minimal_betti.specs.Minimising.{IsClearingTrail};
ghost use Rattle.minimal_betti.specs.Splitting.{SplittingStops};

use column_passes::Constant;
use module_vectors::{
    KeptTrail, Key, NoMemory, Ring, TrailStart, Vect, VectList, VectStop, WorkStop, lawful_setting,
};
use monomial_orders::Mono;
use std::alloc::Global;

// Puts the term behind the others, at position 0.
fn push_at_zero(
    alloc: Global,
    term: &(Key, u32),
    terms: &mut Vec<(Key, u32)>,
) -> Result<(), NoMemory>
    ensures { OnOk result (terms.new.items ≡ terms.old.items ++ at_zero term.now ∷ []) }
{
    let monomial = term.0.monomial.try_copy(alloc)?;
    let key = Key {
        position: 0,
        monomial,
    };
    terms.push((key, term.1))?;
    Ok(())
}

// The same, where the term stands in the row.
fn push_in_row(
    alloc: Global,
    row: u64,
    term: &(Key, u32),
    terms: &mut Vec<(Key, u32)>,
) -> Result<(), NoMemory>
    ensures { OnOk result (IsKeptInRow row term.now terms.old.items terms.new.items) }
{
    if term.0.position != row {
        return Ok(());
    }
    push_at_zero(alloc, term, terms)
}

// The entry of the vector in the row, as a polynomial.
fn entry_of(alloc: Global, ring: &Ring, row: u64, v: &Vect) -> Result<Vect, NoMemory>
    requires { IsVectorOver ring.now (ring_comparison ring.now) v.now }
    ensures vector { IfOk result (IsVectorOver ring.now (ring_comparison ring.now)) }
    ensures entry { let n = variables ring.now in IfOk result (λ entry. sum_of n entry ≡ component row (sum_of n v.now)) }
    ensures monomials { (m : Monomial) → IsMonomialAt row v.now m → IfOk result (λ entry. HasMonomial entry m) }
{
    lawful_setting(ring);
    let mut terms = Vec::new(alloc);
    for term in v.terms() {
        push_in_row(alloc, row, term, &mut terms)?;
    }
    Ok(Vect::from_ordered(ring, terms))
}

// The product with this index and monomial.
fn first_product(alloc: Global, index: u64, monomial: Mono) -> Result<Vec<(u64, Mono)>, NoMemory>
    ensures { IfOk result (λ products. products.items ≡ (index, monomial) ∷ []) }
{
    let mut products = Vec::new(alloc);
    products.push((index, monomial))?;
    Ok(products)
}

// The ring and the columns again.
fn copy_parts(alloc: Global, ring: &Ring, columns: &VectList) -> Result<(Ring, VectList), NoMemory>
    ensures { IfOk result (λ parts. (parts.0 ≡ ring.now) × (parts.1 ≡ columns.now)) }
{
    let copied_ring = ring.try_copy(alloc)?;
    let members = VectList::copy_of(alloc, columns)?;
    Ok((copied_ring, members))
}

// The trail of one product, of the constant's column and a monomial of column i. All copies are made before the parts are put
// together.
fn clearing_trail(
    alloc: Global,
    ring: &Ring,
    columns: &VectList,
    at: Constant,
    i: usize,
    factor: Mono,
    last: Mono,
) -> Result<KeptTrail, NoMemory>
    requires inside { at.column < length columns.now }
    requires index { i < length columns.now }
    requires apart { i ≡ at.column → ⊥ }
    requires columns { AreVectorsOver ring.now (ring_comparison ring.now) columns.now }
    requires factor { IsMonomialAt at.row (get_or columns.now i []) factor }
    requires last { HasMonomial (get_or columns.now at.column []) last }
    requires great { IsTooGreat factor last }
    ensures trail { IfOk result (IsClearingTrail ring.now at.column at.row) }
    ensures members { IfOk result (λ t. t.members ≡ columns.now) }
{
    let products = first_product(alloc, at.column as u64, factor)?;
    let vector = entry_of(alloc, ring, at.row, &columns.as_slice()[i])?;
    let (copied_ring, members) = copy_parts(alloc, ring, columns)?;
    Ok(KeptTrail {
        ring: copied_ring,
        rank: 0,
        generators: VectList::new(alloc),
        below: Vec::new(alloc),
        start: TrailStart::Product,
        vector,
        members,
        products,
        last,
    })
}

/// Why column i was not cleared: there was no memory, or a product's degree is too great, with the trail.
pub(crate) fn splitting_stop(
    alloc: Global,
    ring: &Ring,
    columns: &VectList,
    at: Constant,
    i: usize,
    stop: VectStop,
) -> WorkStop
    requires inside { at.column < length columns.now }
    requires index { i < length columns.now }
    requires apart { i ≡ at.column → ⊥ }
    requires columns { AreVectorsOver ring.now (ring_comparison ring.now) columns.now }
    requires stop { ClearingStops at.row (get_or columns.now at.column []) (get_or columns.now i []) stop }
    ensures { SplittingStops ring.now columns.now at result }
{
    match stop {
        VectStop::Memory => WorkStop::Memory,
        VectStop::Degree(factor, last) => {
            match clearing_trail(alloc, ring, columns, at, i, factor, last) {
                Ok(trail) => WorkStop::Degree(trail),
                Err(_) => WorkStop::Memory,
            }
        }
    }
}
