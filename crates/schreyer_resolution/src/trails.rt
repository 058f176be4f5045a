// The trail of a column that meets a product of too great a degree.
ghost use Rattle.std.specs.Prelude.{◌≡◌, ◌++◌, ◌∷◌, [], List, IfOk, OnOk, get_or, map};
ghost use Rattle.monomial_orders.specs.Kept.{Monomial};
ghost use Rattle.term_lists.specs.Rings.{variables};
ghost use Rattle.term_lists.specs.Stops.{HasMonomial, IsTooGreat, ScaledStops};
ghost use Rattle.term_lists.specs.Vectors.{AreVectorsOver, IsMonomialOver, key_of, sums_of};
ghost use Rattle.term_lists.specs.declared.stop.VectStop.TheVariants.{Degree};
ghost use Rattle.module_vectors.specs.Trails.{KeptProduct};
ghost use Rattle.vector_division.specs.Progress.{AreWeighed};
ghost use Rattle.vector_division.specs.Reductions.{unscaled};
ghost use Rattle.induced_leads.specs.Pairs.{AreNonzero};
ghost use Rattle.induced_leads.specs.PairLeads.{IsBase, IsPairKey};
ghost use Rattle.schreyer_resolution.specs.Chains.{IsColumnChain, IsFailing};
ghost use Rattle.schreyer_resolution.specs.Columns.{ColumnStops, IsColumnTrail, IsPartner, IsWhetherPair};

use induced_leads::{lead_key, pair_monomial};
use module_vectors::{
    Frame, KeptTrail, Key, NoMemory, Ring, TrailStart, Vect, VectList, VectStop, WorkStop,
    lawful_setting,
};
use monomial_orders::Mono;
use std::alloc::Global;
use vector_division::ScaledProduct;

// Do the two make a pair whose monomial is this one?
fn is_pair(alloc: Global, ring: &Ring, a: &Key, b: &Key, m: &Mono) -> Result<bool, NoMemory>
    requires left { IsMonomialOver ring.now a.now.monomial }
    requires right { IsMonomialOver ring.now b.now.monomial }
    requires monomial { IsMonomialOver ring.now m.now }
    ensures { IfOk result (IsWhetherPair (variables ring.now) a.now b.now m.now) }
{
    if a.position != b.position {
        return Ok(false);
    }
    let monomial = pair_monomial(alloc, ring, &a.monomial, &b.monomial)?;
    Ok(monomial.equal(m))
}

// A later column that makes a pair with the key's, by the key's monomial.
fn partner(alloc: Global, ring: &Ring, columns: &[Vect], key: &Key) -> Result<u64, NoMemory>
    requires leads { AreNonzero columns.now }
    requires weighed { AreWeighed (variables ring.now) ring.now.weights columns.now }
    requires monomial { IsMonomialOver ring.now key.now.monomial }
    requires pair { let n = variables ring.now in IsPairKey (sums_of n columns.now) (key_of n key.now) }
    ensures { IfOk result (IsPartner (variables ring.now) columns.now key.now) }
{
    let left = lead_key(ring, columns, key.position as usize);
    for j in key.position as usize + 1..columns.len() {
        let right = lead_key(ring, columns, j);
        if is_pair(alloc, ring, left, right, &key.monomial)? {
            return Ok(j as u64);
        }
    }
    unreachable!()
}

// The maps again.
fn copy_maps(alloc: Global, maps: &[VectList]) -> Result<Vec<VectList>, NoMemory>
    ensures { IfOk result (λ copy. copy.items ≡ maps.now) }
{
    let mut copy = Vec::with_capacity(alloc, maps.len())?;
    for columns in maps {
        copy.push(VectList::copy_of(alloc, columns)?)?;
    }
    Ok(copy)
}

// The ring, the maps and the columns again.
fn copy_parts(
    alloc: Global,
    ring: &Ring,
    maps: &[VectList],
    columns: &VectList,
) -> Result<(Ring, Vec<VectList>, VectList), NoMemory>
    ensures { IfOk result (λ parts. (parts.0 ≡ ring.now) × (parts.1.items ≡ maps.now) × (parts.2 ≡ columns.now)) }
{
    let copied_ring = ring.try_copy(alloc)?;
    let copied_maps = copy_maps(alloc, maps)?;
    let copied_columns = VectList::copy_of(alloc, columns)?;
    Ok((copied_ring, copied_maps, copied_columns))
}

// The trail of these products, which begin with the key's. All copies are made before the parts are put together.
fn keep_trail<F: Frame>(
    alloc: Global,
    frame: &F,
    below: &[VectList],
    columns: &VectList,
    key: &Key,
    products: Vec<(u64, Mono)>,
    last: Mono,
) -> Result<KeptTrail, NoMemory>
    requires vectors { AreVectorsOver (F.over frame.now) (F.compare frame.now) columns.now }
    requires base { IsBase (F.over frame.now) (F.compare frame.now) columns.now }
    requires monomial { IsMonomialOver (F.over frame.now) key.now.monomial }
    requires pair { let n = variables (F.over frame.now) in IsPairKey (sums_of n columns.now) (key_of n key.now) }
    requires chain { (later : List KeptProduct) × (products.items ≡ (key.now.position, key.now.monomial) ∷ later)
        × IsColumnChain (variables (F.over frame.now)) (F.over frame.now).weights columns.now (key.now.position, key.now.monomial) later last }
    ensures { IfOk result (IsColumnTrail (F.over frame.now) below.now columns.now) }
{
    lawful_setting(frame);
    let ring = frame.ring();
    let j = partner(alloc, ring, columns.as_slice(), key)?;
    let (copied_ring, copied_maps, members) = copy_parts(alloc, ring, below, columns)?;
    Ok(KeptTrail {
        ring: copied_ring,
        rank: 0,
        generators: VectList::new(alloc),
        below: copied_maps,
        start: TrailStart::Pair(key.position, j),
        vector: Vect::zero(alloc),
        members,
        products,
        last,
    })
}

// Puts the product with this index and a copy of the monomial behind the others.
fn push_product(
    alloc: Global,
    index: u64,
    monomial: &Mono,
    products: &mut Vec<(u64, Mono)>,
) -> Result<(), NoMemory>
    ensures { OnOk result (products.new.items ≡ products.old.items ++ (index, monomial.now) ∷ []) }
{
    let copy = monomial.try_copy(alloc)?;
    products.push((index, copy))?;
    Ok(())
}

// The key's product.
fn first_products(alloc: Global, key: &Key) -> Result<Vec<(u64, Mono)>, NoMemory>
    ensures { IfOk result (λ products. products.items ≡ (key.now.position, key.now.monomial) ∷ []) }
{
    let mut products = Vec::new(alloc);
    push_product(alloc, key.position, &key.monomial, &mut products)?;
    Ok(products)
}

// The key's product and those of the quotients.
fn quotient_products(
    alloc: Global,
    key: &Key,
    quotients: &[ScaledProduct],
) -> Result<Vec<(u64, Mono)>, NoMemory>
    ensures { IfOk result (λ products. products.items ≡ (key.now.position, key.now.monomial) ∷ map unscaled quotients.now) }
{
    let mut products = first_products(alloc, key)?;
    for quotient in quotients {
        push_product(alloc, quotient.index, &quotient.monomial, &mut products)?;
    }
    Ok(products)
}

// The key's product, those of the quotients, and one more.
fn all_products(
    alloc: Global,
    key: &Key,
    quotients: &[ScaledProduct],
    failing: (u64, Mono),
) -> Result<Vec<(u64, Mono)>, NoMemory>
    ensures { IfOk result (λ products. products.items ≡ (key.now.position, key.now.monomial) ∷ (map unscaled quotients.now ++ failing ∷ [])) }
{
    let mut products = quotient_products(alloc, key, quotients)?;
    products.push(failing)?;
    Ok(products)
}

// The trail of the key's product alone.
fn first_trail<F: Frame>(
    alloc: Global,
    frame: &F,
    below: &[VectList],
    columns: &VectList,
    key: &Key,
    last: Mono,
) -> Result<KeptTrail, NoMemory>
    requires vectors { AreVectorsOver (F.over frame.now) (F.compare frame.now) columns.now }
    requires base { IsBase (F.over frame.now) (F.compare frame.now) columns.now }
    requires monomial { IsMonomialOver (F.over frame.now) key.now.monomial }
    requires pair { let n = variables (F.over frame.now) in IsPairKey (sums_of n columns.now) (key_of n key.now) }
    requires last { HasMonomial (get_or columns.now key.now.position []) last }
    requires great { IsTooGreat key.now.monomial last }
    ensures { IfOk result (IsColumnTrail (F.over frame.now) below.now columns.now) }
{
    lawful_setting(frame);
    let products = first_products(alloc, key)?;
    keep_trail(alloc, frame, below, columns, key, products, last)
}

// The trail of the key's product, of the quotients and of the product that failed.
fn later_trail<F: Frame>(
    alloc: Global,
    frame: &F,
    below: &[VectList],
    columns: &VectList,
    key: &Key,
    quotients: &[ScaledProduct],
    failing: (u64, Mono),
    last: Mono,
) -> Result<KeptTrail, NoMemory>
    requires vectors { AreVectorsOver (F.over frame.now) (F.compare frame.now) columns.now }
    requires base { IsBase (F.over frame.now) (F.compare frame.now) columns.now }
    requires monomial { IsMonomialOver (F.over frame.now) key.now.monomial }
    requires pair { let n = variables (F.over frame.now) in IsPairKey (sums_of n columns.now) (key_of n key.now) }
    requires failing { IsFailing (F.over frame.now) (F.compare frame.now) columns.now key.now quotients.now failing last }
    ensures { IfOk result (IsColumnTrail (F.over frame.now) below.now columns.now) }
{
    lawful_setting(frame);
    let products = all_products(alloc, key, quotients, failing)?;
    keep_trail(alloc, frame, below, columns, key, products, last)
}

/// Why the key's product was not made: there was no memory, or its degree is too great, with the trail.
pub(crate) fn first_stop<F: Frame>(
    alloc: Global,
    frame: &F,
    below: &[VectList],
    columns: &VectList,
    key: &Key,
    stop: VectStop,
) -> WorkStop
    requires vectors { AreVectorsOver (F.over frame.now) (F.compare frame.now) columns.now }
    requires base { IsBase (F.over frame.now) (F.compare frame.now) columns.now }
    requires monomial { IsMonomialOver (F.over frame.now) key.now.monomial }
    requires pair { let n = variables (F.over frame.now) in IsPairKey (sums_of n columns.now) (key_of n key.now) }
    requires stop { ScaledStops 1 key.now.monomial (get_or columns.now key.now.position []) stop }
    ensures { ColumnStops (F.over frame.now) below.now columns.now result }
{
    match stop {
        VectStop::Memory => WorkStop::Memory,
        VectStop::Degree(_, last) => match first_trail(alloc, frame, below, columns, key, last) {
            Ok(trail) => WorkStop::Degree(trail),
            Err(_) => WorkStop::Memory,
        },
    }
}

/// Why the product that comes after these quotients was not made.
pub(crate) fn later_stop<F: Frame>(
    alloc: Global,
    frame: &F,
    below: &[VectList],
    columns: &VectList,
    key: &Key,
    quotients: &[ScaledProduct],
    failing: (u64, Mono),
    stop: VectStop,
) -> WorkStop
    requires vectors { AreVectorsOver (F.over frame.now) (F.compare frame.now) columns.now }
    requires base { IsBase (F.over frame.now) (F.compare frame.now) columns.now }
    requires monomial { IsMonomialOver (F.over frame.now) key.now.monomial }
    requires pair { let n = variables (F.over frame.now) in IsPairKey (sums_of n columns.now) (key_of n key.now) }
    requires failing { (a last : Monomial) → stop ≡ Degree a last
        → IsFailing (F.over frame.now) (F.compare frame.now) columns.now key.now quotients.now failing last }
    ensures { ColumnStops (F.over frame.now) below.now columns.now result }
{
    match stop {
        VectStop::Memory => WorkStop::Memory,
        VectStop::Degree(_, last) => {
            match later_trail(alloc, frame, below, columns, key, quotients, failing, last) {
                Ok(trail) => WorkStop::Degree(trail),
                Err(_) => WorkStop::Memory,
            }
        }
    }
}
