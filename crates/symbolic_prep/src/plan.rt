// Products of members as rows.
ghost use Rattle.std.specs.Prelude.{◌≡◌, ◌<◌, ◌≤◌, ◌+◌, ◌++◌, ◌⊎◌, List, [], ◌∷◌, ℕ, Bool, false, true, length, get_or, map, IfOk, IfErr, OnOk};
ghost use Rattle.std.specs.Vec.{vec_len};
ghost use Rattle.formal_sums.specs.FormalSums.{Each};
ghost use Rattle.term_lists.specs.Rings.{variables};
ghost use Rattle.vector_division.specs.Progress.{AreWeighed};
ghost use Rattle.symbolic_prep.specs.Hashed.{AreHashed};
ghost use Rattle.row_matrix.specs.Products.{ProductStops};
ghost use Rattle.row_matrix.specs.Rows.{RowShown, first_column};
ghost use Rattle.symbolic_prep.specs.Plans.{IsMorePlanned, IsPlan, IsMemberProduct};
ghost use Rattle.symbolic_prep.specs.Traces.{ProductEnds};

use crate::hashes::keep_hashes;
use crate::stop::PlanStop;
use module_vectors::{Key, NoMemory, Ring, Vectors};
use monomial_orders::Mono;
use row_matrix::{KeyTable, ProductStop, Row, TermHashes, kept_number, product_row};
use std::alloc::Global;

/// Rows over the numbers of their keys, the products that they are, for each key whether a row has it as its lead, and the
/// hashes of the keys of each member that a product is of.
#[derive(Drop)]
pub(crate) struct Plan {
    pub(crate) keys: KeyTable,
    pub(crate) rows: Vec<Row>,
    pub(crate) products: Vec<(u64, Mono)>,
    pub(crate) led: Vec<bool>,
    pub(crate) hashes: Vec<TermHashes>,
}

// Marks a key as the lead of a row; there are so many keys now.
fn mark_lead(led: &mut Vec<bool>, count: usize, lead: usize) -> Result<(), NoMemory>
    requires { lead < count }
    ensures lead { OnOk result (get_or led.new.items lead false ≡ true) }
    ensures kept { (c : ℕ) → OnOk result (get_or led.old.items c false ≡ true → get_or led.new.items c false ≡ true) }
    ensures only { (c : ℕ) → OnOk result (get_or led.new.items c false ≡ true → (get_or led.old.items c false ≡ true) ⊎ (c ≡ lead)) }
{
    for _ in led.len()..count {
        led.push(false)?;
    }
    led[lead] = true;
    Ok(())
}

// Puts the row of a product behind the others.
fn put_row(
    alloc: Global,
    plan: &mut Plan,
    entries: Vec<(u32, u32)>,
    member: u64,
    t: Mono,
) -> Result<(), NoMemory>
    requires some { 0 < length entries.items }
    requires known { first_column entries.items < length plan.old.keys }
    ensures keys { plan.new.keys ≡ plan.old.keys }
    ensures hashes { plan.new.hashes.items ≡ plan.old.hashes.items }
    ensures rows { OnOk result ((r : RowShown) × (plan.new.rows.items ≡ plan.old.rows.items ++ r ∷ []) × (r.entries ≡ entries.items)
        × (r.sources ≡ (length plan.old.rows.items, 1) ∷ [])) }
    ensures products { OnOk result (plan.new.products.items ≡ plan.old.products.items ++ (member, t) ∷ []) }
    ensures lead { OnOk result (get_or plan.new.led.items (first_column entries.items) false ≡ true) }
    ensures kept { (c : ℕ) → OnOk result (get_or plan.old.led.items c false ≡ true → get_or plan.new.led.items c false ≡ true) }
    ensures only { (c : ℕ) → OnOk result (get_or plan.new.led.items c false ≡ true
        → (get_or plan.old.led.items c false ≡ true) ⊎ (c ≡ first_column entries.items)) }
{
    mark_lead(&mut plan.led, plan.keys.len(), entries[0].0 as usize)?;
    let number = kept_number(plan.rows.len())?;
    let sources = vec![in alloc; (number, 1)]?;
    plan.rows.push(Row::new(entries, sources))?;
    plan.products.push((member, t))?;
    Ok(())
}

// Keeps the product that is too great behind the others, and the monomial that is too great for it.
fn put_end(
    alloc: Global,
    products: &mut Vec<(u64, Mono)>,
    terms: &[(Key, u32)],
    member: u64,
    t: Mono,
    stop: ProductStop,
) -> PlanStop
    requires { ProductStops t terms.now stop }
    ensures { ProductEnds terms.now products.old.items products.new.items (member, t) result }
{
    match stop {
        ProductStop::Memory => PlanStop::Memory,
        ProductStop::Degree(i) => match terms[i].0.monomial.try_copy(alloc) {
            Err(_) => PlanStop::Memory,
            Ok(last) => match products.push((member, t)) {
                Err(_) => PlanStop::Memory,
                Ok(()) => PlanStop::Degree(last),
            },
        },
    }
}

/// Puts the product of the monomial and this member behind the other rows.
pub(crate) fn add_product<L: Vectors>(
    alloc: Global,
    _ring: &Ring,
    members: &L,
    plan: &mut Plan,
    member: u64,
    t: Mono,
) -> Result<(), PlanStop>
    requires product { IsMemberProduct (variables _ring.now) _ring.now.weights (L.listed members.now) (member, t) }
    requires weighed { AreWeighed (variables _ring.now) _ring.now.weights (L.listed members.now) }
    requires plan { IsPlan (variables _ring.now) _ring.now.weights (L.listed members.now)
        plan.old.keys plan.old.rows.items plan.old.products.items plan.old.led.items }
    requires hashed { AreHashed (L.listed members.now) plan.old.hashes.items }
    ensures hashed { OnOk result (AreHashed (L.listed members.now) plan.new.hashes.items) }
    ensures planned { OnOk result (IsMorePlanned (variables _ring.now) _ring.now.weights (L.listed members.now)
        plan.old.keys plan.new.keys plan.old.rows.items plan.new.rows.items
        plan.old.products.items plan.new.products.items plan.old.led.items plan.new.led.items (member, t)) }
    ensures stop { IfErr result (ProductEnds (get_or (L.listed members.now) member []) plan.old.products.items plan.new.products.items (member, t)) }
{
    let terms = members.at(member as usize).terms();
    keep_hashes(alloc, members, &mut plan.hashes, member as usize)?;
    let hashes = &plan.hashes[member as usize];
    let entries = match product_row(alloc, &mut plan.keys, &t, terms, hashes) {
        Ok(entries) => entries,
        Err(stop) => return Err(put_end(alloc, &mut plan.products, terms, member, t, stop)),
    };
    put_row(alloc, plan, entries, member, t)?;
    Ok(())
}
