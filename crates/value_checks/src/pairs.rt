// Pairs of leads, and the criteria that spare them.
use crate::vectors::number_of;
use check_texts::{NoValue, Sheet};
use module_vectors::{Key, Ring, VectList};
use monomial_orders::Weights;
use pair_criteria::{Pair, chain_applies, pair_of, product_applies};
use std::alloc::Global;

// The leads of the vectors.
fn leads_of(alloc: Global, list: &VectList) -> Result<Vec<Key>, NoValue> {
    let mut leads = Vec::new(alloc);
    for v in list.as_slice() {
        match v.lead() {
            Some(lead) => leads.push(lead.key.try_copy(alloc)?)?,
            None => return Err(NoValue),
        }
    }
    Ok(leads)
}

// The pair of the leads i and j, if there are so many.
fn paired(
    alloc: Global,
    weights: &Weights,
    leads: &[Key],
    i: u64,
    j: u64,
) -> Result<Option<Pair>, NoValue> {
    if i >= j || j >= leads.len() as u64 {
        return Err(NoValue);
    }
    let left = leads[i as usize].monomial.variables();
    let right = leads[j as usize].monomial.variables();
    if left != right || left != weights.len() {
        return Err(NoValue);
    }
    Ok(pair_of(alloc, weights, leads, i, j)?)
}

fn applies_by_product(rank: u128, left: &Key, right: &Key) -> bool {
    left.monomial.variables() == right.monomial.variables() && product_applies(rank, left, right)
}

fn applies_by_chain(lead: &Key, lcm: &Key) -> bool {
    lead.monomial.variables() == lcm.monomial.variables() && chain_applies(lead, lcm)
}

// Writes the least common multiple.
fn write_lcm(sheet: &mut Sheet, lcm: &Key) {
    sheet.text("  at ");
    sheet.number(i128::try_from(lcm.position).unwrap_or(-1));
    sheet.text(" by ");
    sheet.exponents(lcm.monomial.exponents());
}

// Writes which leads meet the chain criterion.
fn write_chain(sheet: &mut Sheet, leads: &[Key], lcm: &Key) {
    sheet.text(", chain");
    for (k, lead) in leads.iter().enumerate() {
        if applies_by_chain(lead, lcm) {
            sheet.count(" ", k as u64);
        }
    }
    sheet.text("\n");
}

// Writes whether the product criterion applies to a pair of the leads, and by which of them the chain criterion does.
fn write_criteria(sheet: &mut Sheet, rank: u128, leads: &[Key], pair: &Pair) {
    match (leads.get(pair.i as usize), leads.get(pair.j as usize)) {
        (Some(left), Some(right)) if applies_by_product(rank, left, right) => {
            sheet.text(", product");
        }
        _ => {}
    }
    write_chain(sheet, leads, &pair.lcm);
}

// Writes the pair of the leads i and j, and the criteria.
fn write_paired(
    alloc: Global,
    sheet: &mut Sheet,
    ring: &Ring,
    rank: u128,
    leads: &[Key],
    i: u64,
    j: u64,
) -> Result<(), NoValue> {
    match paired(alloc, &ring.weights, leads, i, j)? {
        Some(pair) => {
            write_lcm(sheet, &pair.lcm);
            write_criteria(sheet, rank, leads, &pair);
        }
        None => sheet.text("  none\n"),
    }
    Ok(())
}

/// Writes the pair of two leads of the list, and the criteria: `I J`.
pub fn write_pair(
    alloc: Global,
    sheet: &mut Sheet,
    ring: &Ring,
    rank: u128,
    indices: &str,
    list: &VectList,
) -> Result<(), NoValue> {
    let (i, j) = indices.split_once(' ').unwrap_or((indices, ""));
    let i = number_of(i)?;
    let j = number_of(j)?;
    let leads = leads_of(alloc, list)?;
    write_paired(alloc, sheet, ring, rank, &leads, i, j)
}
