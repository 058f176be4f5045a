// The standard monomials, one from another.
ghost use Rattle.std.specs.Prelude.{◌≡◌, ◌<◌, ◌≤◌, ◌+◌, ◌↔◌, IfErr, IfOk, IsTrue, OnOk, length};
ghost use Rattle.monomials.specs.Exponents.{exponents_of};
ghost use Rattle.monomial_orders.specs.Kept.{IsWeighed, monomials};
ghost use Rattle.change_laws.specs.Standard.{AreStandard};
ghost use Rattle.order_change.specs.Stops.{AreFew, OrderChangeStops};
ghost use Rattle.order_change.specs.Lists.{AreListed, AreMonomials, AreMultiplied, HaveDegrees, IsNew, StopsWhileListing};

use crate::ChangeStop;
use crate::leads::{is_infinite, is_standard, multiple, position};
use monomial_orders::{Mono, NoMemory, Weights};
use std::alloc::Global;

// The greatest number of standard monomials.
const MOST: usize = 256;

/// Is m standard, and not in the list?
pub(crate) fn is_new(weights: &Weights, leads: &[Mono], list: &[Mono], m: &Mono) -> bool
    requires leads { AreMonomials (length weights.now) weights.now leads.now }
    requires list { AreMonomials (length weights.now) weights.now list.now }
    requires monomial { IsWeighed (length weights.now) weights.now m.now }
    ensures { let n = length weights.now in IsTrue result ↔ IsNew (monomials n leads.now) (monomials n list.now) (exponents_of n m.now.exponents) }
{
    if !is_standard(weights, leads, m) {
        return false;
    }
    match position(weights, list, m) {
        Some(_) => false,
        None => true,
    }
}

// Appends the multiples of the item `at` by a variable that are standard and not yet listed.
fn add_multiples(
    alloc: Global,
    weights: &Weights,
    leads: &[Mono],
    found: &mut Vec<Mono>,
    at: usize,
) -> Result<(), ChangeStop>
    requires leads { AreMonomials (length weights.now) weights.now leads.now }
    requires listed { let n = length weights.now in AreListed n weights.now (monomials n leads.now) found.old.items }
    requires multiplied { let n = length weights.now in AreMultiplied n (monomials n leads.now) found.old.items at }
    requires index { at < length found.old.items }
    ensures listed { let n = length weights.now in OnOk result (AreListed n weights.now (monomials n leads.now) found.new.items) }
    ensures multiplied { let n = length weights.now in OnOk result (AreMultiplied n (monomials n leads.now) found.new.items (at + 1)) }
    ensures stop { let n = length weights.now in IfErr result (StopsWhileListing (monomials n leads.now)) }
{
    for i in 0..weights.len() {
        let product = multiple(alloc, weights, i, &found[at])?;
        if is_new(weights, leads, found, &product) {
            if found.len() >= MOST {
                return Err(ChangeStop::Many);
            }
            found.push(product)?;
        }
    }
    Ok(())
}

// The monomial 1 where it is standard.
fn first_standard(alloc: Global, weights: &Weights, leads: &[Mono]) -> Result<Vec<Mono>, NoMemory>
    requires leads { AreMonomials (length weights.now) weights.now leads.now }
    ensures { let n = length weights.now in IfOk result (λ found. AreListed n weights.now (monomials n leads.now) found.items) }
{
    let one = Mono::unit(alloc, weights.len())?;
    let mut found = Vec::new(alloc);
    if !is_standard(weights, leads, &one) {
        return Ok(found);
    }
    found.push(one)?;
    Ok(found)
}

/// The standard monomials of these leads: 1, and each multiple of one by a variable that is standard.
pub(crate) fn standard_monomials(
    alloc: Global,
    weights: &Weights,
    leads: &[Mono],
) -> Result<Vec<Mono>, ChangeStop>
    requires leads { AreMonomials (length weights.now) weights.now leads.now }
    ensures monomials { IfOk result (λ found. AreMonomials (length weights.now) weights.now found.items) }
    ensures degrees { IfOk result (λ found. HaveDegrees found.items) }
    ensures most { IfOk result (λ found. length found.items ≤ 256) }
    ensures standard { let n = length weights.now in IfOk result (λ found. AreStandard (monomials n leads.now) (monomials n found.items)) }
    ensures few { let n = length weights.now in OnOk result (AreFew (monomials n leads.now)) }
    ensures stop { let n = length weights.now in IfErr result (OrderChangeStops (monomials n leads.now)) }
{
    if is_infinite(weights, leads) {
        return Err(ChangeStop::Infinite);
    }
    let mut found = first_standard(alloc, weights, leads)?;
    for at in 0..MOST {
        if at < found.len() {
            add_multiples(alloc, weights, leads, &mut found, at)?;
        }
    }
    Ok(found)
}
