// The numerator of a module.
ghost use Rattle.std.specs.Prelude.{ℕ, ◌≡◌, ◌<◌, ◌≤◌, IfErr, IfOk, None, OnOk, Some, Err, length};
ghost use Rattle.hilbert_laws.specs.Numerators.{IsNumerator, leads_at, module_count};
ghost use Rattle.hilbert_series.specs.declared.stop.HilbertStop.TheVariants.{Leads};
ghost use Rattle.hilbert_series.specs.Generators.{AreMonomialGenerators, HaveSameCoefficients};
ghost use Rattle.hilbert_series.specs.Leads.{AreLeads, EndsInNonzero, IsFirstOver, NumeratorStops, keys_of};
ghost use Rattle.monomial_orders.specs.Kept.{monomials};

use crate::HilbertStop;
use crate::coefficients::plus_shifted;
use crate::recurrence::ideal_numerator;
use module_vectors::Key;
use monomial_orders::{Mono, NoMemory, Weights};
use std::alloc::Global;

// How many leads a position may have.
const MOST_LEADS: u64 = 120;

/// A Hilbert series over n variables, by its numerator: the coefficients, the constant first. The numerator 0 has none.
#[derive(Debug)]
pub struct Series {
    /// The number of variables.
    pub n: usize,
    /// The numerator's coefficients.
    pub coefficients: Vec<i128>,
}

// By hand, so that each drop of one is a call.
impl Drop for Series {
    fn drop(self) {
        let Series {
            n: _,
            coefficients: _,
        } = self;
    }
}

/// How many leads stand at position i.
fn count_at(leads: &[Key], i: u64) -> u64
    ensures { (n : ℕ) → result ≡ length (leads_at i (keys_of n leads.now)) }
{
    let mut count: u64 = 0;
    for lead in leads {
        if lead.position == i {
            count += 1;
        }
    }
    count
}

/// How many leads the first position below the rank with more than 120 has.
fn first_over(rank: u64, leads: &[Key]) -> Option<u64>
    ensures over { (n k : ℕ) → result ≡ Some k → IsFirstOver 120 rank (keys_of n leads.now) k }
    ensures none { (n i : ℕ) → result ≡ None → i < rank → length (leads_at i (keys_of n leads.now)) ≤ 120 }
{
    for i in 0..rank {
        let count = count_at(leads, i);
        if count > MOST_LEADS {
            return Some(count);
        }
    }
    None
}

/// The monomials of the leads at position i.
fn generators_at(
    alloc: Global,
    weights: &Weights,
    leads: &[Key],
    i: u64,
) -> Result<Vec<Mono>, NoMemory>
    requires leads { AreLeads (length weights.now) weights.now leads.now }
    ensures generators { IfOk result (λ v. AreMonomialGenerators (length weights.now) weights.now v.items) }
    ensures items { let n = length weights.now in IfOk result (λ v. monomials n v.items ≡ leads_at i (keys_of n leads.now)) }
{
    let mut found = Vec::new(alloc);
    for lead in leads {
        if lead.position == i {
            found.push(lead.monomial.try_copy(alloc)?)?;
        }
    }
    Ok(found)
}

/// The sum of the positions' numerators.
fn module_numerator(
    alloc: Global,
    weights: &Weights,
    rank: u64,
    leads: &[Key],
) -> Result<Vec<i128>, NoMemory>
    requires rank { rank ≤ 64 }
    requires leads { AreLeads (length weights.now) weights.now leads.now }
    requires few { (i : ℕ) → i < rank → length (leads_at i (keys_of (length weights.now) leads.now)) ≤ 120 }
    ensures numerator { let n = length weights.now in
        IfOk result (λ v. IsNumerator weights.now n v.items (module_count weights.now rank (keys_of n leads.now))) }
{
    let mut sum = Vec::new(alloc);
    for position in 0..rank {
        let generators = generators_at(alloc, weights, leads, position)?;
        let here = ideal_numerator(alloc, weights, generators)?;
        sum = plus_shifted(alloc, sum.as_slice(), 0, here.as_slice())?;
    }
    Ok(sum)
}

/// The same coefficients without the zeros at their end.
fn without_zeros(mut list: Vec<i128>) -> Vec<i128>
    ensures same { HaveSameCoefficients result.items list.items }
    ensures ends { EndsInNonzero result.items }
{
    let mut long = list.len();
    while long > 0 && list[long - 1] == 0 {
        long -= 1;
    }
    list.truncate(long);
    list
}

/// The Hilbert numerator of the module whose leads these are, in the free module of this rank over a ring of these weights: the one
/// polynomial K, without zeros at its end, such that K(t) over the product of 1 - t^w for the weights w counts by degree the monomials
/// that no lead divides. UAG chapter 6, section 4.
///
/// No clause bounds the steps, which may be as many as 2^120 where pivots are chosen badly, and whatever the choice grow
/// exponentially with the variables in the worst case. Leads at positions from the rank on count for nothing. `Leads` exactly where a position below the rank has more than 120 leads, with
/// the number of leads of the first such position; never `Large`.
pub fn numerator(
    alloc: Global,
    weights: &Weights,
    rank: u64,
    leads: &[Key],
) -> Result<Series, HilbertStop>
    requires rank { rank ≤ 64 }
    requires leads { AreLeads (length weights.now) weights.now leads.now }
    ensures variables { IfOk result (λ s. s.n ≡ length weights.now) }
    ensures numerator { let n = length weights.now in
        IfOk result (λ s. IsNumerator weights.now n s.coefficients.items (module_count weights.now rank (keys_of n leads.now))) }
    ensures ends { IfOk result (λ s. EndsInNonzero s.coefficients.items) }
    ensures few { OnOk result ((i : ℕ) → i < rank → length (leads_at i (keys_of (length weights.now) leads.now)) ≤ 120) }
    ensures over { (k : ℕ) → IsFirstOver 120 rank (keys_of (length weights.now) leads.now) k → result ≡ Err (Leads k) }
    ensures stop { IfErr result (NumeratorStops rank (keys_of (length weights.now) leads.now)) }
{
    if let Some(count) = first_over(rank, leads) {
        return Err(HilbertStop::Leads(count));
    }
    let sum = module_numerator(alloc, weights, rank, leads)?;
    Ok(Series {
        n: weights.len(),
        coefficients: without_zeros(sum),
    })
}
