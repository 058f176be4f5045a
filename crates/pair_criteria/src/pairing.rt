// The pair of two leads.
ghost use Rattle.std.specs.Prelude.{◌≡◌, ◌<◌, ◌≤◌, IfOk, IfSome, IsOk, length};
ghost use Rattle.monomial_orders.specs.Kept.{IsWeighed};
ghost use Rattle.pair_criteria.specs.Pairs.{IsPairOf, key_variables, lead_with_index};

use crate::Pair;
use module_vectors::{Key, NoMemory};
use monomial_orders::{Mono, Weights};
use std::alloc::Global;

/// The pair of the leads i and j in a ring of these weights, or `None` exactly where their positions differ. It wants memory
/// over more than 16 variables alone.
pub fn pair_of(
    alloc: Global,
    weights: &Weights,
    leads: &[Key],
    i: u64,
    j: u64,
) -> Result<Option<Pair>, NoMemory>
    requires order { i < j }
    requires known { j < length leads.now }
    requires variables { key_variables (lead_with_index leads.now i) ≡ key_variables (lead_with_index leads.now j) }
    requires weights { length weights.now ≡ key_variables (lead_with_index leads.now i) }
    ensures pair { IfOk result (IsPairOf leads.now i j) }
    ensures weighed { IfOk result (λ answer. IfSome answer (λ pair.
        IsWeighed (key_variables (lead_with_index leads.now i)) weights.now pair.lcm.monomial)) }
    ensures no_memory { key_variables (lead_with_index leads.now i) ≤ 16 → IsOk result }
{
    let left = &leads[i as usize];
    let right = &leads[j as usize];
    if left.position != right.position {
        return Ok(None);
    }
    let monomial = Mono::lcm(alloc, weights, &left.monomial, &right.monomial)?;
    Ok(Some(Pair {
        i,
        j,
        lcm: Key {
            position: left.position,
            monomial,
        },
    }))
}
