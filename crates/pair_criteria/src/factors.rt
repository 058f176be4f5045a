// The monomial that takes a lead to a least common multiple.
ghost use Rattle.std.specs.Prelude.{◌≡◌, ◌<◌, IfOk, length};
ghost use Rattle.monomials.specs.Exponents.{Divides, exponents_of};
ghost use Rattle.formal_sums.specs.FormalSums.{Each};
ghost use Rattle.bases.specs.Leads.{head_key};
ghost use Rattle.term_lists.specs.Rings.{variables};
ghost use Rattle.term_lists.specs.Vectors.{IsMonomialOver, sum_of};
ghost use Rattle.pair_criteria.specs.Pairs.{IsFactorOf};

use module_vectors::{Key, NoMemory, Ring, Vect};
use monomial_orders::Mono;
use std::alloc::Global;

/// The monomial whose product with the lead of `v` is the least common multiple `lcm`, which that lead divides: the factor of `v` in an
/// S-vector (IVA chapter 2, section 6). The vector is not zero. `NoMemory` where there is none.
pub fn factor_of(alloc: Global, _ring: &Ring, lcm: &Key, v: &Vect) -> Result<Mono, NoMemory>
    requires lcm { IsMonomialOver _ring.now lcm.now.monomial }
    requires vector { Each (λ t. IsMonomialOver _ring.now t.0.monomial) v.now }
    requires some { 0 < length v.now }
    requires divides { let n = variables _ring.now in Divides (head_key (sum_of n v.now)).1 (exponents_of n lcm.now.monomial.exponents) }
    ensures { IfOk result (IsFactorOf (variables _ring.now) _ring.now.weights lcm.now v.now) }
{
    match v.lead() {
        None => unreachable!(),
        Some(lead) => match Mono::quotient(alloc, &lcm.monomial, &lead.key.monomial)? {
            Some(monomial) => Ok(monomial),
            None => unreachable!(),
        },
    }
}
