// The loop of a division.
ghost use Rattle.std.specs.Prelude.{◌++◌, ◌<◌, ◌≡◌, [], length, true, IfOk, IfErr};
ghost use Rattle.formal_sums.specs.FormalSums.{Each};
ghost use Rattle.formal_sums.specs.Combinations.{combination};
ghost use Rattle.bases.specs.Leads.{head_key};
ghost use Rattle.term_lists.specs.Rings.{variables};
ghost use Rattle.term_lists.specs.Vectors.{sum_of, sums_of, IsVectorOver, AreVectorsOver, StandsFor};
ghost use Rattle.vector_division.specs.Divisors.{AreDivisors, AreFreeKeys};
ghost use Rattle.vector_division.specs.Divisions.{IsFreeOfLeads, HasReducedLead, DivisionStops};
ghost use Rattle.vector_division.specs.Reductions.{cofactors_of, IsScaledProduct, AreMetFrom, HaveLeadsUpTo};
ghost use Rattle.vector_division.specs.Runs.{total, IsEnded, IsSplit, IsWhether};

use crate::buckets::Buckets;
use crate::divisors::{Divisor, divisors_from_first, is_uncovered};
use crate::free_keys::FreeKeys;
use crate::runs::Run;
use crate::underway::advance;
use module_vectors::{Frame, Key, Vect, Vectors, WorkStop};
use monomial_orders::Mono;
use std::alloc::Global;

/// A residue times a product: the one of the monomial and the vector with this index. As what a division took away it is
/// a term of the quotient by that vector.
#[derive(Drop)]
pub struct ScaledProduct {
    pub index: u64,
    pub residue: u32,
    pub monomial: Mono,
}

/// What a reduction took away, in that order, and what it left.
#[derive(Drop)]
pub struct Reduction {
    pub quotients: Vec<ScaledProduct>,
    pub rest: Vect,
}

// What a division has taken away, the terms that stay, and what is left.
#[derive(Drop)]
struct Taken {
    quotients: Vec<ScaledProduct>,
    rest: Vec<(Key, u32)>,
    left: Buckets,
}

// Is the lead alone wanted, and does a term stay?
fn is_lead_there(lead_alone: bool, rest: &Vec<(Key, u32)>) -> bool
    ensures { IsWhether ((lead_alone ≡ true) × (0 < length rest.now.items)) result }
{
    lead_alone && !rest.is_empty()
}

// Takes products away until no term is left or, where the lead alone is wanted, until a term stays.
fn take_products<F: Frame, L: Vectors>(
    alloc: Global,
    frame: &F,
    v: &Vect,
    list: &L,
    divisors: &[Divisor],
    free: &FreeKeys,
    lead_alone: bool,
) -> Result<Taken, WorkStop>
    requires vector { IsVectorOver (F.over frame.now) (F.compare frame.now) v.now }
    requires list { AreVectorsOver (F.over frame.now) (F.compare frame.now) (L.listed list.now) }
    requires divisors { AreDivisors (variables (F.over frame.now)) (L.listed list.now) divisors.now }
    requires free { AreFreeKeys (variables (F.over frame.now)) (L.listed list.now) free.now }
    ensures kept { let n = variables (F.over frame.now) in
        IfOk result (λ t. IsSplit n (F.over frame.now).weights (F.over frame.now).modulus.value (F.compare frame.now n) v.now
        (L.listed list.now) t.quotients.items t.rest.items t.left (total n t.left)) }
    ensures ended { let n = variables (F.over frame.now) in IfOk result (λ t. IsEnded n (F.compare frame.now n) lead_alone t.rest.items t.left) }
    ensures stop { IfErr result (DivisionStops (F.over frame.now) v.now (L.listed list.now)) }
{
    let mut left = Buckets::from_run(alloc, Run::from_vect(v.try_copy(alloc)?))?;
    let mut quotients = Vec::new(alloc);
    let mut rest = Vec::new(alloc);
    let mut next = left.take_top(alloc, frame)?;
    loop {
        match next {
            None => {
                return Ok(Taken {
                    quotients,
                    rest,
                    left,
                });
            }
            Some(term) => {
                advance(
                    alloc,
                    frame,
                    v,
                    list,
                    divisors,
                    free,
                    term,
                    &mut left,
                    &mut quotients,
                    &mut rest,
                )?;
                if is_lead_there(lead_alone, &rest) {
                    return Ok(Taken {
                        quotients,
                        rest,
                        left,
                    });
                }
                next = left.take_top(alloc, frame)?;
            }
        }
    }
}

/// Takes products of the list's vectors away from `v` until no key of it is divisible by a lead of the list: each time of the
/// first divisor whose lead divides the greatest key that is left. No clause says which of the divisors is taken. IVA chapter 2,
/// section 3.
///
/// `Degree` comes with a trail to a product of degree above 65,535, `Memory` where a growth was refused; both leave
/// every argument as it was.
pub fn reduce_by<F: Frame, L: Vectors>(
    alloc: Global,
    frame: &F,
    v: &Vect,
    list: &L,
    divisors: &[Divisor],
) -> Result<Reduction, WorkStop>
    requires vector { IsVectorOver (F.over frame.now) (F.compare frame.now) v.now }
    requires list { AreVectorsOver (F.over frame.now) (F.compare frame.now) (L.listed list.now) }
    requires divisors { AreDivisors (variables (F.over frame.now)) (L.listed list.now) divisors.now }
    ensures quotients { IfOk result (λ r. Each (IsScaledProduct (variables (F.over frame.now)) (F.over frame.now).weights (F.over frame.now).modulus.value
        (L.listed list.now)) r.quotients.items) }
    ensures met { let n = variables (F.over frame.now) in IfOk result (λ r. AreMetFrom n (sum_of n v.now) (L.listed list.now) [] r.quotients.items) }
    ensures bounded { let n = variables (F.over frame.now) in
        IfOk result (λ r. HaveLeadsUpTo n (F.compare frame.now n) (L.listed list.now) (head_key (sum_of n v.now)) r.quotients.items) }
    ensures sum { let n = variables (F.over frame.now) in
        IfOk result (λ r. StandsFor (F.over frame.now) v.now
        (combination (sums_of n (L.listed list.now)) (cofactors_of n r.quotients.items) ++ sum_of n r.rest)) }
    ensures rest { IfOk result (λ r. IsVectorOver (F.over frame.now) (F.compare frame.now) r.rest) }
    ensures reduced { let n = variables (F.over frame.now) in IfOk result (λ r. IsFreeOfLeads (sums_of n (L.listed list.now)) (sum_of n r.rest)) }
    ensures stop { IfErr result (DivisionStops (F.over frame.now) v.now (L.listed list.now)) }
{
    reduce_knowing(alloc, frame, v, list, divisors, &FreeKeys::new(alloc))
}

/// The same, where these keys are known to be divisible by no lead of the list: no divisor is looked for where the greatest key is
/// one of them.
pub fn reduce_knowing<F: Frame, L: Vectors>(
    alloc: Global,
    frame: &F,
    v: &Vect,
    list: &L,
    divisors: &[Divisor],
    free: &FreeKeys,
) -> Result<Reduction, WorkStop>
    requires vector { IsVectorOver (F.over frame.now) (F.compare frame.now) v.now }
    requires list { AreVectorsOver (F.over frame.now) (F.compare frame.now) (L.listed list.now) }
    requires divisors { AreDivisors (variables (F.over frame.now)) (L.listed list.now) divisors.now }
    requires free { AreFreeKeys (variables (F.over frame.now)) (L.listed list.now) free.now }
    ensures quotients { IfOk result (λ r. Each (IsScaledProduct (variables (F.over frame.now)) (F.over frame.now).weights (F.over frame.now).modulus.value
        (L.listed list.now)) r.quotients.items) }
    ensures met { let n = variables (F.over frame.now) in IfOk result (λ r. AreMetFrom n (sum_of n v.now) (L.listed list.now) [] r.quotients.items) }
    ensures bounded { let n = variables (F.over frame.now) in
        IfOk result (λ r. HaveLeadsUpTo n (F.compare frame.now n) (L.listed list.now) (head_key (sum_of n v.now)) r.quotients.items) }
    ensures sum { let n = variables (F.over frame.now) in
        IfOk result (λ r. StandsFor (F.over frame.now) v.now
        (combination (sums_of n (L.listed list.now)) (cofactors_of n r.quotients.items) ++ sum_of n r.rest)) }
    ensures rest { IfOk result (λ r. IsVectorOver (F.over frame.now) (F.compare frame.now) r.rest) }
    ensures reduced { let n = variables (F.over frame.now) in IfOk result (λ r. IsFreeOfLeads (sums_of n (L.listed list.now)) (sum_of n r.rest)) }
    ensures stop { IfErr result (DivisionStops (F.over frame.now) v.now (L.listed list.now)) }
{
    frame.ring().modulus.domain();
    let Taken {
        quotients,
        rest,
        left,
    } = take_products(alloc, frame, v, list, divisors, free, false)?;
    drop(left);
    Ok(Reduction {
        quotients,
        rest: Vect::from_terms(alloc, frame, rest)?,
    })
}

/// The same, where the vectors of the list are tried in its order.
pub fn reduce<F: Frame, L: Vectors>(
    alloc: Global,
    frame: &F,
    v: &Vect,
    list: &L,
) -> Result<Reduction, WorkStop>
    requires vector { IsVectorOver (F.over frame.now) (F.compare frame.now) v.now }
    requires list { AreVectorsOver (F.over frame.now) (F.compare frame.now) (L.listed list.now) }
    ensures quotients { IfOk result (λ r. Each (IsScaledProduct (variables (F.over frame.now)) (F.over frame.now).weights (F.over frame.now).modulus.value
        (L.listed list.now)) r.quotients.items) }
    ensures met { let n = variables (F.over frame.now) in IfOk result (λ r. AreMetFrom n (sum_of n v.now) (L.listed list.now) [] r.quotients.items) }
    ensures bounded { let n = variables (F.over frame.now) in
        IfOk result (λ r. HaveLeadsUpTo n (F.compare frame.now n) (L.listed list.now) (head_key (sum_of n v.now)) r.quotients.items) }
    ensures sum { let n = variables (F.over frame.now) in
        IfOk result (λ r. StandsFor (F.over frame.now) v.now
        (combination (sums_of n (L.listed list.now)) (cofactors_of n r.quotients.items) ++ sum_of n r.rest)) }
    ensures rest { IfOk result (λ r. IsVectorOver (F.over frame.now) (F.compare frame.now) r.rest) }
    ensures reduced { let n = variables (F.over frame.now) in IfOk result (λ r. IsFreeOfLeads (sums_of n (L.listed list.now)) (sum_of n r.rest)) }
    ensures stop { IfErr result (DivisionStops (F.over frame.now) v.now (L.listed list.now)) }
{
    let divisors = divisors_from_first(alloc, list)?;
    reduce_by(alloc, frame, v, list, &divisors)
}

// Is the lead of `v`, if it has one, divisible by no lead of the list?
fn has_reduced_lead<F: Frame, L: Vectors>(_frame: &F, v: &Vect, list: &L) -> bool
    requires vector { IsVectorOver (F.over _frame.now) (F.compare _frame.now) v.now }
    requires list { AreVectorsOver (F.over _frame.now) (F.compare _frame.now) (L.listed list.now) }
    ensures { let n = variables (F.over _frame.now) in
        result ≡ true → HasReducedLead (sums_of n (L.listed list.now)) (sum_of n v.now) }
{
    match v.lead() {
        None => true,
        Some(lead) => is_uncovered(lead.key, list),
    }
}

// The steps of `reduce_lead`, where these divisors are tried and one of them divides the lead of `v`.
fn reduce_lead_by<F: Frame, L: Vectors>(
    alloc: Global,
    frame: &F,
    v: &Vect,
    list: &L,
    divisors: &[Divisor],
) -> Result<Reduction, WorkStop>
    requires vector { IsVectorOver (F.over frame.now) (F.compare frame.now) v.now }
    requires list { AreVectorsOver (F.over frame.now) (F.compare frame.now) (L.listed list.now) }
    requires divisors { AreDivisors (variables (F.over frame.now)) (L.listed list.now) divisors.now }
    ensures quotients { IfOk result (λ r. Each (IsScaledProduct (variables (F.over frame.now)) (F.over frame.now).weights (F.over frame.now).modulus.value
        (L.listed list.now)) r.quotients.items) }
    ensures met { let n = variables (F.over frame.now) in IfOk result (λ r. AreMetFrom n (sum_of n v.now) (L.listed list.now) [] r.quotients.items) }
    ensures bounded { let n = variables (F.over frame.now) in
        IfOk result (λ r. HaveLeadsUpTo n (F.compare frame.now n) (L.listed list.now) (head_key (sum_of n v.now)) r.quotients.items) }
    ensures sum { let n = variables (F.over frame.now) in
        IfOk result (λ r. StandsFor (F.over frame.now) v.now
        (combination (sums_of n (L.listed list.now)) (cofactors_of n r.quotients.items) ++ sum_of n r.rest)) }
    ensures rest { IfOk result (λ r. IsVectorOver (F.over frame.now) (F.compare frame.now) r.rest) }
    ensures reduced { let n = variables (F.over frame.now) in IfOk result (λ r. HasReducedLead (sums_of n (L.listed list.now)) (sum_of n r.rest)) }
    ensures stop { IfErr result (DivisionStops (F.over frame.now) v.now (L.listed list.now)) }
{
    let Taken {
        quotients,
        mut rest,
        left,
    } = take_products(alloc, frame, v, list, divisors, &FreeKeys::new(alloc), true)?;
    match rest.pop() {
        None => Ok(Reduction {
            quotients,
            rest: Vect::zero(alloc),
        }),
        Some(lead) => Ok(Reduction {
            quotients,
            rest: left.behind(alloc, frame, lead)?,
        }),
    }
}

/// Takes products of the list's vectors away from `v` until its lead is divisible by no lead of the list: each time of the first
/// vector of the list whose lead divides that of what is left, which no clause says. It stops as `reduce` does.
pub fn reduce_lead<F: Frame, L: Vectors>(
    alloc: Global,
    frame: &F,
    v: &Vect,
    list: &L,
) -> Result<Reduction, WorkStop>
    requires vector { IsVectorOver (F.over frame.now) (F.compare frame.now) v.now }
    requires list { AreVectorsOver (F.over frame.now) (F.compare frame.now) (L.listed list.now) }
    ensures quotients { IfOk result (λ r. Each (IsScaledProduct (variables (F.over frame.now)) (F.over frame.now).weights (F.over frame.now).modulus.value
        (L.listed list.now)) r.quotients.items) }
    ensures met { let n = variables (F.over frame.now) in IfOk result (λ r. AreMetFrom n (sum_of n v.now) (L.listed list.now) [] r.quotients.items) }
    ensures bounded { let n = variables (F.over frame.now) in
        IfOk result (λ r. HaveLeadsUpTo n (F.compare frame.now n) (L.listed list.now) (head_key (sum_of n v.now)) r.quotients.items) }
    ensures sum { let n = variables (F.over frame.now) in
        IfOk result (λ r. StandsFor (F.over frame.now) v.now
        (combination (sums_of n (L.listed list.now)) (cofactors_of n r.quotients.items) ++ sum_of n r.rest)) }
    ensures rest { IfOk result (λ r. IsVectorOver (F.over frame.now) (F.compare frame.now) r.rest) }
    ensures reduced { let n = variables (F.over frame.now) in IfOk result (λ r. HasReducedLead (sums_of n (L.listed list.now)) (sum_of n r.rest)) }
    ensures stop { IfErr result (DivisionStops (F.over frame.now) v.now (L.listed list.now)) }
{
    if has_reduced_lead(frame, v, list) {
        return Ok(Reduction {
            quotients: Vec::new(alloc),
            rest: v.try_copy(alloc)?,
        });
    }
    let divisors = divisors_from_first(alloc, list)?;
    reduce_lead_by(alloc, frame, v, list, &divisors)
}
