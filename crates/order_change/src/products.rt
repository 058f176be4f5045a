// Products of variables and the monomials of a list, the least first: each variable takes the items in turn, so that the least product
// that is left is that of some variable and the item whose turn it is.
ghost use Rattle.std.specs.Prelude.{◌≡◌, ◌<◌, ◌≤◌, ◌+◌, ◌⊎◌, ℕ, Some, IfOk, IfSome, MatchOption, length, slice_index, sum};
ghost use Rattle.std.specs.declared.cmp.Ordering.TheVariants.{Less};
ghost use Rattle.monomials.specs.Exponents.{exponents_of, unit};
ghost use Rattle.monomial_orders.specs.Comparisons.{comparison};
ghost use Rattle.monomial_orders.specs.Kept.{IsWeighed, monomials};
ghost use Rattle.order_change.specs.Lists.{AreMonomials};
ghost use Rattle.order_change.specs.Products.{HadAllItems, HaveRoom, IsCandidate, IsLeast, variable_product_at};

use crate::ascending::is_below;
use crate::leads::multiple;
use monomial_orders::{Mono, NoMemory, Order, Weights};
use std::alloc::Global;
use std::marker::Model;

/// The product of a variable and an item of a list, by the index of each.
#[derive(Drop)]
pub(crate) struct Candidate {
    pub(crate) monomial: Mono,
    pub(crate) variable: usize,
    pub(crate) parent: usize,
}

/// For each variable the index of the item whose turn it is. Contracts see the list of indices.
pub(crate) struct Turns {
    indices: Vec<usize>,
}

// By hand, so that each drop of one is a call.
impl Drop for Turns {
    fn drop(self) {
        let Turns { indices: _ } = self;
    }
}

impl Model for Turns {
    ghost use Rattle.std.specs.Prelude.{ℕ, List};

    ghost Value = { List ℕ };

    ghost view = { λ t. t.indices.items };
}

impl Turns {
    /// The first item for each of so many variables.
    pub(crate) fn first(alloc: Global, variables: usize) -> Result<Turns, NoMemory>
        ensures long { IfOk result (λ t. length t ≡ variables) }
        ensures zeros { IfOk result (λ t. (v : ℕ) → slice_index t v ≡ 0) }
        ensures sum { IfOk result (λ t. sum t ≡ 0) }
    {
        Ok(Turns {
            indices: vec![in alloc; 0; variables]?,
        })
    }

    /// The index for a variable.
    pub(crate) fn at(&self, v: usize) -> usize
        requires { v < length self.now }
        ensures { result ≡ slice_index self.now v }
    {
        self.indices[v]
    }

    /// The next item for a variable.
    pub(crate) fn pass(&mut self, v: usize)
        requires variable { v < length self.old }
        requires room { slice_index self.old v < 65536 }
        ensures long { length self.new ≡ length self.old }
        ensures at { slice_index self.new v ≡ slice_index self.old v + 1 }
        ensures others { (w : ℕ) → (w ≡ v → ⊥) → slice_index self.new w ≡ slice_index self.old w }
        ensures sum { sum self.new ≡ sum self.old + 1 }
    {
        let next = self.indices[v] + 1;
        self.indices[v] = next;
    }
}

// The lower one of two candidates, where there is a first.
fn lower(weights: &Weights, order: Order, first: Option<Candidate>, second: Candidate) -> Candidate
    requires first { IfSome first (λ c. IsWeighed (length weights.now) weights.now c.monomial) }
    requires second { IsWeighed (length weights.now) weights.now second.monomial }
    ensures either { (result ≡ second) ⊎ (first ≡ Some result) }
    ensures first { let n = length weights.now in IfSome first (λ c.
        comparison order weights.now n (exponents_of n c.monomial.exponents) (exponents_of n result.monomial.exponents) ≡ Less → ⊥) }
    ensures second { let n = length weights.now in
        comparison order weights.now n (exponents_of n second.monomial.exponents) (exponents_of n result.monomial.exponents) ≡ Less → ⊥ }
{
    match first {
        None => second,
        Some(other) => {
            if is_below(weights, order, &second.monomial, &other.monomial) {
                drop(other);
                second
            } else {
                drop(second);
                other
            }
        }
    }
}

// The product of a variable and the item whose turn it is.
fn candidate_of(
    alloc: Global,
    weights: &Weights,
    list: &[Mono],
    turns: &Turns,
    v: usize,
) -> Result<Candidate, NoMemory>
    requires list { AreMonomials (length weights.now) weights.now list.now }
    requires room { HaveRoom list.now }
    requires turns { length turns.now ≡ length weights.now }
    requires variable { v < length weights.now }
    requires turn { slice_index turns.now v < length list.now }
    ensures candidate { IfOk result (IsCandidate (length weights.now) weights.now list.now (slice_index turns.now)) }
    ensures variable { IfOk result (λ c. c.variable ≡ v) }
{
    let parent = turns.at(v);
    let monomial = multiple(alloc, weights, v, &list[parent])?;
    Ok(Candidate {
        monomial,
        variable: v,
        parent,
    })
}

/// The least product of a variable and the item whose turn it is, or `None` where each variable has had all items.
pub(crate) fn least_product(
    alloc: Global,
    weights: &Weights,
    order: Order,
    list: &[Mono],
    turns: &Turns,
) -> Result<Option<Candidate>, NoMemory>
    requires list { AreMonomials (length weights.now) weights.now list.now }
    requires room { HaveRoom list.now }
    requires turns { length turns.now ≡ length weights.now }
    ensures { let n = length weights.now in IfOk result (λ least. MatchOption least (HadAllItems (slice_index turns.now) n (length list.now))
        (λ c. IsCandidate n weights.now list.now (slice_index turns.now) c
        × IsLeast n (comparison order weights.now n) (monomials n list.now) (slice_index turns.now) n (exponents_of n c.monomial.exponents))) }
{
    let mut least = None;
    for v in 0..weights.len() {
        if turns.at(v) < list.len() {
            let candidate = candidate_of(alloc, weights, list, turns, v)?;
            least = Some(lower(weights, order, least, candidate));
        }
    }
    Ok(least)
}
