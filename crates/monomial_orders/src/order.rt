// The orders of monomials and of module monomials.
ghost use Rattle.std.specs.Prelude.{◌≡◌, ℕ, List, length};
ghost use Rattle.std.specs.declared.cmp.Ordering.{Ordering};
ghost use Rattle.monomials.specs.Exponents.{Exponents, exponents_of};
ghost use Rattle.orders.specs.MonomialOrders.{IsMonomialOrder};
ghost use Rattle.monomial_orders.specs.Kept.{IsWeighed};

use crate::compare::{compare_first, compare_graded};
use crate::{Mono, Weights};
use std::cmp::Ordering;

/// An order of monomials, with its laws.
pub trait MonomialOrder {
    /// The comparison by these weights in n variables.
    ghost comparison: { Self → List ℕ → (n : ℕ) → Exponents n → Exponents n → Ordering };

    /// Compares two monomials of a ring with these weights.
    fn cmp(&self, weights: &Weights, a: &Mono, b: &Mono) -> Ordering
        requires variables { length a.now.exponents ≡ length b.now.exponents }
        requires weights { length weights.now ≡ length a.now.exponents }
        requires left { IsWeighed (length a.now.exponents) weights.now a.now }
        requires right { IsWeighed (length a.now.exponents) weights.now b.now }
        ensures { let n = length a.now.exponents in
            result ≡ comparison self.now weights.now n (exponents_of n a.now.exponents) (exponents_of n b.now.exponents) };

    /// It is total, kept under multiplication, has 1 as least monomial, and is well-founded, whatever the weights.
    ghost laws: { (o : Self) (ws : List ℕ) (n : ℕ) → IsMonomialOrder (comparison o ws n) };
}

/// An order of monomials, by its word. IVA chapter 2, section 2, and chapter 3, section 1.
#[derive(Clone, Copy, Debug, PartialEq, Eq)]
pub enum Order {
    /// Lexicographic: the first exponent that differs decides.
    Lex,
    /// Graded reverse lexicographic: the degree by the ring's weights, then the last exponent that differs.
    Grevlex,
    /// `Grevlex` on so many first variables, then `Grevlex` on the others.
    Elim(u32),
}

/// An order of module monomials, by its word. UAG chapter 5, section 2.
#[derive(Clone, Copy, Debug, PartialEq, Eq)]
pub enum ModOrder {
    /// Position over term.
    Pot,
    /// Term over position.
    Top,
}

impl MonomialOrder for Order {
    ghost use Rattle.monomial_orders.specs.Comparisons.{comparison};
    ghost use Rattle.monomial_orders.specs.Laws.{comparison_order};

    ghost comparison = { comparison };

    fn cmp(&self, weights: &Weights, a: &Mono, b: &Mono) -> Ordering {
        match self {
            Order::Lex => a.exponents().cmp(b.exponents()),
            Order::Grevlex => compare_graded(a, b),
            // Once the first variables are the same, all compare as the others do.
            Order::Elim(k) => match compare_first(weights.as_slice(), *k as usize, a, b) {
                Ordering::Equal => compare_graded(a, b),
                other => other,
            },
        }
    }

    ghost laws = { comparison_order };
}

impl ModOrder {
    ghost use Rattle.monomial_orders.specs.Comparisons.{key_comparison};

    /// Compares the module monomials a e_i and b e_j of a ring with these weights, whose positions count from 0.
    pub fn cmp_at(
        &self,
        order: &Order,
        weights: &Weights,
        i: u64,
        a: &Mono,
        j: u64,
        b: &Mono,
    ) -> Ordering
        requires variables { length a.now.exponents ≡ length b.now.exponents }
        requires weights { length weights.now ≡ length a.now.exponents }
        requires left { IsWeighed (length a.now.exponents) weights.now a.now }
        requires right { IsWeighed (length a.now.exponents) weights.now b.now }
        ensures { let n = length a.now.exponents in
            result ≡ key_comparison self.now order.now weights.now n (i, exponents_of n a.now.exponents) (j, exponents_of n b.now.exponents) }
    {
        match self {
            ModOrder::Pot => match j.cmp(&i) {
                Ordering::Equal => order.cmp(weights, a, b),
                other => other,
            },
            ModOrder::Top => match order.cmp(weights, a, b) {
                Ordering::Equal => j.cmp(&i),
                other => other,
            },
        }
    }
}
