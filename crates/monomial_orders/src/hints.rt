// Numbers that decide most comparisons before the monomials are read.

use crate::{ModOrder, Mono, Order, Weights};

// The number with one more digit of 6 bits behind it, which is the higher the smaller the exponent is.
fn with_falling(number: u64, exponent: u16) -> u64 {
    (number << 6) | 63u64.saturating_sub(u64::from(exponent))
}

// The first exponents, each as 8 bits.
fn lex_hint(exponents: &[u16]) -> u64 {
    let mut number: u64 = 0;
    for i in 0..8usize {
        let digit = if i < exponents.len() {
            u64::from(exponents[i]).min(255)
        } else {
            0
        };
        number = (number << 8) | digit;
    }
    number
}

// The degree as 16 bits, then the last exponents.
fn graded_hint(m: &Mono) -> u64 {
    let exponents = m.exponents();
    let mut number = m.degree().min(65_535) as u64;
    for i in 0..8usize {
        let exponent = if i < exponents.len() {
            exponents[exponents.len() - 1 - i]
        } else {
            0
        };
        number = with_falling(number, exponent);
    }
    number
}

// The degree of the first exponents, as 10 bits at most.
fn first_degree(weights: &[u8], exponents: &[u16], first: usize) -> u64 {
    let mut sum: u64 = 0;
    for i in 0..first {
        if i < weights.len() && i < exponents.len() {
            sum = sum.saturating_add(u64::from(weights[i]).saturating_mul(u64::from(exponents[i])));
        }
    }
    sum.min(1023)
}

// The degree of the first exponents, the last ones of these, the degree of all, and the last exponents.
fn elimination_hint(weights: &[u8], first: usize, m: &Mono) -> u64 {
    let exponents = m.exponents();
    let count = exponents.len();
    let first = first.min(count);
    let mut number = first_degree(weights, exponents, first);
    for i in 0..9usize {
        if i < first {
            number = with_falling(number, exponents[first - 1 - i]);
        } else if i == first {
            number = (number << 6) | (m.degree().min(63) as u64);
        } else if i - first <= count - first {
            number = with_falling(number, exponents[count - (i - first)]);
        } else {
            number <<= 6;
        }
    }
    number
}

impl Order {
    /// A number for a monomial of a ring with these weights, by which a sort need not read most monomials: where the numbers of two
    /// differ, the monomials mostly compare as they do. No clause says so, since digits are cut where exponents or degrees are
    /// large: who sorts by it tests what comes out.
    pub fn hint(&self, weights: &Weights, m: &Mono) -> u64 {
        match self {
            Order::Lex => lex_hint(m.exponents()),
            Order::Grevlex => graded_hint(m),
            Order::Elim(k) => elimination_hint(weights.as_slice(), *k as usize, m),
        }
    }
}

impl ModOrder {
    /// The same for the module monomial m e_i, whose position counts from 0.
    pub fn hint_at(&self, order: &Order, weights: &Weights, i: u64, m: &Mono) -> u64 {
        let hint = order.hint(weights, m);
        match self {
            ModOrder::Pot => (65_535u64.saturating_sub(i) << 48) | (hint >> 16),
            ModOrder::Top => hint,
        }
    }
}
