// Numbers that decide most comparisons of keys in the order that leads induce.

use crate::head::Head;
use module_vectors::Ring;
use monomial_orders::{ModOrder, Mono, Order};

// Degrees from here on are not told apart, nor are positions in the first map's rows.
const GREAT: u64 = 1023;

// A number of 63 bits that is filled from its highest bit on, and how many of its bits are not.
type Filling = (u64, u64);

// So many ones, of 63 at most.
fn ones(count: u64) -> u64 {
    (1u64 << (count % 64)).wrapping_sub(1)
}

// The next bits: a zero for each power of the variable, and a one behind them, so that the greater exponent has the lower bits. The
// bits of none begin those of another, so that what comes behind them does not meet them.
fn fill_falling(filling: Filling, exponent: u64) -> Filling {
    let (number, room) = filling;
    if exponent >= room {
        return (number, 0);
    }
    let left = room - exponent - 1;
    (number | (1 << (left % 64)), left)
}

// The same with ones and a zero behind them: the greater exponent has the higher bits.
fn fill_rising(filling: Filling, exponent: u64) -> Filling {
    let (number, room) = filling;
    let left = room.saturating_sub(exponent);
    (number | (ones(room) ^ ones(left)), left.saturating_sub(1))
}

// The next 10 bits. Nothing comes behind those of a great number.
fn fill_number(filling: Filling, count: u64) -> Filling {
    let (number, room) = filling;
    if room < 10 {
        return (number, 0);
    }
    let left = room - 10;
    if count >= GREAT {
        return (number | (GREAT << (left % 64)), 0);
    }
    (number | (count << (left % 64)), left)
}

// All bits that are left, which are the higher the earlier the position is.
fn fill_position(filling: Filling, position: u64) -> u64 {
    let (number, room) = filling;
    number | ones(room).saturating_sub(position)
}

// The exponents of the product from the last one back, without so many first ones.
fn fill_last(filling: Filling, a: &[u16], e: &[u64], first: usize) -> Filling {
    let mut filled = filling;
    let count = a.len().min(e.len());
    for i in first..count {
        let k = count - 1 - (i - first);
        filled = fill_falling(filled, e[k].wrapping_add(u64::from(a[k])));
    }
    filled
}

// The exponents of the product from the first one on.
fn fill_first(filling: Filling, a: &[u16], e: &[u64]) -> Filling {
    let mut filled = filling;
    for k in 0..a.len().min(e.len()) {
        filled = fill_rising(filled, e[k].wrapping_add(u64::from(a[k])));
    }
    filled
}

// The degree, and the last exponents. The first one is what is left of the degree.
fn fill_graded(filling: Filling, degree: u64, a: &[u16], e: &[u64]) -> Filling {
    fill_last(fill_number(filling, degree), a, e, 1)
}

// The degree by the weights.
fn total(weights: &[u8], a: &[u16], e: &[u64]) -> u64 {
    let mut degree: u64 = 0;
    for k in 0..weights.len().min(a.len()).min(e.len()) {
        let exponent = e[k].wrapping_add(u64::from(a[k]));
        degree = degree.saturating_add(u64::from(weights[k]).saturating_mul(exponent));
    }
    degree
}

// The first exponents as a monomial of their own, and then the others.
fn fill_eliminating(
    filling: Filling,
    weights: &[u8],
    count: usize,
    a: &[u16],
    e: &[u64],
) -> Filling {
    let at = count.min(weights.len()).min(a.len()).min(e.len());
    let (first_weights, rest_weights) = weights.split_at(at);
    let (first_a, rest_a) = a.split_at(at);
    let (first_e, rest_e) = e.split_at(at);
    let degree = total(first_weights, first_a, first_e);
    let filled = fill_graded(filling, degree, first_a, first_e);
    fill_graded(filled, total(rest_weights, rest_a, rest_e), rest_a, rest_e)
}

// The product of the monomial and the head's.
fn fill_product(filling: Filling, ring: &Ring, m: &Mono, head: &Head) -> Filling {
    let a = m.exponents();
    let e = head.exponents.as_slice();
    match &ring.order {
        Order::Lex => fill_first(filling, a, e),
        Order::Grevlex => {
            let degree = m.degree().saturating_add(head.degree);
            fill_graded(filling, degree.min(u128::from(GREAT)) as u64, a, e)
        }
        Order::Elim(count) => {
            fill_eliminating(filling, ring.weights.as_slice(), *count as usize, a, e)
        }
    }
}

/// A number for the key with this monomial and position, whose position's head this is: where the numbers of two differ, the keys
/// mostly compare as they do. Positions of the columns' keys are compared last, since each map's columns stand by the positions of
/// their leads.
pub(crate) fn hint_of(ring: &Ring, m: &Mono, position: u64, head: &Head) -> u64 {
    let filled = match ring.module_order {
        ModOrder::Pot => {
            let first = fill_number((0, 63), (GREAT - 1).saturating_sub(head.position));
            fill_product(first, ring, m, head)
        }
        ModOrder::Top => fill_product((0, 63), ring, m, head),
    };
    fill_position(filled, position)
}
