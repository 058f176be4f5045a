// Where monomials stand in the ring's order.
use crate::packing::base;
use module_vectors::Ring;
use monomial_orders::Order;

/// A rank in some variables: the rank itself, how many ranks there are, and the number that is left for the other variables.
struct PartRank {
    rank: u64,
    count: u64,
    left: usize,
}

impl Drop for PartRank {
    fn drop(self) {
        let PartRank {
            rank: _,
            count: _,
            left: _,
        } = self;
    }
}

/// The rank by degree, the greatest first, and then by the number itself: the greater monomial has the smaller last exponent.
fn graded(weights: &[u8], bases: &[(u16, u16)], key: usize) -> PartRank {
    let mut left = key;
    let mut number: u64 = 0;
    let mut place: u64 = 1;
    let mut missing: u64 = 0;
    let mut greatest: u64 = 0;
    for i in 0..bases.len().min(weights.len()) {
        let b = bases[i];
        let size = base(b.0, b.1);
        let digit = left % size;
        let weight = u64::from(weights[i]);
        number = number.wrapping_add(place.wrapping_mul(digit as u64));
        place = place.wrapping_mul(size as u64);
        missing = missing.wrapping_add(weight.wrapping_mul((size - 1 - digit) as u64));
        greatest = greatest.wrapping_add(weight.wrapping_mul((size - 1) as u64));
        left /= size;
    }
    PartRank {
        rank: missing.wrapping_mul(place).wrapping_add(number),
        count: place.wrapping_mul(greatest.wrapping_add(1)),
        left,
    }
}

/// The rank by the exponents of one variable after another, the greatest first.
fn lexicographic(bases: &[(u16, u16)], key: usize) -> u64 {
    let mut left = key;
    let mut rank: u64 = 0;
    for b in bases {
        let size = base(b.0, b.1);
        rank = rank
            .wrapping_mul(size as u64)
            .wrapping_add((size - 1 - left % size) as u64);
        left /= size;
    }
    rank
}

/// The rank of a monomial, which ascends where the ring's order descends. Nothing rests on it but speed: terms that are not in order
/// are put in order.
pub(crate) fn rank(ring: &Ring, bases: &[(u16, u16)], key: usize) -> u64 {
    let weights = ring.weights.as_slice();
    match ring.order {
        Order::Lex => lexicographic(bases, key),
        Order::Grevlex => graded(weights, bases, key).rank,
        Order::Elim(k) => {
            let at = (k as usize).min(bases.len()).min(weights.len());
            let (first_bases, other_bases) = bases.split_at(at);
            let (first_weights, other_weights) = weights.split_at(at);
            let first = graded(first_weights, first_bases, key);
            let other = graded(other_weights, other_bases, first.left);
            first
                .rank
                .wrapping_mul(other.count)
                .wrapping_add(other.rank)
        }
    }
}
