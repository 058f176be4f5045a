// What gives a vector its ring and its order.
ghost use Rattle.std.specs.Prelude.{◌≡◌, ℕ};
ghost use Rattle.std.specs.declared.cmp.Ordering.{Ordering};
ghost use Rattle.formal_sums.specs.FormalSums.{Key as KeyOf};
ghost use Rattle.orders.specs.KeyOrders.{IsKeyOrder};
ghost use Rattle.term_lists.specs.Rings.{variables};
ghost use Rattle.term_lists.specs.declared.ring.Ring.{Ring as RingValue};
ghost use Rattle.term_lists.specs.Vectors.{IsMonomialOver, key_of};

use crate::{Key, Ring};
use std::cmp::Ordering;

/// A ring with an order of keys, in which vectors descend. `Ring` is one, with its own order; others come by the
/// leads of a list. UAG chapter 5, section 2.
pub trait Frame {
    /// The ring.
    ghost over: { Self → RingValue };

    /// The comparison of keys in n variables.
    ghost compare: { Self → (n : ℕ) → KeyOf n → KeyOf n → Ordering };

    /// The ring.
    fn ring(&self) -> &Ring
        ensures { result.now ≡ over self.now };

    /// Compares two keys of the ring.
    fn cmp(&self, a: &Key, b: &Key) -> Ordering
        requires left { IsMonomialOver (over self.now) a.now.monomial }
        requires right { IsMonomialOver (over self.now) b.now.monomial }
        ensures { let n = variables (over self.now) in
            result ≡ compare self.now n (key_of n a.now) (key_of n b.now) };

    /// A number for a key, by which a sort need not read most keys: where the numbers of two differ, the keys mostly compare as they
    /// do. No clause says so: who sorts by it tests what comes out.
    fn hint(&self, key: &Key) -> u64;

    /// It is total, kept under multiplication, never has a multiple below what it is of, and is well-founded on
    /// keys of bounded position.
    ghost laws: { (f : Self) (n r : ℕ) → IsKeyOrder r (compare f n) };
}
