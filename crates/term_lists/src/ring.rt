// The ring of a session.
ghost use Rattle.std.specs.Prelude.{◌≡◌, IfOk, length};

use crate::{Frame, Key, Names, NoMemory};
use monomial_orders::{ModOrder, Order, Weights};
use std::alloc::Global;
use std::cmp::Ordering;
use zp_field::Modulus;

/// A polynomial ring over Z/p, with an order of its monomials and one of its module monomials, and a weight for each variable.
#[derive(Debug)]
pub struct Ring {
    pub modulus: Modulus,
    /// The names of the variables, the first one greatest. They are as many as the exponents of its monomials.
    pub vars: Names,
    pub order: Order,
    pub module_order: ModOrder,
    /// The weight of each variable.
    pub weights: Weights,
    ghost weighted: { length weights ≡ length vars },
}

// By hand, so that each drop of one is a call.
impl Drop for Ring {
    fn drop(self) {
        let Ring {
            modulus: _,
            vars: _,
            order: _,
            module_order: _,
            weights: _,
        } = self;
    }
}

impl Ring {
    /// The same ring again.
    pub fn try_copy(&self, alloc: Global) -> Result<Ring, NoMemory>
        ensures { IfOk result (λ ring. ring ≡ self.now) }
    {
        Ok(Ring {
            modulus: self.modulus,
            vars: self.vars.try_copy(alloc)?,
            order: self.order,
            module_order: self.module_order,
            weights: self.weights.try_copy(alloc)?,
        })
    }
}

/// The ring's own order of module monomials.
impl Frame for Ring {
    ghost use Rattle.term_lists.specs.Rings.{ring_comparison};
    ghost use Rattle.monomial_orders.specs.Laws.{key_comparison_order};

    ghost over = { λ ring. ring };

    ghost compare = { ring_comparison };

    fn ring(&self) -> &Ring {
        self
    }

    fn cmp(&self, a: &Key, b: &Key) -> Ordering {
        self.module_order.cmp_at(
            &self.order,
            &self.weights,
            a.position,
            &a.monomial,
            b.position,
            &b.monomial,
        )
    }

    fn hint(&self, key: &Key) -> u64 {
        self.module_order
            .hint_at(&self.order, &self.weights, key.position, &key.monomial)
    }

    ghost laws = { λ ring n r. key_comparison_order ring.module_order ring.order ring.weights n r };
}
