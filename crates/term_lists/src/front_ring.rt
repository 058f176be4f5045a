// The ring with one more variable in front.
ghost use Rattle.std.specs.Prelude.{◌≡◌, IfOk};
ghost use Rattle.term_lists.specs.FrontVariables.{front_ring};

use crate::{NoMemory, Ring};
use monomial_orders::{ModOrder, Order};
use std::alloc::Global;

impl Ring {
    /// The ring with a new variable in front, of weight 1, by an order that eliminates it, term over position (IVA chapter 4,
    /// section 3). The other variables keep their names and weights. The new one is named t', which is no name that a script
    /// can give: there a name has letters, digits and _ alone.
    pub fn with_front_variable(&self, alloc: Global) -> Result<Ring, NoMemory>
        ensures { IfOk result (λ ring. ring ≡ front_ring self.now) }
    {
        Ok(Ring {
            modulus: self.modulus,
            vars: self.vars.with_front(alloc, "t'")?,
            order: Order::Elim(1),
            module_order: ModOrder::Top,
            weights: self.weights.with_front(alloc)?,
        })
    }
}
