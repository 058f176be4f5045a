// The ring of a graph: each variable twice.
ghost use Rattle.std.specs.Prelude.{◌≡◌, ◌++◌, IfOk, map, string_bytes};
ghost use Rattle.term_lists.specs.Doubling.{IsDoubled, second_name};

use crate::{Names, NoMemory, Ring};
use monomial_orders::{ModOrder, Order, Weights};
use std::alloc::Global;

// The name of the variable that stands for the one with this name. No script can give it: there a name has letters, digits
// and _ alone.
fn second(alloc: Global, name: &str) -> Result<String, NoMemory>
    ensures { IfOk result (λ s. string_bytes s ≡ second_name name.now) }
{
    let mut second = String::from_str(alloc, name)?;
    second.push_str("'")?;
    Ok(second)
}

impl Names {
    /// The same names and then each once more, with an apostrophe.
    pub fn doubled(&self, alloc: Global) -> Result<Names, NoMemory>
        ensures { IfOk result (λ names. names ≡ self.now ++ map second_name self.now) }
    {
        let mut names = Vec::with_capacity(alloc, self.len().saturating_mul(2))?;
        for name in self.as_slice() {
            names.push(String::from_str(alloc, name)?)?;
        }
        for name in self.as_slice() {
            names.push(second(alloc, name)?)?;
        }
        Ok(Names::from_vec(names))
    }
}

// The same weights and then each once more.
fn weights_twice(alloc: Global, weights: &Weights) -> Result<Weights, NoMemory>
    ensures { IfOk result (λ w. w ≡ weights.now ++ weights.now) }
{
    let mut twice = Vec::with_capacity(alloc, weights.len().saturating_mul(2))?;
    twice.extend_from_slice(weights.as_slice())?;
    twice.extend_from_slice(weights.as_slice())?;
    Ok(Weights::from_vec(twice))
}

impl Ring {
    /// The ring of the graph of a map to this ring (IVA chapter 3, section 3): its variables and then as many new ones, with
    /// the weights of the old, by an order that eliminates the old ones, term over position. `NoMemory` where there is none
    /// and, as no memory holds their names, over 2^32 variables or more.
    pub fn doubled(&self, alloc: Global) -> Result<Ring, NoMemory>
        ensures { IfOk result (IsDoubled self.now) }
    {
        let count = match u32::try_from(self.vars.len()) {
            Ok(count) => count,
            Err(_) => return Err(NoMemory),
        };
        Ok(Ring {
            modulus: self.modulus,
            vars: self.vars.doubled(alloc)?,
            order: Order::Elim(count),
            module_order: ModOrder::Top,
            weights: weights_twice(alloc, &self.weights)?,
        })
    }
}
