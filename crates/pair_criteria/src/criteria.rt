// The criteria that spare pairs.
ghost use Rattle.std.specs.Prelude.{◌≡◌, ◌↔◌, IsTrue};
ghost use Rattle.orders.specs.KeyOrders.{KeyDivides};
ghost use Rattle.term_lists.specs.Vectors.{key_of};
ghost use Rattle.pair_criteria.specs.Pairs.{key_variables};
ghost use Rattle.pair_criteria.specs.Sparing.{ProductCriterionApplies, SparesByChain, SparesByProduct};

use module_vectors::Key;

/// Does the product criterion spare a pair with these leads, in a free module of this rank? It does at rank 1 alone,
/// where the leads have no variable in common (IVA chapter 2, section 9).
pub fn product_applies(rank: u128, a: &Key, b: &Key) -> bool
    requires { key_variables a.now ≡ key_variables b.now }
    ensures exact { let n = key_variables a.now in IsTrue result ↔ ProductCriterionApplies rank (key_of n a.now) (key_of n b.now) }
    ensures spares { let n = key_variables a.now in IsTrue result → SparesByProduct rank (key_of n a.now) (key_of n b.now) }
{
    if rank != 1 || a.position != b.position {
        return false;
    }
    a.monomial.coprime(&b.monomial)
}

/// Does the chain criterion spare a pair with this lcm by a member with this lead? It does where the lead divides the
/// lcm, and both leads of the pair have their own pairs with it represented (IVA chapter 2, section 10).
pub fn chain_applies(lead: &Key, lcm: &Key) -> bool
    requires { key_variables lead.now ≡ key_variables lcm.now }
    ensures exact { let n = key_variables lead.now in IsTrue result ↔ KeyDivides (key_of n lead.now) (key_of n lcm.now) }
    ensures spares { let n = key_variables lead.now in IsTrue result → SparesByChain (key_of n lead.now) (key_of n lcm.now) }
{
    if lead.position != lcm.position {
        return false;
    }
    lead.monomial.divides(&lcm.monomial)
}
