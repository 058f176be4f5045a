// The tests that the criteria are made of, by the leads.
ghost use Rattle.std.specs.Prelude.{◌≡◌, ◌<◌, ◌↔◌, IsTrue, length};
ghost use Rattle.monomials.specs.Exponents.{Divides, exponents_of, lcm};
ghost use Rattle.bases.specs.Leads.{leads as leads_of};
ghost use Rattle.basis_steps.specs.Criteria.{IsPair};
ghost use Rattle.pair_updates.specs.Leads.{sums_shown};
ghost use Rattle.pair_updates.specs.LeadCriteria.{DividesLcm, ProductSpares};

use crate::leads::Leads;
use crate::rows::divides_rows;
use monomial_orders::Mono;
use pair_criteria::product_applies;

/// Does the product criterion apply to the pair? IVA chapter 2, section 9.
pub fn product_spares(leads: &Leads, i: usize, j: usize) -> bool
    requires { IsPair (sums_shown leads.now) (i, j) }
    ensures { IsTrue result ↔ ProductSpares leads.now (i, j) }
{
    product_applies(leads.rank(), leads.at(i), leads.at(j))
}

// Does the monomial divide the least common multiple of the two others?
fn divides_common(k: &Mono, a: &Mono, b: &Mono) -> bool
    requires first { length a.now.exponents ≡ length k.now.exponents }
    requires second { length b.now.exponents ≡ length k.now.exponents }
    ensures { let n = length k.now.exponents in
        IsTrue result ↔ Divides (exponents_of n k.now.exponents) (lcm (exponents_of n a.now.exponents) (exponents_of n b.now.exponents)) }
{
    let divisor = k.exponents();
    let left = a.exponents();
    let right = b.exponents();
    for v in 0..divisor.len() {
        if divisor[v] > left[v] && divisor[v] > right[v] {
            return false;
        }
    }
    true
}

// Does the lead of member k divide the lcm of the pair, where it stands at their position? The first sixteen variables are asked at once.
fn divides_at_position(leads: &Leads, i: usize, j: usize, k: usize) -> bool
    requires order { i < j }
    requires within { j < length leads.now.keys }
    requires known { k < length leads.now.keys }
    requires position { (leads_of (sums_shown leads.now) k).0 ≡ (leads_of (sums_shown leads.now) i).0 }
    ensures { IsTrue result ↔ DividesLcm leads.now (i, j) k }
{
    if !divides_rows(leads.row(k), leads.row(i), leads.row(j)) {
        return false;
    }
    let lead = leads.at(k);
    if lead.monomial.variables() <= 16 {
        return true;
    }
    divides_common(&lead.monomial, &leads.at(i).monomial, &leads.at(j).monomial)
}

/// Does the lead of member k divide the lcm of the pair?
pub fn divides_lcm(leads: &Leads, i: usize, j: usize, k: usize) -> bool
    requires order { i < j }
    requires within { j < length leads.now.keys }
    requires known { k < length leads.now.keys }
    ensures { IsTrue result ↔ DividesLcm leads.now (i, j) k }
{
    if leads.at(k).position != leads.at(i).position {
        return false;
    }
    divides_at_position(leads, i, j, k)
}
