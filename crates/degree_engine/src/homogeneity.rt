// Are all terms of one degree?
ghost use Rattle.std.specs.Prelude.{IsTrue, ◌≡◌};
ghost use Rattle.formal_sums.specs.FormalSums.{Each};
ghost use Rattle.term_lists.specs.Vectors.{HasPositions};
ghost use Rattle.degree_engine.specs.LastVariables.{HasOneDegree};

use module_vectors::{Key, Vect, VectList};

// Have all terms this degree?
fn have_degree(terms: &[(Key, u32)], degree: u128) -> bool
    ensures { IsTrue result → Each (λ t. t.0.monomial.degree ≡ degree) terms.now }
{
    for term in terms {
        if term.0.monomial.degree() != degree {
            return false;
        }
    }
    true
}

// Have all terms of the vector one degree?
fn has_one_degree(v: &Vect) -> bool
    ensures { IsTrue result → HasOneDegree v.now }
{
    match v.lead() {
        None => true,
        Some(lead) => have_degree(v.terms(), lead.key.monomial.degree()),
    }
}

/// Has each vector of the list terms of one degree alone?
pub(crate) fn have_one_degree(list: &VectList) -> bool
    ensures { IsTrue result → Each HasOneDegree list.now }
{
    for v in list.as_slice() {
        if !has_one_degree(v) {
            return false;
        }
    }
    true
}

/// Are the positions of all terms below the rank?
pub(crate) fn have_positions(list: &VectList, rank: u128) -> bool
    ensures { IsTrue result → Each (HasPositions rank) list.now }
{
    for v in list.as_slice() {
        if !v.has_positions(rank) {
            return false;
        }
    }
    true
}
