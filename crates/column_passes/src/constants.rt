// The first constant of a map.
ghost use Rattle.std.specs.Prelude.{◌≡◌, ◌∷◌, ◌++◌, [], ℕ, List, None, IfSome};
ghost use Rattle.formal_sums.specs.FormalSums.{Each};
ghost use Rattle.term_lists.specs.Rings.{ring_comparison, variables};
ghost use Rattle.term_lists.specs.Vectors.{AreVectorsOver, sums_of};
ghost use Rattle.term_lists.specs.declared.key.Key.{Key as KeyValue};
ghost use Rattle.column_passes.specs.Constants.{HasNoConstants, IsFirst, IsLeastUnit};
ghost use Rattle.column_passes.specs.Passing.{IsGraded};

use module_vectors::{Key, Ring, Vect, lawful_setting};

/// A constant of a map, by its column and its row, and what it is.
#[derive(Clone, Copy)]
pub struct Constant {
    pub column: usize,
    pub row: u64,
    pub residue: u32,
}

// The less of the two, where the term has the monomial 1.
fn lower(least: Option<(u64, u32)>, term: &(Key, u32)) -> Option<(u64, u32)>
    ensures { (v : List (KeyValue × ℕ)) → IsLeastUnit v least → IsLeastUnit (v ++ term.now ∷ []) result }
{
    if term.0.monomial.degree() > 0 {
        return least;
    }
    if let Some(found) = least {
        if found.0 <= term.0.position {
            return least;
        }
    }
    Some((term.0.position, term.1))
}

/// The least row with the monomial 1, and the residue there.
pub(crate) fn least_unit(v: &Vect) -> Option<(u64, u32)>
    ensures { IsLeastUnit v.now result }
{
    let mut least = None;
    for term in v.terms() {
        least = lower(least, term);
    }
    least
}

/// The first constant of a map with these columns: the least column that has one, and in it the least row.
pub fn first_constant(ring: &Ring, columns: &[Vect]) -> Option<Constant>
    requires vectors { AreVectorsOver ring.now (ring_comparison ring.now) columns.now }
    requires graded { Each (IsGraded ring.now) columns.now }
    ensures some { IfSome result (IsFirst ring.now columns.now) }
    ensures none { result ≡ None → HasNoConstants ring.now.modulus.value (sums_of (variables ring.now) columns.now) }
{
    lawful_setting(ring);
    for column in 0..columns.len() {
        if let Some(found) = least_unit(&columns[column]) {
            return Some(Constant {
                column,
                row: found.0,
                residue: found.1,
            });
        }
    }
    None
}
