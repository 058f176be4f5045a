//! Spans of rows.

ghost use Rattle.std.specs.Prelude.{ℕ, ◌<◌, ◌*◌, ◌↔◌, ◌++◌, ◌∷◌, List, [], get_or, length};
ghost use Rattle.std.specs.List.Sorted.{IsPermutation};
ghost use Rattle.residues.specs.Residues.{IsCongruent};
ghost use Rattle.monomials.specs.Exponents.{unit};
ghost use Rattle.formal_sums.specs.FormalSums.{FormalSum, IsSame, scale};
ghost use Rattle.formal_sums.specs.Combinations.{IsMember};
ghost use Rattle.row_laws.specs.Rows.{HasSameSpan, IsInSpan};

/// The span has the rows, sums and multiples, and is the least such: so row operations that can be undone keep it.
pub fn spans()
    ensures rows { (n p i : ℕ) (rows : List (FormalSum n)) → IsInSpan p rows (get_or rows i []) }
    ensures sums { (n p : ℕ) (rows : List (FormalSum n)) (v w : FormalSum n)
        → IsInSpan p rows v → IsInSpan p rows w → IsInSpan p rows (v ++ w) }
    ensures multiples { (n p c : ℕ) (rows : List (FormalSum n)) (v : FormalSum n)
        → IsInSpan p rows v → IsInSpan p rows (scale c (unit n) v) }
    ensures same { (n p : ℕ) (rows : List (FormalSum n)) (v w : FormalSum n)
        → IsSame p v w → IsInSpan p rows v → IsInSpan p rows w }
    ensures least { (n p : ℕ) (rows others : List (FormalSum n)) (v : FormalSum n)
        → ((i : ℕ) → i < length others → IsInSpan p rows (get_or others i [])) → IsInSpan p others v
        → IsInSpan p rows v }
{}

/// What members of a module span is in the module.
pub fn spans_of_members()
    ensures { (n p : ℕ) (F rows : List (FormalSum n)) (v : FormalSum n)
        → 0 < p → ((i : ℕ) → i < length rows → IsMember p F (get_or rows i [])) → IsInSpan p rows v
        → IsMember p F v }
{}

/// Two lists of rows have one span exactly where the same vectors are in it; and the steps of a row reduction keep it:
/// another order of the rows, a row without coefficients left out, and a row replaced by c times the sum of it and a
/// combination of the others, for c with an inverse (IVA chapter 2, section 1).
pub fn same_spans()
    ensures vectors { (n p : ℕ) (M E : List (FormalSum n))
        → HasSameSpan p M E ↔ ((v : FormalSum n) → IsInSpan p M v ↔ IsInSpan p E v) }
    ensures symmetric { (n p : ℕ) (M E : List (FormalSum n)) → HasSameSpan p M E → HasSameSpan p E M }
    ensures transitive { (n p : ℕ) (L M E : List (FormalSum n))
        → HasSameSpan p L M → HasSameSpan p M E → HasSameSpan p L E }
    ensures permuted { (n p : ℕ) (M E : List (FormalSum n)) → IsPermutation M E → HasSameSpan p M E }
    ensures dropped { (n p : ℕ) (A B : List (FormalSum n)) (r : FormalSum n)
        → IsSame p r [] → HasSameSpan p (A ++ (r ∷ B)) (A ++ B) }
    ensures replaced { (n p c d : ℕ) (A B : List (FormalSum n)) (r s t : FormalSum n)
        → IsCongruent p (c * d) 1 → 0 < p → IsInSpan p (A ++ B) s
        → IsSame p t (scale c (unit n) (r ++ s)) → HasSameSpan p (A ++ (r ∷ B)) (A ++ (t ∷ B)) }
{}
