//! The reduced basis in another order.

ghost use Rattle.std.specs.Prelude.{ℕ, ◌<◌, List, [], get_or, length};
ghost use Rattle.monomials.specs.Exponents.{Exponents};
ghost use Rattle.formal_sums.specs.FormalSums.{FormalSum, IsOfRank};
ghost use Rattle.bases.specs.Settings.{Setting, IsLawful};
ghost use Rattle.bases.specs.Bases.{IsReducedSet};
ghost use Rattle.change_laws.specs.Changes.{IsChange};

/// Members of an ideal whose leads leave monomials that are independent modulo the ideal, and whose other terms are such
/// monomials, are its reduced Gröbner basis: a member of the ideal with another lead would be, up to the ideal, a
/// combination of these monomials (Faugère, Gianni, Lazard, Mora 1993).
pub fn changed_basis()
    ensures { (n : ℕ) (S : Setting n) (F : List (FormalSum n)) (N : List (Exponents n)) (G : List (FormalSum n))
        → IsLawful S → 0 < S.rank → ((i : ℕ) → i < length F → IsOfRank S.modulus 1 (get_or F i []))
        → IsChange S F N G → IsReducedSet S F G }
{}
