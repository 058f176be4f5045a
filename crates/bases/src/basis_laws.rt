//! Reduced bases.

ghost use Rattle.std.specs.Prelude.{ℕ, ◌++◌, ◌∷◌, List};
ghost use Rattle.formal_sums.specs.FormalSums.{FormalSum};
ghost use Rattle.bases.specs.Settings.{Setting};
ghost use Rattle.bases.specs.Bases.{HasFreeTerms, IsReducedSet};

/// No lead of another member divides a term of a member of a reduced set (IVA chapter 2, section 7).
pub fn reduced_members()
    ensures { (n : ℕ) (S : Setting n) (F G H : List (FormalSum n)) (g : FormalSum n)
        → IsReducedSet S F (G ++ (g ∷ H)) → HasFreeTerms S (G ++ H) g }
{}
