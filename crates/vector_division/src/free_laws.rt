// What a rest without keys that leads divide is in the words of the base.
ghost use Rattle.std.specs.Prelude.{ℕ, ◌<◌, ◌↔◌, List, [], get_or, length};
ghost use Rattle.formal_sums.specs.FormalSums.{FormalSum, Key};
ghost use Rattle.bases.specs.Bases.{HasFreeTerms, IsCovered};
ghost use Rattle.bases.specs.Leads.{IsNormal};
ghost use Rattle.bases.specs.Settings.{IsLawful, Setting};
ghost use Rattle.vector_division.specs.Divisions.{IsFreeOfLeads, IsUncovered};

/// A key that no lead of the list divides is one that the list does not cover, and a vector without keys that leads
/// divide one of free terms; of vectors in normal form, as those of a ring are, the converse holds too.
pub fn free_terms()
    ensures key { (n : ℕ) (S : Setting n) (G : List (FormalSum n)) (k : Key n) → IsUncovered G k → IsCovered S G k → ⊥ }
    ensures terms { (n : ℕ) (S : Setting n) (G : List (FormalSum n)) (v : FormalSum n)
        → IsFreeOfLeads G v → HasFreeTerms S G v }
    ensures uncovered { (n : ℕ) (S : Setting n) (G : List (FormalSum n)) (k : Key n)
        → IsLawful S → ((i : ℕ) → i < length G → IsNormal S (get_or G i []))
        → IsUncovered G k ↔ (IsCovered S G k → ⊥) }
    ensures free { (n : ℕ) (S : Setting n) (G : List (FormalSum n)) (v : FormalSum n)
        → IsLawful S → ((i : ℕ) → i < length G → IsNormal S (get_or G i [])) → IsNormal S v
        → IsFreeOfLeads G v ↔ HasFreeTerms S G v }
{}
