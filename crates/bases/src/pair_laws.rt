//! S-vectors of pairs.

ghost use Rattle.std.specs.Prelude.{ℕ, ◌≡◌, ◌<◌, List, [], get_or, length};
ghost use Rattle.std.specs.declared.cmp.Ordering.TheVariants.{Less};
ghost use Rattle.formal_sums.specs.FormalSums.{FormalSum, Key};
ghost use Rattle.formal_sums.specs.Combinations.{IsMember};
ghost use Rattle.bases.specs.Settings.{Setting, IsLawful};
ghost use Rattle.bases.specs.Leads.{IsLead, IsMonicList, leads};
ghost use Rattle.bases.specs.Representations.{key_lcm, s_vector};

/// The S-vector of two members is in their module, and its lead is below the least common multiple of their leads:
/// these cancel (IVA chapter 2, section 6).
pub fn s_vectors()
    ensures member { (n : ℕ) (S : Setting n) (F G : List (FormalSum n)) (i j : ℕ)
        → IsLawful S → IsMember S.modulus F (get_or G i []) → IsMember S.modulus F (get_or G j [])
        → IsMember S.modulus F (s_vector S.modulus (get_or G i []) (get_or G j [])) }
    ensures below { (n : ℕ) (S : Setting n) (G : List (FormalSum n)) (i j : ℕ) (k : Key n)
        → IsLawful S → IsMonicList S G → i < length G → j < length G → (leads G i).0 ≡ (leads G j).0
        → IsLead S (s_vector S.modulus (get_or G i []) (get_or G j [])) k
        → S.compare k (key_lcm (leads G i) (leads G j)) ≡ Less }
{}
