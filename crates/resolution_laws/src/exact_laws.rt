//! What makes a map exact.

ghost use Rattle.std.specs.Prelude.{ℕ, ◌≡◌, ◌<◌, List, [], get_or, length};
ghost use Rattle.formal_sums.specs.FormalSums.{FormalSum};
ghost use Rattle.formal_sums.specs.Combinations.{IsSyzygy};
ghost use Rattle.bases.specs.Settings.{Setting, IsLawful};
ghost use Rattle.bases.specs.Leads.{IsMonicList, leads};
ghost use Rattle.bases.specs.Bases.{IsCovered, IsGroebnerBasis};
ghost use Rattle.syzygy_laws.specs.Syzygies.{induced_setting, pair_lead_key};
ghost use Rattle.resolution_laws.specs.Resolutions.{IsExact};

/// Monic syzygies whose leads cover the leads of the pairs' syzygies make the next map of an exact pair
/// (UAG chapter 6, section 1).
pub fn exact_by_pairs()
    ensures { (n : ℕ) (S : Setting n) (F H : List (FormalSum n))
        → IsLawful S → IsMonicList S F → IsMonicList (induced_setting S F) H
        → ((c : ℕ) → c < length H → IsSyzygy S.modulus F (get_or H c []))
        → ((i j : ℕ) → i < j → j < length F → (leads F i).0 ≡ (leads F j).0 → IsCovered (induced_setting S F) H (pair_lead_key F i j))
        → IsExact S.modulus F H }
{}

/// They are a Gröbner basis of all syzygies, in the order that the leads induce (Schreyer's theorem; Eisenbud, section 15.5).
pub fn basis_by_pairs()
    ensures { (n : ℕ) (S : Setting n) (F H : List (FormalSum n))
        → IsLawful S → IsMonicList S F → IsMonicList (induced_setting S F) H
        → ((c : ℕ) → c < length H → IsSyzygy S.modulus F (get_or H c []))
        → ((i j : ℕ) → i < j → j < length F → (leads F i).0 ≡ (leads F j).0 → IsCovered (induced_setting S F) H (pair_lead_key F i j))
        → IsGroebnerBasis (induced_setting S F) H H }
{}
