//! Members dropped, tails reduced, the list sorted.

ghost use Rattle.std.specs.Prelude.{ℕ, ◌≡◌, ◌<◌, ◌++◌, ◌∷◌, List, [], get_or, length, suc};
ghost use Rattle.std.specs.List.Sorted.{IsPermutation};
ghost use Rattle.std.specs.declared.cmp.Ordering.TheVariants.{Less};
ghost use Rattle.formal_sums.specs.FormalSums.{FormalSum, Key};
ghost use Rattle.formal_sums.specs.Combinations.{IsMember};
ghost use Rattle.bases.specs.Settings.{Setting, IsLawful};
ghost use Rattle.bases.specs.Leads.{head_key, leads};
ghost use Rattle.bases.specs.Bases.{IsCovered, IsGroebnerBasis, IsReducedBasis, IsReducedSet};
ghost use Rattle.reduced_bases.specs.Interreduction.{CoversLeads, IsMinimalList, IsTailReduced};

/// What leads of G cover, a list whose leads cover these covers too. Zero members cover nothing.
pub fn covered_leads()
    ensures { (n : ℕ) (S : Setting n) (G H : List (FormalSum n)) (k : Key n)
        → CoversLeads S H G → IsCovered S G k → IsCovered S H k }
{}

/// A Gröbner basis stays one as members are dropped whose leads others cover (IVA chapter 2, section 7).
pub fn dropped_members()
    ensures { (n : ℕ) (S : Setting n) (F G H : List (FormalSum n))
        → IsGroebnerBasis S F G
        → ((i : ℕ) → i < length H → IsMember S.modulus F (get_or H i []))
        → CoversLeads S H G → IsGroebnerBasis S F H }
{}

/// One member is dropped: the step of a loop (IVA chapter 2, section 7).
pub fn dropped_member()
    ensures { (n : ℕ) (S : Setting n) (F G H : List (FormalSum n)) (g : FormalSum n)
        → IsGroebnerBasis S F (G ++ (g ∷ H)) → IsCovered S (G ++ H) (head_key g)
        → IsGroebnerBasis S F (G ++ H) }
{}

/// A Gröbner basis in which no lead divides another is a reduced set once the tails are reduced
/// (IVA chapter 2, section 7).
pub fn reduced_tails()
    ensures { (n : ℕ) (S : Setting n) (F G H : List (FormalSum n))
        → IsLawful S → IsGroebnerBasis S F G → IsMinimalList S G → IsTailReduced S F G H
        → IsReducedSet S F H }
{}

/// A reduced set stays one in another order of its members, and is the reduced basis where no lead is below the next.
pub fn sorted_set()
    ensures permuted { (n : ℕ) (S : Setting n) (F G H : List (FormalSum n))
        → IsReducedSet S F G → IsPermutation G H → IsReducedSet S F H }
    ensures sorted { (n : ℕ) (S : Setting n) (F G : List (FormalSum n))
        → IsLawful S → IsReducedSet S F G
        → ((i : ℕ) → suc i < length G → S.compare (leads G i) (leads G (suc i)) ≡ Less → ⊥)
        → IsReducedBasis S F G }
{}

/// All of it: of a Gröbner basis G of the module of F, members K whose leads cover those of G and do not divide one
/// another; of these, tails reduced, H; of these, sorted, R: this is the reduced basis (IVA chapter 2, section 7).
pub fn interreduction()
    ensures { (n : ℕ) (S : Setting n) (F G K H R : List (FormalSum n))
        → IsLawful S → IsGroebnerBasis S F G
        → ((i : ℕ) → i < length K → IsMember S.modulus F (get_or K i []))
        → CoversLeads S K G → IsMinimalList S K → IsTailReduced S F K H → IsPermutation H R
        → ((i : ℕ) → suc i < length R → S.compare (leads R i) (leads R (suc i)) ≡ Less → ⊥)
        → IsReducedBasis S F R }
{}
