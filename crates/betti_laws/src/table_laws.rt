//! Tables of minimal lists of maps.

ghost use Rattle.std.specs.Prelude.{ℕ, ◌≡◌, ◌≤◌, List, [], length};
ghost use Rattle.residues.specs.Residues.{IsDomain};
ghost use Rattle.formal_sums.specs.FormalSums.{FormalSum, IsSame};
ghost use Rattle.formal_sums.specs.Combinations.{IsSyzygy};
ghost use Rattle.minimal_laws.specs.Gradings.{AreExact, AreGraded, AreHomogeneous, GradedMaps, graded_by_leads};
ghost use Rattle.bases.specs.Settings.{IsLawful, Setting};
ghost use Rattle.resolution_laws.specs.Resolutions.{IsCanonical};
ghost use Rattle.minimal_laws.specs.Cancellation.{IsCancelled};
ghost use Rattle.minimal_laws.specs.Minimal.{IsMinimal, Presents};
ghost use Rattle.betti_laws.specs.Tables.{occurrences, step_count};

/// A homogeneous matrix of residues without syzygies has, of each degree, no more columns than rows.
pub fn injective_counts()
    ensures { (p d : ℕ) (ws rows degrees : List ℕ) (F : List (FormalSum 0))
        → IsDomain p → AreHomogeneous ws p rows degrees F
        → ((a : FormalSum 0) → IsSyzygy p F a → IsSame p a []) → occurrences d degrees ≤ occurrences d rows }
{}

/// A minimal list of maps has at each step and degree no more than another graded, exact list that presents the same
/// module (Eisenbud, section 20.1).
pub fn comparison()
    ensures { (n p : ℕ) (ws places : List ℕ) (A : List (FormalSum n)) (C D : GradedMaps n) (k d : ℕ)
        → IsDomain p → IsMinimal ws p C → AreGraded ws p D.positions D.maps → AreExact p D.maps
        → Presents ws p C places A → Presents ws p D places A
        → step_count C.positions C.maps k d ≤ step_count D.positions D.maps k d }
{}

/// Two minimal lists that present one module have the same table (UAG chapter 6, section 3; Eisenbud, section 20.1).
pub fn betti_numbers()
    ensures { (n p : ℕ) (ws places : List ℕ) (A : List (FormalSum n)) (C D : GradedMaps n) (k d : ℕ)
        → IsDomain p → IsMinimal ws p C → IsMinimal ws p D → Presents ws p C places A → Presents ws p D places A
        → step_count C.positions C.maps k d ≡ step_count D.positions D.maps k d }
{}

/// So each minimal list that presents a homogeneous module has the table of the cancellation of its canonical resolution.
pub fn table_of_cancellation()
    ensures { (n : ℕ) (S : Setting n) (ws rows degrees : List ℕ) (A : List (FormalSum n)) (maps : List (List (FormalSum n)))
        (C D : GradedMaps n) (k d : ℕ)
        → IsLawful S → length rows ≡ S.rank → AreHomogeneous ws S.modulus rows degrees A → IsCanonical S A maps
        → IsCancelled S.modulus (record { positions = rows; maps = graded_by_leads ws rows maps }) D
        → IsMinimal ws S.modulus C → Presents ws S.modulus C rows A
        → step_count C.positions C.maps k d ≡ step_count D.positions D.maps k d }
{}
