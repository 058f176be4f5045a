//! Canonical resolutions of homogeneous modules.

ghost use Rattle.std.specs.Prelude.{ℕ, ◌≡◌, List, length};
ghost use Rattle.formal_sums.specs.FormalSums.{FormalSum};
ghost use Rattle.bases.specs.Settings.{IsLawful, Setting};
ghost use Rattle.resolution_laws.specs.Resolutions.{IsCanonical};
ghost use Rattle.minimal_laws.specs.Gradings.{AreExact, AreGraded, AreHomogeneous, GradedMaps, graded_by_leads};
ghost use Rattle.minimal_laws.specs.Minimal.{IsMinimal, Presents};
ghost use Rattle.minimal_laws.specs.Cancellation.{IsCancelled};

/// The canonical resolution of a module that is homogeneous by the weights ws is graded by these, by the degrees of its leads,
/// and exact, whatever the order (UAG chapter 6, section 2).
pub fn canonical_grading()
    ensures { (n : ℕ) (S : Setting n) (ws rows degrees : List ℕ) (A : List (FormalSum n)) (maps : List (List (FormalSum n)))
        → IsLawful S → length rows ≡ S.rank → AreHomogeneous ws S.modulus rows degrees A → IsCanonical S A maps
        → AreGraded ws S.modulus rows (graded_by_leads ws rows maps) × AreExact S.modulus (graded_by_leads ws rows maps) }
{}

/// It presents the free module modulo that module.
pub fn canonical_presentation()
    ensures { (n : ℕ) (S : Setting n) (ws rows degrees : List ℕ) (A : List (FormalSum n)) (maps : List (List (FormalSum n)))
        → IsLawful S → length rows ≡ S.rank → AreHomogeneous ws S.modulus rows degrees A → IsCanonical S A maps
        → Presents ws S.modulus (record { positions = rows; maps = graded_by_leads ws rows maps }) rows A }
{}

/// Its cancellation is minimal, and presents the same.
pub fn minimal_resolution()
    ensures { (n : ℕ) (S : Setting n) (ws rows degrees : List ℕ) (A : List (FormalSum n)) (maps : List (List (FormalSum n)))
        (D : GradedMaps n)
        → IsLawful S → length rows ≡ S.rank → AreHomogeneous ws S.modulus rows degrees A → IsCanonical S A maps
        → IsCancelled S.modulus (record { positions = rows; maps = graded_by_leads ws rows maps }) D
        → IsMinimal ws S.modulus D × Presents ws S.modulus D rows A }
{}

/// Each canonical resolution of a homogeneous module has a cancellation, which is a minimal resolution of the module.
pub fn minimal_exists()
    ensures { (n : ℕ) (S : Setting n) (ws rows degrees : List ℕ) (A : List (FormalSum n)) (maps : List (List (FormalSum n)))
        → IsLawful S → length rows ≡ S.rank → AreHomogeneous ws S.modulus rows degrees A → IsCanonical S A maps
        → (D : GradedMaps n) × IsCancelled S.modulus (record { positions = rows; maps = graded_by_leads ws rows maps }) D
        × IsMinimal ws S.modulus D × Presents ws S.modulus D rows A }
{}
