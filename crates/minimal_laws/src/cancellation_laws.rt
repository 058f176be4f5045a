//! Cancellation.

ghost use Rattle.std.specs.Prelude.{ℕ, ◌*◌, ◌<◌, ◌≡◌, List, [], drop, get_or, length};
ghost use Rattle.residues.specs.Residues.{IsCongruent, IsDomain};
ghost use Rattle.monomials.specs.Exponents.{unit};
ghost use Rattle.formal_sums.specs.FormalSums.{Each, FormalSum, coefficient};
ghost use Rattle.minimal_laws.specs.Gradings.{AreExact, AreGraded, GradedMap, GradedMaps, first_columns};
ghost use Rattle.minimal_laws.specs.Minimal.{HasConstant, IsMinimal, Presents};
ghost use Rattle.minimal_laws.specs.Cancellation.{AreSameMaps, IsCancelled, columns_in_all, split};

/// A split at a constant keeps the maps homogeneous and exact, and the module that they present
/// (Eisenbud, section 20.1).
pub fn splits()
    ensures graded { (n p k c r s : ℕ) (ws rows : List ℕ) (maps : List (GradedMap n))
        → HasConstant p maps k c r → AreGraded ws p rows maps
        → AreGraded ws p (split p k r c s rows maps).0 (split p k r c s rows maps).1 }
    ensures exact { (n p k c r s : ℕ) (rows : List ℕ) (maps : List (GradedMap n))
        → 0 < p → HasConstant p maps k c r
        → IsCongruent p (s * coefficient (get_or (first_columns (drop k maps)) c []) (r, unit n)) 1
        → AreExact p maps → AreExact p (split p k r c s rows maps).1 }
    ensures presents { (n p k c r s : ℕ) (ws places rows : List ℕ) (A : List (FormalSum n)) (maps : List (GradedMap n))
        → 0 < p → HasConstant p maps k c r
        → IsCongruent p (s * coefficient (get_or (first_columns (drop k maps)) c []) (r, unit n)) 1
        → AreGraded ws p rows maps → AreExact p maps
        → Presents ws p (record { positions = rows; maps = maps }) places A
        → Presents ws p (record { positions = (split p k r c s rows maps).0; maps = (split p k r c s rows maps).1 }) places A }
{}

/// A split leaves fewer columns: the measure of cancellation.
pub fn split_falls()
    ensures { (n p k c r s : ℕ) (rows : List ℕ) (maps : List (GradedMap n))
        → HasConstant p maps k c r → columns_in_all (split p k r c s rows maps).1 < columns_in_all maps }
{}

/// The cancellation of an exact list of homogeneous maps is minimal, and presents the same module
/// (UAG chapter 6, section 3).
pub fn cancellation()
    ensures { (n p : ℕ) (ws places : List ℕ) (A : List (FormalSum n)) (C D : GradedMaps n)
        → 0 < p → AreGraded ws p C.positions C.maps → AreExact p C.maps → Presents ws p C places A
        → IsCancelled p C D → IsMinimal ws p D × Presents ws p D places A }
{}

/// Each list of maps has its cancellation: a constant is first or there is none, it has an inverse, and the columns fall.
pub fn cancellation_exists()
    ensures { (n p : ℕ) (C : GradedMaps n) → IsDomain p → (D : GradedMaps n) × IsCancelled p C D }
{}

/// A list has one cancellation, up to the form of its vectors: the same lists have the same.
pub fn one_cancellation()
    ensures { (n p : ℕ) (C E D F : GradedMaps n)
        → 0 < p → C.positions ≡ E.positions → AreSameMaps p C.maps E.maps → IsCancelled p C D → IsCancelled p E F
        → (D.positions ≡ F.positions) × AreSameMaps p D.maps F.maps }
{}

/// A list without constants, each of whose maps has a column, is its own cancellation, and has no other.
pub fn no_step()
    ensures itself { (n p : ℕ) (C : GradedMaps n)
        → 0 < p → ((k c r : ℕ) → HasConstant p C.maps k c r → ⊥) → Each (λ M. 0 < length M.columns) C.maps → IsCancelled p C C }
    ensures alone { (n p : ℕ) (C D : GradedMaps n)
        → 0 < p → ((k c r : ℕ) → HasConstant p C.maps k c r → ⊥) → Each (λ M. 0 < length M.columns) C.maps
        → IsCancelled p C D → D ≡ C }
{}
