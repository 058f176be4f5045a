//! The constants of maps suffice for their Betti numbers.

ghost use Rattle.std.specs.Prelude.{ℕ, ◌≡◌, List};
ghost use Rattle.residues.specs.Residues.{IsDomain};
ghost use Rattle.formal_sums.specs.FormalSums.{FormalSum};
ghost use Rattle.minimal_laws.specs.Cancellation.{AreSameMaps, IsCancelled};
ghost use Rattle.minimal_laws.specs.Gradings.{AreExact, AreGraded, GradedMaps};
ghost use Rattle.minimal_laws.specs.Minimal.{IsMinimal, Presents};
ghost use Rattle.betti_laws.specs.ConstantParts.{constant_maps};
ghost use Rattle.betti_laws.specs.Tables.{step_count};

/// The constants of a cancellation are a cancellation of the constants: each step cancels in both the same constant.
pub fn constants_cancel()
    ensures { (n p : ℕ) (ws : List ℕ) (C D : GradedMaps n)
        → IsDomain p → AreGraded ws p C.positions C.maps → IsCancelled p C D → IsCancelled p (constant_maps C) (constant_maps D) }
{}

/// The constants of graded maps are graded.
pub fn constants_stay_graded()
    ensures { (n p : ℕ) (ws : List ℕ) (C : GradedMaps n)
        → AreGraded ws p C.positions C.maps → AreGraded ws p (constant_maps C).positions (constant_maps C).maps }
{}

/// So a cancellation of the constants alone, of any graded and exact maps, counts the Betti numbers of what these present
/// (Eisenbud, The Geometry of Syzygies, proposition 1.7).
pub fn table_of_constants()
    ensures { (n p : ℕ) (ws places : List ℕ) (A : List (FormalSum n)) (C D K E : GradedMaps n) (k d : ℕ)
        → IsDomain p → AreGraded ws p C.positions C.maps → AreExact p C.maps → Presents ws p C places A
        → K.positions ≡ C.positions → AreSameMaps p (constant_maps C).maps K.maps → IsCancelled p K E
        → IsMinimal ws p D → Presents ws p D places A
        → step_count D.positions D.maps k d ≡ step_count E.positions E.maps k d }
{}
