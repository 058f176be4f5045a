//! The ideal of x^2, x y and y^2 modulo 101.

ghost use Rattle.std.specs.Prelude.{ℕ, ◌≡◌, List, [], ◌∷◌, map, negsuc, pos};
ghost use Rattle.formal_sums.specs.FormalSums.{FormalSum};
ghost use Rattle.bases.specs.Leads.{head_key};
ghost use Rattle.resolution_laws.specs.Resolutions.{IsCanonical};
ghost use Rattle.minimal_laws.specs.Gradings.{GradedMaps, IsHomogeneous, graded_by_leads};
ghost use Rattle.minimal_laws.specs.Minimal.{IsMinimal, Presents};
ghost use Rattle.minimal_laws.specs.Cancellation.{IsCancelled};
ghost use Rattle.betti_laws.specs.Tables.{step_count};
ghost use Rattle.hilbert_laws.specs.Dimensions.{HasDimension};
ghost use Rattle.hilbert_laws.specs.Numerators.{IsNumerator, module_count};
ghost use Rattle.above_examples.specs.Square.{monomial, numerator, resolution, square_generators, square_setting};
ghost use Rattle.above_examples.specs.Square.{table, weighted_numerator, weighted_table, weights};

/// Its canonical resolution has two maps, the second with the columns [y, 100 x, 0] and [0, y, 100 x].
pub fn square_resolution()
    ensures itself { IsCanonical square_setting square_generators resolution }
    ensures alone { (maps : List (List (FormalSum 2))) → IsCanonical square_setting square_generators maps → maps ≡ resolution }
{}

/// That list needs no step of cancellation and is minimal; and each minimal list that presents the same module has its
/// table: 1 in degree 0 at step 0, 3 in degree 2 at step 1, 2 in degree 3 at step 2.
pub fn square_table()
    ensures cancelled { IsCancelled 101 (record { positions = 0 ∷ []; maps = graded_by_leads [] (0 ∷ []) resolution })
        (record { positions = 0 ∷ []; maps = graded_by_leads [] (0 ∷ []) resolution }) }
    ensures minimal { IsMinimal [] 101 (record { positions = 0 ∷ []; maps = graded_by_leads [] (0 ∷ []) resolution })
        × Presents [] 101 (record { positions = 0 ∷ []; maps = graded_by_leads [] (0 ∷ []) resolution }) (0 ∷ []) square_generators }
    ensures counts { (k d : ℕ) → step_count (0 ∷ []) (graded_by_leads [] (0 ∷ []) resolution) k d ≡ table k d }
    ensures each { (C : GradedMaps 2) (k d : ℕ)
        → IsMinimal [] 101 C → Presents [] 101 C (0 ∷ []) square_generators → step_count C.positions C.maps k d ≡ table k d }
{}

/// Its numerator is 1 - 3 t^2 + 2 t^3, with dimension 0 and degree 3. That of a line in the plane is 1 - t, with dimension 1
/// and degree 1.
pub fn square_numerator()
    ensures itself { IsNumerator [] 2 numerator (module_count [] 1 (map head_key square_generators)) }
    ensures dimension { HasDimension 2 numerator (pos 0) (pos 3) }
    ensures line { HasDimension 2 (pos 1 ∷ (negsuc 0 ∷ [])) (pos 1) (pos 1) }
{}

/// By the weights 1 and 2 of x and y the list is minimal and presents the module too, with other degrees: 2, 3, 4 at step 1 and 4, 5 at step 2. Its
/// numerator is 1 - t^2 - t^3 + t^5, with dimension 0 and degree 6 (UAG chapter 6, section 4; Singular and Macaulay2 give the same).
pub fn weighted_square()
    ensures minimal { IsMinimal weights 101 (record { positions = 0 ∷ []; maps = graded_by_leads weights (0 ∷ []) resolution })
        × Presents weights 101 (record { positions = 0 ∷ []; maps = graded_by_leads weights (0 ∷ []) resolution }) (0 ∷ []) square_generators }
    ensures counts { (k d : ℕ) → step_count (0 ∷ []) (graded_by_leads weights (0 ∷ []) resolution) k d ≡ weighted_table k d }
    ensures numerator { IsNumerator weights 2 weighted_numerator (module_count weights 1 (map head_key square_generators)) }
    ensures dimension { HasDimension 2 weighted_numerator (pos 0) (pos 6) }
{}

/// x^2 + y has the degree 2 by these weights, and none by the total degree.
pub fn weighted_degree_of_two()
    ensures by_weights { IsHomogeneous weights 101 (0 ∷ []) 2 (((0, monomial 2 0), 1) ∷ (((0, monomial 0 1), 1) ∷ [])) }
    ensures by_none { (d : ℕ) → IsHomogeneous [] 101 (0 ∷ []) d (((0, monomial 2 0), 1) ∷ (((0, monomial 0 1), 1) ∷ [])) → ⊥ }
{}
