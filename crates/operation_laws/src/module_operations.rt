//! What the runs of each operation give.

ghost use Rattle.std.specs.Prelude.{ℕ, suc, ◌≡◌, ◌<◌, ◌+◌, ◌*◌, ◌++◌, ◌∷◌, List, [], length, ◌↔◌};
ghost use Rattle.std.specs.declared.cmp.Ordering.{Ordering};
ghost use Rattle.monomials.specs.Exponents.{Exponents};
ghost use Rattle.formal_sums.specs.FormalSums.{FormalSum, IsOfRank, IsSame, HasRank, Each, product};
ghost use Rattle.formal_sums.specs.Combinations.{combination, IsMember, IsSyzygy};
ghost use Rattle.orders.specs.KeyOrders.{top};
ghost use Rattle.orders.specs.MonomialOrders.{IsMonomialOrder, elimination};
ghost use Rattle.orders.specs.WeightedOrders.{weighted_grevlex};
ghost use Rattle.bases.specs.Bases.{IsReducedBasis};
ghost use Rattle.bases.specs.Settings.{Setting, IsLawful};
ghost use Rattle.division_laws.specs.Elimination.{has_none_of_first};
ghost use Rattle.syzygy_laws.specs.Syzygies.{marked};
ghost use Rattle.syzygy_laws.specs.Kernels.{kernel_of, pot_setting};
ghost use Rattle.operation_laws.specs.Operations.{IsRun, IsSumOfMembers, IsCombinationOfKept, IsInSaturation, products_of, eliminated, back, elimination_setting};
ghost use Rattle.operation_laws.specs.Operations.{intersection_list, saturation_list, multiples_of, stacked, blocks, power_times, basis_vector};

/// A run generates the module of its list.
pub fn runs()
    ensures itself { (n : ℕ) (S : Setting n) (F G : List (FormalSum n)) → IsLawful S → IsRun S F G → IsReducedBasis S G G }
    ensures members { (n : ℕ) (S : Setting n) (F G : List (FormalSum n)) (v : FormalSum n)
        → IsLawful S → IsRun S F G → IsMember S.modulus G v ↔ IsMember S.modulus F v }
    ensures reduced { (n : ℕ) (S : Setting n) (F G : List (FormalSum n))
        → IsLawful S → Each (HasRank S.rank) F → IsReducedBasis S F G → IsRun S F G }
    ensures same { (n : ℕ) (S : Setting n) (F H G : List (FormalSum n))
        → IsLawful S → Each (IsMember S.modulus F) H → Each (IsMember S.modulus H) F → IsRun S F G → IsRun S H G }
{}

/// The module of the joined list is the sum of the modules (UAG chapter 5, section 3).
pub fn joined_lists()
    ensures reduced { (n : ℕ) (S : Setting n) (F H R : List (FormalSum n)) (v : FormalSum n)
        → IsLawful S → Each (HasRank S.rank) F → Each (HasRank S.rank) H → IsReducedBasis S (F ++ H) R
        → IsMember S.modulus R v ↔ IsSumOfMembers S.modulus F H v }
    ensures members { (n p : ℕ) (F H : List (FormalSum n)) (v : FormalSum n)
        → 0 < p → IsMember p (F ++ H) v ↔ IsSumOfMembers p F H v }
{}

/// The products of the members of two lists, one of polynomials, generate the product of their modules (IVA chapter 4,
/// section 3): it has the products of members of the two, and is what the lists' products generate.
pub fn products_of_lists()
    ensures reduced { (n : ℕ) (S : Setting n) (F H R : List (FormalSum n)) (v : FormalSum n)
        → IsLawful S → Each (HasRank S.rank) H → IsReducedBasis S (products_of F H) R
        → IsMember S.modulus R v ↔ IsMember S.modulus (products_of F H) v }
    ensures members { (n p : ℕ) (F H : List (FormalSum n)) (u v : FormalSum n)
        → 0 < p → IsMember p F u → IsMember p H v → IsMember p (products_of F H) (product u v) }
{}

/// Without weights a run that eliminates is one in the elimination order by total degrees (IVA chapter 3, section 1).
pub fn plain_eliminations()
    ensures { (n l k : ℕ) (S : Setting n)
        → elimination_setting [] l k S
        ≡ record { modulus = S.modulus; weights = []; rank = S.rank; compare = top (elimination k) } }
{}

/// Elimination gives the combinations of the members without the first k variables. Here and below, the run that eliminates may
/// have whatever weights.
pub fn eliminations()
    ensures reduced { (n k : ℕ) (S : Setting n) (ws : List ℕ) (F G R : List (FormalSum n)) (v : FormalSum n)
        → IsLawful S → Each (HasRank S.rank) F → IsReducedBasis (elimination_setting ws n k S) F G → IsReducedBasis S (eliminated k G) R
        → IsMember S.modulus R v ↔ IsCombinationOfKept S.modulus (has_none_of_first k) F v }
    ensures members { (n k : ℕ) (S : Setting n) (ws : List ℕ) (F G R : List (FormalSum n)) (v : FormalSum n)
        → IsLawful S → IsRun (elimination_setting ws n k S) F G → IsRun S (eliminated k G) R
        → IsMember S.modulus R v ↔ IsCombinationOfKept S.modulus (has_none_of_first k) F v }
{}

/// In graded reverse lexicographic order, term over position, no second run is needed: those members of a reduced basis by an order
/// that eliminates which have none of the variables are a reduced basis as they stand, also where the one variable in front is left
/// out of them (IVA chapter 3, section 1).
pub fn graded_eliminations()
    ensures same_variables { (n k : ℕ) (S : Setting n) (ws : List ℕ) (F G : List (FormalSum n))
        → IsLawful S → S.compare ≡ top (weighted_grevlex ws) → Each (HasRank S.rank) F → IsReducedBasis (elimination_setting ws n k S) F G
        → IsReducedBasis S (eliminated k G) (eliminated k G) }
    ensures fewer_variables { (n w : ℕ) (S : Setting n) (ws : List ℕ) (L G : List (FormalSum (suc n)))
        → IsLawful S → S.compare ≡ top (weighted_grevlex ws) → Each (HasRank S.rank) L
        → IsReducedBasis (elimination_setting (w ∷ ws) (suc n) 1 S) L G → IsReducedBasis S (back G) (back G) }
{}

/// The intersection of two modules.
pub fn intersections()
    ensures members { (n : ℕ) (S : Setting n) (ws : List ℕ) (F H R : List (FormalSum n)) (G : List (FormalSum (suc n))) (v : FormalSum n)
        → IsLawful S → IsRun (elimination_setting ws (suc n) 1 S) (intersection_list S.modulus F H) G → IsRun S (back G) R
        → IsMember S.modulus R v ↔ (IsMember S.modulus F v × IsMember S.modulus H v) }
    ensures reduced { (n : ℕ) (S : Setting n) (ws : List ℕ) (F H R : List (FormalSum n)) (G : List (FormalSum (suc n))) (v : FormalSum n)
        → IsLawful S → Each (HasRank S.rank) F → Each (HasRank S.rank) H
        → IsReducedBasis (elimination_setting ws (suc n) 1 S) (intersection_list S.modulus F H) G → IsReducedBasis S (back G) R
        → IsMember S.modulus R v ↔ (IsMember S.modulus F v × IsMember S.modulus H v) }
{}

/// The saturation of a module by a polynomial.
pub fn saturations()
    ensures members { (n : ℕ) (S : Setting n) (ws : List ℕ) (f : FormalSum n) (F R : List (FormalSum n)) (G : List (FormalSum (suc n))) (v : FormalSum n)
        → IsLawful S → HasRank S.rank v
        → IsRun (elimination_setting ws (suc n) 1 S) (saturation_list S.modulus S.rank f F) G → IsRun S (back G) R
        → IsMember S.modulus R v ↔ IsInSaturation S.modulus f F v }
    ensures powers { (n k : ℕ) (f v : FormalSum n) → product (power_times f k (basis_vector 0)) v ≡ power_times f k v }
    ensures reduced { (n : ℕ) (S : Setting n) (ws : List ℕ) (f : FormalSum n) (F R : List (FormalSum n)) (G : List (FormalSum (suc n))) (v : FormalSum n)
        → IsLawful S → Each (HasRank S.rank) F → IsOfRank S.modulus S.rank v
        → IsReducedBasis (elimination_setting ws (suc n) 1 S) (saturation_list S.modulus S.rank f F) G → IsReducedBasis S (back G) R
        → IsMember S.modulus R v ↔ IsInSaturation S.modulus f F v }
{}

/// The syzygies of a list.
pub fn kernels()
    ensures reduced { (n q : ℕ) (S K : Setting n) (monomials : Exponents n → Exponents n → Ordering) (F G R : List (FormalSum n)) (a : FormalSum n)
        → IsLawful S → IsLawful K → K.modulus ≡ S.modulus → K.rank ≡ length F → IsMonomialOrder monomials → Each (HasRank q) F
        → IsReducedBasis (pot_setting S.weights S.modulus (q + length F) monomials) (marked q 0 F) G → IsReducedBasis K (kernel_of q G) R
        → IsMember S.modulus R a ↔ IsSyzygy S.modulus F a }
    ensures members { (n q : ℕ) (S K : Setting n) (monomials : Exponents n → Exponents n → Ordering) (F G R : List (FormalSum n)) (a : FormalSum n)
        → IsLawful S → IsLawful K → K.modulus ≡ S.modulus → IsMonomialOrder monomials → Each (HasRank q) F
        → IsRun (pot_setting S.weights S.modulus (q + length F) monomials) (marked q 0 F) G → IsRun K (kernel_of q G) R
        → IsMember S.modulus R a ↔ IsSyzygy S.modulus F a }
{}

/// The quotient of a module by a polynomial: the list is f e_1 to f e_m, each with a mark of its own, and the members,
/// without one. Position over term, the members of its reduced basis that vanish before the marks are, lowered, the reduced
/// basis of the quotient (UAG chapter 5, section 3).
pub fn quotients()
    ensures basis { (n : ℕ) (S : Setting n) (monomials : Exponents n → Exponents n → Ordering) (m : ℕ) (f : FormalSum n) (F G : List (FormalSum n))
        → IsLawful S → IsMonomialOrder monomials → Each (HasRank m) F
        → IsReducedBasis (pot_setting S.weights S.modulus (m + m) monomials) (marked m 0 (multiples_of m f) ++ F) G
        → IsReducedBasis (pot_setting S.weights S.modulus m monomials) (kernel_of m G) (kernel_of m G) }
    ensures members { (n : ℕ) (S : Setting n) (monomials : Exponents n → Exponents n → Ordering) (m : ℕ) (f : FormalSum n)
        (F G : List (FormalSum n)) (v : FormalSum n)
        → IsLawful S → IsMonomialOrder monomials → Each (HasRank m) F
        → IsReducedBasis (pot_setting S.weights S.modulus (m + m) monomials) (marked m 0 (multiples_of m f) ++ F) G
        → IsMember S.modulus (kernel_of m G) v ↔ (IsOfRank S.modulus m v × IsMember S.modulus F (product f v)) }
{}

/// The polynomials that take the members of one module into another: the list is these one below the other, with one mark,
/// and the members of the other in each block, without one.
pub fn colons()
    ensures basis { (n : ℕ) (S : Setting n) (monomials : Exponents n → Exponents n → Ordering) (m : ℕ) (F C G : List (FormalSum n))
        → IsLawful S → IsMonomialOrder monomials → Each (HasRank m) F → Each (HasRank m) C
        → IsReducedBasis (pot_setting S.weights S.modulus (m * length C + 1) monomials)
        (marked (m * length C) 0 (stacked m 0 C ∷ []) ++ blocks m 0 (length C) F) G
        → IsReducedBasis (pot_setting S.weights S.modulus 1 monomials) (kernel_of (m * length C) G) (kernel_of (m * length C) G) }
    ensures members { (n : ℕ) (S : Setting n) (monomials : Exponents n → Exponents n → Ordering) (m : ℕ) (F C G : List (FormalSum n))
        (v : FormalSum n)
        → IsLawful S → IsMonomialOrder monomials → Each (HasRank m) F → Each (HasRank m) C
        → IsReducedBasis (pot_setting S.weights S.modulus (m * length C + 1) monomials)
        (marked (m * length C) 0 (stacked m 0 C ∷ []) ++ blocks m 0 (length C) F) G
        → IsMember S.modulus (kernel_of (m * length C) G) v ↔ (IsOfRank S.modulus 1 v × Each (λ c. IsMember S.modulus F (product v c)) C) }
    ensures empty { (n p : ℕ) (v : FormalSum n) → IsOfRank p 1 v → IsMember p (basis_vector 0 ∷ []) v }
{}
