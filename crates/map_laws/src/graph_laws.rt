//! The graph of a map, preimages under it, and polynomials as images.

ghost use Rattle.std.specs.Prelude.{ℕ, ◌≡◌, ◌<◌, ◌+◌, ◌++◌, List, [], length, ◌↔◌};
ghost use Rattle.formal_sums.specs.FormalSums.{FormalSum, HasRank, IsOfRank, IsSame, Each};
ghost use Rattle.formal_sums.specs.Combinations.{IsMember};
ghost use Rattle.orders.specs.KeyOrders.{top};
ghost use Rattle.orders.specs.WeightedOrders.{weighted_grevlex};
ghost use Rattle.bases.specs.Bases.{HasFreeTerms, IsReducedBasis};
ghost use Rattle.bases.specs.Settings.{Setting, IsLawful};
ghost use Rattle.division_laws.specs.Elimination.{has_none_of_first};
ghost use Rattle.operation_laws.specs.Lifts.{IsRemainder};
ghost use Rattle.operation_laws.specs.Operations.{HasKeptKeys, elimination_setting};
ghost use Rattle.map_laws.specs.Graphs.{from_second, graph_list, in_first, in_second, of_second};
ghost use Rattle.map_laws.specs.Substitution.{substituted};

/// A polynomial in the second variables is in the ideal of the graph and of a list exactly where its image is in the ideal of
/// the list (IVA chapter 3, section 3).
pub fn graphs()
    ensures { (n m p : ℕ) (F L : List (FormalSum n)) (v : FormalSum n)
        → 0 < p → m ≡ n + n → length F ≡ n → Each (HasRank 1) F → Each (HasRank 1) L → IsOfRank p 1 v
        → IsMember p (graph_list p m F L) (in_second m v) ↔ IsMember p L (substituted F v) }
{}

/// The preimage of an ideal: the members of a reduced basis of the graph and the list that have the second variables alone
/// generate it. The run that eliminates may have whatever weights.
pub fn preimages()
    ensures { (n m : ℕ) (S : Setting n) (ws : List ℕ) (F L R : List (FormalSum n)) (G : List (FormalSum m)) (v : FormalSum n)
        → m ≡ n + n → IsLawful S → S.rank ≡ 1 → length F ≡ n → Each (HasRank 1) F → Each (HasRank 1) L
        → IsReducedBasis (elimination_setting ws m n S) (graph_list S.modulus m F L) G → IsReducedBasis S (of_second n G) R
        → IsMember S.modulus R v ↔ (IsOfRank S.modulus 1 v × IsMember S.modulus L (substituted F v)) }
{}

/// Polynomials as images (IVA chapter 7, section 3). Where w is the remainder of g by a reduced basis of the graph, some
/// polynomial has the image g exactly where w has the second variables alone, and then w is one. The members of the basis that
/// have the second variables alone are the reduced basis of the kernel, graded reverse lexicographic, and no lead of it divides
/// a term of that polynomial. There is one such polynomial at most.
pub fn expressions()
    ensures image { (n m : ℕ) (S : Setting n) (ws : List ℕ) (F : List (FormalSum n)) (G : List (FormalSum m)) (g : FormalSum n) (w : FormalSum m)
        → m ≡ n + n → IsLawful S → S.rank ≡ 1 → length F ≡ n → Each (HasRank 1) F → HasRank 1 g
        → IsReducedBasis (elimination_setting ws m n S) (graph_list S.modulus m F []) G
        → IsRemainder (elimination_setting ws m n S) G (in_first m g) w
        → HasKeptKeys S.modulus (has_none_of_first n) w → IsSame S.modulus (substituted F (from_second n w)) g }
    ensures found { (n m : ℕ) (S : Setting n) (ws : List ℕ) (F : List (FormalSum n)) (G : List (FormalSum m)) (g v : FormalSum n) (w : FormalSum m)
        → m ≡ n + n → IsLawful S → S.rank ≡ 1 → length F ≡ n → Each (HasRank 1) F → HasRank 1 g
        → IsReducedBasis (elimination_setting ws m n S) (graph_list S.modulus m F []) G
        → IsRemainder (elimination_setting ws m n S) G (in_first m g) w
        → IsOfRank S.modulus 1 v → IsSame S.modulus (substituted F v) g → HasKeptKeys S.modulus (has_none_of_first n) w }
    ensures kernel { (n m : ℕ) (S : Setting n) (vs : List ℕ) (F : List (FormalSum n)) (G : List (FormalSum m))
        → m ≡ n + n → IsLawful S → S.rank ≡ 1 → S.compare ≡ top (weighted_grevlex vs) → length vs ≡ n → length F ≡ n → Each (HasRank 1) F
        → IsReducedBasis (elimination_setting (vs ++ vs) m n S) (graph_list S.modulus m F []) G
        → IsReducedBasis S (of_second n G) (of_second n G) }
    ensures members { (n m : ℕ) (S : Setting n) (ws : List ℕ) (F : List (FormalSum n)) (G : List (FormalSum m)) (v : FormalSum n)
        → m ≡ n + n → IsLawful S → S.rank ≡ 1 → length F ≡ n → Each (HasRank 1) F
        → IsReducedBasis (elimination_setting ws m n S) (graph_list S.modulus m F []) G
        → IsMember S.modulus (of_second n G) v ↔ (IsOfRank S.modulus 1 v × IsSame S.modulus (substituted F v) []) }
    ensures free { (n m : ℕ) (S : Setting n) (vs : List ℕ) (F : List (FormalSum n)) (G : List (FormalSum m)) (g : FormalSum n) (w : FormalSum m)
        → m ≡ n + n → IsLawful S → S.rank ≡ 1 → S.compare ≡ top (weighted_grevlex vs) → length vs ≡ n → length F ≡ n → Each (HasRank 1) F
        → IsReducedBasis (elimination_setting (vs ++ vs) m n S) (graph_list S.modulus m F []) G
        → IsRemainder (elimination_setting (vs ++ vs) m n S) G (in_first m g) w
        → HasKeptKeys S.modulus (has_none_of_first n) w → HasFreeTerms S (of_second n G) (from_second n w) }
    ensures one { (n : ℕ) (S : Setting n) (F K : List (FormalSum n)) (u v : FormalSum n)
        → IsLawful S → S.rank ≡ 1 → IsReducedBasis S K K
        → ((a : FormalSum n) → IsMember S.modulus K a ↔ (IsOfRank S.modulus 1 a × IsSame S.modulus (substituted F a) []))
        → IsOfRank S.modulus 1 u → IsOfRank S.modulus 1 v → HasFreeTerms S K u → HasFreeTerms S K v
        → IsSame S.modulus (substituted F u) (substituted F v) → IsSame S.modulus u v }
{}
