//! The two parts of a basis of a marked list, and lifts.

ghost use Rattle.std.specs.Prelude.{ℕ, ◌≡◌, ◌<◌, ◌+◌, ◌-◌, ◌++◌, List, [], get_or, length, ◌↔◌};
ghost use Rattle.std.specs.declared.cmp.Ordering.{Ordering};
ghost use Rattle.residues.specs.Residues.{IsCongruent};
ghost use Rattle.monomials.specs.Exponents.{Exponents, unit};
ghost use Rattle.formal_sums.specs.FormalSums.{FormalSum, HasRank, IsOfRank, IsSame, Each, Key, coefficient, scale};
ghost use Rattle.formal_sums.specs.Combinations.{IsMember, IsSyzygy};
ghost use Rattle.orders.specs.KeyOrders.{top};
ghost use Rattle.orders.specs.MonomialOrders.{IsMonomialOrder};
ghost use Rattle.bases.specs.Bases.{HasFreeTerms, IsGroebnerBasis, IsReducedBasis};
ghost use Rattle.bases.specs.Leads.{IsMonicList};
ghost use Rattle.bases.specs.Settings.{Setting, IsLawful};
ghost use Rattle.syzygy_laws.specs.Syzygies.{marked, raised};
ghost use Rattle.syzygy_laws.specs.Kernels.{kernel_of, lowered, pot_setting};
ghost use Rattle.operation_laws.specs.Operations.{IsSyzygyModulo};
ghost use Rattle.operation_laws.specs.Lifts.{IsLift, IsRemainder, first_parts_of};

/// Position over term, the members of a reduced basis of the marked list that are led before its marks are, cut to the
/// positions there, the reduced basis of the list; and the others are that of its syzygies (UAG chapter 5, section 3).
pub fn marked_parts()
    ensures first { (n q : ℕ) (S : Setting n) (monomials : Exponents n → Exponents n → Ordering) (F G : List (FormalSum n))
        → IsLawful S → IsMonomialOrder monomials → Each (HasRank q) F
        → IsReducedBasis (pot_setting S.weights S.modulus (q + length F) monomials) (marked q 0 F) G
        → IsReducedBasis (pot_setting S.weights S.modulus q monomials) F (first_parts_of q G) }
    ensures kernel { (n q : ℕ) (S : Setting n) (monomials : Exponents n → Exponents n → Ordering) (F G : List (FormalSum n))
        → IsLawful S → IsMonomialOrder monomials → Each (HasRank q) F
        → IsReducedBasis (pot_setting S.weights S.modulus (q + length F) monomials) (marked q 0 F) G
        → IsReducedBasis (pot_setting S.weights S.modulus (length F) monomials) (kernel_of q G) (kernel_of q G) }
    ensures syzygies { (n q : ℕ) (S : Setting n) (monomials : Exponents n → Exponents n → Ordering) (F G : List (FormalSum n)) (a : FormalSum n)
        → IsLawful S → IsMonomialOrder monomials → Each (HasRank q) F
        → IsReducedBasis (pot_setting S.weights S.modulus (q + length F) monomials) (marked q 0 F) G
        → IsMember S.modulus (kernel_of q G) a ↔ IsSyzygy S.modulus F a }
{}

/// Position over term, the members of a reduced basis that vanish at the first q positions, lowered, are the reduced basis
/// of what vanishes there in the module (UAG chapter 5, section 3).
pub fn parts_behind()
    ensures basis { (n q s : ℕ) (S : Setting n) (monomials : Exponents n → Exponents n → Ordering) (L G : List (FormalSum n))
        → IsLawful S → IsMonomialOrder monomials → Each (HasRank (q + s)) L → IsReducedBasis (pot_setting S.weights S.modulus (q + s) monomials) L G
        → IsReducedBasis (pot_setting S.weights S.modulus s monomials) (kernel_of q G) (kernel_of q G) }
    ensures members { (n q s : ℕ) (S : Setting n) (monomials : Exponents n → Exponents n → Ordering) (L G : List (FormalSum n)) (w : FormalSum n)
        → IsLawful S → IsMonomialOrder monomials → Each (HasRank (q + s)) L → IsReducedBasis (pot_setting S.weights S.modulus (q + s) monomials) L G
        → IsMember S.modulus (kernel_of q G) w ↔ IsMember S.modulus L (raised q w) }
{}

/// Where the members of X have marks and those of Y have none, what vanishes before the marks is, lowered, a syzygy of X
/// modulo Y.
pub fn marks_of_some()
    ensures { (n p q : ℕ) (X Y : List (FormalSum n)) (w : FormalSum n)
        → 0 < p → Each (HasRank q) X → Each (HasRank q) Y
        → IsMember p (marked q 0 X ++ Y) (raised q w) ↔ IsSyzygyModulo p X Y w }
{}

/// At one position, position over term and term over position are one order: the reduced bases are the same.
pub fn polynomials_by_position()
    ensures term_first { (n : ℕ) (S : Setting n) (monomials : Exponents n → Exponents n → Ordering) (F G : List (FormalSum n))
        → IsLawful S → IsMonomialOrder monomials → Each (HasRank 1) F → IsReducedBasis (pot_setting S.weights S.modulus 1 monomials) F G
        → IsReducedBasis (record { modulus = S.modulus; weights = S.weights; rank = 1; compare = top monomials }) F G }
    ensures position_first { (n : ℕ) (S : Setting n) (monomials : Exponents n → Exponents n → Ordering) (F G : List (FormalSum n))
        → IsLawful S → IsMonomialOrder monomials → Each (HasRank 1) F
        → IsReducedBasis (record { modulus = S.modulus; weights = S.weights; rank = 1; compare = top monomials }) F G
        → IsReducedBasis (pot_setting S.weights S.modulus 1 monomials) F G }
{}

/// Lifts. A vector has one lift at most, and each member of the module has one. Where w is the remainder of v by a
/// reduced basis of the marked list, v is in the
/// module exactly where w vanishes before the marks, and then minus what stands behind there is the lift
/// (UAG chapter 5, section 3).
pub fn lifts()
    ensures one { (n : ℕ) (S : Setting n) (F K : List (FormalSum n)) (v a b : FormalSum n)
        → IsLawful S → IsGroebnerBasis S K K → ((c : FormalSum n) → IsSyzygy S.modulus F c → IsMember S.modulus K c)
        → IsLift S F K v a → IsLift S F K v b → IsSame S.modulus a b }
    ensures member { (n q : ℕ) (S : Setting n) (monomials : Exponents n → Exponents n → Ordering) (F G : List (FormalSum n)) (v w : FormalSum n)
        → IsLawful S → IsMonomialOrder monomials → Each (HasRank q) F → IsOfRank S.modulus q v
        → IsReducedBasis (pot_setting S.weights S.modulus (q + length F) monomials) (marked q 0 F) G
        → IsMember S.modulus (marked q 0 F) (v ++ scale (S.modulus - 1) (unit n) w)
        → HasFreeTerms (pot_setting S.weights S.modulus (q + length F) monomials) G w
        → IsMember S.modulus F v ↔ ((k : Key n) → k.0 < q → IsCongruent S.modulus (coefficient w k) 0) }
    ensures found { (n q : ℕ) (S : Setting n) (monomials : Exponents n → Exponents n → Ordering) (F G : List (FormalSum n)) (v w : FormalSum n)
        → IsLawful S → IsMonomialOrder monomials → Each (HasRank q) F → IsOfRank S.modulus q v
        → IsReducedBasis (pot_setting S.weights S.modulus (q + length F) monomials) (marked q 0 F) G
        → IsMember S.modulus (marked q 0 F) (v ++ scale (S.modulus - 1) (unit n) w)
        → HasFreeTerms (pot_setting S.weights S.modulus (q + length F) monomials) G w
        → ((k : Key n) → k.0 < q → IsCongruent S.modulus (coefficient w k) 0)
        → IsLift (pot_setting S.weights S.modulus (length F) monomials) F (kernel_of q G) v (scale (S.modulus - 1) (unit n) (lowered q w)) }
    ensures exists { (n q : ℕ) (S : Setting n) (monomials : Exponents n → Exponents n → Ordering) (F G : List (FormalSum n)) (v : FormalSum n)
        → IsLawful S → IsMonomialOrder monomials → Each (HasRank q) F
        → IsReducedBasis (pot_setting S.weights S.modulus (q + length F) monomials) (marked q 0 F) G
        → IsMember S.modulus F v → (a : FormalSum n) × IsLift (pot_setting S.weights S.modulus (length F) monomials) F (kernel_of q G) v a }
{}

/// Each vector of the setting's rank has a remainder by a list of vectors of that rank with monic leads
/// (IVA chapter 2, section 3).
pub fn remainders()
    ensures { (n : ℕ) (S : Setting n) (G : List (FormalSum n)) (v : FormalSum n)
        → IsLawful S → IsMonicList S G → ((i : ℕ) → i < length G → IsOfRank S.modulus S.rank (get_or G i []))
        → IsOfRank S.modulus S.rank v → (w : FormalSum n) × IsRemainder S G v w }
{}
