//! Syzygies and lifts read off a basis of a marked list.

ghost use Rattle.std.specs.Prelude.{ℕ, ◌≡◌, ◌<◌, ◌+◌, ◌-◌, ◌++◌, List, [], get_or, length};
ghost use Rattle.std.specs.declared.cmp.Ordering.{Ordering};
ghost use Rattle.residues.specs.Residues.{IsDomain};
ghost use Rattle.monomials.specs.Exponents.{Exponents, unit};
ghost use Rattle.formal_sums.specs.FormalSums.{FormalSum, Key, HasRank, IsOfRank, IsSame, scale};
ghost use Rattle.formal_sums.specs.Combinations.{combination, IsMember, IsSyzygy};
ghost use Rattle.orders.specs.MonomialOrders.{IsMonomialOrder};
ghost use Rattle.bases.specs.Leads.{IsLead, IsMonicList, IsNormal};
ghost use Rattle.bases.specs.Bases.{HasFreeTerms, IsCovered, IsGroebnerBasis};
ghost use Rattle.syzygy_laws.specs.Kernels.{kernel_of, pot_setting};
ghost use Rattle.syzygy_laws.specs.Syzygies.{marked, raised};

/// By position first, the members of a Gröbner basis of the marked list that vanish at the first m positions are syzygies;
/// where the basis is of normal vectors, they are a Gröbner basis of the syzygies, and generate these (UAG chapter 5,
/// section 3).
pub fn marked_basis()
    ensures syzygies { (n p m : ℕ) (ws : List ℕ) (monomials : Exponents n → Exponents n → Ordering) (F G : List (FormalSum n)) (i : ℕ)
        → ((i : ℕ) → i < length F → HasRank m (get_or F i []))
        → IsGroebnerBasis (pot_setting ws p (m + length F) monomials) (marked m 0 F) G
        → IsDomain p → i < length (kernel_of m G) → IsSyzygy p F (get_or (kernel_of m G) i []) }
    ensures covers { (n p m : ℕ) (ws : List ℕ) (monomials : Exponents n → Exponents n → Ordering) (F G : List (FormalSum n))
        (a : FormalSum n) (k : Key n)
        → IsDomain p → IsMonomialOrder monomials → IsMonicList (pot_setting ws p (m + length F) monomials) G
        → ((i : ℕ) → i < length G → IsNormal (pot_setting ws p (m + length F) monomials) (get_or G i []))
        → IsGroebnerBasis (pot_setting ws p (m + length F) monomials) (marked m 0 F) G
        → IsSyzygy p F a → IsLead (pot_setting ws p (length F) monomials) a k
        → IsCovered (pot_setting ws p (length F) monomials) (kernel_of m G) k }
    ensures basis { (n p m : ℕ) (ws : List ℕ) (monomials : Exponents n → Exponents n → Ordering) (F G : List (FormalSum n))
        → IsDomain p → IsMonomialOrder monomials → ((i : ℕ) → i < length F → HasRank m (get_or F i []))
        → IsMonicList (pot_setting ws p (m + length F) monomials) G
        → ((i : ℕ) → i < length G → IsNormal (pot_setting ws p (m + length F) monomials) (get_or G i []))
        → IsGroebnerBasis (pot_setting ws p (m + length F) monomials) (marked m 0 F) G
        → IsGroebnerBasis (pot_setting ws p (length F) monomials) (kernel_of m G) (kernel_of m G) }
    ensures generate { (n p m : ℕ) (ws : List ℕ) (monomials : Exponents n → Exponents n → Ordering) (F G : List (FormalSum n))
        (a : FormalSum n)
        → IsDomain p → IsMonomialOrder monomials → ((i : ℕ) → i < length F → HasRank m (get_or F i []))
        → IsMonicList (pot_setting ws p (m + length F) monomials) G
        → ((i : ℕ) → i < length G → IsNormal (pot_setting ws p (m + length F) monomials) (get_or G i []))
        → IsGroebnerBasis (pot_setting ws p (m + length F) monomials) (marked m 0 F) G
        → IsSyzygy p F a → IsMember p (kernel_of m G) a }
{}

/// The normal form w of a vector v of the first m positions by such a basis. Where v is a member of the module of F, w
/// stands behind these positions; and where w does, minus it, lowered, is a list of cofactors of v, in normal form
/// without terms that leads of the syzygies divide: the lift of v (UAG chapter 5, section 3; IVA chapter 2, section 6).
pub fn lifts_by_marks()
    ensures member { (n p m : ℕ) (ws : List ℕ) (monomials : Exponents n → Exponents n → Ordering) (F G : List (FormalSum n))
        (v w : FormalSum n)
        → IsDomain p → IsMonomialOrder monomials
        → IsGroebnerBasis (pot_setting ws p (m + length F) monomials) (marked m 0 F) G
        → IsMember p (marked m 0 F) (v ++ scale (p - 1) (unit n) w)
        → IsNormal (pot_setting ws p (m + length F) monomials) w
        → HasFreeTerms (pot_setting ws p (m + length F) monomials) G w → IsMember p F v
        → (b : FormalSum n) × (w ≡ raised m b) }
    ensures cofactors { (n p m : ℕ) (F : List (FormalSum n)) (v b : FormalSum n)
        → IsDomain p → ((i : ℕ) → i < length F → HasRank m (get_or F i [])) → HasRank m v
        → IsMember p (marked m 0 F) (v ++ scale (p - 1) (unit n) (raised m b))
        → IsSame p (combination F (scale (p - 1) (unit n) b)) v
        × IsOfRank p (length F) (scale (p - 1) (unit n) b) }
    ensures normal { (n p m r s : ℕ) (ws : List ℕ) (monomials : Exponents n → Exponents n → Ordering) (b : FormalSum n)
        → IsNormal (pot_setting ws p r monomials) (raised m b) → IsNormal (pot_setting ws p s monomials) b }
    ensures free { (n p m : ℕ) (ws : List ℕ) (monomials : Exponents n → Exponents n → Ordering) (F G : List (FormalSum n))
        (b : FormalSum n)
        → IsDomain p → IsMonicList (pot_setting ws p (m + length F) monomials) G
        → HasFreeTerms (pot_setting ws p (m + length F) monomials) G (raised m b)
        → HasFreeTerms (pot_setting ws p (length F) monomials) (kernel_of m G) b }
{}
