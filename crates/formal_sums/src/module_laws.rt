//! Combinations, and the module that a list generates.

ghost use Rattle.std.specs.Prelude.{ℕ, ◌≡◌, ◌<◌, ◌↔◌, ◌++◌, List, [], get_or, length};
ghost use Rattle.monomials.specs.Exponents.{Exponents};
ghost use Rattle.formal_sums.specs.FormalSums.{FormalSum, HasRank, IsOfRank, IsSame, scale};
ghost use Rattle.formal_sums.specs.Combinations.{combination, IsMember, IsSameModule, IsSyzygy};

/// Combinations are linear in the cofactors, and depend on the coefficients of the cofactors and the members alone.
pub fn combinations()
    ensures sum { (n : ℕ) (F : List (FormalSum n)) (a b : FormalSum n)
        → combination F (a ++ b) ≡ combination F a ++ combination F b }
    ensures multiple { (n c : ℕ) (F : List (FormalSum n)) (m : Exponents n) (a : FormalSum n)
        → combination F (scale c m a) ≡ scale c m (combination F a) }
    ensures congruent { (n p : ℕ) (F : List (FormalSum n)) (a b : FormalSum n)
        → 0 < p → IsSame p a b → IsSame p (combination F a) (combination F b) }
    ensures members { (n p : ℕ) (F H : List (FormalSum n)) (a : FormalSum n)
        → 0 < p → ((i : ℕ) → IsSame p (get_or F i []) (get_or H i []))
        → IsSame p (combination F a) (combination H a) }
{}

/// The module of F has the members of F, is closed under sums and multiples, and is the least such.
pub fn modules()
    ensures generators { (n p i : ℕ) (F : List (FormalSum n))
        → i < length F → IsMember p F (get_or F i []) }
    ensures zero { (n p : ℕ) (F : List (FormalSum n)) → IsMember p F [] }
    ensures sums { (n p : ℕ) (F : List (FormalSum n)) (v w : FormalSum n)
        → IsMember p F v → IsMember p F w → IsMember p F (v ++ w) }
    ensures multiples { (n p c : ℕ) (F : List (FormalSum n)) (m : Exponents n) (v : FormalSum n)
        → 0 < p → IsMember p F v → IsMember p F (scale c m v) }
    ensures same { (n p : ℕ) (F : List (FormalSum n)) (v w : FormalSum n)
        → IsSame p v w → IsMember p F v → IsMember p F w }
    ensures least { (n p : ℕ) (F H : List (FormalSum n)) (v : FormalSum n)
        → 0 < p → ((i : ℕ) → i < length H → IsMember p F (get_or H i [])) → IsMember p H v
        → IsMember p F v }
    ensures combinations { (n p : ℕ) (F : List (FormalSum n)) (a v : FormalSum n)
        → IsSame p (combination F a) v → IsMember p F v }
{}

/// Two lists generate one module exactly where their modules have the same members.
pub fn same_modules()
    ensures { (n p : ℕ) (F H : List (FormalSum n))
        → 0 < p
        → IsSameModule p F H ↔ ((v : FormalSum n) → IsMember p F v ↔ IsMember p H v) }
{}

/// Lists that are the same vectors one by one generate one module; behind the end of a list stands zero.
pub fn same_members()
    ensures { (n p : ℕ) (F H : List (FormalSum n))
        → 0 < p → ((i : ℕ) → IsSame p (get_or F i []) (get_or H i [])) → IsSameModule p F H }
{}

/// To be of rank m is a matter of sameness; it is kept by sums and multiples, and by combinations of members.
pub fn ranks()
    ensures positions { (n p m : ℕ) (v : FormalSum n) → HasRank m v → IsOfRank p m v }
    ensures same { (n p m : ℕ) (v w : FormalSum n) → IsSame p v w → IsOfRank p m v → IsOfRank p m w }
    ensures sums { (n p m : ℕ) (v w : FormalSum n)
        → IsOfRank p m v → IsOfRank p m w → IsOfRank p m (v ++ w) }
    ensures multiples { (n p m c : ℕ) (e : Exponents n) (v : FormalSum n)
        → IsOfRank p m v → IsOfRank p m (scale c e v) }
    ensures members { (n p m : ℕ) (F : List (FormalSum n)) (v : FormalSum n)
        → ((i : ℕ) → i < length F → IsOfRank p m (get_or F i [])) → IsMember p F v → IsOfRank p m v }
{}

/// The syzygies of F are a module: a matter of sameness, with 0, sums, multiples, and what syzygies generate.
pub fn syzygies()
    ensures zero { (n p : ℕ) (F : List (FormalSum n)) → IsSyzygy p F [] }
    ensures sums { (n p : ℕ) (F : List (FormalSum n)) (a b : FormalSum n)
        → IsSyzygy p F a → IsSyzygy p F b → IsSyzygy p F (a ++ b) }
    ensures multiples { (n p c : ℕ) (F : List (FormalSum n)) (m : Exponents n) (a : FormalSum n)
        → 0 < p → IsSyzygy p F a → IsSyzygy p F (scale c m a) }
    ensures same { (n p : ℕ) (F : List (FormalSum n)) (a b : FormalSum n)
        → 0 < p → IsSame p a b → IsSyzygy p F a → IsSyzygy p F b }
    ensures generated { (n p : ℕ) (F H : List (FormalSum n)) (a : FormalSum n)
        → 0 < p → ((i : ℕ) → i < length H → IsSyzygy p F (get_or H i [])) → IsMember p H a
        → IsSyzygy p F a }
{}
