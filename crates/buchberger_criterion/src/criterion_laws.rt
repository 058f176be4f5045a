//! Buchberger's criterion, and those that spare pairs.

ghost use Rattle.std.specs.Prelude.{ℕ, ◌≡◌, ◌<◌, ◌++◌, List, [], get_or, length};
ghost use Rattle.monomials.specs.Exponents.{times, lcm};
ghost use Rattle.formal_sums.specs.FormalSums.{FormalSum, IsPolynomial};
ghost use Rattle.formal_sums.specs.Combinations.{IsMember, IsSameModule};
ghost use Rattle.orders.specs.KeyOrders.{KeyDivides};
ghost use Rattle.bases.specs.Settings.{Setting, IsLawful};
ghost use Rattle.bases.specs.Leads.{leads, IsMonicList};
ghost use Rattle.bases.specs.Representations.{key_lcm, HasLcmRepresentation, HasLcmRepresentations};
ghost use Rattle.bases.specs.Bases.{IsGroebnerBasis};

/// Buchberger's criterion: where each pair of members has an lcm representation, the list is a Gröbner basis
/// of its module (IVA chapter 2, section 9).
pub fn buchberger_criterion()
    ensures { (n : ℕ) (S : Setting n) (G : List (FormalSum n))
        → IsLawful S → IsMonicList S G → HasLcmRepresentations S G → IsGroebnerBasis S G G }
{}

/// A Gröbner basis of its own module is one of each list that generates the same module.
pub fn generators()
    ensures { (n : ℕ) (S : Setting n) (F G : List (FormalSum n))
        → IsLawful S → ((i : ℕ) → i < length F → IsMember S.modulus G (get_or F i []))
        → ((i : ℕ) → i < length G → IsMember S.modulus F (get_or G i [])) → IsGroebnerBasis S G G
        → IsGroebnerBasis S F G }
{}

/// The product criterion: two polynomials whose leads are coprime have an lcm representation
/// (IVA chapter 2, section 9).
pub fn product_criterion()
    ensures { (n : ℕ) (S : Setting n) (G : List (FormalSum n)) (i j : ℕ)
        → IsLawful S → IsMonicList S G → i < length G → j < length G → IsPolynomial (get_or G i [])
        → IsPolynomial (get_or G j []) → (leads G i).0 ≡ 0 → (leads G j).0 ≡ 0
        → times (leads G i).1 (leads G j).1 ≡ lcm (leads G i).1 (leads G j).1
        → HasLcmRepresentation S G i j }
{}

/// The chain criterion: where the lead of k divides the lcm of the leads of i and j, the representations of
/// i and k and of k and j give one of i and j (IVA chapter 2, section 10).
pub fn chain_criterion()
    ensures { (n : ℕ) (S : Setting n) (G : List (FormalSum n)) (i j k : ℕ)
        → IsLawful S → (leads G i).0 ≡ (leads G j).0
        → KeyDivides (leads G k) (key_lcm (leads G i) (leads G j)) → HasLcmRepresentation S G i k
        → HasLcmRepresentation S G k j → HasLcmRepresentation S G i j }
{}

/// A representation stays one as members are added.
pub fn more_members()
    ensures { (n : ℕ) (S : Setting n) (G N : List (FormalSum n)) (i j : ℕ)
        → i < length G → j < length G → HasLcmRepresentation S G i j
        → HasLcmRepresentation S (G ++ N) i j }
{}

/// The pairs i < j are enough.
pub fn ordered_pairs()
    ensures { (n : ℕ) (S : Setting n) (G : List (FormalSum n))
        → IsLawful S
        → ((i j : ℕ) → i < j → j < length G → (leads G i).0 ≡ (leads G j).0 → HasLcmRepresentation S G i j)
        → HasLcmRepresentations S G }
{}

/// All of it, for a list G of members of a module whose generators F are in the module of G: where each pair i < j
/// with leads at one position has an lcm representation, G is a Gröbner basis of the module of F
/// (IVA chapter 2, section 9).
pub fn basis_by_pairs()
    ensures { (n : ℕ) (S : Setting n) (F G : List (FormalSum n))
        → IsLawful S → IsMonicList S G → IsSameModule S.modulus F G
        → ((i j : ℕ) → i < j → j < length G → (leads G i).0 ≡ (leads G j).0 → HasLcmRepresentation S G i j)
        → IsGroebnerBasis S F G }
{}
