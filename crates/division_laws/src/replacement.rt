//! Members replaced by sums of others.

ghost use Rattle.std.specs.Prelude.{ℕ, ◌≡◌, ◌<◌, ◌++◌, List, [], get_or, length};
ghost use Rattle.formal_sums.specs.FormalSums.{FormalSum, Key};
ghost use Rattle.bases.specs.Settings.{Setting, IsLawful};
ghost use Rattle.bases.specs.Leads.{leads};
ghost use Rattle.bases.specs.Representations.{IsSumBelow, HasLcmRepresentation};
ghost use Rattle.division_laws.specs.Standard.{HasStandardRepresentation, IsReplacedBy};

/// What is a sum of products of G below a key is one of H below it, where each member of G has a standard
/// representation by H: so lcm representations outlast the division of a member by others. A member has one by its own
/// list, and keeps it as members are added.
pub fn replaced_members()
    ensures sums { (n : ℕ) (S : Setting n) (G H : List (FormalSum n)) (k : Key n) (v : FormalSum n)
        → IsLawful S → IsReplacedBy S G H → IsSumBelow S G k v → IsSumBelow S H k v }
    ensures pairs { (n : ℕ) (S : Setting n) (G H : List (FormalSum n)) (i j : ℕ)
        → IsLawful S → IsReplacedBy S G H → get_or H i [] ≡ get_or G i [] → get_or H j [] ≡ get_or G j []
        → HasLcmRepresentation S G i j → HasLcmRepresentation S H i j }
    ensures itself { (n : ℕ) (S : Setting n) (G : List (FormalSum n)) (i : ℕ)
        → i < length G → HasStandardRepresentation S G (leads G i) (get_or G i []) }
    ensures more { (n : ℕ) (S : Setting n) (G N : List (FormalSum n)) (k : Key n) (v : FormalSum n)
        → HasStandardRepresentation S G k v → HasStandardRepresentation S (G ++ N) k v }
{}
