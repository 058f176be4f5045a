//! What the echelon form of a job's rows says of its pairs.

ghost use Rattle.std.specs.Prelude.{ℕ, ◌≡◌, ◌<◌, ◌++◌, List, [], get_or, length};
ghost use Rattle.formal_sums.specs.FormalSums.{FormalSum, IsOfRank};
ghost use Rattle.formal_sums.specs.Combinations.{IsMember};
ghost use Rattle.bases.specs.Settings.{Setting, IsLawful};
ghost use Rattle.bases.specs.Leads.{IsMonicList, leads};
ghost use Rattle.bases.specs.Bases.{IsCovered};
ghost use Rattle.bases.specs.Representations.{HasLcmRepresentation};
ghost use Rattle.division_laws.specs.Standard.{IsReplacedBy};
ghost use Rattle.row_laws.specs.Jobs.{
  AreProductRows,
  HasPairRows,
  HasReducers,
  IsEchelonForm,
  IsNewRows,
};

/// Each pair of a job has an lcm representation over the members and the new rows; and over each later list in which
/// members and new rows have standard representations, as after further members were added and the new rows were
/// divided (Faugère 1999, section 2).
pub fn job_pairs()
    ensures pairs { (n : ℕ) (S : Setting n) (G M E N : List (FormalSum n)) (i j : ℕ)
        → IsLawful S → IsMonicList S G → IsMonicList S N → AreProductRows S.modulus G M
        → IsEchelonForm S M E → IsNewRows M E N → i < length G → j < length G
        → (leads G i).0 ≡ (leads G j).0 → HasPairRows S.modulus G M i j
        → HasLcmRepresentation S (G ++ N) i j }
    ensures added { (n : ℕ) (S : Setting n) (G A N : List (FormalSum n)) (i j : ℕ)
        → IsLawful S → i < length G → j < length G → HasLcmRepresentation S (G ++ N) i j
        → HasLcmRepresentation S (G ++ (A ++ N)) i j }
    ensures divided { (n : ℕ) (S : Setting n) (G N H : List (FormalSum n)) (i j : ℕ)
        → IsLawful S → i < length G → j < length G → get_or H i [] ≡ get_or G i []
        → get_or H j [] ≡ get_or G j [] → IsReplacedBy S G H → IsReplacedBy S N H
        → HasLcmRepresentation S (G ++ N) i j → HasLcmRepresentation S H i j }
{}

/// The new rows are members of the members' module, and a monic list where the members have the setting's rank.
pub fn new_members()
    ensures members { (n : ℕ) (S : Setting n) (G M E N : List (FormalSum n)) (i : ℕ)
        → IsLawful S → AreProductRows S.modulus G M → IsEchelonForm S M E → IsNewRows M E N
        → i < length N → IsMember S.modulus G (get_or N i []) }
    ensures monic { (n : ℕ) (S : Setting n) (G M E N : List (FormalSum n))
        → IsLawful S → ((i : ℕ) → i < length G → IsOfRank S.modulus S.rank (get_or G i []))
        → AreProductRows S.modulus G M → IsEchelonForm S M E → IsNewRows M E N → IsMonicList S N }
{}

/// Where the rows have their reducers, no member's lead divides the lead of a new row: each is news of the module of
/// leads (Faugère 1999, section 2).
pub fn new_leads()
    ensures { (n : ℕ) (S : Setting n) (G M E N : List (FormalSum n)) (i : ℕ)
        → IsLawful S → HasReducers S G M → IsEchelonForm S M E → IsNewRows M E N
        → i < length N → IsCovered S G (leads N i) → ⊥ }
{}
