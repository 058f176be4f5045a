//! Leads of sums.

ghost use Rattle.std.specs.Prelude.{ℕ, ◌≡◌, ◌++◌};
ghost use Rattle.std.specs.declared.cmp.Ordering.TheVariants.{Less};
ghost use Rattle.formal_sums.specs.FormalSums.{FormalSum, Key};
ghost use Rattle.bases.specs.Settings.{Setting, IsLawful};
ghost use Rattle.bases.specs.Leads.{IsLead};

/// The lead of a sum is not above the leads of both summands, and it is the greater of these where they differ (IVA
/// chapter 2, section 2).
pub fn leads_of_sums()
    ensures bounded { (n : ℕ) (S : Setting n) (v w : FormalSum n) (k l m : Key n)
        → IsLead S v k → IsLead S w l → IsLead S (v ++ w) m → S.compare k m ≡ Less → S.compare l m ≡ Less → ⊥ }
    ensures greater { (n : ℕ) (S : Setting n) (v w : FormalSum n) (k l : Key n)
        → IsLawful S → IsLead S v k → IsLead S w l → S.compare l k ≡ Less → IsLead S (v ++ w) k }
{}
