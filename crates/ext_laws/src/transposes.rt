//! Kernels and images of transposed maps.

ghost use Rattle.std.specs.Prelude.{ℕ, ◌≡◌, ◌<◌, List, [], get_or, length, take, ◌↔◌};
ghost use Rattle.formal_sums.specs.FormalSums.{FormalSum, HasRank, Each};
ghost use Rattle.formal_sums.specs.Combinations.{IsMember, IsSyzygy};
ghost use Rattle.bases.specs.Settings.{Setting};
ghost use Rattle.resolution_laws.specs.Resolutions.{IsCanonical, IsCanonicalStart};
ghost use Rattle.ext_laws.specs.Transposes.{HaveRanks, IsInTransposedKernel, image_at, rank_at, rows_of};

/// The kernel of a transposed map is the module of the syzygies of the map's rows.
pub fn transposed_kernels()
    ensures { (n p m : ℕ) (C : List (FormalSum n)) (v : FormalSum n)
        → 0 < p → Each (HasRank m) C → IsInTransposedKernel p m C v ↔ IsSyzygy p (rows_of m C) v }
{}

/// Consecutive transposed maps of a complex compose to zero: where each column of H is a syzygy of the columns of F, what the
/// rows of F generate is in the kernel of the transposed H (UAG chapter 6, section 1).
pub fn consecutive_transposes()
    ensures { (n p m : ℕ) (F H : List (FormalSum n)) (v : FormalSum n)
        → 0 < p → Each (HasRank m) F → Each (HasRank (length F)) H → Each (IsSyzygy p F) H
        → IsMember p (rows_of m F) v → IsInTransposedKernel p (length F) H v }
{}

/// So, along a canonical resolution, the image of each transposed map is in the kernel of the next one: the kernel modulo
/// the image is a quotient of the kernel.
pub fn images_in_kernels()
    ensures { (n k : ℕ) (S : Setting n) (A : List (FormalSum n)) (maps : List (List (FormalSum n))) (v : FormalSum n)
        → 0 < S.modulus → HaveRanks S.rank maps → IsCanonical S A maps → IsMember S.modulus (image_at S.rank maps k) v
        → IsInTransposedKernel S.modulus (rank_at S.rank maps k) (get_or maps k []) v }
{}

/// And so it is along the first maps of one.
pub fn images_along_starts()
    ensures { (n k count : ℕ) (S : Setting n) (A : List (FormalSum n)) (maps : List (List (FormalSum n))) (v : FormalSum n)
        → 0 < S.modulus → HaveRanks S.rank maps → IsCanonicalStart S A count maps → IsMember S.modulus (image_at S.rank maps k) v
        → IsInTransposedKernel S.modulus (rank_at S.rank maps k) (get_or maps k []) v }
{}

/// At a step below `count` the rank, the map out of the step and the image into it are those of the first `count` maps.
pub fn first_maps_reach()
    ensures rank { (n r k count : ℕ) (maps : List (List (FormalSum n))) → k < count → rank_at r (take count maps) k ≡ rank_at r maps k }
    ensures columns { (n k count : ℕ) (maps : List (List (FormalSum n))) → k < count → get_or (take count maps) k [] ≡ get_or maps k [] }
    ensures image { (n r k count : ℕ) (maps : List (List (FormalSum n))) → k < count → image_at r (take count maps) k ≡ image_at r maps k }
{}
