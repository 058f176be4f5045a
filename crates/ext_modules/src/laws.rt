//! Ext and canonical resolutions. Each function's contract is a law, proved here.

ghost use Rattle.std.specs.Prelude.{◌≡◌, ◌<◌, ◌↔◌, ℕ, List, [], length, replicate, take};
ghost use Rattle.formal_sums.specs.FormalSums.{FormalSum};
ghost use Rattle.formal_sums.specs.Combinations.{IsMember};
ghost use Rattle.resolution_laws.specs.Resolutions.{IsCanonical, IsCanonicalStart};
ghost use Rattle.ext_laws.specs.Transposes.{IsInTransposedKernel, rank_at};
ghost use Rattle.term_lists.specs.Rings.{ring_comparison, setting, variables};
ghost use Rattle.resolution_maps.specs.Inducing.{Columns, maps_of};
ghost use Rattle.resolution_maps.specs.Resolved.{AreJoined, AreVectorsThrough, columns_of};
ghost use Rattle.resolution_maps.specs.declared.maps.Resolution.{Resolution as ResolutionValue};
ghost use Rattle.ext_modules.specs.Ext.{AreLinked, IsExt, columns_at, image_of};
ghost use Rattle.ext_modules.specs.declared.presentation.Ext.{Ext as ExtValue};

use module_vectors::{Ring, lawful_setting};

/// The maps of a resolution, as `resolve` answers it, are linked as `ext` wants them.
pub fn resolutions_linked(_ring: &Ring)
    ensures { (rank : ℕ) (r : ResolutionValue)
        → r.positions.items ≡ replicate rank 0 → AreVectorsThrough _ring.now [] (columns_of r) → AreJoined _ring.now r.positions.items r.maps.items
        → AreLinked _ring.now rank (columns_of r) }
{}

/// Along a canonical resolution the image at each step is in the kernel there: Ext is the kernel modulo the image.
pub fn images_inside(ring: &Ring)
    ensures { let n = variables ring.now in let p = ring.now.modulus.value in
        (rank k : ℕ) (A : List (FormalSum (variables ring.now))) (maps : Columns) (v : FormalSum (variables ring.now))
        → AreLinked ring.now rank maps → IsCanonical (setting ring.now n (ring_comparison ring.now n) rank) A (maps_of n maps)
        → IsMember p (image_of ring.now rank maps k) v → IsInTransposedKernel p (rank_at rank maps k) (columns_at ring.now maps k) v }
{
    lawful_setting(ring);
}

/// And so it is along the first maps of one.
pub fn images_inside_starts(ring: &Ring)
    ensures { let n = variables ring.now in let p = ring.now.modulus.value in
        (rank k count : ℕ) (A : List (FormalSum (variables ring.now))) (maps : Columns) (v : FormalSum (variables ring.now))
        → AreLinked ring.now rank maps → IsCanonicalStart (setting ring.now n (ring_comparison ring.now n) rank) A count (maps_of n maps)
        → IsMember p (image_of ring.now rank maps k) v → IsInTransposedKernel p (rank_at rank maps k) (columns_at ring.now maps k) v }
{
    lawful_setting(ring);
}

/// At a step below `count` Ext is that of the first `count` maps.
pub fn first_maps_enough(_ring: &Ring)
    ensures { (rank k count : ℕ) (maps : Columns) (answer : ExtValue)
        → k < count → IsExt _ring.now rank (take count maps) k answer ↔ IsExt _ring.now rank maps k answer }
{}
