// Betti numbers of any graded resolution, by its constants.
ghost use Rattle.std.specs.Prelude.{ℕ, List, IfOk};
ghost use Rattle.betti_laws.specs.Tables.{step_count};
ghost use Rattle.formal_sums.specs.FormalSums.{Each, FormalSum};
ghost use Rattle.minimal_laws.specs.Gradings.{GradedMaps};
ghost use Rattle.minimal_laws.specs.Minimal.{IsMinimal, Presents};
ghost use Rattle.term_lists.specs.Rings.{variables};
ghost use Rattle.term_lists.specs.Vectors.{AreTermsOver, sums_of};
ghost use Rattle.resolution_maps.specs.Resolved.{degrees_of};
ghost use Rattle.column_passes.specs.Passing.{AreGradedColumns};
ghost use Rattle.column_passes.specs.Placing.{ArePlacesAfter};
ghost use Rattle.constant_passes.specs.Choosing.{columns_without_rows};
ghost use Rattle.minimal_betti.specs.CountedMaps.{IsMapCounted};
ghost use Rattle.minimal_betti.specs.Graded.{IsGradedResolution, graded_of};
ghost use Rattle.minimal_betti.specs.Tables.{IsBettiTable};

use crate::tables::{BettiEntry, push_step, step_above};
use column_passes::{kept_items, none_leaving};
use constant_passes::{Chosen, chosen};
use module_vectors::{NoMemory, Ring, lawful_setting};
use resolution_maps::{Map, Resolution, column_degrees};
use std::alloc::Global;
use std::mem::replace;

// Counts the rows of a map that stay when its constants leave, and gives the degrees of its columns that stay. Its rows are the
// columns that stayed of the map before it; these have the degrees `former`, and `last` tells which left.
fn count_map(
    alloc: Global,
    ring: &Ring,
    map: &Map,
    step: u32,
    former: Vec<u32>,
    last: &mut Chosen,
    entries: &mut Vec<BettiEntry>,
) -> Result<Vec<u32>, NoMemory>
    requires terms { Each (AreTermsOver ring.now) map.now.columns }
    requires leaving { (rows : List ℕ) × ArePlacesAfter rows last.old.indices }
    requires graded { (rows : List ℕ) → ArePlacesAfter rows last.old.indices
        → AreGradedColumns ring.now (degrees_of ring.now map.now.row_degrees.items map.now.columns)
        (columns_without_rows rows (sums_of (variables ring.now) map.now.columns)) }
    ensures { (rows : List ℕ) → ArePlacesAfter rows last.old.indices
        → IfOk result (λ left. IsMapCounted ring.now rows map.now step former.items last.new entries.old.items entries.new.items left.items) }
{
    let degrees = column_degrees(alloc, ring, &map.row_degrees, &map.columns)?;
    let next = chosen(alloc, ring, &degrees, &last.indices, map.columns.as_slice())?;
    let kept = kept_items(alloc, &next.rows, former)?;
    push_step(step, &kept, entries)?;
    let left = kept_items(alloc, &next.indices, degrees)?;
    drop(replace(last, next));
    Ok(left)
}

/// The Betti numbers of the module that a graded resolution presents, as a table: the counts of each minimal resolution of it.
/// Nothing is looked at but the constants of the maps: they leave map by map as in `minimal`, which is elimination with residues, and
/// what is left is counted (Eisenbud, The Geometry of Syzygies, proposition 1.7).
///
/// `NoMemory` where there is none, and where the degree of a column, the place of a row or the number of maps is 2^32 or more.
pub fn betti_table(
    alloc: Global,
    ring: &Ring,
    resolution: &Resolution,
) -> Result<Vec<BettiEntry>, NoMemory>
    requires { IsGradedResolution ring.now resolution.now }
    ensures { let ws = ring.now.weights in let p = ring.now.modulus.value in
        (places : List ℕ) (A : List (FormalSum (variables ring.now))) (D : GradedMaps (variables ring.now))
        → Presents ws p (graded_of ring.now resolution.now) places A → IsMinimal ws p D → Presents ws p D places A
        → IfOk result (λ entries. IsBettiTable (step_count D.positions D.maps) entries.items) }
{
    lawful_setting(ring);
    let mut entries = Vec::new(alloc);
    let mut former = Vec::from_slice(alloc, &resolution.positions)?;
    let mut last = Chosen {
        rows: none_leaving(alloc),
        indices: none_leaving(alloc),
    };
    let mut step: u32 = 0;
    for k in 0..resolution.maps.len() {
        let map = &resolution.maps[k];
        former = count_map(alloc, ring, map, step, former, &mut last, &mut entries)?;
        step = step_above(k)?;
    }
    push_step(step, &former, &mut entries)?;
    Ok(entries)
}
